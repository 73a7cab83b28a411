//! The numbers in a field.
ghost use Rattle.std.specs.Prelude.{◌≡◌, ◌<◌, IfOk};
ghost use Rattle.files.specs.Values.{value, value_shaped, signed_value};

use refusals::refusal::Refusal;

// One to six bytes, the first no zero that others follow.
fn is_value_shaped(field: &[u8]) -> bool
    ensures { result ≡ value_shaped field.now }
{
    match field {
        [] | [b'0', _, ..] => false,
        _ => field.len() <= 6,
    }
}

/// One to six digits without a leading zero, except 0 itself.
pub fn read_value(field: &[u8]) -> Result<u32, Refusal>
    ensures value_or_refusal { result ≡ value field.now }
    ensures below_a_million { IfOk result (λ v. v < 1000000) }
{
    if !is_value_shaped(field) {
        return Err(Refusal::NotAValue);
    }
    // by hand: std's `parse` takes text, and a plus sign too
    let mut value = 0u32;
    for digit in field {
        if !digit.is_ascii_digit() {
            return Err(Refusal::NotAValue);
        }
        value = value * 10 + u32::from(*digit - b'0');
    }
    Ok(value)
}

/// A value, or a minus and a value that is not 0.
pub fn read_signed_value(field: &[u8]) -> Result<i32, Refusal>
    ensures { result ≡ signed_value field.now }
{
    let [b'-', digits @ ..] = field else {
        let value = read_value(field)?;
        return Ok(value as i32);
    };
    match read_value(digits)? {
        0 => Err(Refusal::NotAValue),
        value => Ok(-(value as i32)),
    }
}
