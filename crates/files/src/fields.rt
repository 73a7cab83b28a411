//! A reader that holds what is left of a lent line.
ghost use Rattle.std.specs.Prelude.{◌≡◌, [], ◌∷◌};
ghost use Rattle.std.specs.Option.{option_map_or};
ghost use Rattle.std.specs.Iterator.{YieldsFirstRef, item_count};
ghost use Rattle.files.specs.Lines.{pieces};
ghost use Rattle.files.specs.Fields.{parted};
ghost use Rattle.files.specs.FieldsLeft.{fields_left};

use crate::lines::first_place;

/// The fields of a line, one after another.
#[derive(Drop)]
pub struct FieldReader<'a> {
    // None once the last field is taken
    rest: Option<&'a [u8]>,
}

// What stands before the first space, and what stands after it if there is one.
fn cut_field(line: &[u8]) -> (&[u8], Option<&[u8]>)
    ensures { pieces 32 line.now ≡ result.0.now ∷ option_map_or (λ rest. pieces 32 rest.now) result.1 [] }
{
    match first_place(line, b' ') {
        Some(end) => (&line[..end], Some(&line[end + 1..])),
        None => (line, None),
    }
}

impl<'a> FieldReader<'a> {
    /// A reader at the start of a line.
    pub fn new(line: &'a [u8]) -> Self
        ensures { fields_left result ≡ pieces 32 line.now }
    {
        FieldReader { rest: Some(line) }
    }
}

impl<'a> Iterator for FieldReader<'a> {
    type Item = &'a [u8];

    ghost next_gives = { YieldsFirstRef fields_left };

    ghost remaining = { item_count fields_left };

    /// The next field, or None once the last one is taken.
    fn next(&mut self) -> Option<&'a [u8]> {
        let (field, rest) = cut_field(self.rest?);
        self.rest = rest;
        Some(field)
    }
}

/// Whether a line has `count` fields and none is empty. Reads no further than a field that is empty or one too many.
pub fn is_parted(line: &[u8], count: usize) -> bool
    ensures { result ≡ parted count (pieces 32 line.now) }
{
    let mut fields = FieldReader::new(line);
    // no `count` and `all`: each reads a line to its end, however soon it shows that the line is not so
    for _ in 0..count {
        if fields.next().is_none_or(|field| field.is_empty()) {
            return false;
        }
    }
    fields.next().is_none()
}
