//! The names line and the value lines, read alike for every kind of file.
ghost use Rattle.std.specs.Prelude.{◌≡◌, ℕ, Bool, List, Option};
ghost use Rattle.files.specs.Lines.{pieces};
ghost use Rattle.files.specs.Faults.{Checked};
ghost use Rattle.files.specs.Names.{all_among, names_line};
ghost use Rattle.files.specs.Values.{value_line};

use crate::fault::{LineFault, ValueFault};
use crate::fields::{FieldReader, is_parted};
use refusals::refusal::Refusal;

/// The columns of one kind of file.
pub trait Column: Copy + Eq {
    /// What a value line holds.
    type Row: Copy;

    // which columns are one and the same
    ghost same: { Self → Self → Bool };

    // the column that a name stands for
    ghost named: { List ℕ → Option Self };

    // the row with what the field of one column holds
    ghost filled: { ℕ → Self.Row → Self → List ℕ → Checked (Self.Row) };

    /// The column that a name stands for.
    fn from_name(name: &[u8]) -> Option<Self>
        ensures { result ≡ named name.now };

    /// The row with what the field of this column holds; junctions are below `room`.
    fn fill(self, row: Self::Row, room: u32, field: &[u8]) -> Result<Self::Row, Refusal>
        ensures { result ≡ filled room row self field.now };

    // `==` holds of these columns and no others
    ghost equal_when_the_same: { (c d : Self) → Self.eq c d ≡ same c d };
}

/// Columns whose rows are read from a blank one on.
pub trait BlankRow: Column {
    // the row before its fields are read
    ghost blank: { Self.Row };

    /// The row before its fields are read.
    fn blank() -> Self::Row
        ensures { result ≡ blank };
}

// Whether each of `all` stands among the columns.
fn are_all_among<C: Column>(all: &[C], columns: &[C]) -> bool
    ensures { result ≡ all_among C.eq all.now columns.now }
{
    all.iter().all(|column| columns.contains(column))
}

/// The columns in the order of the names line, which has the name of each of `all` once.
pub fn read_names<C: Column, const N: usize>(all: [C; N], line: &[u8]) -> Result<[C; N], LineFault>
    ensures { result ≡ names_line C.Column.same C.Column.named all (pieces 32 line.now) }
{
    let wrong = LineFault::WholeLine(Refusal::WrongNames);
    if !is_parted(line, N) {
        return Err(wrong);
    }
    let mut columns = all;
    // by place: after a zip with `columns.iter_mut()`, as tried, no proof knows what was written
    for (place, name) in FieldReader::new(line).enumerate() {
        columns[place] = C::from_name(name).ok_or(wrong)?;
    }
    if !are_all_among(&all, &columns) {
        return Err(wrong);
    }
    Ok(columns)
}

/// A value line, field by field in the order of the columns, from a blank row on.
pub fn read_row<C: Column>(
    columns: &[C],
    room: u32,
    blank: C::Row,
    line: &[u8],
) -> Result<C::Row, LineFault>
    ensures { result ≡ value_line (C.Column.filled room) columns.now blank (pieces 32 line.now) }
{
    if !is_parted(line, columns.len()) {
        return Err(LineFault::WholeLine(Refusal::FieldCountDiffers));
    }
    let mut row = blank;
    for (before, (column, field)) in columns.iter().zip(FieldReader::new(line)).enumerate() {
        row = column.fill(row, room, field).map_err(|refusal| ValueFault {
            field: before + 1,
            refusal,
        })?;
    }
    Ok(row)
}
