//! The rows of a file, read alike for every kind of file.
ghost use Rattle.std.specs.Prelude.{◌≡◌, MatchResult, IfOk, Ok, Err};
ghost use Rattle.files.specs.Lines.{pieces};
ghost use Rattle.files.specs.LinesLeft.{lines_left, row_read, after_line, count_after};
ghost use Rattle.files.specs.Names.{names_line};
ghost use Rattle.files.specs.Values.{value_line};
ghost use Rattle.files.specs.Files.{names_read};

use crate::columns::{BlankRow, Column, read_names, read_row};
use crate::fault::{FileFault, LineFault};
use crate::lines::LineReader;
use refusals::refusal::Refusal;

/// The columns of a file in the order of its names line, which is the first.
pub(crate) fn read_columns<C: Column, const N: usize>(
    lines: &mut LineReader,
    all: [C; N],
) -> Result<[C; N], FileFault>
    requires { lines.old.taken ≡ 0 }
    ensures names_or_fault { MatchResult result
        (λ columns. names_read lines.old.file (λ p. names_line C.Column.same C.Column.named all (pieces 32 p)) (lines_left lines.old) ≡ Ok (columns, lines_left lines.new))
        (λ fault. names_read lines.old.file (λ p. names_line C.Column.same C.Column.named all (pieces 32 p)) (lines_left lines.old) ≡ Err fault) }
    ensures one_line_taken { IfOk result (λ _. lines.new.taken ≡ 1) }
    ensures file_kept { lines.new.file ≡ lines.old.file }
{
    let Some(line) = lines.next_line()? else {
        return Err(lines.fault_at(1, LineFault::WholeLine(Refusal::WrongNames)));
    };
    lines.placed(read_names(all, line))
}

/// The row of the next value line, or None at the end of the file.
pub(crate) fn next_row<C: BlankRow>(
    lines: &mut LineReader,
    columns: &[C],
    room: u32,
) -> Result<Option<C::Row>, FileFault>
    ensures row_or_fault { result ≡ row_read lines.old.file lines.old.taken (λ p. value_line (C.Column.filled room) columns.now C.BlankRow.blank (pieces 32 p)) (lines_left lines.old) }
    ensures later_lines_left { lines_left lines.new ≡ after_line (lines_left lines.old) }
    ensures line_counted { lines.new.taken ≡ count_after lines.old.taken (lines_left lines.old) }
    ensures file_kept { lines.new.file ≡ lines.old.file }
{
    let Some(line) = lines.next_line()? else {
        return Ok(None);
    };
    let row = lines.placed(read_row(columns, room, C::blank(), line))?;
    Ok(Some(row))
}
