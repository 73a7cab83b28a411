//! A reader that holds a lent file and its place in it.
ghost use Rattle.std.specs.Prelude.{◌≡◌, ◌≤◌, length, ◌+◌, ◌==◌, position};
ghost use Rattle.refusals.specs.declared.refusal.Refusal.TheVariants.{LineNotEnded};
ghost use Rattle.files.specs.declared.fault.LineFault.TheVariants.{WholeLine};
ghost use Rattle.files.specs.Faults.{placed, at_line};
ghost use Rattle.files.specs.Lines.{pieces};

use crate::fault::{FileFault, FileName, LineFault, PlacedFault};
use refusals::refusal::Refusal;

/// The lines of a file, one after another.
// The file and a place in it, not what is left: the place bounds the count of lines taken, which so cannot overflow.
#[derive(Drop)]
pub struct LineReader<'a> {
    file: FileName,
    text: &'a [u8],
    at: usize,
    taken: usize,
    ghost within: { at ≤ length text.now },
    ghost counted: { taken ≤ at },
}

// Where the first byte `b` stands, if there is one.
pub(crate) fn first_place(text: &[u8], b: u8) -> Option<usize>
    ensures { result ≡ position (λ x. x == b) text.now }
{
    text.iter().position(|byte| *byte == b)
}

impl<'a> LineReader<'a> {
    ghost use Rattle.files.specs.LinesLeft.{lines_left, told, next_line, after_line, count_after};

    /// A reader at the start of a file.
    pub fn new(file: FileName, text: &'a [u8]) -> Self
        ensures whole_file_left { lines_left result ≡ pieces 10 text.now }
        ensures no_line_taken { result.taken ≡ 0 }
        ensures file_kept { result.file ≡ file }
    {
        LineReader {
            file,
            text,
            at: 0,
            taken: 0,
        }
    }

    /// A fault of the line that was taken last, with its place.
    pub fn fault(&self, fault: LineFault) -> FileFault
        ensures { result ≡ placed self.now.file self.now.taken fault }
    {
        self.fault_at(self.taken, fault)
    }

    // What was made of the line that was taken last, its fault with its place.
    pub(crate) fn placed<T>(&self, made: Result<T, LineFault>) -> Result<T, FileFault>
        ensures { result ≡ at_line self.now.file self.now.taken made }
    {
        let place = |fault: LineFault| -> FileFault
            ensures { result ≡ placed self.entry.now.file self.entry.now.taken fault }
        { self.fault(fault) };
        made.map_err(place)
    }

    // The fault of a last line that no byte 10 ends.
    fn not_ended(&self) -> FileFault
        ensures { result ≡ placed self.now.file (self.now.taken + 1) (WholeLine LineNotEnded) }
    {
        self.fault_at(self.taken + 1, LineFault::WholeLine(Refusal::LineNotEnded))
    }

    // A fault of the line of this number, with its place.
    pub(crate) fn fault_at(&self, line: usize, fault: LineFault) -> FileFault
        ensures { result ≡ placed self.now.file line fault }
    {
        FileFault::from(PlacedFault {
            file: self.file,
            line,
            fault,
        })
    }

    /// The next line without its byte 10, or None at the end of the file. Refuses a line that is not ended.
    pub fn next_line(&mut self) -> Result<Option<&'a [u8]>, FileFault>
        ensures line_or_fault { told result ≡ next_line self.old.file self.old.taken (lines_left self.old) }
        ensures later_lines_left { lines_left self.new ≡ after_line (lines_left self.old) }
        ensures line_counted { self.new.taken ≡ count_after self.old.taken (lines_left self.old) }
        ensures file_kept { self.new.file ≡ self.old.file }
    {
        let left = &self.text[self.at..];
        if left.is_empty() {
            return Ok(None);
        }
        let Some(end) = first_place(left, b'\n') else {
            return Err(self.not_ended());
        };
        self.at += end + 1;
        self.taken += 1;
        Ok(Some(&left[..end]))
    }
}
