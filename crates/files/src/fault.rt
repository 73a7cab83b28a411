//! What is wrong with a file: a value's fault inside a line's fault inside a file's fault.
ghost use Rattle.std.specs.Prelude.{◌≡◌, Some};
ghost use Rattle.files.specs.declared.fault.LineFault.TheVariants.{InField};
ghost use Rattle.files.specs.declared.fault.ReadFault.TheVariants.{NoMemory, InFile};
ghost use Rattle.files.specs.Faults.{placed};
ghost use Rattle.files.specs.FaultText.{file_name, fault_text};

use refusals::refusal::Refusal;
use std::alloc::{AllocError, AllocFailed};
use std::fmt;
use thiserror::Error;

/// Which of the program's files.
#[derive(Clone, Copy, PartialEq, Eq, Debug)]
pub enum FileName {
    Roads,
    Queries,
}

impl FileName {
    /// What the file is called in the working directory.
    pub fn name(self) -> &'static str
        ensures { result.now ≡ file_name self }
    {
        match self {
            FileName::Roads => "roads.txt",
            FileName::Queries => "queries.txt",
        }
    }
}

/// What is wrong with a value, and the field, from 1, that it stands in.
#[derive(Clone, Copy, PartialEq, Eq, Debug)]
pub struct ValueFault {
    pub field: usize,
    pub refusal: Refusal,
}

/// What is wrong with a line: with the whole of it, or with the value in one field.
#[derive(Clone, Copy, PartialEq, Eq, Debug)]
pub enum LineFault {
    WholeLine(Refusal),
    InField(ValueFault),
}

// Written out, as are those into `ReadFault`: a conversion that is derived promises nothing of what it makes.
impl From<ValueFault> for LineFault {
    ghost from_gives = { λ v l. l ≡ InField v };

    fn from(fault: ValueFault) -> LineFault {
        LineFault::InField(fault)
    }
}

/// A line's fault, with the file and the line, from 1, that it is in.
#[derive(Clone, Copy)]
pub struct PlacedFault {
    pub file: FileName,
    pub line: usize,
    pub fault: LineFault,
}

/// What is wrong with a file: the line from 1, the field from 1, or 0 for a whole line.
// Numbers as they are written: field 0 for a whole line, and line 0 too for a whole file.
#[derive(Clone, Copy, PartialEq, Eq, Debug)]
pub struct FileFault {
    pub file: FileName,
    pub line: usize,
    pub field: usize,
    pub refusal: Refusal,
}

/// The file, the line, the field and the refusal's number.
impl fmt::Display for FileFault {
    ghost output = { λ f. Some (fault_text f) };

    fn fmt<W: fmt::Write>(&self, f: &mut fmt::Formatter<W>) -> fmt::Result {
        let file = self.file.name();
        let line = self.line;
        let field = self.field;
        let code = self.refusal.number();
        write!(f, "{file} {line} {field} {code}")
    }
}

// Written out: it puts the parts of a line's fault beside its file and line.
impl From<PlacedFault> for FileFault {
    ghost from_gives = { λ p f. f ≡ placed p.file p.line p.fault };

    fn from(at: PlacedFault) -> FileFault {
        let PlacedFault { file, line, fault } = at;
        match fault {
            LineFault::WholeLine(refusal) => FileFault {
                file,
                line,
                field: 0,
                refusal,
            },
            LineFault::InField(ValueFault { field, refusal }) => FileFault {
                file,
                line,
                field,
                refusal,
            },
        }
    }
}

/// Why nothing was made of a file.
#[derive(Clone, Copy, PartialEq, Eq, Debug, Error)]
pub enum ReadFault {
    #[error("out of memory")]
    NoMemory,
    #[error("{0}")]
    InFile(FileFault),
}

impl From<FileFault> for ReadFault {
    ghost from_gives = { λ f r. r ≡ InFile f };

    fn from(fault: FileFault) -> ReadFault {
        ReadFault::InFile(fault)
    }
}

impl From<AllocError> for ReadFault {
    ghost from_gives = { λ _ r. r ≡ NoMemory };

    fn from(_fault: AllocError) -> ReadFault {
        ReadFault::NoMemory
    }
}

impl<T: Drop> From<AllocFailed<T>> for ReadFault {
    ghost from_gives = { λ _ r. r ≡ NoMemory };

    fn from(_fault: AllocFailed<T>) -> ReadFault {
        ReadFault::NoMemory
    }
}
