//! Files of the working directory: their bytes, or the fault of one that is unreadable or too long.
ghost use Rattle.std.specs.Prelude.{◌≡◌, vec_len};
ghost use Rattle.inputs.specs.TextFiles.{unreadable as unreadable_fault, ReadWhole, ReadWholeIfThere};

use files::fault::{FileFault, FileName};
use refusals::refusal::Refusal;
use std::fs::File;
use std::io;
use std::io::{ErrorKind, Read};

/// The most bytes that a file may have.
const MOST: u64 = 32_768;

// A file's bytes, at most one more than it may have.
fn read_bytes(rt: &HostRuntime, name: &str) -> io::Result<Vec<u8>> {
    let mut bytes = Vec::new(rt.alloc());
    let _ = File::open(rt, name)?
        .take(MOST + 1)
        .read_to_end(&mut bytes)?;
    Ok(bytes)
}

fn unreadable(file: FileName) -> FileFault
    ensures { result ≡ unreadable_fault file }
{
    FileFault {
        file,
        line: 0,
        field: 0,
        refusal: Refusal::FileUnreadable,
    }
}

/// A file's bytes, none where there is no such file, or the fault of one that is unreadable or too long.
pub fn read_file_if_there(rt: &HostRuntime, file: FileName) -> Result<Option<Vec<u8>>, FileFault>
    ensures bytes_within_the_most_or_unreadable { ReadWholeIfThere vec_len file result }
{
    match read_bytes(rt, file.name()) {
        Ok(bytes) if bytes.len() as u64 <= MOST => Ok(Some(bytes)),
        Err(error) if error.kind() == ErrorKind::NotFound => Ok(None),
        _ => Err(unreadable(file)),
    }
}

/// A file's bytes, or the fault of a file that is not there, is unreadable or is too long.
pub fn read_file(rt: &HostRuntime, file: FileName) -> Result<Vec<u8>, FileFault>
    ensures bytes_within_the_most_or_unreadable { ReadWhole vec_len file result }
{
    read_file_if_there(rt, file)?.ok_or_else(|| unreadable(file))
}

/// Writes a fault: a line of names, and then the file, the line, the field and the code.
pub fn print_fault(rt: &HostRuntime, fault: FileFault) -> io::Result<()> {
    println!(rt; "file line field code")?;
    println!(rt; "{fault}")
}
