//! What a test expects of a file, and whether reading the file told so.
use files::fault::{FileFault, FileName, ReadFault};
use std::process::Abort;

/// The line, the field and the number of a fault.
pub type Place = (usize, usize, u8);

// The fault of this file that reading it told, or None where it has none.
fn told<T: Drop>(file: FileName, read: Result<T, ReadFault>) -> Result<Option<Place>, ReadFault> {
    match read {
        Ok(_) => Ok(None),
        Err(ReadFault::InFile(fault)) if fault.file == file => {
            let FileFault {
                line,
                field,
                refusal,
                ..
            } = fault;
            Ok(Some((line, field, refusal.number())))
        }
        Err(fault) => Err(fault),
    }
}

/// Asserts that reading this file told the fault that is expected, or none.
pub fn expect_fault<T: Drop>(
    rt: &impl Abort,
    file: FileName,
    read: Result<T, ReadFault>,
    expected: Option<Place>,
) {
    assert_eq!(rt; told(file, read), Ok(expected));
}
