//! The program's files as the working directory has them, and how a fault of one is written.
#![tactic(auto)]

pub mod text_file;

pub use text_file::{print_fault, read_file, read_file_if_there};
