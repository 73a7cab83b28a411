//! Reads a road file of exactly 32,768 bytes, which is accepted, and a query file of one byte more.
#![tactic(auto)]

use files::fault::FileName;
use inputs::text_file::{print_fault, read_file};
use std::io;

fn print_size(rt: &HostRuntime, file: FileName) -> io::Result<()> {
    match read_file(rt, file) {
        Ok(bytes) => println!(rt; "{} bytes", bytes.len()),
        Err(fault) => print_fault(rt, fault),
    }
}

fn main(rt: HostRuntime) -> io::Result<()> {
    print_size(&rt, FileName::Roads)?;
    print_size(&rt, FileName::Queries)
}
