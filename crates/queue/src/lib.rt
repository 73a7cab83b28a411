//! One waiting queue for any entry: a heap over a slice that the caller lends.
#![tactic(auto)]

pub mod entry;
pub mod full;
pub mod heap;
mod sifts;

pub use entry::Entry;
pub use full::Full;
pub use heap::Heap;
