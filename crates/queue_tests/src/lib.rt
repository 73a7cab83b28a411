//! Tests of the waiting queue, in a crate of their own since each test is proved too.
#![tactic(auto)]

#[cfg(test)]
mod tests;
