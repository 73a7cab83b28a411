//! Walks driven road by road: where a van is, what it carries, and where it can go no further.
#![tactic(auto)]

pub mod step;
pub mod trial;
