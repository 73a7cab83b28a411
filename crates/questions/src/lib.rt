//! What an office asks: one type for the files that hold questions and for the planner that answers them.
#![tactic(auto)]

pub mod question;

pub use question::Question;
