//! The closed list of refusals: why a call may say no, each with its one number and its one sentence.
#![tactic(auto)]

pub mod refusal;

pub use refusal::Refusal;
