//! One question answered: is there a drive to the goal, and which is the fastest.
#![tactic(auto)]

pub mod answer;
