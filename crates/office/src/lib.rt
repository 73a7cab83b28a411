//! What an office gets: the answers to a query file on the map of a road file, or the first fault of a file.
#![tactic(auto)]

pub mod answer_line;
pub mod answers;
