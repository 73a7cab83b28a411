//! The search: it lists the arrivals of the front in order, and tells walks and charts from them.
#![tactic(auto)]

pub mod search;

pub use search::Search;
