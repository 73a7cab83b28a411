//! Walks, arrivals and the front of a query, and why a search that always lists its least candidate finds the front.
#![tactic(auto)]

ghost use Rattle.front.specs.Theorems.{Theorems};

pub mod arrival;
pub mod label;
pub mod leg;

/// The theorems that every search with loads of type `L` rests on; it computes nothing.
pub fn front_theorems<L>()
    ensures { Theorems L }
{}
