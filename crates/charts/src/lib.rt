//! What a search with profiles tells of every starting charge: a profile stands for all charges together, and a
//! chart's rows are the least times of the charges that they cover.
#![tactic(auto)]

ghost use Rattle.charts.specs.Theorems.{Theorems};

pub mod row;

/// The theorems that a chart rests on; it computes nothing.
pub fn chart_theorems()
    ensures { Theorems }
{}
