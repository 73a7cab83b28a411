//! A candidate: a label that waits to be listed.
use front::label::Label;

/// A label that waits, with its load's rank.
#[derive(Clone, Copy, Default, PartialEq, Eq, Debug)]
pub struct Candidate<L> {
    pub label: Label<L>,
    pub rank: u64,
}
