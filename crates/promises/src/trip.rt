//! What a search is asked for.

/// A trip: from a start with a load to a goal, by a deadline.
#[derive(Clone, Copy)]
pub struct Trip<L> {
    /// The junction where the van starts.
    pub start: u32,
    /// What it carries at the start.
    pub load: L,
    /// The junction that it is to reach.
    pub goal: u32,
    /// The most seconds that it may take.
    pub deadline: u32,
}
