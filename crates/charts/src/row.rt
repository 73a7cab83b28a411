//! A row of a chart.

/// From a starting charge of this need on, the goal is this many seconds away, by the walk of this label.
#[derive(Clone, Copy, PartialEq, Eq, Debug)]
pub struct Row {
    /// The least starting charge that the row covers.
    pub need: u32,
    /// The time of its walk.
    pub seconds: u32,
    /// The number of its label.
    pub label: u32,
}
