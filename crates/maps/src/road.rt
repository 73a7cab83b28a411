//! A road: where it leads, how long it takes, what it draws.

/// A road from one junction to another.
#[derive(Clone, Copy, PartialEq, Eq, Debug)]
pub struct Road {
    /// The junction that it leads to.
    pub head: u32,
    /// From 1 to 7,200.
    pub seconds: u32,
    /// Watt-hours taken from the battery, from -100,000 to 100,000; below 0 where the road gives charge back.
    pub draw: i32,
}
