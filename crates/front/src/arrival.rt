//! Where a drivable walk arrives.

/// A junction, and the time and load with which a drivable walk reaches it.
#[derive(Clone, Copy, Default, PartialEq, Eq, Debug)]
pub struct Arrival<L> {
    /// The junction reached.
    pub junction: u32,
    /// Seconds since the start.
    pub time: u32,
    /// What the van carries there.
    pub load: L,
}
