//! One road of a walk, as a trace tells it.

/// The junction left, the place driven, and the time and load of the arrival.
#[derive(Clone, Copy, PartialEq, Eq, Debug)]
pub struct Leg<L> {
    /// The junction left.
    pub junction: u32,
    /// The place of that junction whose road is driven.
    pub place: u32,
    /// Seconds since the start, on arrival.
    pub time: u32,
    /// What the van carries on arrival.
    pub load: L,
}
