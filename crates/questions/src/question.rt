//! One question of an office.

/// From where to where, with what charge of what capacity, within how many seconds, with the heater
/// at how many watts.
#[derive(Clone, Copy, PartialEq, Eq, Default, Debug)]
pub struct Question {
    pub start: u32,
    pub goal: u32,
    pub charge: u32,
    pub capacity: u32,
    pub deadline: u32,
    pub heater: u32,
}
