//! How a search stands, and how far an advance got.

/// How a search stands after a call.
#[derive(Clone, Copy, PartialEq, Eq, Debug)]
pub enum Standing {
    /// The budget is used, and there may be more to list.
    Paused,
    /// The label of this number was just listed, and is at the goal.
    Arrived(u32),
    /// Every arrival of the front is listed.
    Ended,
    /// The label table is full, and the front has more.
    Full,
}

/// What an advance answers.
#[derive(Clone, Copy, PartialEq, Eq, Debug)]
pub struct Progress {
    pub standing: Standing,
    /// The labels that this call listed.
    pub listed_now: u32,
    /// All labels that are listed, label 0 among them.
    pub listed_in_all: u32,
}
