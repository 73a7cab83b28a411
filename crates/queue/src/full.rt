//! The one refusal of a queue.

/// The slice under a queue has no room for another entry.
#[derive(Clone, Copy, PartialEq, Eq, Debug)]
pub struct Full;
