//! A record of the label table.
use crate::arrival::Arrival;

/// An arrival and the road by which it came: label 0 is the empty walk, and every other one names a label before it.
#[derive(Clone, Copy, Default, PartialEq, Eq, Debug)]
pub struct Label<L> {
    /// Where its walk arrives.
    pub arrival: Arrival<L>,
    /// The number of the label before it; a number and no reference, since the table is lent to each call anew.
    pub before: u32,
    /// The place driven from the label before it.
    pub place: u32,
}
