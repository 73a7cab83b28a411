//! A waiting queue, least entry first, over a slice that the caller lends.
ghost use Rattle.std.specs.Prelude.{◌≡◌, ◌≤◌, min, length, MatchOption, MatchResult};

use crate::entry::Entry;
use crate::full::Full;
use crate::sifts::{sift_down, sift_up};

/// The entries that wait are the first `len` of the slice.
// A lent slice with a count, and no Vec: a queue takes no memory of its own.
#[derive(Drop)]
pub struct Heap<'a, E> {
    entries: &'a mut [E],
    len: usize,
    ghost within: { len ≤ length entries.now },
}

impl<'a, E: Entry> Heap<'a, E> {
    ghost use Rattle.queue.specs.Waiting.{slots, OverSameSlice, First, Pushed, Popped};

    /// A queue over a slice whose first `count` entries wait; a count past the slice means all of it.
    pub fn over(entries: &'a mut [E], count: usize) -> Heap<'a, E>
        ensures over_the_lent_slice { result.entries.ghost_name ≡ entries.entry.ghost_name }
        ensures holds_what_the_slice_held { result.entries.now ≡ entries.old }
        ensures count_clamped_to_the_slice { result.len ≡ min count (length entries.old) }
    {
        let len = count.min(entries.len());
        Heap { entries, len }
    }

    /// How many entries wait.
    pub fn len(&self) -> usize
        ensures { result ≡ self.now.len }
    {
        self.len
    }

    /// The entry that leaves next, none of the others coming before it; none when the queue is empty.
    #[tactic(auto, using(crate::proofs::HeapOrder::first_of_those_waiting))]
    pub fn peek(&self) -> Option<E>
        ensures { MatchOption result (self.now.len ≡ 0) (λ x. First E.Entry.earlier self.now x) }
    {
        self.entries[..self.len].first().copied()
    }

    /// Puts an entry in, in the logarithm of the count; refused when the slice is full, and then nothing has changed.
    pub fn push(&mut self, entry: E) -> Result<(), Full>
        ensures over_the_same_slice { OverSameSlice self.old self.new }
        ensures adds_the_entry_unless_full { MatchResult result (λ _. Pushed E.Entry.earlier self.old entry self.new) (λ _. (self.old.len ≡ length (slots self.old)) × (self.new ≡ self.old)) }
    {
        let count = self.len;
        if count == self.entries.len() {
            return Err(Full);
        }
        self.entries[count] = entry;
        sift_up(&mut self.entries[..count + 1]);
        self.len = count + 1;
        Ok(())
    }

    /// Takes out the entry that leaves next, in the logarithm of the count; none when the queue is empty.
    pub fn pop(&mut self) -> Option<E>
        ensures over_the_same_slice { OverSameSlice self.old self.new }
        ensures takes_the_first_unless_empty { MatchOption result ((self.old.len ≡ 0) × (self.new ≡ self.old)) (λ x. Popped E.Entry.earlier self.old x self.new) }
    {
        let first = self.peek()?;
        let last = self.len - 1;
        self.entries[0] = self.entries[last];
        sift_down(&mut self.entries[..last]);
        self.len = last;
        Some(first)
    }
}
