//! The order in which candidates leave the queue: time rising, then rank falling, then junction rising.
ghost use Rattle.std.specs.Prelude.{◌≡◌};
ghost use Rattle.promises.specs.Order.{leaves_before};
ghost use Rattle.promises.specs.Orders.{all_tie_ranks, rising_ranks, falling_ranks};

use crate::candidate::Candidate;
use queue::Entry;
use std::cmp::Reverse;

impl<L: Copy> Candidate<L> {
    // The candidate with the least key leaves first.
    fn key(&self) -> (u32, Reverse<u64>, u32)
        ensures { result ≡ record { 0 = self.now.label.arrival.time; 1 = record { 0 = self.now.rank }; 2 = self.now.label.arrival.junction } }
    {
        let arrival = &self.label.arrival;
        (arrival.time, Reverse(self.rank), arrival.junction)
    }
}

impl<L: Copy> Entry for Candidate<L> {
    ghost earlier = { leaves_before };

    ghost strict_weak_order = { rising_ranks (λ c. c.label.arrival.time) _ (falling_ranks (λ c. c.rank) _ (rising_ranks (λ c. c.label.arrival.junction) _ all_tie_ranks)) };

    fn before(&self, other: &Candidate<L>) -> bool {
        self.key() < other.key()
    }
}
