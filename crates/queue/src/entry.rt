//! What can wait in a queue.
ghost use Rattle.std.specs.Prelude.{◌≡◌, Bool};
ghost use Rattle.std.specs.Cmp.{IsStrictWeakOrder};

/// An entry tells of two which leaves the queue first; two that tie may leave in either order.
// Not std's `Ord`: entries that tie need not be equal, as its laws would have them.
pub trait Entry: Copy {
    // whether the first comes before the second
    ghost earlier: { Self → Self → Bool };

    /// Whether this entry comes before the other.
    fn before(&self, other: &Self) -> bool
        ensures { result ≡ earlier self.now other.now };

    // never both ways round, and if neither x before y nor y before z, then not x before z
    ghost strict_weak_order: { IsStrictWeakOrder earlier };
}
