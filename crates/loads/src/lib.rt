//! Load kinds: what a van carries along a drive, and what a road makes of it.
#![tactic(auto)]

ghost use Rattle.std.specs.Prelude.{◌≡◌};
ghost use Rattle.loads.specs.Meaning.{Meaning};
ghost use Rattle.loads.specs.Laws.{Laws};

use maps::road::Road;

pub mod capacity;
pub mod charge;
pub mod profile;

/// A kind of load. Its calls answer by its meaning, refuse nothing and alter nothing;
/// of a value that is no load the rank is 0 and every other answer is no.
pub trait Kind {
    type Load: Copy;

    // which values are loads, and the four answers, as functions of load and road
    ghost meaning: { Self → Meaning (Self.Load) };

    // the laws that every search rests on
    ghost lawful: { (k : Self) → Laws (meaning k) };

    /// Whether a van of this kind can carry the load.
    fn admits(&self, load: Self::Load) -> bool
        ensures { result ≡ (meaning self.now).admits load };

    /// Whether one load is as good as another.
    fn as_good(&self, one: Self::Load, other: Self::Load) -> bool
        ensures { result ≡ (meaning self.now).as_good one other };

    /// A number below 2^63: a better load has a higher one, and no two loads have the same.
    fn rank(&self, load: Self::Load) -> u64
        ensures { result ≡ (meaning self.now).rank load };

    /// What the load becomes over a road, or none where it cannot be driven.
    fn drive(&self, load: Self::Load, road: Road) -> Option<Self::Load>
        ensures { result ≡ (meaning self.now).drive load road };
}
