//! The profile kind: a load tells, for every starting charge together, what charge a van has now.
ghost use Rattle.std.specs.Prelude.{◌≡◌, ◌≤◌, true, ◌&&◌, Decides};
ghost use Rattle.loads.specs.Capacity.{AcceptsCapacity};
ghost use Rattle.loads.specs.Profile.{AsGood, is_profile, plain, profiles, three_comparisons};
ghost use Rattle.loads.specs.ProfileLaws.{profiles_lawful};

use crate::Kind;
use crate::capacity::Capacity;
use maps::road::Road;
use refusals::refusal::Refusal;

/// A van that started with a charge of at least the need now has the smaller of `high` and `low` plus what it started
/// with beyond the need; one that started with less is not here.
/// A load has low ≤ high ≤ 100,000 and need + high − low ≤ 100,000; other numbers are none.
#[derive(Clone, Copy, PartialEq, Eq, Debug)]
pub struct Profile {
    pub need: u32,
    pub low: u32,
    pub high: u32,
}

/// Vans whose battery holds at most the capacity, from 1 to 100,000 watt-hours, whatever they started with.
#[derive(Clone, Copy)]
pub struct ProfileKind {
    capacity: Capacity,
}

impl Profile {
    // Whether the three numbers are a load.
    fn is_load(&self) -> bool
        ensures { result ≡ is_profile self.now }
    {
        self.low <= self.high
            && self.high <= 100_000
            && u64::from(self.need) + u64::from(self.high - self.low) <= 100_000
    }

    // Whether both are loads, and this one is no worse by the three comparisons.
    fn is_no_worse_than(&self, other: &Profile) -> bool
        ensures { result ≡ is_profile self.now && (is_profile other.now && three_comparisons self.now other.now) }
    {
        self.is_load()
            && other.is_load()
            && self.need <= other.need
            && other.high <= self.high
            && other.low + self.need <= self.low + other.need
    }
}

impl ProfileKind {
    /// The kind of this capacity; refuses one that is out of range.
    pub fn new(capacity: u32) -> Result<ProfileKind, Refusal>
        ensures accepted_exactly_from_1_to_100000 { AcceptsCapacity result capacity (λ k. k.capacity.watt_hours) }
    {
        Ok(ProfileKind {
            capacity: Capacity::new(capacity)?,
        })
    }

    /// The load before any road: every starting charge that the kind's battery holds.
    pub fn plain(&self) -> Profile
        ensures { result ≡ plain self.now.capacity.watt_hours }
    {
        Profile {
            need: 0,
            low: 0,
            high: self.capacity.watt_hours,
        }
    }
}

impl Kind for ProfileKind {
    type Load = Profile;

    ghost meaning = { λ k. profiles k.capacity.watt_hours };

    ghost lawful = { λ k. profiles_lawful k.capacity.watt_hours k.capacity.within.1 };

    fn admits(&self, load: Profile) -> bool {
        load.is_load()
            && load.high <= self.capacity.watt_hours
            && load.need + (load.high - load.low) <= self.capacity.watt_hours
    }

    fn as_good(&self, one: Profile, other: Profile) -> bool
        ensures by_three_comparisons { result ≡ (profiles self.now.capacity.watt_hours).as_good one other }
        ensures exactly_when_both_are_loads_and_at_each_starting_charge_one_has_at_least_as_much { Decides result ((is_profile one ≡ true) × (is_profile other ≡ true) × AsGood one other) }
    {
        one.is_no_worse_than(&other)
    }

    fn rank(&self, load: Profile) -> u64 {
        if load.is_load() {
            ((100_000 - u64::from(load.need)) * 100_001 + u64::from(load.high)) * 100_001
                + u64::from(load.low)
        } else {
            0
        }
    }

    fn drive(&self, load: Profile, road: Road) -> Option<Profile> {
        if !load.is_load() {
            return None;
        }
        let draw = road.draw.unsigned_abs();
        let most = self.capacity.watt_hours;
        if road.draw < 0 {
            return Some(Profile {
                low: (load.low + draw).min(most),
                high: (load.high + draw).min(most),
                ..load
            });
        }
        let high = load.high.checked_sub(draw)?;
        Some(Profile {
            need: load.need + draw.saturating_sub(load.low),
            low: load.low.saturating_sub(draw).min(most),
            high: high.min(most),
        })
    }
}
