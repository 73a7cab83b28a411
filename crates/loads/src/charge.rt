//! The charge kind: a load is the charge of a battery in watt-hours.
ghost use Rattle.std.specs.Prelude.{◌≡◌, ◌≤◌};
ghost use Rattle.loads.specs.Capacity.{AcceptsCapacity};
ghost use Rattle.loads.specs.Charge.{charges, shortage};
ghost use Rattle.loads.specs.ChargeLaws.{charges_lawful};

use crate::Kind;
use crate::capacity::Capacity;
use maps::road::Road;
use refusals::refusal::Refusal;

/// The charge of a battery. From 0 to 100,000 it is a load; other numbers are none.
#[derive(Clone, Copy, PartialEq, Eq, Debug, Default)]
pub struct Charge {
    pub level: u32,
}

/// Vans whose battery holds at most the capacity, from 1 to 100,000 watt-hours.
#[derive(Clone, Copy)]
pub struct ChargeKind {
    capacity: Capacity,
}

impl Charge {
    /// By how many watt-hours the charge falls short of a draw: 0 where it does not.
    pub fn short_of(self, draw: i32) -> u32
        ensures { result ≡ shortage self.level draw }
    {
        if draw < 0 {
            return 0;
        }
        draw.unsigned_abs().saturating_sub(self.level)
    }
}

impl ChargeKind {
    /// The kind of this capacity; refuses one that is out of range.
    pub fn new(capacity: u32) -> Result<ChargeKind, Refusal>
        ensures accepted_exactly_from_1_to_100000 { AcceptsCapacity result capacity (λ k. k.capacity.watt_hours) }
    {
        Ok(ChargeKind {
            capacity: Capacity::new(capacity)?,
        })
    }
}

impl Kind for ChargeKind {
    type Load = Charge;

    ghost meaning = { λ k. charges k.capacity.watt_hours };

    ghost lawful = { λ k. charges_lawful k.capacity.watt_hours k.capacity.within.1 };

    fn admits(&self, load: Charge) -> bool {
        load.level <= self.capacity.watt_hours
    }

    fn as_good(&self, one: Charge, other: Charge) -> bool {
        one.level <= 100_000 && other.level <= one.level
    }

    fn rank(&self, load: Charge) -> u64 {
        if load.level <= 100_000 {
            u64::from(load.level)
        } else {
            0
        }
    }

    fn drive(&self, load: Charge, road: Road) -> Option<Charge> {
        if load.level > 100_000 {
            return None;
        }
        let draw = road.draw.unsigned_abs();
        let left = if road.draw < 0 {
            load.level + draw
        } else {
            load.level.checked_sub(draw)?
        };
        Some(Charge {
            level: left.min(self.capacity.watt_hours),
        })
    }
}
