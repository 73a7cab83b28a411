//! The capacity of a battery: what every kind of load stays within.
ghost use Rattle.std.specs.Prelude.{◌≡◌, ◌≤◌};
ghost use Rattle.loads.specs.Capacity.{AcceptsCapacity};

use refusals::refusal::Refusal;

/// The capacity of a battery, from 1 to 100,000 watt-hours.
#[derive(Clone, Copy, PartialEq, Eq, Debug)]
pub struct Capacity {
    pub watt_hours: u32,
    ghost within: { (1 ≤ watt_hours) × (watt_hours ≤ 100000) },
}

impl Capacity {
    /// The capacity of so many watt-hours; refuses one that is out of range.
    pub fn new(watt_hours: u32) -> Result<Capacity, Refusal>
        ensures accepted_exactly_from_1_to_100000 { AcceptsCapacity result watt_hours (λ c. c.watt_hours) }
    {
        if !(1..=100_000).contains(&watt_hours) {
            return Err(Refusal::CapacityOutOfRange);
        }
        Ok(Capacity { watt_hours })
    }
}
