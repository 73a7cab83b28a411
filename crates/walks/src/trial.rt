//! A walk tried on a map: driven from its start up to the first road that cannot be driven.
ghost use Rattle.std.specs.Prelude.{◌≡◌, length, nat_lt, IfOk};
ghost use Rattle.std.specs.List.{list_any};
ghost use Rattle.std.specs.Result.{result_err};
ghost use Rattle.walks.specs.declared.trial.NoTrial.TheVariants.{Refused as NotTaken};
ghost use Rattle.maps.specs.Heater.{heated_rows};
ghost use Rattle.loads.specs.Charge.{charge as charge_of, charges};
ghost use Rattle.walks.specs.Trial.{legs_driven, ending_of, at_the_start, trial_refusal, charged_trial_refusal, Tried};

use crate::step::step;
use front::arrival::Arrival;
use front::leg::Leg;
use loads::Kind;
use loads::charge::{Charge, ChargeKind};
use maps::Map;
use maps::heater::{Heater, Power};
use maps::road::Road;
use refusals::refusal::Refusal;
use std::alloc::{AllocError, Global};
use thiserror::Error;

/// The latest deadline that a walk may have, in seconds.
pub const LATEST_DEADLINE: u32 = 999_999;

/// A walk to try: from a junction on with a load, by places of the junctions passed, within a deadline.
#[derive(Clone, Copy)]
pub struct Walk<'a, L> {
    pub start: u32,
    pub load: L,
    /// In seconds, at most 999,999.
    pub deadline: u32,
    /// From 0 to 11 each.
    pub places: &'a [u32],
}

/// A walk of a van with a battery and a heater to try, with the latest deadline.
#[derive(Clone, Copy)]
pub struct ChargedWalk<'a> {
    /// The heater's power, at most 6,000.
    pub watts: u32,
    /// The battery's capacity in watt-hours, from 1 to 100,000.
    pub capacity: u32,
    pub start: u32,
    /// The charge at the start in watt-hours, at most the capacity.
    pub charge: u32,
    /// From 0 to 11 each.
    pub places: &'a [u32],
}

/// Why a van can go no further: what kept it from the next road.
#[derive(Clone, Copy, PartialEq, Eq, Debug)]
pub enum Stranding {
    EmptyPlace,
    CannotDrive(Road),
    PastDeadline(Road),
}

/// The roads that were driven, in order, and how the trial ended: at the walk's end, or where and why the van
/// could go no further.
#[derive(Drop)]
pub struct Trial<L> {
    pub legs: Vec<Leg<L>>,
    pub ending: Result<(), Stranding>,
}

/// Why no trial was made.
#[derive(Clone, Copy, PartialEq, Eq, Debug, Error)]
pub enum NoTrial {
    #[error("{0}")]
    Refused(Refusal),
    #[error("There is no memory left for the legs.")]
    OutOfMemory,
}

// Written out, since a conversion that is derived promises nothing of what it makes.
impl From<Refusal> for NoTrial {
    ghost from_gives = { λ f n. n ≡ NotTaken f };

    fn from(refusal: Refusal) -> NoTrial {
        NoTrial::Refused(refusal)
    }
}

// The first check that a walk fails: its start, its load, its deadline, then its places.
fn check<M: Map, K: Kind>(map: &M, kind: &K, walk: &Walk<'_, K::Load>) -> Result<(), Refusal>
    ensures { result_err result ≡ trial_refusal (length (M.Map.rows map.now)) (K.Kind.meaning kind.now) walk.now.start walk.now.load walk.now.deadline walk.now.places.now }
{
    if walk.start >= map.junctions() {
        return Err(Refusal::StartOffMap);
    }
    if !kind.admits(walk.load) {
        return Err(Refusal::StartLoadNotAdmitted);
    }
    if walk.deadline > LATEST_DEADLINE {
        return Err(Refusal::DeadlineTooLate);
    }
    if walk.places.iter().any(|place| *place > 11) {
        return Err(Refusal::PlaceAboveEleven);
    }
    Ok(())
}

// The walk driven from its start, up to the first road that cannot be driven.
fn drive_places<M: Map, K: Kind>(
    heap: Global,
    map: &M,
    kind: &K,
    walk: &Walk<'_, K::Load>,
) -> Result<Trial<K::Load>, AllocError>
    ensures { IfOk result (λ t. (t.legs.items ≡ legs_driven (M.Map.rows map.now) (K.Kind.meaning kind.now) walk.now.deadline (at_the_start walk.now.start walk.now.load) walk.now.places.now) × (t.ending ≡ ending_of (M.Map.rows map.now) (K.Kind.meaning kind.now) walk.now.deadline (at_the_start walk.now.start walk.now.load) walk.now.places.now)) }
{
    let mut legs = Vec::new(heap);
    let mut van = Arrival {
        junction: walk.start,
        time: 0,
        load: walk.load,
    };
    for place in walk.places {
        match step(map, kind, walk.deadline, van, *place) {
            Ok(next) => {
                legs.push(Leg {
                    junction: van.junction,
                    place: *place,
                    time: next.time,
                    load: next.load,
                })?;
                van = next;
            }
            Err(stranding) => {
                return Ok(Trial {
                    legs,
                    ending: Err(stranding),
                });
            }
        }
    }
    Ok(Trial {
        legs,
        ending: Ok(()),
    })
}

/// Tries a walk, and tells the legs driven and how it ended. Refuses a start off the map, a load
/// that is not admitted, a deadline above 999,999 and a place above 11, in this order.
pub fn try_walk<M: Map, K: Kind>(
    heap: Global,
    map: &M,
    kind: &K,
    walk: Walk<'_, K::Load>,
) -> Result<Trial<K::Load>, NoTrial>
    ensures legs_up_to_the_first_road_that_cannot_be_driven { Tried
        (trial_refusal (length (M.Map.rows map.now)) (K.Kind.meaning kind.now) walk.entry.start walk.entry.load walk.entry.deadline walk.entry.places.now)
        (legs_driven (M.Map.rows map.now) (K.Kind.meaning kind.now) walk.entry.deadline (at_the_start walk.entry.start walk.entry.load) walk.entry.places.now)
        (ending_of (M.Map.rows map.now) (K.Kind.meaning kind.now) walk.entry.deadline (at_the_start walk.entry.start walk.entry.load) walk.entry.places.now) result }
{
    check(map, kind, &walk)?;
    drive_places(heap, map, kind, &walk).map_err(|_| NoTrial::OutOfMemory)
}

/// Tries a walk of a van with this battery and this charge, its heater on at so many watts, with
/// the latest deadline. Refuses the heater's power, then the capacity, then as `try_walk`.
pub fn try_charged_walk<M: Map + Drop>(
    heap: Global,
    map: M,
    walk: ChargedWalk<'_>,
) -> Result<Trial<Charge>, NoTrial>
    ensures legs_of_the_charge_over_the_heated_map { Tried
        (charged_trial_refusal (length (M.Map.rows map)) walk.entry.watts walk.entry.capacity walk.entry.start walk.entry.charge walk.entry.places.now)
        (legs_driven (heated_rows walk.entry.watts (M.Map.rows map)) (charges walk.entry.capacity) 999999 (at_the_start walk.entry.start (charge_of walk.entry.charge)) walk.entry.places.now)
        (ending_of (heated_rows walk.entry.watts (M.Map.rows map)) (charges walk.entry.capacity) 999999 (at_the_start walk.entry.start (charge_of walk.entry.charge)) walk.entry.places.now) result }
{
    let power = Power::new(walk.watts)?;
    let kind = ChargeKind::new(walk.capacity)?;
    let heated = Heater::over(map, power);
    let latest = Walk {
        start: walk.start,
        load: Charge { level: walk.charge },
        deadline: LATEST_DEADLINE,
        places: walk.places,
    };
    try_walk(heap, &heated, &kind, latest)
}
