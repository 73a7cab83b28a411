//! One road of a walk: where a van gets by it, or why it cannot be driven.
ghost use Rattle.std.specs.Prelude.{◌≡◌};
ghost use Rattle.walks.specs.Trial.{step_by_place};

use crate::trial::Stranding;
use front::arrival::Arrival;
use loads::Kind;
use maps::Map;

/// Where a van gets by the road at a place, or why it cannot be driven. A place that the map refuses is empty.
pub fn step<M: Map, K: Kind>(
    map: &M,
    kind: &K,
    deadline: u32,
    from: Arrival<K::Load>,
    place: u32,
) -> Result<Arrival<K::Load>, Stranding>
    ensures where_the_road_leads_or_why_it_cannot_be_driven { result ≡ step_by_place (M.Map.rows map.now) (K.Kind.meaning kind.now) deadline from place }
{
    let road = map
        .place(from.junction, place)
        .ok()
        .flatten()
        .ok_or(Stranding::EmptyPlace)?;
    let load = kind
        .drive(from.load, road)
        .ok_or(Stranding::CannotDrive(road))?;
    let time = from
        .time
        .checked_add(road.seconds)
        .filter(|time| *time <= deadline)
        .ok_or(Stranding::PastDeadline(road))?;
    Ok(Arrival {
        junction: road.head,
        time,
        load,
    })
}
