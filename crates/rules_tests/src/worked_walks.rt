//! Walks on a small map: one that arrives, and those that a wrong rule would get wrong.
use loads::charge::Charge;
use maps::table::{TableMap, Tables};
use std::alloc::Global;
use walks::trial::{ChargedWalk, NoTrial, Stranding, Trial, try_charged_walk};

// Five junctions in a row: 0 to 1 draws 600, 1 to 2 draws -500, 2 to 3 draws -400, 3 to 4 draws 100; 60 s each.
const COUNTS: [u32; 5] = [1, 1, 1, 1, 0];

// Tries a walk along the row of junctions.
fn try_along_the_row(heap: Global, walk: ChargedWalk<'_>) -> Result<Trial<Charge>, NoTrial> {
    let mut heads = [0; 60];
    let mut draws = [0; 60];
    heads[0] = 1;
    heads[12] = 2;
    heads[24] = 3;
    heads[36] = 4;
    draws[0] = 600;
    draws[12] = -500;
    draws[24] = -400;
    draws[36] = 100;
    let map = TableMap::new(Tables {
        counts: &COUNTS,
        heads: &heads,
        times: &[60; 60],
        draws: &draws,
    })?;
    try_charged_walk(heap, map, walk)
}

// A word for how a trial ended.
fn word(ending: Result<(), Stranding>) -> &'static str {
    match ending {
        Ok(()) => "arrived",
        Err(Stranding::EmptyPlace) => "empty place",
        Err(Stranding::CannotDrive(_)) => "cannot drive",
        Err(Stranding::PastDeadline(_)) => "past deadline",
    }
}

// How a walk along the row ends: the roads driven, the last charge, and a word for the ending; or the
// number that refuses it, and none where memory runs out.
fn ends(
    heap: Global,
    watts: u32,
    capacity: u32,
    start: u32,
    charge: u32,
    places: &[u32],
) -> Result<(usize, u32, &'static str), Option<u8>> {
    let walk = ChargedWalk {
        watts,
        capacity,
        start,
        charge,
        places,
    };
    let trial = try_along_the_row(heap, walk).map_err(|why| match why {
        NoTrial::Refused(refusal) => Some(refusal.number()),
        NoTrial::OutOfMemory => None,
    })?;
    let left = trial.legs.last().map_or(charge, |leg| leg.load.level);
    Ok((trial.legs.len(), left, word(trial.ending)))
}

#[test]
fn a_van_is_stranded_where_its_charge_is_short(rt: HostRuntime) {
    let heap = rt.alloc();
    // the draws' sum, 100, is below the charge; the first road is not
    assert_eq!(rt;
        ends(heap, 0, 1_000, 0, 500, &[0, 0]),
        Ok((0, 500, "cannot drive"))
    );
    assert_eq!(rt;
        ends(heap, 0, 1_000, 0, 599, &[0]),
        Ok((0, 599, "cannot drive"))
    );
    assert_eq!(rt;
        ends(heap, 0, 1_000, 0, 600, &[0, 0]),
        Ok((2, 500, "arrived"))
    );
    assert_eq!(rt;
        ends(heap, 0, 1_000, 0, 600, &[0, 1]),
        Ok((1, 0, "empty place"))
    );
}

#[test]
fn a_nearly_full_battery_loses_what_a_descent_would_give(rt: HostRuntime) {
    let heap = rt.alloc();
    assert_eq!(rt;
        ends(heap, 0, 1_000, 2, 900, &[0]),
        Ok((1, 1_000, "arrived"))
    );
    assert_eq!(rt;
        ends(heap, 0, 1_000, 2, 900, &[0, 0]),
        Ok((2, 900, "arrived"))
    );
    assert_eq!(rt;
        ends(heap, 0, 1_000, 1, 1_000, &[0, 0, 0]),
        Ok((3, 900, "arrived"))
    );
}

#[test]
fn the_heater_draws_its_part_rounded_up(rt: HostRuntime) {
    let heap = rt.alloc();
    assert_eq!(rt;
        ends(heap, 1_000, 1_000, 3, 1_000, &[0]),
        Ok((1, 883, "arrived"))
    );
    assert_eq!(rt;
        ends(heap, 1_000, 1_000, 3, 117, &[0]),
        Ok((1, 0, "arrived"))
    );
    assert_eq!(rt;
        ends(heap, 1_000, 1_000, 3, 116, &[0]),
        Ok((0, 116, "cannot drive"))
    );
}

#[test]
fn trials_are_refused_in_order(rt: HostRuntime) {
    let heap = rt.alloc();
    assert_eq!(rt; ends(heap, 6_001, 0, 9, 9, &[12]), Err(Some(11)));
    assert_eq!(rt; ends(heap, 6_000, 0, 9, 9, &[12]), Err(Some(8)));
    assert_eq!(rt; ends(heap, 6_000, 8, 9, 9, &[12]), Err(Some(1)));
    assert_eq!(rt; ends(heap, 6_000, 8, 4, 9, &[12]), Err(Some(3)));
    assert_eq!(rt; ends(heap, 6_000, 9, 4, 9, &[11, 12]), Err(Some(10)));
    assert_eq!(rt;
        ends(heap, 6_000, 9, 4, 9, &[11, 11]),
        Ok((0, 9, "empty place"))
    );
}
