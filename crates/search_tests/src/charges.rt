//! Searches with charges.
use crate::examples::*;
use front::arrival::Arrival;
use loads::charge::{Charge, ChargeKind};
use promises::standing::{Progress, Standing};
use std::alloc::Global;
use std::process::Abort;
use std::test::Fail;

const FULL: Charge = Charge { level: 1_000 };

// What so many labels and this budget answer on the worked map, one advance after the other.
fn advances(
    rt: &impl Abort,
    heap: Global,
    labels: usize,
    budget: u32,
    deadline: u32,
    expected: &[Progress],
) -> Result<(), Fail> {
    let mut search = charges_on_worked_map(heap, labels, labels.saturating_mul(12))?;
    assert_eq!(rt;
        search.begin(trip(0, FULL, 3, deadline)),
        Ok(Standing::Paused)
    );
    for progress in expected {
        assert_eq!(rt; search.advance(budget), Ok(*progress));
    }
    Ok(())
}

#[test]
fn five_labels_end(rt: HostRuntime) -> Result<(), Fail> {
    let answers = [
        progress(Standing::Arrived(3), 3, 4),
        progress(Standing::Arrived(4), 1, 5),
        progress(Standing::Ended, 0, 5),
        progress(Standing::Ended, 0, 5),
    ];
    advances(&rt, rt.alloc(), 5, 100, 999, &answers)
}

#[test]
fn six_labels_end(rt: HostRuntime) -> Result<(), Fail> {
    let answers = [
        progress(Standing::Arrived(3), 3, 4),
        progress(Standing::Arrived(4), 1, 5),
        progress(Standing::Ended, 0, 5),
    ];
    advances(&rt, rt.alloc(), 6, 100, 999, &answers)
}

#[test]
fn small_budgets_pause(rt: HostRuntime) -> Result<(), Fail> {
    let one_by_one = [
        progress(Standing::Paused, 1, 2),
        progress(Standing::Paused, 1, 3),
        progress(Standing::Arrived(3), 1, 4),
        progress(Standing::Arrived(4), 1, 5),
        progress(Standing::Ended, 0, 5),
    ];
    advances(&rt, rt.alloc(), 5, 1, 999, &one_by_one)?;
    let two_by_two = [
        progress(Standing::Paused, 2, 3),
        progress(Standing::Arrived(3), 1, 4),
        progress(Standing::Arrived(4), 1, 5),
        progress(Standing::Ended, 0, 5),
    ];
    advances(&rt, rt.alloc(), 5, 2, 999, &two_by_two)
}

#[test]
fn four_labels_are_full_after_the_first_arrival(rt: HostRuntime) -> Result<(), Fail> {
    let heap = rt.alloc();
    let full = progress(Standing::Full, 0, 4);
    let arrived = progress(Standing::Arrived(3), 3, 4);
    advances(&rt, heap, 4, 100, 999, &[arrived, full, full])?;
    advances(&rt, heap, 3, 100, 999, &[progress(Standing::Full, 2, 3)])?;
    advances(&rt, heap, 1, 1, 999, &[progress(Standing::Full, 0, 1)])
}

#[test]
fn a_deadline_may_be_met_exactly(rt: HostRuntime) -> Result<(), Fail> {
    let heap = rt.alloc();
    let arrived = progress(Standing::Arrived(3), 3, 4);
    let ended = progress(Standing::Ended, 0, 4);
    advances(&rt, heap, 5, 100, 70, &[arrived, ended])?;
    advances(&rt, heap, 5, 100, 69, &[progress(Standing::Ended, 2, 3)])
}

fn arrival(time: u32, level: u32, junction: u32) -> Arrival<Charge> {
    Arrival {
        junction,
        time,
        load: charge(level),
    }
}

// A search of the worked map with five labels, after three advances.
fn listed(heap: Global) -> Result<SearchOnMap<ChargeKind>, Fail> {
    let mut search = charges_on_worked_map(heap, 5, 60)?;
    search.begin(trip(0, FULL, 3, 999))?;
    for _ in 0..3 {
        search.advance(100)?;
    }
    Ok(search)
}

#[test]
fn labels_are_the_front(rt: HostRuntime) -> Result<(), Fail> {
    let search = listed(rt.alloc())?;
    let front = [
        arrival(0, 1_000, 0),
        arrival(40, 300, 2),
        arrival(60, 700, 1),
        arrival(70, 50, 3),
        arrival(110, 300, 3),
    ];
    for (label, arrival) in search.labels.iter().zip(front.iter()) {
        assert_eq!(rt; label.arrival, *arrival);
    }
    Ok(())
}

#[test]
fn labels_trace_their_walks(rt: HostRuntime) -> Result<(), Fail> {
    let heap = rt.alloc();
    let on_map = listed(heap)?;
    let mut walk = vec![in heap; leg(77, 77, 77, 77); 3]?;
    assert_eq!(rt; on_map.search.trace(&on_map.labels, 3, &mut walk), Ok(2));
    let legs = [leg(0, 1, 40, 300), leg(2, 0, 70, 50), leg(77, 77, 77, 77)];
    assert_eq!(rt; walk.as_slice(), legs.as_slice());
    assert_eq!(rt; on_map.search.trace(&on_map.labels, 0, &mut walk), Ok(0));
    Ok(())
}

#[test]
fn a_gaining_loop_is_driven_until_the_charge_suffices(rt: HostRuntime) -> Result<(), Fail> {
    let kind = ChargeKind::new(1_000)?;
    let map = map_with_a_gaining_loop()?;
    let mut search = SearchOnMap::new(rt.alloc(), map, kind, charge(77), 20, 240)?;
    search.begin(trip(0, charge(100), 1, 999))?;
    assert_eq!(rt;
        search.advance(100),
        Ok(progress(Standing::Arrived(5), 5, 6))
    );
    assert_eq!(rt;
        search.labels.get(5).map(|label| label.arrival),
        Some(arrival(20, 50, 1))
    );
    Ok(())
}

#[test]
fn a_used_search_begins_afresh(rt: HostRuntime) -> Result<(), Fail> {
    let mut search = charges_on_worked_map(rt.alloc(), 5, 60)?;
    assert_eq!(rt; search.begin(trip(0, FULL, 3, 999)), Ok(Standing::Paused));
    search.advance(2)?;
    assert_eq!(rt; search.begin(trip(2, FULL, 2, 0)), Ok(Standing::Arrived(0)));
    assert_eq!(rt; search.advance(100), Ok(progress(Standing::Ended, 0, 1)));
    assert_eq!(rt; search.begin(trip(2, FULL, 3, 999)), Ok(Standing::Paused));
    assert_eq!(rt;
        search.advance(100),
        Ok(progress(Standing::Arrived(2), 2, 3))
    );
    Ok(())
}
