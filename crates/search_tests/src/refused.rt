//! Every refusal of begin, advance and trace, in order, with everything left as it was.
use crate::examples::*;
use loads::charge::{Charge, ChargeKind};
use promises::standing::Standing;
use promises::trip::Trip;
use refusals::refusal::Refusal;
use std::alloc::Global;
use std::process::Abort;
use std::test::Fail;

const MOST: u32 = u32::MAX;

// What a new search with tables of these lengths answers to a begin; none of it is written.
fn begin(
    rt: &impl Abort,
    heap: Global,
    labels: usize,
    waiting: usize,
    trip: Trip<Charge>,
) -> Result<Result<Standing, u8>, Fail> {
    let mut search = charges_on_worked_map(heap, labels, waiting)?;
    let answer = search.begin(trip).map_err(Refusal::number);
    for label in &search.labels {
        assert_eq!(rt; *label, label_of(charge(77)));
    }
    assert_eq!(rt; search.advance(1).map_err(Refusal::number), Err(31));
    Ok(answer)
}

#[test]
fn begin_refuses_by_the_first_check_that_fails(rt: HostRuntime) -> Result<(), Fail> {
    let late = 1_000_000;
    let cases = [
        (1, 0, 0, trip(4, charge(1_001), 4, late)),
        (1, 0, 0, trip(MOST, charge(MOST), MOST, MOST)),
        (2, 0, 0, trip(3, charge(1_001), 4, late)),
        (3, 0, 0, trip(3, charge(1_001), 3, late)),
        (4, 0, 0, trip(3, charge(1_000), 3, late)),
        (5, 0, 0, trip(3, charge(1_000), 3, 999_999)),
        (6, 5, 59, trip(3, charge(1_000), 3, 999_999)),
    ];
    for (number, labels, waiting, trip) in cases {
        let answer = begin(&rt, rt.alloc(), labels, waiting, trip)?;
        assert_eq!(rt; answer, Err(number));
    }
    Ok(())
}

// A search of the worked map that has begun, with five labels.
fn begun(heap: Global) -> Result<SearchOnMap<ChargeKind>, Fail> {
    let mut search = charges_on_worked_map(heap, 5, 60)?;
    match search.begin(trip(0, charge(1_000), 3, 999))? {
        Standing::Paused => Ok(search),
        _ => Err(Fail::new("a search away from its goal did not pause")),
    }
}

#[test]
fn advance_refuses_another_map_and_other_tables(rt: HostRuntime) -> Result<(), Fail> {
    let heap = rt.alloc();
    let SearchOnMap {
        map,
        kind,
        mut labels,
        mut waiting,
        mut search,
    } = begun(heap)?;
    let smaller = map_with_a_gaining_loop()?;
    let mut longer = vec![in heap; label_of(charge(77)); 6]?;
    let mut wider = vec![in heap; candidate_of(charge(77)); 61]?;
    let other_map = search.advance(&smaller, &kind, &mut labels, &mut waiting, 0);
    assert_eq!(rt; other_map.map_err(Refusal::number), Err(32));
    let other_labels = search.advance(&map, &kind, &mut longer, &mut waiting, 0);
    assert_eq!(rt; other_labels.map_err(Refusal::number), Err(32));
    let other_waiting = search.advance(&map, &kind, &mut labels, &mut wider, 0);
    assert_eq!(rt; other_waiting.map_err(Refusal::number), Err(32));
    let listed = search.advance(&map, &kind, &mut labels, &mut waiting, 65_535);
    assert_eq!(rt; listed, Ok(progress(Standing::Arrived(3), 3, 4)));
    Ok(())
}

#[test]
fn advance_refuses_other_budgets(rt: HostRuntime) -> Result<(), Fail> {
    let mut on_map = begun(rt.alloc())?;
    assert_eq!(rt; on_map.advance(0).map_err(Refusal::number), Err(7));
    assert_eq!(rt; on_map.advance(65_536).map_err(Refusal::number), Err(7));
    assert_eq!(rt;
        on_map.advance(65_535),
        Ok(progress(Standing::Arrived(3), 3, 4))
    );
    Ok(())
}

#[test]
fn trace_refuses_other_labels_and_short_buffers(rt: HostRuntime) -> Result<(), Fail> {
    let heap = rt.alloc();
    let unwritten = leg(77, 77, 77, 77);
    let longer = vec![in heap; label_of(charge(77)); 6]?;
    let mut walk = vec![in heap; unwritten; 1]?;
    let mut on_map = charges_on_worked_map(heap, 5, 60)?;
    let too_early = on_map.search.trace(&on_map.labels, 0, &mut walk);
    assert_eq!(rt; too_early.map_err(Refusal::number), Err(31));
    on_map.begin(trip(0, charge(1_000), 3, 999))?;
    let other_labels = on_map.search.trace(&longer, 1, &mut walk);
    assert_eq!(rt; other_labels.map_err(Refusal::number), Err(32));
    let not_listed = on_map.search.trace(&on_map.labels, 1, &mut walk);
    assert_eq!(rt; not_listed.map_err(Refusal::number), Err(33));
    on_map.advance(100)?;
    let short = on_map.search.trace(&on_map.labels, 3, &mut walk);
    assert_eq!(rt; short, Err(Refusal::BufferTooShort(2)));
    assert_eq!(rt; walk.as_slice(), [unwritten].as_slice());
    Ok(())
}
