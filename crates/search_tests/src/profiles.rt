//! Searches with profiles, and their charts.
use crate::examples::*;
use charts::row::Row;
use loads::profile::{Profile, ProfileKind};
use promises::standing::Standing;
use refusals::refusal::Refusal;
use std::alloc::Global;
use std::test::Fail;

const UNWRITTEN: Profile = Profile {
    need: 77,
    low: 77,
    high: 77,
};

fn row(need: u32, seconds: u32, label: u32) -> Row {
    Row {
        need,
        seconds,
        label,
    }
}

// A new search of the worked map.
fn on_worked_map(heap: Global) -> Result<SearchOnMap<ProfileKind>, Fail> {
    let kind = ProfileKind::new(1_000)?;
    let map = worked_map()?;
    Ok(SearchOnMap::new(heap, map, kind, UNWRITTEN, 20, 240)?)
}

// Begins a search from the kind's plain profile.
fn begin(search: &mut SearchOnMap<ProfileKind>) -> Result<Standing, Refusal> {
    let load = search.kind.plain();
    search.begin(trip(0, load, 3, 999))
}

#[test]
fn a_chart_tells_the_least_times_of_all_charges(rt: HostRuntime) -> Result<(), Fail> {
    let heap = rt.alloc();
    let mut on_map = on_worked_map(heap)?;
    let mut rows = vec![in heap; row(77, 77, 77); 3]?;
    begin(&mut on_map)?;
    assert_eq!(rt;
        on_map.search.chart(&on_map.kind, &on_map.labels, &mut rows),
        Ok(0)
    );
    assert_eq!(rt;
        on_map.advance(100),
        Ok(progress(Standing::Arrived(3), 3, 4))
    );
    assert_eq!(rt;
        on_map.advance(100),
        Ok(progress(Standing::Arrived(4), 1, 5))
    );
    assert_eq!(rt; on_map.advance(100), Ok(progress(Standing::Ended, 0, 5)));
    assert_eq!(rt;
        on_map.search.chart(&on_map.kind, &on_map.labels, &mut rows),
        Ok(2)
    );
    let expected = [row(950, 70, 3), row(700, 110, 4), row(77, 77, 77)];
    assert_eq!(rt; rows.as_slice(), expected.as_slice());
    Ok(())
}

#[test]
fn a_chart_refuses_other_labels_kinds_and_short_buffers(rt: HostRuntime) -> Result<(), Fail> {
    let heap = rt.alloc();
    let mut on_map = on_worked_map(heap)?;
    let smaller = ProfileKind::new(999)?;
    let shorter = vec![in heap; label_of(UNWRITTEN); 19]?;
    let mut rows = vec![in heap; row(77, 77, 77); 1]?;
    let early = on_map.search.chart(&on_map.kind, &on_map.labels, &mut rows);
    assert_eq!(rt; early.map_err(Refusal::number), Err(31));
    begin(&mut on_map)?;
    on_map.advance(100)?;
    on_map.advance(100)?;
    let search = &on_map.search;
    let other_labels = search.chart(&on_map.kind, &shorter, &mut rows);
    assert_eq!(rt; other_labels.map_err(Refusal::number), Err(32));
    let other_kind = search.chart(&smaller, &on_map.labels, &mut rows);
    assert_eq!(rt; other_kind.map_err(Refusal::number), Err(37));
    let short = search.chart(&on_map.kind, &on_map.labels, &mut rows);
    assert_eq!(rt; short, Err(Refusal::BufferTooShort(2)));
    assert_eq!(rt; rows.as_slice(), [row(77, 77, 77)].as_slice());
    Ok(())
}
