//! Road files with a fault in every place, and good ones.
use crate::faults::{Place, expect_fault};
use files::fault::FileName;
use files::road_file::read_roads;
use maps::Map;
use maps::road::Road;
use maps::table::{TableMap, Tables};
use std::alloc::{AllocError, Global};
use std::process::Abort;
use std::test::Fail;

const NAMES: &[u8] = b"from to seconds watthours\n";

const GOOD: &[u8] = b"0 1 60 300\n";

// A text, and the line, the field and the number of its fault.
type Case = (&'static [u8], usize, usize, u8);

const WHOLE_FILES: [Case; 20] = [
    (b"", 1, 0, 20),
    (b"\n", 1, 0, 20),
    (b"from to seconds watthours", 1, 0, 25),
    (b"no names", 1, 0, 25),
    (b"no names\n0 1", 1, 0, 20),
    (b"from to seconds watthours\r\n", 1, 0, 20),
    (b"from to seconds\n", 1, 0, 20),
    (b"from to seconds watthours to\n", 1, 0, 20),
    (b"from to to watthours\n", 1, 0, 20),
    (b"from  to seconds watthours\n", 1, 0, 20),
    (b" from to seconds watthours\n", 1, 0, 20),
    (b"from to seconds watthours \n", 1, 0, 20),
    (b"From to seconds watthours\n", 1, 0, 20),
    (b"from to seconds watthour\n", 1, 0, 20),
    (b"from to seconds watthours\n0 1 60 300", 2, 0, 25),
    (b"from to seconds watthours\n0 1 60 300\n0 1", 3, 0, 25),
    (b"from to seconds watthours\n0 1 60\n0 1", 2, 0, 21),
    (b"watthours seconds to from\nx 0 256 1\n", 2, 1, 22),
    (b"watthours seconds to from\n3 0 256 1\n", 2, 2, 12),
    (b"watthours seconds to from\n3 1 256 x\n", 2, 3, 23),
];

// A road line, and the field and the number of its fault.
type BadLine = (&'static [u8], usize, u8);

const BAD_LINES: [BadLine; 26] = [
    (b"\n", 0, 21),
    (b"0 1 60\n", 0, 21),
    (b"0 1 60 300 4\n", 0, 21),
    (b"0  1 60 300\n", 0, 21),
    (b" 0 1 60 300\n", 0, 21),
    (b"0 1 60 300 \n", 0, 21),
    (b"x 1 60 300\n", 1, 22),
    (b"00 1 60 300\n", 1, 22),
    (b"01 1 60 300\n", 1, 22),
    (b"1000000 1 60 300\n", 1, 22),
    (b"0 -1 60 300\n", 2, 22),
    (b"0 1 -60 300\n", 3, 22),
    (b"0 1 +60 300\n", 3, 22),
    (b"0 1 60 -0\n", 4, 22),
    (b"0 1 60 --1\n", 4, 22),
    (b"0 1 60 -\n", 4, 22),
    (b"0 1 60 -01\n", 4, 22),
    (b"0 1 60 300\r\n", 4, 22),
    (b"256 1 60 300\n", 1, 23),
    (b"0 256 60 300\n", 2, 23),
    (b"256 256 0 x\n", 1, 23),
    (b"0 1 0 300\n", 3, 12),
    (b"0 1 7201 x\n", 3, 12),
    (b"0 1 60 100001\n", 4, 13),
    (b"0 1 60 -100001\n", 4, 13),
    (b"0 1 60 999999\n", 4, 13),
];

// Asserts that a road file has the fault that is expected, or none.
fn expect_road_fault(
    rt: &(impl Abort + AllocGlobal),
    text: &[u8],
    room: u32,
    expected: Option<Place>,
) {
    let read = read_roads(rt.alloc(), text, room);
    expect_fault(rt, FileName::Roads, read, expected);
}

#[test]
fn the_first_fault_from_the_top_is_told(rt: HostRuntime) {
    for (text, line, field, number) in WHOLE_FILES {
        expect_road_fault(&rt, text, 256, Some((line, field, number)));
    }
}

// A road file of three lines with this one at a place.
fn among_good(heap: Global, line: &[u8], place: usize) -> Result<Vec<u8>, AllocError> {
    let mut text = Vec::new(heap);
    text.extend_from_slice(NAMES)?;
    for k in 0..3usize {
        text.extend_from_slice(if k == place { line } else { GOOD })?;
    }
    Ok(text)
}

#[test]
fn a_bad_line_is_told_as_first_middle_and_last(rt: HostRuntime) -> Result<(), Fail> {
    for (line, field, number) in BAD_LINES {
        for place in 0..3usize {
            let text = among_good(rt.alloc(), line, place)?;
            expect_road_fault(&rt, text.as_slice(), 256, Some((place + 2, field, number)));
        }
    }
    Ok(())
}

// Roads from junction 5, one line each, behind a road from 0.
fn from_five(heap: Global, roads: usize) -> Result<Vec<u8>, AllocError> {
    let mut text = Vec::new(heap);
    text.extend_from_slice(NAMES)?;
    text.extend_from_slice(GOOD)?;
    for _ in 0..roads {
        text.extend_from_slice(b"5 0 9 -7\n")?;
    }
    Ok(text)
}

#[test]
fn twelve_roads_fit_and_a_thirteenth_does_not(rt: HostRuntime) -> Result<(), Fail> {
    let twelve = from_five(rt.alloc(), 12)?;
    expect_road_fault(&rt, twelve.as_slice(), 256, None);
    let more = from_five(rt.alloc(), 14)?;
    expect_road_fault(&rt, more.as_slice(), 256, Some((15, 0, 24)));
    Ok(())
}

// The same roads under names in two orders; the second road from 0 is to 2.
const ORDERS: [&[u8]; 2] = [
    b"from to seconds watthours\n0 1 60 300\n2 3 30 250\n0 2 40 -700\n",
    b"watthours from seconds to\n300 0 60 1\n250 2 30 3\n-700 0 40 2\n",
];

// Whether the map of these tables has the roads of both files.
fn holds_the_roads(tables: Tables<'_>) -> bool {
    let Ok(map) = TableMap::new(tables) else {
        return false;
    };
    map.junctions() == 4
        && map.place(0, 1)
            == Ok(Some(Road {
                head: 2,
                seconds: 40,
                draw: -700,
            }))
        && map.place(0, 2) == Ok(None)
}

#[test]
fn roads_stand_at_their_places_whatever_the_order_of_names(rt: HostRuntime) -> Result<(), Fail> {
    for text in ORDERS {
        let tables = read_roads(rt.alloc(), text, 256)?;
        assert!(rt; holds_the_roads(tables.lent()));
    }
    Ok(())
}

// A road file, the room, and the junctions that it names.
type Size = (&'static [u8], u32, u32);

const SIZES: [Size; 5] = [
    (b"from to seconds watthours\n", 256, 0),
    (b"from to seconds watthours\n", 0, 0),
    (b"from to seconds watthours\n255 0 1 -100000\n", 256, 256),
    (b"from to seconds watthours\n0 255 7200 100000\n", 256, 256),
    (b"from to seconds watthours\n9599 0 1 0\n", u32::MAX, 9_600),
];

#[test]
fn junctions_are_one_above_the_largest_named(rt: HostRuntime) -> Result<(), Fail> {
    for (text, room, junctions) in SIZES {
        let tables = read_roads(rt.alloc(), text, room)?;
        assert_eq!(rt; tables.junctions, junctions);
        assert_eq!(rt; tables.counts.len(), junctions as usize);
        assert_eq!(rt; tables.draws.len(), 12 * (junctions as usize));
    }
    expect_road_fault(
        &rt,
        b"from to seconds watthours\n0 0 1 0\n",
        0,
        Some((2, 1, 23)),
    );
    expect_road_fault(
        &rt,
        b"from to seconds watthours\n9600 0 1 0\n",
        u32::MAX,
        Some((2, 1, 23)),
    );
    Ok(())
}
