//! Query files with faults, and good ones.
use crate::faults::{Place, expect_fault};
use files::fault::FileName;
use files::queries::{Question, read_queries};
use std::test::Fail;

// A text, and its fault if it has one.
type Case = (&'static [u8], Option<Place>);

const CASES: [Case; 12] = [
    (b"", Some((1, 0, 20))),
    (
        b"start goal charge capacity deadline heater",
        Some((1, 0, 25)),
    ),
    (b"start goal charge capacity deadline\n", Some((1, 0, 20))),
    (
        b"start goal charge capacity deadline start\n",
        Some((1, 0, 20)),
    ),
    (b"from to seconds watthours\n", Some((1, 0, 20))),
    (b"start goal charge capacity deadline heater\n", None),
    (
        b"start goal charge capacity deadline heater\n999999 999999 999999 999999 999999 999999\n",
        None,
    ),
    (
        b"start goal charge capacity deadline heater\n0 3 1 1 9\n",
        Some((2, 0, 21)),
    ),
    (
        b"start goal charge capacity deadline heater\n0 3 1 1 9 0\n\n",
        Some((3, 0, 21)),
    ),
    (
        b"start goal charge capacity deadline heater\n0 3 -1 1 9 0\n",
        Some((2, 3, 22)),
    ),
    (
        b"start goal charge capacity deadline heater\n0 3 1 1 9 0\n0 3 1 1 9 00\n",
        Some((3, 6, 22)),
    ),
    (
        b"start goal charge capacity deadline heater\n0 3 1 1 9 0\n0 3 1 1 9 0",
        Some((3, 0, 25)),
    ),
];

#[test]
fn the_first_fault_from_the_top_is_told(rt: HostRuntime) {
    for (text, fault) in CASES {
        expect_fault(
            &rt,
            FileName::Queries,
            read_queries(rt.alloc(), text),
            fault,
        );
    }
}

// The same query under names in two orders.
const ORDERS: [&[u8]; 2] = [
    b"start goal charge capacity deadline heater\n0 3 949 1000 999 17\n",
    b"heater deadline goal start capacity charge\n17 999 3 0 1000 949\n",
];

#[test]
fn names_stand_in_any_order(rt: HostRuntime) -> Result<(), Fail> {
    let expected = Question {
        start: 0,
        goal: 3,
        charge: 949,
        capacity: 1_000,
        deadline: 999,
        heater: 17,
    };
    for text in ORDERS {
        let queries = read_queries(rt.alloc(), text)?;
        assert_eq!(rt; queries.as_slice(), [expected].as_slice());
    }
    Ok(())
}
