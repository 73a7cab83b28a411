//! Bad input of every kind gets its number and changes nothing.
use loads::Kind;
use loads::charge::{Charge, ChargeKind};
use maps::Map;
use maps::heater::Power;
use maps::road::Road;
use maps::table::{TableMap, Tables};
use refusals::refusal::Refusal;
use std::process::Abort;
use std::test::Fail;

const MOST: u32 = u32::MAX;

// One junction with one road: its count, head, seconds and draw, and whether it is accepted or by which number it is refused.
type Case = (u32, u32, u32, i32, Result<(), u8>);

const CASES: [Case; 14] = [
    (1, 0, 1, 100_000, Ok(())),
    (1, 0, 7_200, -100_000, Ok(())),
    (0, MOST, MOST, i32::MIN, Ok(())),
    (13, 0, 1, 0, Err(15)),
    (MOST, MOST, 0, i32::MAX, Err(15)),
    (1, 1, 1, 0, Err(16)),
    (1, MOST, 0, i32::MAX, Err(16)),
    (1, 0, 0, 0, Err(12)),
    (1, 0, 7_201, 0, Err(12)),
    (1, 0, MOST, i32::MIN, Err(12)),
    (1, 0, 1, 100_001, Err(13)),
    (1, 0, 1, -100_001, Err(13)),
    (1, 0, 1, i32::MIN, Err(13)),
    (1, 0, 1, i32::MAX, Err(13)),
];

fn numbered(rt: &impl Abort, (count, head, seconds, draw, expected): Case) {
    let mut heads = [0; 12];
    let mut times = [0; 12];
    let mut draws = [0; 12];
    heads[0] = head;
    times[0] = seconds;
    draws[0] = draw;
    let tables = Tables {
        counts: &[count],
        heads: &heads,
        times: &times,
        draws: &draws,
    };
    let mut map = TableMap::empty();
    assert_eq!(rt; map.load(tables).map_err(Refusal::number), expected);
    // an accepted table is the map's own, and a refused one has changed nothing
    assert_eq!(rt; map.junctions(), u32::from(expected.is_ok()));
}

#[test]
fn tables_are_refused_by_the_first_check_that_fails(rt: HostRuntime) {
    for case in CASES {
        numbered(&rt, case);
    }
}

// Tables of one junction, whose every entry is bad besides.
const ROW: [u32; 12] = [MOST; 12];

const DRAWS: [i32; 12] = [i32::MIN; 12];

const WHOLE: Tables<'static> = Tables {
    counts: &[13],
    heads: &ROW,
    times: &ROW,
    draws: &DRAWS,
};

#[test]
fn tables_of_other_lengths_are_refused_before_any_entry(rt: HostRuntime) {
    let short = &ROW[0..11];
    let cases = [
        (
            Tables {
                heads: short,
                ..WHOLE
            },
            14,
        ),
        (
            Tables {
                times: short,
                ..WHOLE
            },
            14,
        ),
        (
            Tables {
                draws: &DRAWS[0..11],
                ..WHOLE
            },
            14,
        ),
        (
            Tables {
                counts: &[],
                ..WHOLE
            },
            14,
        ),
        (WHOLE, 15),
    ];
    let mut map = TableMap::empty();
    for (tables, number) in cases {
        assert_eq!(rt; map.load(tables).map_err(Refusal::number), Err(number));
    }
}

#[test]
fn places_are_asked_of_junctions_of_the_map_alone(rt: HostRuntime) -> Result<(), Fail> {
    let tables = Tables {
        counts: &[1],
        heads: &[0; 12],
        times: &[1; 12],
        draws: &[0; 12],
    };
    let map = TableMap::new(tables)?;
    // whether there is a road, or the number that refuses the question
    let asked = |junction, place| {
        map.place(junction, place)
            .map(|road| road.is_some())
            .map_err(Refusal::number)
    };
    assert_eq!(rt; asked(0, 0), Ok(true));
    assert_eq!(rt; asked(0, 11), Ok(false));
    assert_eq!(rt; asked(0, 12), Err(10));
    assert_eq!(rt; asked(0, MOST), Err(10));
    assert_eq!(rt; asked(1, 0), Err(9));
    assert_eq!(rt; asked(MOST, MOST), Err(9));
    Ok(())
}

#[test]
fn capacities_and_powers_have_their_bounds(rt: HostRuntime) {
    assert!(rt; ChargeKind::new(0).is_err());
    assert!(rt; ChargeKind::new(1).is_ok());
    assert!(rt; ChargeKind::new(100_000).is_ok());
    assert!(rt; ChargeKind::new(100_001).is_err());
    assert!(rt; ChargeKind::new(MOST).is_err());
    assert!(rt; Power::new(0).is_ok());
    assert!(rt; Power::new(6_000).is_ok());
    assert!(rt; Power::new(6_001).is_err());
    assert!(rt; Power::new(MOST).is_err());
}

fn over(draw: i32) -> Road {
    Road {
        head: 0,
        seconds: 1,
        draw,
    }
}

#[test]
fn numbers_that_are_no_load_answer_no(rt: HostRuntime) -> Result<(), Fail> {
    let kind = ChargeKind::new(100_000)?;
    let none = Charge { level: 100_001 };
    let some = Charge { level: 100_000 };
    assert!(rt; kind.admits(some) && !kind.admits(none));
    assert!(rt;
        !kind.as_good(none, none) && !kind.as_good(none, some) && !kind.as_good(some, none)
    );
    assert_eq!(rt; kind.rank(none), 0);
    assert!(rt; kind.drive(none, over(0)).is_none());
    assert!(rt; kind.drive(some, over(i32::MAX)).is_none());
    assert!(rt; kind.drive(some, over(i32::MIN)).is_some());
    Ok(())
}
