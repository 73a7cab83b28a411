//! The estate, closures, and layers piled on layers.
use maps::Map;
use maps::closures::Closures;
use maps::estate::{Estate, EstateNumbers};
use maps::heater::{Heater, Power};
use maps::table::{TableMap, Tables};
use refusals::refusal::Refusal;
use std::test::Fail;

const MOST: u32 = u32::MAX;

// An estate of roads that draw 40 along a row, 47 to the next and 33 back.
fn estate(width: u32, height: u32, seconds: u32) -> Result<Estate, Refusal> {
    Estate::new(EstateNumbers {
        width,
        height,
        seconds,
        flat: 40,
        rise: 7,
    })
}

// The head and draw of the road at a place of any map, or the number that refuses the question.
fn at<M: Map>(map: &M, junction: u32, place: u32) -> Result<Option<(u32, i32)>, u8> {
    map.place(junction, place)
        .map(|road| road.map(|road| (road.head, road.draw)))
        .map_err(Refusal::number)
}

#[test]
fn estates_are_refused_by_the_first_check_that_fails(rt: HostRuntime) {
    // width, height, seconds, flat draw and rise, and whether they are accepted or by which number they are refused
    let cases = [
        (0, 1, 0, MOST, MOST, Err(17)),
        (1, 0, 1, 0, 0, Err(17)),
        (98, 98, 1, 0, 0, Err(17)),
        (MOST, MOST, 1, 0, 0, Err(17)),
        (9_600, 1, 0, MOST, 0, Err(12)),
        (1, 9_600, 7_201, 0, 0, Err(12)),
        (98, 97, 7_200, 50_001, 0, Err(18)),
        (98, 97, 7_200, 0, MOST, Err(18)),
        (98, 97, 7_200, 50_000, 50_000, Ok(())),
    ];
    for (width, height, seconds, flat, rise, expected) in cases {
        let estate = Estate::new(EstateNumbers {
            width,
            height,
            seconds,
            flat,
            rise,
        });
        assert_eq!(rt; estate.map(|_| ()).map_err(Refusal::number), expected);
    }
}

#[test]
fn estates_lead_to_their_neighbours(rt: HostRuntime) -> Result<(), Fail> {
    let map = estate(3, 2, 10)?;
    assert_eq!(rt; map.junctions(), 6);
    assert_eq!(rt; at(&map, 1, 0), Ok(Some((4, 47))));
    assert_eq!(rt; at(&map, 1, 1), Ok(Some((2, 40))));
    assert_eq!(rt; at(&map, 1, 2), Ok(None));
    assert_eq!(rt; at(&map, 1, 3), Ok(Some((0, 40))));
    assert_eq!(rt; at(&map, 5, 0), Ok(None));
    assert_eq!(rt; at(&map, 5, 1), Ok(None));
    assert_eq!(rt; at(&map, 5, 2), Ok(Some((2, 33))));
    assert_eq!(rt; at(&map, 5, 4), Ok(None));
    assert_eq!(rt; at(&map, 5, 12), Err(10));
    assert_eq!(rt; at(&map, 6, 12), Err(9));
    Ok(())
}

#[test]
fn places_are_shut_and_reopened_one_by_one(rt: HostRuntime) -> Result<(), Fail> {
    let mut map = Closures::over(estate(10, 10, 10)?);
    assert_eq!(rt; map.shut(100, 12).map_err(Refusal::number), Err(9));
    assert_eq!(rt; map.shut(99, 12).map_err(Refusal::number), Err(10));
    assert_eq!(rt; map.reopen(0, 0).map_err(Refusal::number), Err(35));
    assert_eq!(rt; map.shut(0, 0), Ok(()));
    assert_eq!(rt; map.shut(0, 11), Ok(()));
    assert_eq!(rt; map.shut(0, 0).map_err(Refusal::number), Err(34));
    assert_eq!(rt; at(&map, 0, 0), Ok(None));
    assert_eq!(rt; at(&map, 0, 1), Ok(Some((1, 40))));
    assert_eq!(rt; map.reopen(0, 0), Ok(()));
    assert_eq!(rt; map.reopen(0, 0).map_err(Refusal::number), Err(35));
    assert_eq!(rt; at(&map, 0, 0), Ok(Some((10, 47))));
    Ok(())
}

#[test]
fn sixty_four_places_are_shut_at_most(rt: HostRuntime) -> Result<(), Fail> {
    let mut map = Closures::over(estate(10, 10, 10)?);
    for junction in 0..64u32 {
        assert_eq!(rt; map.shut(junction, 1), Ok(()));
    }
    assert_eq!(rt; map.shut(5, 1).map_err(Refusal::number), Err(34));
    assert_eq!(rt; map.shut(64, 1).map_err(Refusal::number), Err(36));
    assert_eq!(rt; map.reopen(20, 1), Ok(()));
    assert_eq!(rt; map.shut(64, 1), Ok(()));
    assert_eq!(rt; at(&map, 64, 1), Ok(None));
    assert_eq!(rt; at(&map, 20, 1), Ok(Some((21, 40))));
    Ok(())
}

#[test]
fn layers_lie_over_any_map(rt: HostRuntime) -> Result<(), Fail> {
    let tables = Tables {
        counts: &[2],
        heads: &[0; 12],
        times: &[60; 12],
        draws: &[99_990, 300, 0, 0, 0, 0, 0, 0, 0, 0, 0, 0],
    };
    let mut table = TableMap::empty();
    assert_eq!(rt; table.load(tables), Ok(()));
    let power = Power::new(1_000)?;
    let estate = estate(2, 2, 36)?;
    // a heater over closures over a table
    let heated = Heater::over(Closures::over(table), power);
    assert_eq!(rt; at(&heated, 0, 0), Ok(None));
    assert_eq!(rt; at(&heated, 0, 1), Ok(Some((0, 317))));
    // closures over a heater over an estate
    let mut closed = Closures::over(Heater::over(estate, power));
    assert_eq!(rt; closed.shut(0, 0), Ok(()));
    assert_eq!(rt; at(&closed, 0, 0), Ok(None));
    assert_eq!(rt; at(&closed, 0, 1), Ok(Some((1, 50))));
    // closures over closures: a place stays shut until both reopen it
    let mut twice = Closures::over(closed);
    assert_eq!(rt; twice.shut(0, 0), Ok(()));
    assert_eq!(rt; twice.reopen(0, 0), Ok(()));
    assert_eq!(rt; at(&twice, 0, 0), Ok(None));
    Ok(())
}
