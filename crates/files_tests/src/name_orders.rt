//! The same roads under names in every order.
use files::road_file::read_roads;
use maps::Map;
use maps::road::Road;
use maps::table::{TableMap, Tables};
use std::alloc::{AllocError, Global};
use std::test::Fail;

// The names, and three roads in the order of these names; the second road from 0 is to 2.
const LINES: [[&str; 4]; 4] = [
    ["from", "to", "seconds", "watthours"],
    ["0", "1", "60", "300"],
    ["2", "3", "30", "250"],
    ["0", "2", "40", "-700"],
];

const ORDERS: [[usize; 4]; 24] = [
    [0, 1, 2, 3],
    [0, 1, 3, 2],
    [0, 2, 1, 3],
    [0, 2, 3, 1],
    [0, 3, 1, 2],
    [0, 3, 2, 1],
    [1, 0, 2, 3],
    [1, 0, 3, 2],
    [1, 2, 0, 3],
    [1, 2, 3, 0],
    [1, 3, 0, 2],
    [1, 3, 2, 0],
    [2, 0, 1, 3],
    [2, 0, 3, 1],
    [2, 1, 0, 3],
    [2, 1, 3, 0],
    [2, 3, 0, 1],
    [2, 3, 1, 0],
    [3, 0, 1, 2],
    [3, 0, 2, 1],
    [3, 1, 0, 2],
    [3, 1, 2, 0],
    [3, 2, 0, 1],
    [3, 2, 1, 0],
];

// A line with its cells in another order, and a space between each two.
fn push_line(text: &mut Vec<u8>, cells: [&str; 4], order: [usize; 4]) -> Result<(), AllocError> {
    let mut gap = "";
    for column in order {
        let cell = cells.get(column).copied().unwrap_or("");
        text.extend_from_slice(gap.as_bytes())?;
        text.extend_from_slice(cell.as_bytes())?;
        gap = " ";
    }
    text.extend_from_slice(b"\n")
}

fn file_in_order(heap: Global, order: [usize; 4]) -> Result<Vec<u8>, AllocError> {
    let mut text = Vec::new(heap);
    for cells in LINES {
        push_line(&mut text, cells, order)?;
    }
    Ok(text)
}

// Whether the map of these tables has the three roads, each at its place.
fn holds_the_roads(tables: Tables<'_>) -> bool {
    let road = |head, seconds, draw| {
        Ok(Some(Road {
            head,
            seconds,
            draw,
        }))
    };
    TableMap::new(tables).is_ok_and(|map| {
        map.junctions() == 4
            && map.place(0, 0) == road(1, 60, 300)
            && map.place(0, 1) == road(2, 40, -700)
            && map.place(0, 2) == Ok(None)
            && map.place(2, 0) == road(3, 30, 250)
    })
}

#[test]
fn roads_are_the_same_under_names_in_every_order(rt: HostRuntime) -> Result<(), Fail> {
    for order in ORDERS {
        let text = file_in_order(rt.alloc(), order)?;
        let tables = read_roads(rt.alloc(), text.as_slice(), 256)?;
        assert!(rt; holds_the_roads(tables.lent()));
    }
    Ok(())
}
