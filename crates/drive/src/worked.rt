//! The worked map: four junctions and five roads.
//! 0 to 1: 60 s, 300 Wh · 0 to 2: 40 s, 700 Wh · 1 to 3: 50 s, 400 Wh · 2 to 3: 30 s, 250 Wh · 2 to 1: 20 s, -200 Wh

use maps::table::Tables;

const COUNTS: [u32; 4] = [2, 1, 2, 0];

const HEADS: [u32; 48] = [
    1, 2, 0, 0, 0, 0, 0, 0, 0, 0, 0, 0, // from 0
    3, 0, 0, 0, 0, 0, 0, 0, 0, 0, 0, 0, // from 1
    3, 1, 0, 0, 0, 0, 0, 0, 0, 0, 0, 0, // from 2
    0, 0, 0, 0, 0, 0, 0, 0, 0, 0, 0, 0, // from 3
];

const TIMES: [u32; 48] = [
    60, 40, 0, 0, 0, 0, 0, 0, 0, 0, 0, 0, // from 0
    50, 0, 0, 0, 0, 0, 0, 0, 0, 0, 0, 0, // from 1
    30, 20, 0, 0, 0, 0, 0, 0, 0, 0, 0, 0, // from 2
    0, 0, 0, 0, 0, 0, 0, 0, 0, 0, 0, 0, // from 3
];

const DRAWS: [i32; 48] = [
    300, 700, 0, 0, 0, 0, 0, 0, 0, 0, 0, 0, // from 0
    400, 0, 0, 0, 0, 0, 0, 0, 0, 0, 0, 0, // from 1
    250, -200, 0, 0, 0, 0, 0, 0, 0, 0, 0, 0, // from 2
    0, 0, 0, 0, 0, 0, 0, 0, 0, 0, 0, 0, // from 3
];

/// The tables of the worked map.
pub(crate) fn tables() -> Tables<'static> {
    Tables {
        counts: &COUNTS,
        heads: &HEADS,
        times: &TIMES,
        draws: &DRAWS,
    }
}
