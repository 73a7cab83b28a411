//! The small maps, and searches on them with the tables that they are lent.
use front::arrival::Arrival;
use front::label::Label;
use front::leg::Leg;
use loads::Kind;
use loads::charge::{Charge, ChargeKind};
use maps::table::{TableMap, Tables};
use promises::candidate::Candidate;
use promises::standing::{Progress, Standing};
use promises::trip::Trip;
use refusals::refusal::Refusal;
use search::Search;
use std::alloc::{AllocError, Global};
use std::test::Fail;

// 0 to 1: 60 s, 300 Wh; 0 to 2: 40 s, 700 Wh; 1 to 3: 50 s, 400 Wh; 2 to 3: 30 s, 250 Wh; 2 to 1: 20 s, -200 Wh
// These are the tables of the program `drive` too, written again here: a test takes its input from no program.
const COUNTS: [u32; 4] = [2, 1, 2, 0];

const HEADS: [u32; 48] = [
    1, 2, 0, 0, 0, 0, 0, 0, 0, 0, 0, 0, 3, 0, 0, 0, 0, 0, 0, 0, 0, 0, 0, 0, 3, 1, 0, 0, 0, 0, 0, 0,
    0, 0, 0, 0, 0, 0, 0, 0, 0, 0, 0, 0, 0, 0, 0, 0,
];

const TIMES: [u32; 48] = [
    60, 40, 0, 0, 0, 0, 0, 0, 0, 0, 0, 0, 50, 0, 0, 0, 0, 0, 0, 0, 0, 0, 0, 0, 30, 20, 0, 0, 0, 0,
    0, 0, 0, 0, 0, 0, 0, 0, 0, 0, 0, 0, 0, 0, 0, 0, 0, 0,
];

const DRAWS: [i32; 48] = [
    300, 700, 0, 0, 0, 0, 0, 0, 0, 0, 0, 0, 400, 0, 0, 0, 0, 0, 0, 0, 0, 0, 0, 0, 250, -200, 0, 0,
    0, 0, 0, 0, 0, 0, 0, 0, 0, 0, 0, 0, 0, 0, 0, 0, 0, 0, 0, 0,
];

pub fn worked_map() -> Result<TableMap<'static>, Refusal> {
    TableMap::new(Tables {
        counts: &COUNTS,
        heads: &HEADS,
        times: &TIMES,
        draws: &DRAWS,
    })
}

// a loop at 0: 5 s, -100 Wh; 0 to 1: 10 s, 250 Wh
const LOOP_COUNTS: [u32; 2] = [2, 0];

const LOOP_HEADS: [u32; 24] = [
    0, 1, 0, 0, 0, 0, 0, 0, 0, 0, 0, 0, 0, 0, 0, 0, 0, 0, 0, 0, 0, 0, 0, 0,
];

const LOOP_TIMES: [u32; 24] = [
    5, 10, 0, 0, 0, 0, 0, 0, 0, 0, 0, 0, 0, 0, 0, 0, 0, 0, 0, 0, 0, 0, 0, 0,
];

const LOOP_DRAWS: [i32; 24] = [
    -100, 250, 0, 0, 0, 0, 0, 0, 0, 0, 0, 0, 0, 0, 0, 0, 0, 0, 0, 0, 0, 0, 0, 0,
];

pub fn map_with_a_gaining_loop() -> Result<TableMap<'static>, Refusal> {
    TableMap::new(Tables {
        counts: &LOOP_COUNTS,
        heads: &LOOP_HEADS,
        times: &LOOP_TIMES,
        draws: &LOOP_DRAWS,
    })
}

/// A label that no search writes.
pub fn label_of<L>(load: L) -> Label<L> {
    Label {
        arrival: Arrival {
            junction: 77,
            time: 77,
            load,
        },
        before: 77,
        place: 77,
    }
}

pub fn candidate_of<L>(load: L) -> Candidate<L> {
    Candidate {
        label: label_of(load),
        rank: 77,
    }
}

/// A search on a map, and the tables that it is lent.
#[derive(Drop)]
pub struct SearchOnMap<K: Kind + Drop> {
    pub map: TableMap<'static>,
    pub kind: K,
    pub labels: Vec<Label<K::Load>>,
    pub waiting: Vec<Candidate<K::Load>>,
    pub search: Search,
}

impl<K: Kind + Drop> SearchOnMap<K> {
    /// A new search with tables of these lengths, filled with records of this load.
    pub fn new(
        heap: Global,
        map: TableMap<'static>,
        kind: K,
        load: K::Load,
        labels: usize,
        waiting: usize,
    ) -> Result<SearchOnMap<K>, AllocError> {
        Ok(SearchOnMap {
            map,
            kind,
            labels: vec![in heap; label_of(load); labels]?,
            waiting: vec![in heap; candidate_of(load); waiting]?,
            search: Search::new(),
        })
    }

    pub fn begin(&mut self, trip: Trip<K::Load>) -> Result<Standing, Refusal> {
        self.search.begin(
            &self.map,
            &self.kind,
            trip,
            &mut self.labels,
            &mut self.waiting,
        )
    }

    pub fn advance(&mut self, budget: u32) -> Result<Progress, Refusal> {
        self.search.advance(
            &self.map,
            &self.kind,
            &mut self.labels,
            &mut self.waiting,
            budget,
        )
    }
}

pub fn progress(standing: Standing, listed_now: u32, listed_in_all: u32) -> Progress {
    Progress {
        standing,
        listed_now,
        listed_in_all,
    }
}

pub fn trip<L>(start: u32, load: L, goal: u32, deadline: u32) -> Trip<L> {
    Trip {
        start,
        load,
        goal,
        deadline,
    }
}

pub fn charge(level: u32) -> Charge {
    Charge { level }
}

pub fn leg(junction: u32, place: u32, time: u32, level: u32) -> Leg<Charge> {
    Leg {
        junction,
        place,
        time,
        load: charge(level),
    }
}

/// A new search of the worked map for charges, with tables of these lengths.
pub fn charges_on_worked_map(
    heap: Global,
    labels: usize,
    waiting: usize,
) -> Result<SearchOnMap<ChargeKind>, Fail> {
    let kind = ChargeKind::new(1_000)?;
    let map = worked_map()?;
    Ok(SearchOnMap::new(heap, map, kind, charge(77), labels, waiting)?)
}
