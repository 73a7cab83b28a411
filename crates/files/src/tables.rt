//! Tables of roads: a row of twelve entries for each junction.
ghost use Rattle.std.specs.Prelude.{◌≡◌, ◌*◌, ◌≤◌, vec_len, ◌<◌, IfOk, vec_items};

use crate::fault::LineFault;
use crate::roads::RoadLine;
use maps::table::Tables;
use refusals::refusal::Refusal;
use std::alloc::{AllocError, Global};

/// The tables that a map is loaded from: counts of `n` numbers, heads, times and draws of `12 * n`.
// four tables and no table of records, since a map is lent these four
#[derive(Drop)]
pub struct RoadTables {
    /// One above the largest junction named.
    pub junctions: u32,
    pub counts: Vec<u32>,
    pub heads: Vec<u32>,
    pub times: Vec<u32>,
    pub draws: Vec<i32>,
    ghost few: { vec_len counts ≤ 9600 },
    ghost with_heads: { vec_len heads ≡ 12 * vec_len counts },
    ghost with_times: { vec_len times ≡ 12 * vec_len counts },
    ghost with_draws: { vec_len draws ≡ 12 * vec_len counts },
}

impl RoadTables {
    ghost use Rattle.files.specs.Tables.{tables, empty_tables, fits_in, with_road, trimmed};

    // Rows without roads for so many junctions.
    pub(crate) fn new(heap: Global, room: u32) -> Result<RoadTables, AllocError>
        requires { room ≤ 9600 }
        ensures without_roads { IfOk result (λ t. tables t ≡ empty_tables room) }
        ensures rows_as_asked { IfOk result (λ t. vec_len t.counts ≡ room) }
    {
        let rows = room as usize;
        let counts = vec![in heap; 0; rows]?;
        let heads = vec![in heap; 0; 12 * rows]?;
        let times = vec![in heap; 0; 12 * rows]?;
        let draws = vec![in heap; 0; 12 * rows]?;
        Ok(RoadTables {
            junctions: 0,
            counts,
            heads,
            times,
            draws,
        })
    }

    // Puts a road at the next place of its junction; refuses a thirteenth.
    pub(crate) fn put(&mut self, road: RoadLine) -> Result<(), LineFault>
        requires { (road.from < vec_len self.old.counts) × (road.to < vec_len self.old.counts) }
        ensures refuses_a_thirteenth { result ≡ fits_in (tables self.old) road }
        ensures rows_kept { vec_len self.new.counts ≡ vec_len self.old.counts }
        ensures road_put_unless_refused { tables self.new ≡ with_road (tables self.old) road }
    {
        let from = road.from as usize;
        let count = self.counts[from];
        if count >= 12 {
            return Err(LineFault::WholeLine(Refusal::ThirteenthRoad));
        }
        let entry = 12 * from + count as usize;
        self.heads[entry] = road.to;
        self.times[entry] = road.seconds;
        self.draws[entry] = road.draw;
        self.counts[from] = count + 1;
        self.junctions = self.junctions.max(road.from + 1).max(road.to + 1);
        Ok(())
    }

    // The tables cut down to the junctions that are named.
    pub(crate) fn trimmed(mut self) -> RoadTables
        ensures { tables result ≡ trimmed (tables self) }
    {
        let rows = self.junctions as usize;
        self.counts.truncate(rows);
        self.heads.truncate(12 * rows);
        self.times.truncate(12 * rows);
        self.draws.truncate(12 * rows);
        self
    }

    /// The tables as a map takes them.
    pub fn lent(&self) -> Tables<'_>
        ensures counts_lent { result.counts.now ≡ vec_items self.now.counts }
        ensures heads_lent { result.heads.now ≡ vec_items self.now.heads }
        ensures times_lent { result.times.now ≡ vec_items self.now.times }
        ensures draws_lent { result.draws.now ≡ vec_items self.now.draws }
    {
        Tables {
            counts: &self.counts,
            heads: &self.heads,
            times: &self.times,
            draws: &self.draws,
        }
    }
}
