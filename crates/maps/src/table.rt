//! The table map: roads read from lent tables, one row of twelve entries for each junction.
ghost use Rattle.std.specs.Prelude.{◌≡◌, ◌*◌, ◌<◌, ◌≤◌, false, None, [], length, is_some, is_ok, if◌then◌else◌, nat_lt, slice_index, slice_index_or, pos, MatchResult};
ghost use Rattle.std.specs.List.{list_any};
ghost use Rattle.std.specs.Result.{result_err};
ghost use Rattle.maps.specs.FirstFailure.{first_failure};
ghost use Rattle.maps.specs.Table.{count_fault, road_fault, tables_rows, tables_refusal, tables_lengths_fault, tables_entry_fault};
ghost use Rattle.maps.specs.TableSound.{table_sound};

use crate::road::Road;
use crate::{MOST_JUNCTIONS, Map, check_place};
use refusals::refusal::Refusal;

/// Four tables that make a map: place `k` of junction `v` is entry `12 * v + k` of the last three where
/// `k` is below the junction's count, and is empty otherwise.
// Slices side by side, and no slice of records: the tables are lent in this form.
#[derive(Clone, Copy)]
pub struct Tables<'a> {
    pub counts: &'a [u32],
    pub heads: &'a [u32],
    pub times: &'a [u32],
    pub draws: &'a [i32],
}

/// A map over four tables, which were checked when they were loaded.
#[derive(Clone, Copy)]
pub struct TableMap<'a> {
    tables: Tables<'a>,
    ghost checked: { is_some (tables_refusal tables) ≡ false },
}

impl Road {
    // Whether the road may stand on a map of so many junctions.
    fn check(self, junctions: usize) -> Result<(), Refusal>
        ensures { result_err result ≡ road_fault junctions self.head self.seconds self.draw }
    {
        if self.head as usize >= junctions {
            return Err(Refusal::HeadOffMap);
        }
        if !(1..=7_200).contains(&self.seconds) {
            return Err(Refusal::RoadTimeOutOfRange);
        }
        if !(-100_000..=100_000).contains(&self.draw) {
            return Err(Refusal::RoadDrawOutOfRange);
        }
        Ok(())
    }
}

impl Tables<'_> {
    fn check_lengths(self) -> Result<(), Refusal>
        ensures { result_err result ≡ tables_lengths_fault self.entry }
    {
        let n = self.counts.len();
        if n > MOST_JUNCTIONS as usize
            || self.heads.len() != 12 * n
            || self.times.len() != 12 * n
            || self.draws.len() != 12 * n
        {
            return Err(Refusal::TableLengthsDisagree);
        }
        Ok(())
    }

    fn check_counts(self) -> Result<(), Refusal>
        ensures { result_err result ≡ first_failure (count_fault self.entry.counts.now) (length self.entry.counts.now) }
    {
        if self.counts.iter().any(|count| *count > 12) {
            return Err(Refusal::CountAboveTwelve);
        }
        Ok(())
    }

    // What stands at an entry that is below its junction's count.
    fn road(self, entry: usize) -> Road
        requires within_the_heads { entry < length self.heads.now }
        requires within_the_times { entry < length self.times.now }
        requires within_the_draws { entry < length self.draws.now }
        ensures { result ≡ record { head = slice_index self.entry.heads.now entry; seconds = slice_index self.entry.times.now entry; draw = slice_index_or self.entry.draws.now entry (pos 0) } }
    {
        Road {
            head: self.heads[entry],
            seconds: self.times[entry],
            draw: self.draws[entry],
        }
    }

    // Checks every road, in the order of the entries: junction after junction, by the place of each in its row.
    fn check_roads(self) -> Result<(), Refusal>
        requires lengths_agree { tables_lengths_fault self ≡ None }
        requires twelve_at_most { first_failure (count_fault self.counts.now) (length self.counts.now) ≡ None }
        ensures { result_err result ≡ first_failure (tables_entry_fault self.entry) (12 * length self.entry.counts.now) }
    {
        for v in 0..self.counts.len() {
            let first = 12 * v;
            for entry in first..first + self.counts[v] as usize {
                self.road(entry).check(self.counts.len())?;
            }
        }
        Ok(())
    }

    // The first check that the tables fail: their lengths, then every count, then every road.
    fn check(self) -> Result<(), Refusal>
        ensures { result_err result ≡ tables_refusal self.entry }
    {
        self.check_lengths()?;
        self.check_counts()?;
        self.check_roads()
    }
}

impl<'a> TableMap<'a> {
    /// The map over these tables. Refuses tables that fail a check: their lengths, then every count, then every
    /// road in the order of the entries.
    pub fn new(tables: Tables<'a>) -> Result<TableMap<'a>, Refusal>
        ensures refused_by_the_first_failing_check_else_over_these_tables { MatchResult result (λ m. (tables_refusal tables.entry ≡ None) × (m.tables ≡ tables.entry)) (λ e. tables_refusal tables.entry ≡ Some e) }
    {
        tables.check()?;
        Ok(TableMap { tables })
    }

    /// The map of no junctions, to load tables into.
    pub fn empty() -> TableMap<'a>
        ensures all_tables_empty { (result.tables.counts.now ≡ []) × (result.tables.heads.now ≡ []) × (result.tables.times.now ≡ []) × (result.tables.draws.now ≡ []) }
    {
        TableMap {
            tables: Tables {
                counts: &[],
                heads: &[],
                times: &[],
                draws: &[],
            },
        }
    }

    /// Takes these tables in place of those it has. Refuses tables that fail a check, and is then as before.
    pub fn load(&mut self, tables: Tables<'a>) -> Result<(), Refusal>
        ensures refused_by_the_first_failing_check { result_err result ≡ tables_refusal tables.entry }
        ensures tables_taken_unless_refused { self.new.tables ≡ (if is_ok result then tables.entry else self.old.tables) }
    {
        *self = TableMap::new(tables)?;
        Ok(())
    }
}

impl Map for TableMap<'_> {
    ghost rows = { λ m. tables_rows m.tables };

    ghost sound = { λ m. table_sound m.tables.counts.now m.tables.heads.now m.tables.times.now m.tables.draws.now m.checked };

    fn junctions(&self) -> u32 {
        self.tables.counts.len() as u32
    }

    fn place(&self, junction: u32, place: u32) -> Result<Option<Road>, Refusal> {
        check_place(self.junctions(), junction, place)?;
        let v = junction as usize;
        let k = place as usize;
        if place >= self.tables.counts[v] {
            return Ok(None);
        }
        Ok(Some(self.tables.road(12 * v + k)))
    }
}
