//! Making a search, and beginning it.
ghost use Rattle.std.specs.Prelude.{◌≡◌, length};
ghost use Rattle.std.specs.Result.{result_err};
ghost use Rattle.promises.specs.Numbers.{new_numbers, tables};
ghost use Rattle.promises.specs.Begin.{BeginPromise, begin_check, query};
ghost use Rattle.promises.specs.Runs.Call.{begin as begin_call};
ghost use Rattle.promises.specs.Law.{EveryRunKeeps, NothingToldOfCharts};
ghost use Rattle.search.specs.SearchNumbers.{numbers};

use super::push_roads;
use crate::search::{Search, Underway};
use front::arrival::Arrival;
use front::label::Label;
use loads::Kind;
use maps::Map;
use promises::candidate::Candidate;
use promises::standing::Standing;
use promises::trip::Trip;
use queue::Heap;
use refusals::refusal::Refusal;
use walks::trial::LATEST_DEADLINE;

// The first check that a beginning fails.
fn check_begin<M: Map, K: Kind>(
    map: &M,
    kind: &K,
    trip: Trip<K::Load>,
    labels: usize,
    waiting: usize,
) -> Result<(), Refusal>
    ensures { result_err result ≡ begin_check (length (M.Map.rows map.now)) ((K.Kind.meaning kind.now).admits trip.load) trip.start trip.goal trip.deadline labels waiting }
{
    let junctions = map.junctions();
    if trip.start >= junctions {
        return Err(Refusal::StartOffMap);
    }
    if trip.goal >= junctions {
        return Err(Refusal::GoalOffMap);
    }
    if !kind.admits(trip.load) {
        return Err(Refusal::StartLoadNotAdmitted);
    }
    if trip.deadline > LATEST_DEADLINE {
        return Err(Refusal::DeadlineTooLate);
    }
    if !(1..=65_535).contains(&labels) {
        return Err(Refusal::LabelTableSize);
    }
    if waiting < 12 * labels {
        return Err(Refusal::WaitingTableTooShort);
    }
    Ok(())
}

impl Search {
    /// A search that has not begun.
    pub fn new() -> Search
        ensures not_begun { numbers result ≡ new_numbers }
    {
        Search { run: None }
    }

    /// Begins, or begins afresh: lists label 0, the empty walk. Answers arrived where the start is the
    /// goal, and paused otherwise.
    pub fn begin<M: Map, K: Kind>(
        &mut self,
        map: &M,
        kind: &K,
        trip: Trip<K::Load>,
        labels: &mut [Label<K::Load>],
        waiting: &mut [Candidate<K::Load>],
    ) -> Result<Standing, Refusal>
        ensures promised { BeginPromise (query (M.Map.rows map.now) (K.Kind.meaning kind.now) trip.start trip.load trip.goal trip.deadline) (tables labels.old waiting.old labels.new waiting.new) (numbers self.old) (numbers self.new) result }
        ensures every_run_with_this_call_keeps_the_law { EveryRunKeeps NothingToldOfCharts (numbers self.old) (begin_call (query (M.Map.rows map.now) (K.Kind.meaning kind.now) trip.start trip.load trip.goal trip.deadline) (tables labels.old waiting.old labels.new waiting.new) result) }
    {
        let room = labels.len();
        let width = waiting.len();
        check_begin(map, kind, trip, room, width)?;
        let arrival = Arrival {
            junction: trip.start,
            time: 0,
            load: trip.load,
        };
        labels[0] = Label {
            arrival,
            before: 0,
            place: 0,
        };
        let mut heap = Heap::over(waiting, 0);
        push_roads(map, kind, arrival, 0, trip.deadline, &mut heap);
        self.run = Some(Underway {
            junctions: map.junctions(),
            goal: trip.goal,
            deadline: trip.deadline,
            room: room as u32,
            width,
            listed: 1,
            waiting: heap.len(),
        });
        if trip.start == trip.goal {
            return Ok(Standing::Arrived(0));
        }
        Ok(Standing::Paused)
    }
}
