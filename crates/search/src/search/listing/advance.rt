//! Listing the next arrivals of the front.
ghost use Rattle.std.specs.Prelude.{◌≡◌, ◌+◌, ◌<◌, ◌≤◌, ◌∷◌, length, take, MatchOption};
ghost use Rattle.std.specs.Result.{result_err};
ghost use Rattle.promises.specs.Numbers.{tables};
ghost use Rattle.promises.specs.Advance.{AdvancePromise, advance_check};
ghost use Rattle.promises.specs.Runs.Call.{advance as advance_call};
ghost use Rattle.promises.specs.Law.{EveryRunKeeps, NothingToldOfCharts};
ghost use Rattle.search.specs.SearchNumbers.{numbers, underway_numbers};
ghost use Rattle.search.specs.Turns.{Turned, Lists};
ghost use Rattle.queue.specs.Heaps.{Least};
ghost use Rattle.queue.specs.Waiting.{slots, waiting, OverSameSlice, InHeapOrder};
ghost use Rattle.promises.specs.Order.{leaves_before};
ghost use Rattle.search.specs.Steps.{label_serves, served_by, Taken, EachServed};

use super::push_roads;
use crate::search::{Search, Underway};
use front::label::Label;
use loads::Kind;
use maps::Map;
use promises::candidate::Candidate;
use promises::standing::{Progress, Standing};
use queue::Heap;
use refusals::refusal::Refusal;

// Whether a label is at a candidate's junction, no later, with a load as good.
fn serves<K: Kind>(kind: &K, label: Label<K::Load>, candidate: Candidate<K::Load>) -> bool
    ensures { result ≡ label_serves (K.Kind.meaning kind.now) candidate.label.arrival label }
{
    label.arrival.junction == candidate.label.arrival.junction
        && label.arrival.time <= candidate.label.arrival.time
        && kind.as_good(label.arrival.load, candidate.label.arrival.load)
}

// Whether a listed label serves a candidate.
fn served<K: Kind>(kind: &K, listed: &[Label<K::Load>], candidate: Candidate<K::Load>) -> bool
    ensures { result ≡ served_by (K.Kind.meaning kind.now) listed.now candidate.label.arrival }
{
    listed.iter().any(|label| serves(kind, *label, candidate))
}

// Takes the least candidate that no listed label serves, and drops those before it.
fn take_next<K: Kind>(
    kind: &K,
    listed: &[Label<K::Load>],
    heap: &mut Heap<'_, Candidate<K::Load>>,
) -> Option<Candidate<K::Load>>
    ensures over_the_same_slice { OverSameSlice heap.old heap.new }
    ensures keeps_heap_order { InHeapOrder leaves_before heap.old → InHeapOrder leaves_before heap.new }
    ensures taken { MatchOption result ((heap.new.len ≡ 0) × EachServed (K.Kind.meaning kind.now) listed.now (waiting heap.old)) (λ c. (heap.new.len < heap.old.len) × Taken (K.Kind.meaning kind.now) listed.now (waiting heap.old) c (waiting heap.new)) }
    ensures least { InHeapOrder leaves_before heap.old → MatchOption result (heap.new.len ≡ 0) (λ c. Least leaves_before c (c ∷ waiting heap.new)) }
{
    while let Some(candidate) = heap.pop() {
        if !served(kind, listed, candidate) {
            return Some(candidate);
        }
    }
    None
}

impl Underway {
    // The first check that an advance fails of a search that has begun.
    fn check_advance(
        &self,
        junctions: u32,
        labels: usize,
        waiting: usize,
        budget: u32,
    ) -> Result<(), Refusal>
        ensures { result_err result ≡ advance_check (underway_numbers self.now) junctions labels waiting budget }
    {
        if junctions != self.junctions || labels != self.room as usize || waiting != self.width {
            return Err(Refusal::NotAsBegun);
        }
        if !(1..=65_535).contains(&budget) {
            return Err(Refusal::BudgetOutOfRange);
        }
        Ok(())
    }

    // What an advance answers that found so many labels listed.
    fn progress(&self, before: u32, standing: Standing) -> Progress
        requires { before ≤ self.now.listed }
        ensures { (result.standing ≡ standing) × (before + result.listed_now ≡ self.now.listed) × (result.listed_in_all ≡ self.now.listed) }
    {
        Progress {
            standing,
            listed_now: self.listed - before,
            listed_in_all: self.listed,
        }
    }

    // Lists a label, lets what its roads offer wait, and tells whether it is at the goal.
    fn list<M: Map, K: Kind>(
        &mut self,
        map: &M,
        kind: &K,
        labels: &mut [Label<K::Load>],
        heap: &mut Heap<'_, Candidate<K::Load>>,
        label: Label<K::Load>,
    ) -> Option<Standing>
        requires { (length labels.old ≡ self.old.room) × (length (slots heap.old) ≡ self.old.width) × (self.old.listed < self.old.room) × (heap.old.len ≤ self.old.waiting) }
        ensures over_the_same_slice { OverSameSlice heap.old heap.new }
        ensures listed { Lists (M.Map.rows map.now) (K.Kind.meaning kind.now) labels.old labels.new heap.old heap.new (underway_numbers self.old) (underway_numbers self.new) label result }
    {
        let at = self.listed;
        labels[at as usize] = label;
        push_roads(map, kind, label.arrival, at, self.deadline, heap);
        self.listed = at + 1;
        self.waiting = heap.len();
        (label.arrival.junction == self.goal).then_some(Standing::Arrived(at))
    }

    // Lists the next arrival of the front, or drops what waits; tells how the search stands where the advance is to stop.
    fn turn<M: Map, K: Kind>(
        &mut self,
        map: &M,
        kind: &K,
        labels: &mut [Label<K::Load>],
        waiting: &mut [Candidate<K::Load>],
    ) -> Option<Standing>
        requires { (length labels.old ≡ self.old.room) × (length waiting.old ≡ self.old.width) }
        ensures { Turned (M.Map.rows map.now) (K.Kind.meaning kind.now) (tables labels.old waiting.old labels.new waiting.new) (underway_numbers self.old) (underway_numbers self.new) result }
    {
        let mut heap = Heap::over(waiting, self.waiting);
        let listed = self.listed as usize;
        let Some(candidate) = take_next(kind, &labels[..listed], &mut heap) else {
            self.waiting = 0;
            return Some(Standing::Ended);
        };
        if self.listed == self.room {
            heap.push(candidate).unwrap();
            self.waiting = heap.len();
            return Some(Standing::Full);
        }
        self.list(map, kind, labels, &mut heap, candidate.label)
    }
}

impl Search {
    /// Lists the next arrivals of the front, as many as the budget says, up to the first at the goal.
    pub fn advance<M: Map, K: Kind>(
        &mut self,
        map: &M,
        kind: &K,
        labels: &mut [Label<K::Load>],
        waiting: &mut [Candidate<K::Load>],
        budget: u32,
    ) -> Result<Progress, Refusal>
        ensures promised { AdvancePromise (M.Map.rows map.now) (K.Kind.meaning kind.now) budget (tables labels.old waiting.old labels.new waiting.new) (numbers self.old) (numbers self.new) result }
        ensures every_run_with_this_call_keeps_the_law { EveryRunKeeps NothingToldOfCharts (numbers self.old) (advance_call (M.Map.rows map.now) (K.Kind.meaning kind.now) budget (tables labels.old waiting.old labels.new waiting.new) result) }
    {
        let run = self.run.as_mut().ok_or(Refusal::NotBegun)?;
        run.check_advance(map.junctions(), labels.len(), waiting.len(), budget)?;
        let before = run.listed;
        for _ in 0..budget {
            if let Some(standing) = run.turn(map, kind, labels, waiting) {
                return Ok(run.progress(before, standing));
            }
        }
        Ok(run.progress(before, Standing::Paused))
    }
}
