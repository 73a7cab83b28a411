//! The walk of a listed label, read back along the labels before it.
ghost use Rattle.std.specs.Prelude.{◌≡◌, ◌<◌, ◌≤◌, List, ◌++◌, length, drop};
ghost use Rattle.std.specs.Iterator.{at_most};
ghost use Rattle.promises.specs.Trace.{TracePromise};
ghost use Rattle.promises.specs.Runs.Call.{trace as trace_call};
ghost use Rattle.promises.specs.Law.{EveryRunKeeps, NothingToldOfCharts};
ghost use Rattle.search.specs.SearchNumbers.{numbers};
ghost use Rattle.front.specs.Labels.{Traces};

use super::Search;
use front::label::Label;
use front::leg::Leg;
use refusals::refusal::Refusal;

// The legs of a label's walk, the last one first.
#[derive(Drop)]
struct LegsBack<'a, L> {
    labels: &'a [Label<L>],
    // the label to which the legs that are left lead
    label: u32,
    ghost inside: { label < length labels.now },
}

impl<L: Copy> Iterator for LegsBack<'_, L> {
    ghost use Rattle.search.specs.WalksBack.{OneLegBack};

    type Item = Leg<L>;

    ghost next_gives = { OneLegBack };

    ghost remaining = { λ s. at_most s.label };

    #[tactic(auto, using(crate::proofs::WalkingBack::one_leg_back))]
    fn next(&mut self) -> Option<Leg<L>> {
        let here = self.labels[self.label as usize];
        if here.before >= self.label {
            return None;
        }
        let from = self.labels[here.before as usize];
        self.label = here.before;
        Some(Leg {
            junction: from.arrival.junction,
            place: here.place,
            time: here.arrival.time,
            load: here.arrival.load,
        })
    }
}

// How many roads a label's walk has.
fn count_roads<L: Copy>(labels: &[Label<L>], label: u32) -> u32
    requires { label < length labels.now }
    ensures { (w : List (Leg L)) → Traces labels.now label w → result ≡ length w }
{
    LegsBack { labels, label }.count() as u32
}

// Writes a label's walk of `count` roads, the last road first.
#[tactic(auto, using(crate::proofs::WalkingBack::written_back))]
fn write_walk<L: Copy>(labels: &[Label<L>], label: u32, count: u32, walk: &mut [Leg<L>])
    requires { (label < length labels.now) × (count ≤ length walk.old) }
    ensures later_untouched { drop count walk.new ≡ drop count walk.old }
    ensures legs { (w : List (Leg L)) → Traces labels.now label w → count ≡ length w → walk.new ≡ w ++ drop (length w) walk.old }
{
    // By index: after a loop over iter_mut a proof knows the length alone.
    for (i, leg) in (0..count as usize).rev().zip(LegsBack { labels, label }) {
        walk[i] = leg;
    }
}

impl Search {
    /// Writes the walk of a listed label, one leg a road, from the start on, and answers their count.
    pub fn trace<L: Copy>(
        &self,
        labels: &[Label<L>],
        label: u32,
        walk: &mut [Leg<L>],
    ) -> Result<u32, Refusal>
        ensures promised { TracePromise label labels.now walk.old walk.new (numbers self.now) result }
        ensures every_run_with_this_call_keeps_the_law { EveryRunKeeps NothingToldOfCharts (numbers self.now) (trace_call label labels.now walk.old walk.new result) }
    {
        let run = self.begun_with(labels.len())?;
        if label >= run.listed {
            return Err(Refusal::LabelNotListed);
        }
        let count = count_roads(labels, label);
        if walk.len() < count as usize {
            return Err(Refusal::BufferTooShort(count));
        }
        write_walk(labels, label, count, walk);
        Ok(count)
    }
}
