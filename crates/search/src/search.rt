//! The numbers that a search keeps of its own.
ghost use Rattle.std.specs.Prelude.{◌*◌, ◌≤◌};

mod chart;
mod listing;
mod trace;

use refusals::refusal::Refusal;

/// A search. Its label table and its waiting table are lent to each call that needs them.
// Map, kind and the two tables are parameters of their own: the caller's, shown anew to each call, of which some take fewer.
#[derive(Drop)]
pub struct Search {
    // what it keeps since the last begin that was accepted
    run: Option<Underway>,
}

// What a search keeps of its own that has begun.
#[derive(Clone, Copy)]
struct Underway {
    junctions: u32,
    goal: u32,
    deadline: u32,
    // the lengths of the label table and of the waiting table
    room: u32,
    width: usize,
    // how many labels are listed, and how many candidates wait
    listed: u32,
    waiting: usize,
    ghost sized: { (listed ≤ room) × (room ≤ 65535) × (waiting ≤ 12 * listed) × (12 * room ≤ width) },
}

impl Search {
    ghost use Rattle.std.specs.Prelude.{◌≡◌};
    ghost use Rattle.search.specs.Steps.{begun_with};

    // What a search keeps that has begun with a label table of this length.
    fn begun_with(&self, labels: usize) -> Result<Underway, Refusal>
        ensures { result ≡ begun_with self.now.run labels }
    {
        let run = self.run.ok_or(Refusal::NotBegun)?;
        if labels != run.room as usize {
            return Err(Refusal::NotAsBegun);
        }
        Ok(run)
    }
}
