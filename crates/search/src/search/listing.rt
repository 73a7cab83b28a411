//! Listing a label: what its roads offer comes to wait.
ghost use Rattle.std.specs.Prelude.{◌≡◌, ◌+◌, ◌<◌, ◌≤◌, length};
ghost use Rattle.queue.specs.Waiting.{slots, waiting, OverSameSlice, InHeapOrder};
ghost use Rattle.promises.specs.Order.{leaves_before};
ghost use Rattle.search.specs.Steps.{offer, GrownBy};

use front::arrival::Arrival;
use front::label::Label;
use loads::Kind;
use maps::Map;
use promises::candidate::Candidate;
use queue::Heap;
use walks::step::step;

mod advance;
mod begin;

// The candidate that the road at a place offers, if it can be driven within the deadline.
fn follow<M: Map, K: Kind>(
    map: &M,
    kind: &K,
    from: Arrival<K::Load>,
    number: u32,
    place: u32,
    deadline: u32,
) -> Option<Candidate<K::Load>>
    ensures { result ≡ offer (M.Map.rows map.now) (K.Kind.meaning kind.now) deadline from number place }
{
    let arrival = step(map, kind, deadline, from, place).ok()?;
    Some(Candidate {
        label: Label {
            arrival,
            before: number,
            place,
        },
        rank: kind.rank(arrival.load),
    })
}

// Lets what the twelve places of a label offer wait.
fn push_roads<M: Map, K: Kind>(
    map: &M,
    kind: &K,
    from: Arrival<K::Load>,
    number: u32,
    deadline: u32,
    heap: &mut Heap<'_, Candidate<K::Load>>,
)
    requires { heap.old.len + 12 ≤ length (slots heap.old) }
    ensures over_the_same_slice { OverSameSlice heap.old heap.new }
    ensures few { heap.new.len ≤ heap.old.len + 12 }
    ensures grown { GrownBy (offer (M.Map.rows map.now) (K.Kind.meaning kind.now) deadline from number) 12 (waiting heap.old) (waiting heap.new) }
    ensures keeps_heap_order { InHeapOrder leaves_before heap.old → InHeapOrder leaves_before heap.new }
{
    for place in 0..12 {
        if let Some(candidate) = follow(map, kind, from, number, place, deadline) {
            heap.push(candidate).unwrap();
        }
    }
}
