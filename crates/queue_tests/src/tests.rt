//! The queue on examples: orders, ties, a full slice, a slice handed back, long random runs.
ghost use Rattle.std.specs.Prelude.{◌≡◌, ◌+◌, ◌<◌, ◌∷◌, length, take, drop, IsSomeAnd, nat_lt};
ghost use Rattle.std.specs.List.Sorted.{IsPermutation};
ghost use Rattle.queue.specs.Heaps.{Heaped, Least};
ghost use Rattle.std.proofs.Common.{rules};

use queue::{Entry, Full, Heap};
use std::mem;
use std::process::Abort;
use std::test::Fail;

/// An event at a time; events of one time tie, whatever their numbers.
#[derive(Clone, Copy, PartialEq, Eq, Debug)]
struct Event {
    time: u16,
    number: u16,
}

impl Entry for Event {
    ghost earlier = { λ a b. nat_lt a.time b.time };

    ghost strict_weak_order = { Prim.search rules };

    fn before(&self, other: &Event) -> bool {
        self.time < other.time
    }
}

const BLANK: Event = Event {
    time: 65535,
    number: 65535,
};

/// Pushes an event of each time, numbered in turn.
fn push_all(heap: &mut Heap<'_, Event>, times: &[u16]) -> Result<(), Fail> {
    for (index, &time) in times.iter().enumerate() {
        let number = u16::try_from(index).map_err(|_| "more events than numbers")?;
        heap.push(Event { time, number })?;
    }
    Ok(())
}

/// Takes out an event of each time, the one looked at before, and then finds the queue empty.
fn check_leave(rt: &impl Abort, heap: &mut Heap<'_, Event>, times: &[u16]) -> Result<(), Fail> {
    for time in times {
        let next = heap.peek();
        let event = heap.pop().ok_or("no event is left")?;
        assert_eq!(rt; event.time, *time);
        assert_eq!(rt; next, Some(event));
    }
    assert!(rt; heap.peek().is_none() && heap.pop().is_none());
    Ok(())
}

/// Events of these times leave in this order.
fn check_order(rt: &impl Abort, times: &[u16], order: &[u16]) -> Result<(), Fail> {
    let mut room = [BLANK; 7];
    let mut heap = Heap::over(&mut room, 0);
    push_all(&mut heap, times)?;
    assert_eq!(rt; heap.len(), times.len());
    check_leave(rt, &mut heap, order)
}

#[test]
fn least_leaves_first(rt: HostRuntime) -> Result<(), Fail> {
    let orders: [(&[u16], &[u16]); 8] = [
        (&[], &[]),
        (&[5], &[5]),
        (&[1, 2, 3, 4, 5, 6, 7], &[1, 2, 3, 4, 5, 6, 7]),
        (&[7, 6, 5, 4, 3, 2, 1], &[1, 2, 3, 4, 5, 6, 7]),
        (&[4, 1, 6, 2, 7, 5, 3], &[1, 2, 3, 4, 5, 6, 7]),
        (&[2, 1, 2, 1, 2, 1], &[1, 1, 1, 2, 2, 2]),
        (&[7, 7, 7, 7], &[7, 7, 7, 7]),
        (&[0, 65535, 9, 65535, 0], &[0, 0, 9, 65535, 65535]),
    ];
    for (times, order) in &orders {
        check_order(&rt, times, order)?;
    }
    Ok(())
}

#[test]
fn full_slice_refuses_and_keeps_all(rt: HostRuntime) -> Result<(), Fail> {
    let mut room = [BLANK; 3];
    let mut heap = Heap::over(&mut room, 0);
    push_all(&mut heap, &[5, 3, 4])?;
    assert_eq!(rt; heap.push(Event { time: 1, number: 3 }), Err(Full));
    assert_eq!(rt; heap.len(), 3);
    check_leave(&rt, &mut heap, &[3, 4, 5])
}

#[test]
fn count_past_the_slice_means_all_of_it(rt: HostRuntime) {
    for (count, len) in [(0, 0), (1, 1), (4, 4), (5, 4), (1000, 4)] {
        let mut room = [BLANK; 4];
        assert_eq!(rt; Heap::over(&mut room, count).len(), len);
    }
    let mut none = [BLANK; 0];
    assert_eq!(rt; Heap::over(&mut none, 1).len(), 0);
}

/// Puts an entry in through one queue, and takes the first out through another over the slice handed back.
fn push_then_pop<E: Entry>(entries: &mut [E], count: usize, entry: E) -> Option<E>
    requires { count < length entries.old }
    ensures exchanges_one_entry { IsSomeAnd result (λ x. IsPermutation (entry ∷ take count entries.old) (x ∷ take count entries.new)) }
    ensures none_comes_before_it { IsSomeAnd result (λ x. Heaped E.Entry.earlier entries.old count → Least E.Entry.earlier x (entry ∷ take count entries.old)) }
    ensures keeps_heap_order { Heaped E.Entry.earlier entries.old count → Heaped E.Entry.earlier entries.new count }
    ensures rest_untouched { drop (count + 1) entries.new ≡ drop (count + 1) entries.old }
{
    let mut heap = Heap::over(entries, count);
    heap.push(entry).unwrap();
    let more = heap.len();
    let mut heap = Heap::over(entries, more);
    heap.pop()
}

#[test]
fn slice_handed_back_is_wrapped_again(rt: HostRuntime) -> Result<(), Fail> {
    let mut room = [BLANK; 4];
    let mut heap = Heap::over(&mut room, 0);
    push_all(&mut heap, &[8, 2])?;
    assert_eq!(rt;
        room.map(|event| event.time),
        [2, 8, BLANK.time, BLANK.time]
    );
    let least = push_then_pop(&mut room, 2, Event { time: 5, number: 2 }).ok_or(
        "no event is left",
    )?;
    assert_eq!(rt; least.time, 2);
    let mut heap = Heap::over(&mut room, 2);
    check_leave(&rt, &mut heap, &[5, 8])?;
    assert_eq!(rt; room[3].time, BLANK.time);
    Ok(())
}

/// Marks an event as taken, by its number, which no event before it had.
fn check_taken_once(rt: &impl Abort, taken: &mut [bool; 300], event: Event) {
    let number = usize::from(event.number);
    assert!(rt; number < 300);
    let taken_before = mem::replace(&mut taken[number], true);
    assert!(rt; !taken_before);
}

#[test]
fn entries_out_of_heap_order_all_leave(rt: HostRuntime) -> Result<(), Fail> {
    for [a, b, c] in [[9, 1, 5], [4, 3, 2], [7, 7, 0]] {
        let mut room = [
            Event { time: a, number: 0 },
            Event { time: b, number: 1 },
            Event { time: c, number: 2 },
        ];
        let mut heap = Heap::over(&mut room, 3);
        let mut taken = [false; 300];
        for _ in 0..3u16 {
            check_taken_once(&rt, &mut taken, heap.pop().ok_or("an event is missing")?);
        }
        assert_eq!(rt; heap.len(), 0);
    }
    Ok(())
}

/// Numbers that look random, the same ones on every run.
#[derive(Drop)]
struct Numbers {
    state: u32,
}

impl Numbers {
    fn next(&mut self) -> u16 {
        self.state = self.state.wrapping_mul(1664525).wrapping_add(1013904223);
        (self.state >> 16) as u16
    }
}

/// Pushes 300 events of random times, then takes all: none is missing, none comes twice, and their times rise.
fn check_sorted_run(rt: &impl Abort, seed: u32) -> Result<(), Fail> {
    let mut numbers = Numbers { state: seed };
    let mut room = [BLANK; 300];
    let mut heap = Heap::over(&mut room, 0);
    for number in 0..300u16 {
        heap.push(Event {
            time: numbers.next() % 200,
            number,
        })?;
    }
    let mut taken = [false; 300];
    let mut last = 0;
    for _ in 0..300u16 {
        let event = heap.pop().ok_or("an event is missing")?;
        assert!(rt; last <= event.time);
        last = event.time;
        check_taken_once(rt, &mut taken, event);
    }
    assert_eq!(rt; heap.len(), 0);
    Ok(())
}

/// How many events wait of each time.
#[derive(Drop)]
struct Counts {
    of: [u16; 32],
}

impl Counts {
    /// The least time of which an event waits.
    fn least(&self) -> Option<usize> {
        self.of.iter().position(|count| *count > 0)
    }
}

/// A push is refused exactly when the slice is full.
fn check_push(
    rt: &impl Abort,
    heap: &mut Heap<'_, Event>,
    counts: &mut Counts,
    event: Event,
    room: usize,
) {
    let full = heap.len() == room;
    let pushed = heap.push(event);
    assert_eq!(rt; pushed, if full { Err(Full) } else { Ok(()) });
    if pushed.is_ok()
        && let Some(count) = counts.of.get_mut(usize::from(event.time))
    {
        *count = count.wrapping_add(1);
    }
}

/// A pop answers an event of the least time that waits.
fn check_pop(rt: &impl Abort, heap: &mut Heap<'_, Event>, counts: &mut Counts) -> Result<(), Fail> {
    let least = counts.least();
    let Some(event) = heap.pop() else {
        assert_eq!(rt; least, None);
        return Ok(());
    };
    let time = usize::from(event.time);
    assert_eq!(rt; least, Some(time));
    assert!(rt; time < 32);
    counts.of[time] = counts.of[time].wrapping_sub(1);
    Ok(())
}

/// Pushes and pops at random, beside a count of the events that wait.
fn check_mixed_run(rt: &impl Abort, seed: u32) -> Result<(), Fail> {
    let mut numbers = Numbers { state: seed };
    let mut counts = Counts { of: [0; 32] };
    let mut room = [BLANK; 40];
    let mut heap = Heap::over(&mut room, 0);
    for number in 0..600u16 {
        let time = numbers.next() % 32;
        if numbers.next() % 5 < 3 {
            check_push(rt, &mut heap, &mut counts, Event { time, number }, 40);
        } else {
            check_pop(rt, &mut heap, &mut counts)?;
        }
    }
    Ok(())
}

#[test]
fn random_runs_leave_by_rising_time(rt: HostRuntime) -> Result<(), Fail> {
    for seed in [1, 77, 2026, 987654321] {
        check_sorted_run(&rt, seed)?;
        check_mixed_run(&rt, seed)?;
    }
    Ok(())
}
