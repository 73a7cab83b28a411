//! How a queue keeps its heap order: an entry that was written goes up or down to its place.
ghost use Rattle.std.specs.Prelude.{◌≡◌, ◌+◌, ◌-◌, ◌*◌, ◌<◌, length, slice_index_or};
ghost use Rattle.std.specs.List.Sorted.{IsPermutation};
ghost use Rattle.queue.specs.Heaps.{HeapedFrom, Heaped};
ghost use Rattle.queue.specs.Sifting.{LesserChild};

use crate::entry::Entry;

/// Moves the last entry up, past each parent that it comes before: one exchange a level at most.
pub(crate) fn sift_up<E: Entry>(entries: &mut [E])
    requires { 0 < length entries.old }
    ensures rearranges { IsPermutation entries.old entries.new }
    ensures restores_heap_order { Heaped E.Entry.earlier entries.old (length entries.old - 1) → Heaped E.Entry.earlier entries.new (length entries.old) }
{
    let mut at = entries.len() - 1;
    // A place that halves, so no range of a `for`.
    while 0 < at {
        let parent = (at - 1) / 2;
        if !comes_before(entries, at, parent) {
            return;
        }
        entries.swap(parent, at);
        at = parent;
    }
}

/// Moves the first entry down, past lesser children that come before it: one exchange a level at most.
pub(crate) fn sift_down<E: Entry>(entries: &mut [E])
    ensures rearranges { IsPermutation entries.old entries.new }
    ensures restores_heap_order { HeapedFrom E.Entry.earlier 1 entries.old (length entries.old) → Heaped E.Entry.earlier entries.new (length entries.old) }
{
    let mut at = 0;
    // A place that doubles, so no range of a `for`.
    while at < entries.len() / 2 {
        let child = lesser_child(entries, at);
        if !comes_before(entries, child, at) {
            return;
        }
        entries.swap(at, child);
        at = child;
    }
}

/// The place of the lesser child of `parent`.
fn lesser_child<E: Entry>(entries: &[E], parent: usize) -> usize
    requires { parent * 2 + 1 < length entries.now }
    ensures { LesserChild E.Entry.earlier entries.now (length entries.now) parent result }
{
    let left = parent * 2 + 1;
    let right = left + 1;
    if right < entries.len() && comes_before(entries, right, left) {
        right
    } else {
        left
    }
}

/// Whether the entry at `a` comes before the one at `b`.
fn comes_before<E: Entry>(entries: &[E], a: usize, b: usize) -> bool
    requires { (a < length entries.now) × (b < length entries.now) }
    ensures { (d : E) → E.Entry.earlier (slice_index_or entries.now a d) (slice_index_or entries.now b d) ≡ result }
{
    entries[a].before(&entries[b])
}
