// A heap of places, of which the least comes first. There is room for each place, so nothing here takes memory.
ghost use Rattle.std.specs.Prelude.{◌≡◌, ℕ, ◌+◌, ◌<◌, ◌≤◌, cond, nat_eq, MatchOption};
ghost use Rattle.std.specs.BinaryHeap.{IsHeap, heap_capacity, heap_items, heap_len};
ghost use Rattle.change_floor.specs.Queues.{IsFirstReady, least_first, times_in};

use std::cmp::Reverse;
use std::collections::BinaryHeap;

pub(crate) fn put_ready(ready: &mut BinaryHeap<Reverse<usize>>, place: usize)
    requires room { heap_len ready.old < heap_capacity ready.old }
    requires ordered { IsHeap least_first (heap_items ready.old) }
    ensures ordered { IsHeap least_first (heap_items ready.new) }
    ensures len { heap_len ready.new ≡ heap_len ready.old + 1 }
    ensures capacity { heap_capacity ready.old ≤ heap_capacity ready.new }
    ensures times { (other : ℕ) → times_in other (heap_items ready.new)
        ≡ cond (nat_eq place other) 1 0 + times_in other (heap_items ready.old) }
{
    match ready.push(Reverse(place)) {
        Ok(()) => {}
        Err(_) => unreachable!(),
    }
}

pub(crate) fn first_ready(ready: &BinaryHeap<Reverse<usize>>) -> Option<usize>
    requires ordered { IsHeap least_first (heap_items ready.now) }
    ensures { MatchOption result ((other : ℕ) → times_in other (heap_items ready.now) ≡ 0)
        (IsFirstReady (heap_items ready.now)) }
{
    match ready.peek() {
        Some(first) => Some(first.0),
        None => None,
    }
}

pub(crate) fn take_ready(ready: &mut BinaryHeap<Reverse<usize>>, place: usize)
    requires ordered { IsHeap least_first (heap_items ready.old) }
    requires first { IsFirstReady (heap_items ready.old) place }
    ensures ordered { IsHeap least_first (heap_items ready.new) }
    ensures len { heap_len ready.new + 1 ≡ heap_len ready.old }
    ensures capacity { heap_capacity ready.new ≡ heap_capacity ready.old }
    ensures times { (other : ℕ) → cond (nat_eq place other) 1 0
        + times_in other (heap_items ready.new) ≡ times_in other (heap_items ready.old) }
{
    let _first = ready.pop();
}
