// Of each install how many of its needs are not installed, and those that wait for none.
ghost use Rattle.std.specs.Prelude.{◌≡◌, ℕ, ◌<◌, ◌≤◌, [], ◌∷◌, length, slice_index, IfOk, EachIndex};
ghost use Rattle.std.specs.BinaryHeap.{heap_items};
ghost use Rattle.change_floor.specs.Queues.{Fits, Lowers, Readies, left_of, times};

use crate::ready::put_ready;
use opam_names::{Items, OutOfMemory};
use std::alloc::Global;
use std::cmp::Reverse;
use std::collections::BinaryHeap;

#[derive(Drop)]
pub(crate) struct Queue {
    pub(crate) left: Items<usize>,
    pub(crate) ready: BinaryHeap<Reverse<usize>>,
}

// The heap has room for each install from the start, so that nothing takes memory later.
pub(crate) fn queue_of(alloc: Global, left: Items<usize>) -> Result<Queue, OutOfMemory>
    ensures left { IfOk result (λ queue. queue.left ≡ left) }
    ensures fits { IfOk result (λ queue. Fits left queue.ready) }
    ensures ready { IfOk result (λ queue. Readies left (heap_items queue.ready)) }
{
    let mut ready = BinaryHeap::with_capacity(alloc, left.len())?;
    for place in 0..left.len() {
        if left.as_slice()[place] == 0 {
            put_ready(&mut ready, place);
        }
    }
    Ok(Queue { left, ready })
}

impl Queue {
    fn lower(&mut self, place: usize)
        requires fits { Fits self.old.left self.old.ready }
        requires within { place < length self.old.left }
        requires waits { 0 < left_of self.old.left place }
        ensures { Lowers self.old.left self.old.ready (place ∷ []) self.new.left self.new.ready }
    {
        let left = self.left.as_slice()[place] - 1;
        self.left.set(place, left);
        if left == 0 {
            put_ready(&mut self.ready, place);
        }
    }

    // A need of each of these is installed.
    pub(crate) fn release(&mut self, row: &[usize])
        requires fits { Fits self.old.left self.old.ready }
        requires within { EachIndex row.now (λ i. slice_index row.now i < length self.old.left) }
        requires waits { (place : ℕ) → times place row.now ≤ left_of self.old.left place }
        ensures { Lowers self.old.left self.old.ready row.now self.new.left self.new.ready }
    {
        for place in row {
            self.lower(*place);
        }
    }
}
