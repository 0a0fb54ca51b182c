// Members in the order in which they are installed.
ghost use Rattle.std.specs.Prelude.{◌≡◌, ◌≢◌, ℕ, ◌+◌, ◌<◌, ◌≤◌, ◌^◌, [], ◌∷◌, false, length, replicate, slice_index, IfOk, OnOk};
ghost use Rattle.action_graph.specs.Found.{marked};
ghost use Rattle.action_graph.specs.Places.{AreBelow, ArePlaces};
ghost use Rattle.action_graph.specs.Listing.{IsListed, IsMarked, IsMet, Looks, MetBelow, RowsWithin, has};

use crate::marks::{Found, none_found};
use crate::ready::{put_ready, take_ready};
use crate::rows::{Rows, turned};
use opam_names::{Items, OutOfMemory};
use std::alloc::Global;
use std::collections::BTreeSet;

// The first of the needs from one on that is wanted and not listed, or the end.
fn first_open(needs: &[u32], wanted: &[bool], listed: &[bool], from: usize) -> usize
    requires within { AreBelow needs.now (length wanted.now) }
    requires counted { length listed.now ≡ length wanted.now }
    ensures met { (k : ℕ) → from ≤ k → k < result → k < length needs.now
        → IsMet wanted.now listed.now (slice_index needs.now k) }
    ensures wanted { result < length needs.now
        → IsMarked wanted.now (slice_index needs.now result) }
    ensures open { result < length needs.now
        → marked listed.now (slice_index needs.now result) ≡ false }
{
    let mut at = from;
    while at < needs.len() {
        let need = needs[at] as usize;
        if wanted[need] && !listed[need] {
            return at;
        }
        at += 1;
    }
    at
}

// Those that can be next, and for each member how many of its needs were seen to be met.
#[derive(Drop)]
struct Waiting {
    ready: BTreeSet<u32>,
    cursors: Items<usize>,
}

fn none_waiting(alloc: Global, count: usize) -> Result<Waiting, OutOfMemory>
    ensures cursors { IfOk result (λ waiting. waiting.cursors ≡ replicate count 0) }
    ensures ready { IfOk result (λ waiting. (place : ℕ) → has waiting.ready place ≡ false) }
{
    let mut cursors = Items::new(alloc);
    for _i in 0..count {
        cursors.push(0)?;
    }
    Ok(Waiting {
        ready: BTreeSet::new(alloc),
        cursors,
    })
}

impl Waiting {
    fn look_at(
        &mut self,
        needs: &Rows,
        wanted: &[bool],
        listed: &[bool],
        place: u32,
    ) -> Result<(), OutOfMemory>
        requires rows { length needs.now ≡ length wanted.now }
        requires within { RowsWithin needs.now (length wanted.now) }
        requires counted { length listed.now ≡ length wanted.now }
        requires cursors { length self.old.cursors ≡ length wanted.now }
        requires place { place < length wanted.now }
        requires met { MetBelow needs.now wanted.now listed.now self.old.cursors }
        ensures { OnOk result (Looks needs.now wanted.now listed.now
            self.old.ready self.new.ready (place ∷ []) self.new.cursors) }
    {
        let at = place as usize;
        if !wanted[at] || listed[at] {
            return Ok(());
        }
        let row = needs.row(at);
        let open = first_open(row, wanted, listed, self.cursors.as_slice()[at]);
        self.cursors.set(at, open);
        if open < row.len() {
            return Ok(());
        }
        put_ready(&mut self.ready, place)
    }

    fn look_at_all(
        &mut self,
        needs: &Rows,
        wanted: &[bool],
        listed: &[bool],
        places: &[u32],
    ) -> Result<(), OutOfMemory>
        requires rows { length needs.now ≡ length wanted.now }
        requires within { RowsWithin needs.now (length wanted.now) }
        requires counted { length listed.now ≡ length wanted.now }
        requires cursors { length self.old.cursors ≡ length wanted.now }
        requires places { AreBelow places.now (length wanted.now) }
        requires met { MetBelow needs.now wanted.now listed.now self.old.cursors }
        ensures { OnOk result (Looks needs.now wanted.now listed.now
            self.old.ready self.new.ready places.now self.new.cursors) }
    {
        for place in places {
            self.look_at(needs, wanted, listed, *place)?;
        }
        Ok(())
    }
}

// The places that are marked, from the least on.
pub(crate) fn marked_places(alloc: Global, marks: &[bool]) -> Result<Items<u32>, OutOfMemory>
    requires { length marks.now < 2 ^ 32 }
    ensures { IfOk result (λ places. ArePlaces (IsMarked marks.now) places) }
{
    let mut places = Items::new(alloc);
    for at in 0..marks.len() {
        if marks[at] {
            places.push(at as u32)?;
        }
    }
    Ok(places)
}

// Lists those that are wanted, each after its needs and the least first, until none can be next.
pub(crate) fn list_in_order(
    alloc: Global,
    needs: &Rows,
    wanted: &[bool],
) -> Result<Found, OutOfMemory>
    requires small { length wanted.now < 2 ^ 32 }
    requires rows { length needs.now ≡ length wanted.now }
    requires within { RowsWithin needs.now (length wanted.now) }
    ensures { IfOk result (λ found. IsListed needs.now wanted.now found.marks found.places) }
{
    let dependents = turned(alloc, needs)?;
    let mut listed = none_found(alloc, wanted.len())?;
    let mut waiting = none_waiting(alloc, wanted.len())?;
    let all = marked_places(alloc, wanted)?;
    waiting.look_at_all(needs, wanted, listed.marks.as_slice(), all.as_slice())?;
    while let Some(place) = take_ready(&mut waiting.ready) {
        listed.put(place)?;
        let row = dependents.row(place as usize);
        waiting.look_at_all(needs, wanted, listed.marks.as_slice(), row)?;
    }
    Ok(listed)
}
