// Places that are found one after another, each once, where few of many are: what is not found takes no room.
ghost use Rattle.std.specs.Prelude.{◌≡◌, ◌<◌, ◌^◌, [], false, length, not, replicate, IfOk, OnOk};
ghost use Rattle.action_graph.specs.Found.{Adds, Coheres, IsPut};
ghost use Rattle.action_graph.specs.Gathering.{gathered_marks, marks_from};
ghost use Rattle.action_graph.specs.Listing.{PutsReady, has};
ghost use Rattle.action_graph.specs.Looking.{IsInOrder};
ghost use Rattle.action_graph.specs.Places.{AreBelow};

use crate::links::put_in_order;
use opam_names::{Items, OutOfMemory};
use std::alloc::Global;
use std::collections::BTreeSet;

// Which of so many places are found, and these in the order in which they were.
#[derive(Drop)]
pub(crate) struct Gathered {
    pub(crate) count: usize,
    pub(crate) set: BTreeSet<u32>,
    pub(crate) places: Items<u32>,
}

pub(crate) fn none_gathered(alloc: Global, count: usize) -> Gathered
    ensures count { result.count ≡ count }
    ensures marks { gathered_marks result ≡ replicate count false }
    ensures places { result.places ≡ [] }
{
    Gathered {
        count,
        set: BTreeSet::new(alloc),
        places: Items::new(alloc),
    }
}

// Puts a place into a set, and says whether it is a new one.
fn put_new(set: &mut BTreeSet<u32>, place: u32) -> Result<bool, OutOfMemory>
    ensures new { IfOk result (λ new. new ≡ not (has set.old place)) }
    ensures puts { OnOk result (PutsReady set.old set.new place) }
{
    match set.insert(place) {
        Ok(new) => Ok(new),
        Err(_) => Err(OutOfMemory),
    }
}

impl Gathered {
    fn put(&mut self, place: u32) -> Result<(), OutOfMemory>
        requires { place < self.old.count }
        ensures count { OnOk result (self.new.count ≡ self.old.count) }
        ensures put { OnOk result (IsPut (gathered_marks self.old) self.old.places place
            (gathered_marks self.new) self.new.places) }
    {
        if put_new(&mut self.set, place)? {
            self.places.push(place)?;
        }
        Ok(())
    }

    // Those that were not found are added at the end.
    pub(crate) fn add(&mut self, places: &[u32]) -> Result<(), OutOfMemory>
        requires within { AreBelow places.now self.old.count }
        requires coheres { Coheres (gathered_marks self.old) self.old.places }
        ensures count { OnOk result (self.new.count ≡ self.old.count) }
        ensures adds { OnOk result (Adds (gathered_marks self.old) self.old.places places.now
            (gathered_marks self.new) self.new.places) }
    {
        for place in places {
            self.put(*place)?;
        }
        Ok(())
    }

    fn has(&self, place: u32) -> bool
        ensures { result ≡ has self.now.set place }
    {
        self.set.contains(&place)
    }

    // For each of all places whether it is found.
    pub(crate) fn marks(&self, alloc: Global) -> Result<Items<bool>, OutOfMemory>
        requires { self.now.count < 2 ^ 32 }
        ensures { IfOk result (λ marks. marks ≡ gathered_marks self.now) }
    {
        let mut marks = Items::new(alloc);
        for at in 0..self.count {
            marks.push(self.has(at as u32))?;
        }
        Ok(marks)
    }

    // The places that are found, from the least on.
    pub(crate) fn in_order(self) -> Items<u32>
        ensures { IsInOrder self.places result }
    {
        let Gathered { places, .. } = self;
        let mut sorted = places.into_vec();
        put_in_order(&mut sorted);
        Items::from_vec(sorted)
    }
}
