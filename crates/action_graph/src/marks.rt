// Places that are found one after another, each once.
ghost use Rattle.std.specs.Prelude.{◌≡◌, ◌<◌, [], false, length, replicate, IfOk, OnOk};
ghost use Rattle.action_graph.specs.Found.{IsPut, marked};

use opam_names::{Items, OutOfMemory};
use std::alloc::Global;

// Which of the first places are found, and these in the order in which they were.
#[derive(Drop)]
pub(crate) struct Found {
    pub(crate) marks: Items<bool>,
    pub(crate) places: Items<u32>,
}

// As many marks as that, all of them false.
pub(crate) fn no_marks(alloc: Global, count: usize) -> Result<Items<bool>, OutOfMemory>
    ensures { IfOk result (λ marks. marks ≡ replicate count false) }
{
    let mut marks = Items::new(alloc);
    for _i in 0..count {
        marks.push(false)?;
    }
    Ok(marks)
}

pub(crate) fn none_found(alloc: Global, count: usize) -> Result<Found, OutOfMemory>
    ensures marks { IfOk result (λ found. found.marks ≡ replicate count false) }
    ensures places { IfOk result (λ found. found.places ≡ []) }
{
    Ok(Found {
        marks: no_marks(alloc, count)?,
        places: Items::new(alloc),
    })
}

impl Found {
    pub(crate) fn has(&self, place: u32) -> bool
        requires { place < length self.now.marks }
        ensures { result ≡ marked self.now.marks place }
    {
        self.marks.as_slice()[place as usize]
    }

    pub(crate) fn put(&mut self, place: u32) -> Result<(), OutOfMemory>
        requires { place < length self.old.marks }
        ensures { OnOk result (IsPut self.old.marks self.old.places place
            self.new.marks self.new.places) }
    {
        if self.has(place) {
            return Ok(());
        }
        self.places.push(place)?;
        self.marks.set(place as usize, true);
        Ok(())
    }
}
