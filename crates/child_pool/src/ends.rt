// How a coordinator that starts nothing more ends its crew's work.
ghost use Rattle.std.specs.Prelude.{◌≡◌, ◌≢◌, ◌<◌, ◌≤◌, ◌+◌, ◌++◌, [], ℕ, List, Result, length, vec_len, vec_capacity};
ghost use Rattle.opam_names.specs.declared.fault.OutOfMemory.{OutOfMemory};
ghost use Rattle.outside_io.specs.declared.workshop.Fate.{Fate};
ghost use Rattle.child_pool.specs.Crews.{TakesOne};
ghost use Rattle.child_pool.specs.Drains.{Drained, known_fate};

use crate::crew::Crew;
use opam_names::OutOfMemory;
use outside_io::Fate;
use std::alloc::Global;

/// Takes in all that still runs, and adds the number and the fate of each to the list, for which there is room. Where
/// memory is refused a job is taken in all the same, and its fate is not known.
pub fn drain<C: Crew>(alloc: Global, crew: &mut C, taken: &mut Vec<(u32, Fate)>)
    requires fit { C.fit crew.old }
    requires room { vec_len taken.old + length (C.running crew.old) ≤ vec_capacity taken.old }
    ensures fit { C.fit crew.new }
    ensures size { C.size crew.new ≡ C.size crew.old }
    ensures told { C.told crew.new ≡ C.told crew.old }
    ensures idle { C.running crew.new ≡ [] }
    ensures drained { (fates : List (ℕ × Fate)) × (taken.new.items ≡ taken.old.items ++ fates)
        × Drained (length (C.running crew.old)) (C.told crew.old) (C.running crew.old)
        (C.running crew.new) (C.events crew.old) (C.events crew.new) fates }
{
    while !crew.idle() {
        take_one(alloc, crew, taken);
    }
}

// Takes in one of those that run.
fn take_one<C: Crew>(alloc: Global, crew: &mut C, taken: &mut Vec<(u32, Fate)>)
    requires fit { C.fit crew.old }
    requires busy { C.running crew.old ≢ [] }
    requires room { vec_len taken.old < vec_capacity taken.old }
    ensures fit { C.fit crew.new }
    ensures size { C.size crew.new ≡ C.size crew.old }
    ensures told { C.told crew.new ≡ C.told crew.old }
    ensures room { vec_capacity taken.new ≡ vec_capacity taken.old }
    ensures few { vec_len taken.new ≤ vec_len taken.old + 1 }
    ensures takes { (result : Result (ℕ × Fate) OutOfMemory)
        × (taken.new.items ≡ taken.old.items ++ known_fate result)
        × TakesOne (C.told crew.old) (C.running crew.old) (C.running crew.new)
        (C.events crew.old) (C.events crew.new) result }
{
    match crew.take_end(alloc) {
        Ok(answer) => taken.push_reserved(answer),
        Err(OutOfMemory) => {}
    }
}
