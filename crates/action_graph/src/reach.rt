// The least set that has some starts, and with each place those to which steps lead from there.
ghost use Rattle.std.specs.Prelude.{◌≡◌, ℕ, ◌<◌, ◌≤◌, length, slice_index, IfOk, EachIndex};
ghost use Rattle.action_graph.specs.Found.{Coheres, Marks};
ghost use Rattle.action_graph.specs.Gathering.{gathered_marks};
ghost use Rattle.action_graph.specs.Places.{IsIn};
ghost use Rattle.action_graph.specs.Reach.{Reached};

use crate::gathered::{Gathered, none_gathered};
use opam_names::{Items, OutOfMemory};
use std::alloc::Global;

// Steps from place to place.
pub(crate) trait Steps {
    ghost use Rattle.std.specs.Prelude.{ℕ, List};

    // What the steps rest on; how many places there are, and to which of them one leads.
    ghost fit: { Self → Type 0 };

    ghost count: { Self → ℕ };

    ghost leads: { Self → ℕ → List ℕ };

    fn next(&self, alloc: Global, from: u32) -> Result<Items<u32>, OutOfMemory>
        requires fit { fit self.now }
        requires from { from < count self.now }
        ensures value { IfOk result (λ places. places ≡ leads self.now from) }
        ensures within { IfOk result (λ places.
            EachIndex places (λ i. slice_index places i < count self.now)) };
}

// Gathers what is reached, in one walk over a list that grows. It takes as long as there is to be found.
pub(crate) fn reach<S: Steps>(
    alloc: Global,
    steps: &S,
    count: usize,
    starts: &[u32],
) -> Result<Gathered, OutOfMemory>
    requires fit { S.fit steps.now }
    requires counted { count ≡ S.count steps.now }
    requires within { EachIndex starts.now (λ i. slice_index starts.now i < count) }
    ensures count { IfOk result (λ found. found.count ≡ count) }
    ensures marks { IfOk result (λ found. Marks
        (Reached (IsIn starts.now) (λ from. IsIn (S.leads steps.now from))) count
        (gathered_marks found)) }
    ensures places { IfOk result (λ found. Coheres (gathered_marks found) found.places) }
{
    let mut found = none_gathered(alloc, count);
    found.add(starts)?;
    let mut done = 0;
    while done < found.places.len() {
        let next = steps.next(alloc, found.places.as_slice()[done])?;
        found.add(next.as_slice())?;
        done += 1;
    }
    Ok(found)
}
