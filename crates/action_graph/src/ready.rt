// Places that can be next, of which the least is taken.
ghost use Rattle.std.specs.Prelude.{OnOk};
ghost use Rattle.action_graph.specs.Listing.{MayTake, PutsReady};

use opam_names::OutOfMemory;
use std::collections::BTreeSet;

pub(crate) fn put_ready(ready: &mut BTreeSet<u32>, place: u32) -> Result<(), OutOfMemory>
    ensures { OnOk result (PutsReady ready.old ready.new place) }
{
    match ready.insert(place) {
        Ok(_) => Ok(()),
        Err(_) => Err(OutOfMemory),
    }
}

pub(crate) fn take_ready(ready: &mut BTreeSet<u32>) -> Option<u32>
    ensures { MayTake ready.old ready.new result }
{
    ready.pop_first()
}
