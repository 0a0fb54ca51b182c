// The plan of a change.
ghost use Rattle.std.specs.Prelude.{◌≡◌, ◌+◌, ◌<◌, ◌^◌, [], length, map, bytes_eq, IfOk, IfErr};
ghost use Rattle.std.specs.List.{IsDistinct};
ghost use Rattle.opam_names.specs.ByteOrders.{NeverFallsBy, RisesBy, in_order_by};
ghost use Rattle.action_graph.specs.Leaving.{name_of};
ghost use Rattle.action_graph.specs.Listing.{IsMarked};
ghost use Rattle.action_graph.specs.Nodes.{IsAsked, OfEntries};
ghost use Rattle.action_graph.specs.Places.{ArePlacesBack};
ghost use Rattle.action_graph.specs.Plans.{AreInstalls, AreRemovals, IsCycleOf};

use crate::affected::Change;
use crate::installs::steps_of;
use crate::listing::marked_places;
use crate::lookup::Index;
use crate::{Plan, PlanFault};
use opam_names::{Items, Name, OutOfMemory, order_is_stable, sort_by_bytes};
use opam_package::{Member, Target};
use std::alloc::Global;

fn sorted_names(alloc: Global, names: &[Name]) -> Result<Vec<Name>, OutOfMemory>
    ensures { IfOk result (λ sorted. sorted.items ≡ in_order_by (λ one. one) names.now) }
{
    let mut sorted = Vec::new(alloc);
    for name in names {
        sorted.push(name.copy(alloc)?)?;
    }
    sort_by_bytes(&mut sorted)?;
    Ok(sorted)
}

// Which entries leave.
fn leaving(alloc: Global, change: &Change, marks: &[bool]) -> Result<Items<bool>, OutOfMemory>
    requires suits { IsAsked change.now }
    requires counted { length marks.now
        ≡ length change.now.members.now + length change.now.installed.now }
    ensures { IfOk result (OfEntries change.now.installed.now change.now.members.now marks.now
        (length change.now.installed.now)) }
{
    let mut leaving = Items::new(alloc);
    for at in 0..change.installed.len() {
        leaving.push(marks[change.node_at(at) as usize])?;
    }
    Ok(leaving)
}

// The places that are marked, from the greatest on.
fn places_from_last(alloc: Global, marks: &[bool]) -> Result<Items<u32>, OutOfMemory>
    requires { length marks.now < 2 ^ 32 }
    ensures { IfOk result (λ places. ArePlacesBack (IsMarked marks.now) places) }
{
    let mut places = marked_places(alloc, marks)?.into_vec();
    places.reverse();
    Ok(Items::from_vec(places))
}

/// What a change of a switch does. The entries leave whose names are affected, the last installed first: those that are
/// new in the target, are installed and not in the target, have another version there or are built once more, and with
/// each the installed ones with an edge to it. Then the members of the target are installed that left or were not
/// installed, each after its needs among them, and of several the one with the least name first.
pub fn plan_of(alloc: Global, installed: &[Member], target: &Target) -> Result<Plan, PlanFault>
    requires small { length target.now.members + length installed.now < 2 ^ 32 }
    requires differ { IsDistinct bytes_eq (map name_of installed.now) }
    requires rises { RisesBy name_of target.now.members }
    ensures removals { IfOk result (λ plan. AreRemovals installed.now target.now plan.removals) }
    ensures installs { IfOk result (λ plan. AreInstalls installed.now target.now plan.installs) }
    ensures missing { IfOk result (λ plan. plan.missing ≡ []) }
    ensures cycle { IfErr result (IsCycleOf installed.now target.now) }
{
    let index = Index::of(alloc, installed)?;
    let redo = sorted_names(alloc, target.redo.as_slice())?;
    let change = Change {
        installed,
        index: &index,
        members: target.members.as_slice(),
        redo: redo.as_slice(),
    };
    let marks = change.affected(alloc)?;
    let leaving = leaving(alloc, &change, marks.as_slice())?;
    let removals = places_from_last(alloc, leaving.as_slice())?;
    let (wanted, _) = marks.as_slice().split_at(change.members.len());
    Ok(Plan {
        removals,
        installs: steps_of(alloc, change.members, wanted)?,
        missing: Items::new(alloc),
    })
}
