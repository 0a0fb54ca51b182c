// Installs in their order, with what each needs.
ghost use Rattle.std.specs.Prelude.{◌≡◌, ◌<◌, ◌≤◌, ◌^◌, length, map, IfOk, IfErr, EachIndex, slice_index};
ghost use Rattle.opam_names.specs.ByteOrders.{NeverFallsBy, RisesBy};
ghost use Rattle.action_graph.specs.Leaving.{name_of};
ghost use Rattle.action_graph.specs.Links.{member_names};
ghost use Rattle.action_graph.specs.Nodes.{AreInOrder};
ghost use Rattle.action_graph.specs.Found.{IsLeft};
ghost use Rattle.action_graph.specs.Listing.{IsMarked, named_marks, need_rows, step_in};
ghost use Rattle.action_graph.specs.Places.{at_places};
ghost use Rattle.action_graph.specs.Plans.{AreNamedSteps, AreSteps, IsNamedStop, IsStopOf};

use crate::links::need_places;
use crate::listing::{list_in_order, marked_places};
use crate::lookup::InOrder;
use crate::rows::Rows;
use crate::{PlanFault, Step};
use opam_names::{Items, Name, OutOfMemory, has_bytes};
use opam_package::{Member, Target};
use std::alloc::Global;

fn needs_of(alloc: Global, members: &[Member]) -> Result<Rows, OutOfMemory>
    requires { AreInOrder members.now }
    ensures { IfOk result (λ rows. rows ≡ need_rows members.now members.now) }
{
    let mut rows = Rows::none(alloc);
    for member in members {
        rows.push_row(need_places(alloc, &member.package, members, &InOrder)?)?;
    }
    Ok(rows)
}

// Those that are wanted and not listed.
fn left_over(alloc: Global, wanted: &[bool], listed: &[bool]) -> Result<Items<bool>, OutOfMemory>
    requires { length listed.now ≡ length wanted.now }
    ensures { IfOk result (IsLeft wanted.now listed.now (length wanted.now)) }
{
    let mut left = Items::new(alloc);
    for at in 0..wanted.len() {
        left.push(wanted[at] && !listed[at])?;
    }
    Ok(left)
}

// The names at places.
fn names_at(alloc: Global, members: &[Member], places: &[u32]) -> Result<Items<Name>, OutOfMemory>
    requires { EachIndex places.now (λ i. slice_index places.now i < length members.now) }
    ensures { IfOk result (λ names. names ≡ at_places (member_names members.now) places.now) }
{
    let mut names = Items::new(alloc);
    for place in places {
        names.push(members[*place as usize].package.pkg.name.copy(alloc)?)?;
    }
    Ok(names)
}

fn steps_at(alloc: Global, needs: &Rows, order: &[u32]) -> Result<Items<Step>, OutOfMemory>
    requires { EachIndex order.now (λ i. slice_index order.now i < length needs.now) }
    ensures { IfOk result (λ steps. steps ≡ map (step_in needs.now) order.now) }
{
    let mut steps = Items::new(alloc);
    for place in order {
        steps.push(Step {
            member: *place,
            needs: Items::from_slice(alloc, needs.row(*place as usize))?,
        })?;
    }
    Ok(steps)
}

// The installs of the members that are marked.
pub(crate) fn steps_of(
    alloc: Global,
    members: &[Member],
    wanted: &[bool],
) -> Result<Items<Step>, PlanFault>
    requires set { AreInOrder members.now }
    requires counted { length wanted.now ≡ length members.now }
    ensures ok { IfOk result (AreSteps members.now (IsMarked wanted.now)) }
    ensures err { IfErr result (IsStopOf members.now (IsMarked wanted.now)) }
{
    let needs = needs_of(alloc, members)?;
    let found = list_in_order(alloc, &needs, wanted)?;
    let left = left_over(alloc, wanted, found.marks.as_slice())?;
    let places = marked_places(alloc, left.as_slice())?;
    if !places.is_empty() {
        return Err(PlanFault::Cycle {
            names: names_at(alloc, members, places.as_slice())?,
        });
    }
    Ok(steps_at(alloc, &needs, found.places.as_slice())?)
}

// Which members have one of the names.
fn marks_of(alloc: Global, members: &[Member], names: &[Name]) -> Result<Items<bool>, OutOfMemory>
    requires { NeverFallsBy (λ name. name) names.now }
    ensures { IfOk result (λ marks. marks ≡ named_marks names.now members.now) }
{
    let mut marks = Items::new(alloc);
    for member in members {
        marks.push(has_bytes(names, member.package.pkg.name.as_str().as_bytes()))?;
    }
    Ok(marks)
}

/// The members with these names in the order in which they are installed: each after its needs among them, and of several
/// the one with the least name first. The names stand in the order of their bytes.
pub fn order(alloc: Global, target: &Target, names: &[Name]) -> Result<Items<Step>, PlanFault>
    requires small { length target.now.members < 2 ^ 32 }
    requires rises { RisesBy name_of target.now.members }
    requires names { NeverFallsBy (λ name. name) names.now }
    ensures ok { IfOk result (AreNamedSteps target.now names.now) }
    ensures err { IfErr result (IsNamedStop target.now names.now) }
{
    let members = target.members.as_slice();
    let wanted = marks_of(alloc, members, names)?;
    steps_of(alloc, members, wanted.as_slice())
}
