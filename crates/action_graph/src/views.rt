// What a build sees of the other packages.
ghost use Rattle.std.specs.Prelude.{◌≡◌, ◌<◌, ◌^◌, length, IfOk, EachIndex, slice_index};
ghost use Rattle.opam_names.specs.ByteOrders.{RisesBy};
ghost use Rattle.action_graph.specs.Leaving.{name_of};
ghost use Rattle.action_graph.specs.Links.{member_pkgs};
ghost use Rattle.action_graph.specs.Places.{at_places};
ghost use Rattle.action_graph.specs.Views.{IsView};

use crate::links::{edge_places, need_places};
use crate::lookup::InOrder;
use crate::reach::{Steps, reach};
use opam_names::{Items, OutOfMemory, Pkg};
use opam_package::{Member, Target};
use package_vars::View;
use std::alloc::Global;

// From member to member, to what each needs when it runs.
impl Steps for Items<Member> {
    ghost use Rattle.std.specs.Prelude.{length};
    ghost use Rattle.action_graph.specs.Links.{edges_at};
    ghost use Rattle.action_graph.specs.Nodes.{AreInOrder};

    ghost fit = { AreInOrder };

    ghost count = { λ members. length members };

    ghost leads = { λ members. edges_at members };

    fn next(&self, alloc: Global, from: u32) -> Result<Items<u32>, OutOfMemory> {
        let members = self.as_slice();
        edge_places(alloc, &members[from as usize].package, members, &InOrder)
    }
}

// The packages at places.
fn pkgs_at(alloc: Global, members: &[Member], places: &[u32]) -> Result<Items<Pkg>, OutOfMemory>
    requires { EachIndex places.now (λ i. slice_index places.now i < length members.now) }
    ensures { IfOk result (λ pkgs. pkgs ≡ at_places (member_pkgs members.now) places.now) }
{
    let mut pkgs = Items::new(alloc);
    for place in places {
        pkgs.push(members[*place as usize].package.pkg.copy(alloc)?)?;
    }
    Ok(pkgs)
}

/// What the build of a member sees: what it needs, and all that this needs when it runs.
pub fn view_of(alloc: Global, target: &Target, member: u32) -> Result<View, OutOfMemory>
    requires small { length target.now.members < 2 ^ 32 }
    requires rises { RisesBy name_of target.now.members }
    requires within { member < length target.now.members }
    ensures { IfOk result (λ view. IsView target.now.members member view.members) }
{
    let members = target.members.as_slice();
    let starts = need_places(alloc, &members[member as usize].package, members, &InOrder)?;
    let found = reach(alloc, &target.members, members.len(), starts.as_slice())?;
    let places = found.in_order();
    Ok(View {
        members: pkgs_at(alloc, members, places.as_slice())?,
    })
}
