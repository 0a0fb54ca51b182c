// The parts of a change in memory. None of them takes any.
ghost use Rattle.std.specs.Prelude.{◌≡◌, ◌<◌, ◌≤◌, filter, fold, length};
ghost use Rattle.std.specs.Option.{option_map};
ghost use Rattle.switch_state.specs.Actions.{is_other_member, noted};
ghost use Rattle.switch_state.specs.Prepares.{CanAdd, and_owned};
ghost use Rattle.switch_state.specs.State.{done_room, request_in};

use crate::request::OpenRequest;
use opam_names::{Buffer, Items, Pkg};
use opam_package::Member;
use owner_map::{OwnedPath, Owners};
use std::alloc::Global;
use std::mem;
use switch_journal::Done;

// Each of these paths is owned then.
pub(crate) fn own_all(owners: &mut Owners, owned: Items<OwnedPath>)
    requires can { CanAdd owners.old.owned owned }
    requires room { length owned ≤ owners.old.spare }
    ensures { owners.new.owned ≡ fold and_owned owners.old.owned owned }
{
    for entry in owned.into_vec() {
        let OwnedPath { path, owner } = entry;
        owners.add(path, owner);
    }
}

// The open request has done this.
pub(crate) fn note(request: &mut Option<OpenRequest>, what: Done)
    requires { 0 < done_room request.old }
    ensures { option_map request_in request.new ≡ noted what (option_map request_in request.old) }
{
    match request {
        None => {}
        Some(request) => request.done.push(what),
    }
}

// All but this package.
pub(crate) fn drop_member(members: &mut Buffer<Member>, alloc: Global, pkg: &Pkg)
    ensures { members.new.items ≡ filter (is_other_member pkg.now) members.old.items }
{
    let all = mem::replace(members, Buffer::new(alloc));
    let mut rest = all.into_items().into_vec();
    rest.retain(|member| {
        !(member.package.pkg.name == pkg.name && member.package.pkg.version == pkg.version)
    });
    *members = Buffer::from_items(Items::from_vec(rest));
}
