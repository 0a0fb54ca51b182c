// Where the member of a name stands, found by halves.
ghost use Rattle.std.specs.Prelude.{◌≡◌, ◌↔◌, IsTrue, ◌<◌, ◌≤◌, ◌^◌, length, IfOk};
ghost use Rattle.std.specs.Option.{option_copied};
ghost use Rattle.opam_names.specs.ByteOrders.{NeverFallsBy, RisesBy, count_before, place_of_key};
ghost use Rattle.action_graph.specs.Leaving.{member_called, name_of};
ghost use Rattle.action_graph.specs.Nodes.{spots_from, spots_in};

use opam_names::{ByteKey, Items, Name, OutOfMemory, find_by_bytes};
use opam_package::Member;
use std::alloc::Global;

pub(crate) trait Lookup {
    ghost use Rattle.std.specs.Prelude.{List, ◌<◌, ◌^◌, length, IfSome};
    ghost use Rattle.opam_names.specs.ByteOrders.{place_of_key};
    ghost use Rattle.opam_package.specs.declared.package.Member.{Member};
    ghost use Rattle.action_graph.specs.Leaving.{name_of};

    // Whether it finds in these members.
    ghost fit: { Self → List Member → Type 0 };

    // The first place of the name.
    fn find(&self, members: &[Member], name: &Name) -> Option<u32>
        requires small { length members.now < 2 ^ 32 }
        requires fit { fit self.now members.now }
        ensures value { result ≡ place_of_key name_of name.now members.now }
        ensures within { IfSome result (λ place. place < length members.now) };
}

// The member of the name.
pub(crate) fn called<'a, L: Lookup>(
    members: &'a [Member],
    lookup: &L,
    name: &Name,
) -> Option<&'a Member>
    requires small { length members.now < 2 ^ 32 }
    requires fit { L.fit lookup.now members.now }
    ensures { option_copied result ≡ member_called members.now name.now }
{
    match lookup.find(members, name) {
        None => None,
        Some(place) => Some(&members[place as usize]),
    }
}

// Finds in members that stand in the byte order of their names.
pub(crate) struct InOrder;

fn count_before(members: &[Member], name: &[u8]) -> usize
    requires { NeverFallsBy name_of members.now }
    ensures value { result ≡ count_before name_of name.now members.now }
    ensures within { result ≤ length members.now }
{
    members.partition_point(|member| bytes_of(member).cmp(name).is_lt())
}

fn bytes_of(member: &Member) -> &[u8]
    ensures { result.now ≡ name_of member.now }
{
    member.package.pkg.name.as_str().as_bytes()
}

/// Whether members stand in the byte order of their names, each name once.
pub fn are_in_order(members: &[Member]) -> bool
    ensures { IsTrue result ↔ RisesBy name_of members.now }
{
    members.is_sorted_by(|one, next| bytes_of(one).cmp(bytes_of(next)).is_lt())
}

impl Lookup for InOrder {
    ghost use Rattle.opam_names.specs.ByteOrders.{NeverFallsBy};
    ghost use Rattle.action_graph.specs.Leaving.{name_of};

    ghost fit = { λ _ members. NeverFallsBy name_of members };

    fn find(&self, members: &[Member], name: &Name) -> Option<u32> {
        let bytes = name.as_str().as_bytes();
        let place = count_before(members, bytes);
        if place == members.len() {
            return None;
        }
        if bytes_of(&members[place]) == bytes {
            Some(place as u32)
        } else {
            None
        }
    }
}

// A name with its place.
#[derive(Drop)]
pub(crate) struct Spot {
    pub(crate) name: Name,
    pub(crate) place: u32,
}

impl ByteKey for Spot {
    ghost use Rattle.action_graph.specs.Nodes.{spot_name};

    ghost key = { spot_name };

    fn key(&self) -> &[u8] {
        self.name.as_str().as_bytes()
    }
}

fn spots_of(alloc: Global, members: &[Member]) -> Result<Items<Spot>, OutOfMemory>
    requires { length members.now < 2 ^ 32 }
    ensures { IfOk result (λ spots. spots ≡ spots_from 0 members.now) }
{
    let mut spots = Items::new(alloc);
    for at in 0..members.len() {
        spots.push(Spot {
            name: members[at].package.pkg.name.copy(alloc)?,
            place: at as u32,
        })?;
    }
    Ok(spots)
}

// Finds in members that stand in any order.
#[derive(Drop)]
pub(crate) struct Index {
    pub(crate) spots: Items<Spot>,
}

impl Index {
    pub(crate) fn of(alloc: Global, members: &[Member]) -> Result<Index, OutOfMemory>
        requires { length members.now < 2 ^ 32 }
        ensures { IfOk result (λ index. index.spots ≡ spots_in members.now) }
    {
        let mut spots = spots_of(alloc, members)?;
        spots.sort_by_bytes()?;
        Ok(Index { spots })
    }
}

impl Lookup for Index {
    ghost use Rattle.std.specs.Prelude.{◌≡◌};
    ghost use Rattle.action_graph.specs.Nodes.{spots_in};

    ghost fit = { λ index members. index.spots ≡ spots_in members };

    fn find(&self, _members: &[Member], name: &Name) -> Option<u32> {
        let spots = self.spots.as_slice();
        match find_by_bytes(spots, name.as_str().as_bytes()) {
            None => None,
            Some(at) => Some(spots[at].place),
        }
    }
}
