// The owned paths of a slot that is given piece by piece, each with the place of its owner among the entries.
ghost use Rattle.std.specs.Prelude.{◌≡◌, ◌<◌, ◌^◌, ◌++◌, length, true, IfOk, OnOk};
ghost use Rattle.std.specs.List.{list_all};
ghost use Rattle.opam_names.specs.ByteOrders.{NeverFallsBy};
ghost use Rattle.owner_map.specs.Owning.{is_same_pkg};
ghost use Rattle.owner_map.specs.declared.owned.OwnedPath.{OwnedPath};
ghost use Rattle.switch_journal.specs.Pieced.{ArePathsAdded, IsPlaceOf, has_given, place_name};

use journal_text::push_slot_path;
use opam_names::{ByteKey, Name, OutOfMemory, Pkg, find_by_bytes, sort_by_bytes};
use owner_map::Owners;
use std::alloc::Global;

// A package that was given, and where its opam text stands in the text of the slot.
#[derive(Drop)]
pub(crate) struct Given {
    pub(crate) pkg: Pkg,
    pub(crate) from: usize,
    pub(crate) len: usize,
}

// The name of a package that was given, with its place.
#[derive(Drop)]
pub(crate) struct NamePlace {
    name: Name,
    at: usize,
}

impl ByteKey for NamePlace {
    ghost key = { λ place. place.name };

    fn key(&self) -> &[u8] {
        self.name.as_str().as_bytes()
    }
}

// Each owned path, and the place of its owner.
pub(crate) fn push_paths(
    alloc: Global,
    out: &mut Vec<u8>,
    owners: &Owners,
    given: &[Given],
) -> Result<(), OutOfMemory>
    requires few { length given.now < 2 ^ 32 }
    requires owners { list_all (λ (o : OwnedPath). has_given given.now o.owner) owners.now.owned ≡ true }
    ensures { OnOk result (ArePathsAdded given.now owners.now.owned out.old.items out.new.items) }
{
    let names = sorted_names(alloc, given)?;
    for i in 0..owners.len() {
        let (path, owner) = owners.at(i);
        let place = place_of(given, likely_place(names.as_slice(), &owner.name), owner);
        push_slot_path(out, path, place as u32)?;
    }
    Ok(())
}

// The names of the packages with their places, in the order of their bytes.
fn sorted_names(alloc: Global, given: &[Given]) -> Result<Vec<NamePlace>, OutOfMemory>
    ensures { IfOk result (λ names. NeverFallsBy place_name names.items) }
{
    let mut names = Vec::new(alloc);
    for at in 0..given.len() {
        let name = given[at].pkg.name.copy(alloc)?;
        names.push(NamePlace { name, at })?;
    }
    sort_by_bytes(&mut names)?;
    Ok(names)
}

// Where the package with this name is likely to stand. Whoever takes the place looks at it once more.
fn likely_place(names: &[NamePlace], name: &Name) -> usize
    requires { NeverFallsBy place_name names.now }
{
    match find_by_bytes(names, name.as_str().as_bytes()) {
        None => 0,
        Some(found) => match names.get(found) {
            None => 0,
            Some(place) => place.at,
        },
    }
}

// Where this very package stands: at the likely place, or else where it is found first.
fn place_of(given: &[Given], likely: usize, owner: &Pkg) -> usize
    requires { has_given given.now owner.now ≡ true }
    ensures { IsPlaceOf given.now owner.now result }
{
    if likely < given.len() {
        if is_given(&given[likely], owner) {
            return likely;
        }
    }
    first_place(given, owner)
}

fn first_place(given: &[Given], owner: &Pkg) -> usize
    requires { has_given given.now owner.now ≡ true }
    ensures { IsPlaceOf given.now owner.now result }
{
    for at in 0..given.len() {
        if is_given(&given[at], owner) {
            return at;
        }
    }
    unreachable!()
}

fn is_given(given: &Given, pkg: &Pkg) -> bool
    ensures { result ≡ is_same_pkg given.now.pkg pkg.now }
{
    given.pkg.name == pkg.name && given.pkg.version == pkg.version
}
