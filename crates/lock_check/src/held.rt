// What is kept in mind of packages: the names in their full formulas.
ghost use Rattle.std.specs.Prelude.{[], ◌∷◌, ◌≡◌, ◌++◌, IfOk, OnOk, bytes_eq, filter, find, map};
ghost use Rattle.std.specs.List.{IsDistinct};
ghost use Rattle.std.specs.Option.{option_copied};
ghost use Rattle.opam_names.specs.ByteOrders.{NeverFallsBy, RisesBy, has_key};
ghost use Rattle.lock_check.specs.Chased as chased;
ghost use Rattle.lock_check.specs.Needed as needed;
ghost use Rattle.lock_check.specs.Targets.{member_name};

use opam_filter::names;
use opam_names::{
    ByteKey, Items, Name, OutOfMemory, Pkg, find_by_bytes, has_bytes, order_is_stable,
};
use opam_package::{Member, Package};
use std::alloc::Global;

/// A package, and the names in its full formulas.
#[derive(Drop)]
pub struct Held {
    pub pkg: Pkg,
    pub names: Items<Name>,
}

/// It stands by its name.
impl ByteKey for Held {
    ghost key = { λ held. held.pkg.name };

    fn key(&self) -> &[u8] {
        self.pkg.name.as_str().as_bytes()
    }
}

/// Adds more names at the end.
pub(crate) fn append(more: Items<Name>, found: &mut Items<Name>) -> Result<(), OutOfMemory>
    ensures { OnOk result (found.new ≡ found.old ++ more) }
{
    for name in more.into_vec() {
        found.push(name)?;
    }
    Ok(())
}

/// The names of the kept atoms of a package's full formulas.
pub(crate) fn full_names(alloc: Global, dependent: &Package) -> Result<Items<Name>, OutOfMemory>
    ensures { IfOk result (λ found. found ≡ needed.full_names dependent.now) }
{
    let needs = dependent.items.as_slice();
    let mut found = Items::new(alloc);
    for need in needs {
        append(names(alloc, &need.full)?, &mut found)?;
    }
    Ok(found)
}

fn hold_each(alloc: Global, members: &[Member]) -> Result<Items<Held>, OutOfMemory>
    ensures { IfOk result (λ held. held ≡ map chased.held_of members.now) }
{
    let mut held = Items::new(alloc);
    for member in members {
        held.push(Held {
            pkg: member.package.pkg.copy(alloc)?,
            names: full_names(alloc, &member.package)?,
        })?;
    }
    Ok(held)
}

/// What is kept in mind of members, in the byte order of their names.
pub(crate) fn hold_all(alloc: Global, members: &[Member]) -> Result<Items<Held>, OutOfMemory>
    requires { IsDistinct bytes_eq (map member_name members.now) }
    ensures value { IfOk result (λ held. held ≡ chased.held_by_name members.now) }
    ensures rises { IfOk result (λ held. RisesBy chased.held_name held) }
{
    order_is_stable::<Held>();
    let mut held = hold_each(alloc, members)?;
    held.sort_by_bytes()?;
    Ok(held)
}

/// The first element with a key, found by halves.
pub(crate) fn found_at<'a, T: ByteKey>(items: &'a [T], key: &[u8]) -> Option<&'a T>
    requires { NeverFallsBy T.key items.now }
    ensures { option_copied result ≡ find (has_key T.key key.now) items.now }
{
    match find_by_bytes(items, key) {
        None => None,
        Some(place) => items.get(place),
    }
}

/// The package that is bound to a name.
pub(crate) fn bound_at<'a>(bound: &'a [Pkg], name: &Name) -> Option<&'a Pkg>
    requires { NeverFallsBy chased.pkg_name bound.now }
    ensures { option_copied result ≡ chased.bound_to bound.now name.now }
{
    found_at(bound, name.as_str().as_bytes())
}

/// What is kept in mind of an installed package that is just the bound one.
pub(crate) fn stored_at<'a>(installed: &'a [Held], pkg: &Pkg) -> Option<&'a Held>
    requires { NeverFallsBy chased.held_name installed.now }
    ensures { option_copied result ≡ chased.stored_in installed.now pkg.now }
{
    match found_at(installed, pkg.name.as_str().as_bytes()) {
        None => None,
        Some(held) => {
            if held.pkg.version == pkg.version {
                Some(held)
            } else {
                None
            }
        }
    }
}

fn note_bound(
    alloc: Global,
    bound: &[Pkg],
    name: &Name,
    found: &mut Items<Name>,
) -> Result<(), OutOfMemory>
    requires { NeverFallsBy chased.pkg_name bound.now }
    ensures { OnOk result (found.new ≡ found.old ++ chased.bound_among bound.now (name.now ∷ [])) }
{
    if has_bytes(bound, name.as_str().as_bytes()) {
        found.push(name.copy(alloc)?)?;
    }
    Ok(())
}

/// Those names that are bound.
pub(crate) fn bound_among(
    alloc: Global,
    bound: &[Pkg],
    names: &[Name],
) -> Result<Items<Name>, OutOfMemory>
    requires { NeverFallsBy chased.pkg_name bound.now }
    ensures { IfOk result (λ found. found ≡ chased.bound_among bound.now names.now) }
{
    let mut found = Items::new(alloc);
    for name in names {
        note_bound(alloc, bound, name, &mut found)?;
    }
    Ok(found)
}
