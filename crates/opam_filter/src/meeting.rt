// What a set of packages meets, and what one package does.
ghost use Rattle.std.specs.Prelude.{◌≡◌, IfOk, OnOk, map};
ghost use Rattle.std.specs.List.{flat_map, list_all, list_any};
ghost use Rattle.opam_filter.specs.NameSets.{with_names};
ghost use Rattle.opam_filter.specs.Sets.{Rises, holds, is_met_by, kept_names, meets, names};

use crate::reducing::is_met;
use crate::{Reduced, Test};
use opam_names::{Items, Name, OutOfMemory, Pkg};
use std::alloc::Global;
use std::collections::BTreeSet;

/// Whether a set of packages meets what is left of a formula. The packages stand in the order of the bytes of their
/// names, each name once. What was left out holds.
#[cycle(hold)]
pub fn holds(reduced: &Reduced, set: &[Pkg]) -> bool
    requires { Rises set.now }
    ensures { result ≡ holds reduced.now set.now }
{
    match reduced {
        Reduced::Dropped => true,
        Reduced::And(parts) => all_hold(parts.as_slice(), set),
        Reduced::Or(parts) => some_holds(parts.as_slice(), set),
        Reduced::Atom { name, test } => is_met_in(name, test, set),
    }
}

#[cycle(hold)]
fn all_hold(parts: &[Reduced], set: &[Pkg]) -> bool
    requires { Rises set.now }
    ensures { result ≡ list_all (λ part. part) (map (λ part. holds part set.now) parts.now) }
{
    for part in parts {
        if !holds(part, set) {
            return false;
        }
    }
    true
}

#[cycle(hold)]
fn some_holds(parts: &[Reduced], set: &[Pkg]) -> bool
    requires { Rises set.now }
    ensures { result ≡ list_any (λ part. part) (map (λ part. holds part set.now) parts.now) }
{
    for part in parts {
        if holds(part, set) {
            return true;
        }
    }
    false
}

// Whether the package of this name is in the set, and its version meets the test.
fn is_met_in(name: &Name, test: &Test, set: &[Pkg]) -> bool
    requires { Rises set.now }
    ensures { result ≡ list_any (is_met_by name.now test.now) set.now }
{
    match set.binary_search_by(|pkg| pkg.name.cmp(name)) {
        Ok(at) => is_met(test, set[at].version.as_str()),
        Err(_) => false,
    }
}

/// Whether it is an atom that the package meets.
pub fn meets(reduced: &Reduced, pkg: &Pkg) -> bool
    ensures { result ≡ meets reduced.now pkg.now }
{
    match reduced {
        Reduced::Atom { name, test } => is_met_by(name, test, pkg),
        Reduced::Dropped | Reduced::And(_) | Reduced::Or(_) => false,
    }
}

fn is_met_by(name: &Name, test: &Test, pkg: &Pkg) -> bool
    ensures { result ≡ is_met_by name.now test.now pkg.now }
{
    pkg.name == *name && is_met(test, pkg.version.as_str())
}

/// The names of the packages that are left, in the order of their bytes, each once.
pub fn names(alloc: Global, reduced: &Reduced) -> Result<Items<Name>, OutOfMemory>
    ensures { IfOk result (λ found. found ≡ names reduced.now) }
{
    let mut found = BTreeSet::new(alloc);
    gather(alloc, reduced, &mut found)?;
    Ok(Items::from_vec(found.into_iter().collect(alloc)?))
}

#[cycle(gather)]
fn gather(alloc: Global, reduced: &Reduced, found: &mut BTreeSet<Name>) -> Result<(), OutOfMemory>
    ensures { OnOk result (found.new.keys ≡ with_names found.old.keys (kept_names reduced.now)) }
{
    match reduced {
        Reduced::Dropped => Ok(()),
        Reduced::And(parts) | Reduced::Or(parts) => gather_all(alloc, parts.as_slice(), found),
        Reduced::Atom { name, .. } => {
            found.insert(name.copy(alloc)?)?;
            Ok(())
        }
    }
}

#[cycle(gather)]
fn gather_all(
    alloc: Global,
    parts: &[Reduced],
    found: &mut BTreeSet<Name>,
) -> Result<(), OutOfMemory>
    ensures { OnOk result (found.new.keys ≡ with_names found.old.keys
        (flat_map (λ names. names) (map kept_names parts.now))) }
{
    for part in parts {
        gather(alloc, part, found)?;
    }
    Ok(())
}
