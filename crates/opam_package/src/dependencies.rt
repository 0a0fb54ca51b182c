// What a package stands on within a set of packages, and what it forbids.
ghost use Rattle.std.specs.Prelude.{◌≡◌, IfOk};
ghost use Rattle.opam_names.specs.ByteOrders.{NeverFallsBy};
ghost use Rattle.opam_package.specs.Dependencies as dependencies;
ghost use Rattle.opam_package.specs.Wishes as picks;
ghost use Rattle.opam_package.specs.Wishes.{picked_in, picked_of, wish_key};

use crate::wishes::{Wish, meets_some, wishes_of};
use crate::{Need, Package};
use opam_filter::{Reduced, meets, names};
use opam_names::{Items, Name, OutOfMemory, Pkg, has_bytes, sort_by_bytes};
use std::alloc::Global;

fn is_other(dependent: &Package, other: &Pkg) -> bool
    ensures { result ≡ dependencies.is_other dependent.now other.now }
{
    other.name != dependent.pkg.name
}

// Whether the package meets one of the atoms.
fn meets_one(atoms: &[Reduced], other: &Pkg) -> bool
    ensures { result ≡ dependencies.meets_one atoms.now other.now }
{
    for atom in atoms {
        if meets(atom, other) {
            return true;
        }
    }
    false
}

// The names that the formulas keep when `build` and `post` are false.
fn run_names(alloc: Global, needs: &[Need]) -> Result<Vec<Name>, OutOfMemory>
    ensures { IfOk result (λ all. all.items ≡ picks.run_names needs.now) }
{
    let mut all = Vec::new(alloc);
    for need in needs {
        let mut kept = names(alloc, &need.runtime)?.into_vec();
        all.append(&mut kept)?;
    }
    Ok(all)
}

// The same, and those that they keep when `build` is true.
fn built_names(alloc: Global, needs: &[Need]) -> Result<Vec<Name>, OutOfMemory>
    ensures { IfOk result (λ all. all.items ≡ picks.built_names needs.now) }
{
    let mut all = Vec::new(alloc);
    for need in needs {
        let mut kept = names(alloc, &need.runtime)?.into_vec();
        let mut built = names(alloc, &need.building)?.into_vec();
        all.append(&mut kept)?;
        all.append(&mut built)?;
    }
    Ok(all)
}

// Whether it is another package that is named or wished for, found by halves.
fn is_picked(dependent: &Package, named: &[Name], wishes: &[Wish], other: &Pkg) -> bool
    requires named { NeverFallsBy (λ name. name) named.now }
    requires wishes { NeverFallsBy wish_key wishes.now }
    ensures { result ≡ picks.is_picked dependent.now named.now wishes.now other.now }
{
    is_other(dependent, other)
        && (has_bytes(named, other.name.as_str().as_bytes()) || meets_some(wishes, other))
}

fn pick(
    alloc: Global,
    dependent: &Package,
    named: &[Name],
    wishes: &[Wish],
    set: &[Pkg],
) -> Result<Items<Name>, OutOfMemory>
    requires named { NeverFallsBy (λ name. name) named.now }
    requires wishes { NeverFallsBy wish_key wishes.now }
    ensures { IfOk result (λ found. found ≡ picked_in dependent.now named.now wishes.now set.now) }
{
    let mut found = Items::new(alloc);
    for other in set {
        if is_picked(dependent, named, wishes, other) {
            found.push(other.name.copy(alloc)?)?;
        }
    }
    Ok(found)
}

// What is named and what is wished for is put into byte order once, so that each package of the set costs two searches.
#[tactic(auto, using(crate::proofs::Wished::names_up, crate::proofs::Wished::wishes_up))]
fn pick_named(
    alloc: Global,
    dependent: &Package,
    named: Vec<Name>,
    set: &[Pkg],
) -> Result<Items<Name>, OutOfMemory>
    ensures { IfOk result (λ found. found ≡ picked_of dependent.now named.items set.now) }
{
    let mut sorted = named;
    sort_by_bytes(&mut sorted)?;
    let wishes = wishes_of(alloc, dependent.depopts.as_slice())?;
    pick(alloc, dependent, sorted.as_slice(), wishes.as_slice(), set)
}

/// The names of the packages in the set that the package needs when it runs, in the order of the set. Each of them is
/// looked up by halves among what the package names.
#[tactic(auto, using(crate::proofs::Wished::edges_picked))]
pub fn edges(alloc: Global, dependent: &Package, set: &[Pkg]) -> Result<Items<Name>, OutOfMemory>
    ensures { IfOk result (λ names. names ≡ dependencies.edges_in dependent.now set.now) }
{
    let named = run_names(alloc, dependent.items.as_slice())?;
    pick_named(alloc, dependent, named, set)
}

/// The names of the packages in the set that the package needs when it runs or is built, in the order of the set. Each
/// of them is looked up by halves among what the package names.
#[tactic(auto, using(crate::proofs::Wished::needs_picked))]
pub fn needs(alloc: Global, dependent: &Package, set: &[Pkg]) -> Result<Items<Name>, OutOfMemory>
    ensures { IfOk result (λ names. names ≡ dependencies.needs_in dependent.now set.now) }
{
    let named = built_names(alloc, dependent.items.as_slice())?;
    pick_named(alloc, dependent, named, set)
}

/// Whether the other is another package that meets a conflict of the package.
pub fn forbids(dependent: &Package, other: &Pkg) -> bool
    ensures { result ≡ dependencies.is_forbidden dependent.now other.now }
{
    is_other(dependent, other) && meets_one(dependent.conflicts.as_slice(), other)
}
