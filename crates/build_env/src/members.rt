// What a package sees of the view: of its packages those that are asked for, found by name.
ghost use Rattle.std.specs.List.{flat_map};
ghost use Rattle.std.specs.Option.{option_to_list};
ghost use Rattle.std.specs.Prelude.{◌≡◌, [], ◌∷◌, ◌++◌, IfOk, OnOk};
ghost use Rattle.opam_names.specs.Names.{IsName};
ghost use Rattle.build_env.specs.Seen as seen;

use opam_filter::Vars;
use opam_names::{Items, Name, OutOfMemory, Pkg};
use package_vars::{Facts, View, vars_for};
use std::alloc::Global;
use std::collections::BTreeMap;

/// The packages of a view by their names, of several with one name the last.
pub(crate) fn by_name(alloc: Global, members: &[Pkg]) -> Result<BTreeMap<Name, Pkg>, OutOfMemory>
    ensures found { IfOk result (λ named. named.entries ≡ seen.by_name members.now) }
    ensures valid { OnOk result (seen.AreNamed members.now) }
{
    let mut named = BTreeMap::new(alloc);
    for pkg in members {
        note(alloc, &mut named, pkg)?;
    }
    Ok(named)
}

fn note(alloc: Global, named: &mut BTreeMap<Name, Pkg>, pkg: &Pkg) -> Result<(), OutOfMemory>
    ensures found { OnOk result (named.new.entries ≡ seen.with_member named.old.entries pkg.now) }
    ensures valid { OnOk result (IsName pkg.now.name) }
{
    let name = Name::copy(&pkg.name, alloc)?;
    named.insert(name, pkg.copy(alloc)?)?;
    Ok(())
}

// Adds the package of this name, where there is one.
fn add_named(
    alloc: Global,
    found: &mut Items<Pkg>,
    named: &BTreeMap<Name, Pkg>,
    name: &Name,
) -> Result<(), OutOfMemory>
    ensures { OnOk result (found.new ≡
        found.old ++ option_to_list (seen.member_at named.now.entries name.now)) }
{
    match named.get(name) {
        None => Ok(()),
        Some(pkg) => found.push(pkg.copy(alloc)?),
    }
}

fn add_all_named(
    alloc: Global,
    found: &mut Items<Pkg>,
    named: &BTreeMap<Name, Pkg>,
    names: &[Name],
) -> Result<(), OutOfMemory>
    ensures { OnOk result (found.new ≡ found.old ++ seen.members_at named.now.entries names.now) }
{
    for name in names {
        add_named(alloc, found, named, name)?;
    }
    Ok(())
}

/// The variables of a package over those packages of the view alone that are asked for, and the one of its own name.
pub(crate) fn vars_seen(
    alloc: Global,
    facts: &Facts,
    named: &BTreeMap<Name, Pkg>,
    pkg: &Pkg,
    asked: &[Name],
) -> Result<Vars, OutOfMemory>
    ensures { IfOk result (λ vars. vars ≡
        seen.values_seen facts.now named.now.entries pkg.now asked.now) }
{
    let mut members = Items::new(alloc);
    add_named(alloc, &mut members, named, &pkg.name)?;
    add_all_named(alloc, &mut members, named, asked)?;
    vars_for(alloc, facts, &View { members }, pkg, asked)
}
