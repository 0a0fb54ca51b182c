// What a switch is to become where packages are built once more.
ghost use Rattle.std.specs.Prelude.{[], ◌≡◌, ◌∷◌, ◌++◌, IfOk, OnOk, bytes_eq, filter, map};
ghost use Rattle.std.specs.List.{IsDistinct, list_any};
ghost use Rattle.opam_names.specs.ByteOrders.{NeverFallsBy, RisesBy, each_once};
ghost use Rattle.lock_check.specs.Removals.{IsRemoved, not_named, remove_violations};
ghost use Rattle.lock_check.specs.Found.{absents_in, is_name_in};
ghost use Rattle.lock_check.specs.Installs.{inner, named_name};
ghost use Rattle.lock_check.specs.Targets.{by_name, member_name, reinstall_violations, reinstalled, told_absents};
ghost use Rattle.lock_check.specs.Violations as violations;

use crate::removal::largest_met;
use crate::violations::tell_members;
use crate::{Violation, What, Who};
use opam_names::{ByteKey, Items, Name, OutOfMemory, Pkg, has_bytes, order_is_stable, texts_rise};
use opam_package::{Member, Target};
use std::alloc::Global;
use std::collections::BTreeSet;

/// A member that stands by its name.
#[derive(Drop)]
pub(crate) struct Named {
    pub(crate) member: Member,
}

impl ByteKey for Named {
    ghost use Rattle.lock_check.specs.Targets.{member_name};

    ghost key = { λ named. member_name named.member };

    fn key(&self) -> &[u8] {
        self.member.package.pkg.name.as_str().as_bytes()
    }
}

fn copy_members(alloc: Global, members: &[Member]) -> Result<Items<Named>, OutOfMemory>
    ensures { IfOk result (λ copies. map inner copies ≡ members.now) }
{
    let mut copies = Items::new(alloc);
    for member in members {
        copies.push(Named {
            member: member.copy(alloc)?,
        })?;
    }
    Ok(copies)
}

fn members_of(alloc: Global, copies: Items<Named>) -> Result<Items<Member>, OutOfMemory>
    ensures { IfOk result (λ members. members ≡ map inner copies) }
{
    let mut members = Items::new(alloc);
    for copy in copies.into_vec() {
        members.push(copy.member)?;
    }
    Ok(members)
}

/// The members in byte order of their names.
pub(crate) fn sort_named(alloc: Global, copies: Items<Named>) -> Result<Items<Member>, OutOfMemory>
    requires { IsDistinct bytes_eq (map named_name copies) }
    ensures sorted { IfOk result (λ sorted. sorted ≡ by_name (map inner copies)) }
    ensures rises { IfOk result (λ sorted. RisesBy member_name sorted) }
{
    order_is_stable::<Named>();
    let mut ordered = copies;
    ordered.sort_by_bytes()?;
    members_of(alloc, ordered)
}

pub(crate) fn sort_members(alloc: Global, members: &[Member]) -> Result<Items<Member>, OutOfMemory>
    requires { IsDistinct bytes_eq (map member_name members.now) }
    ensures sorted { IfOk result (λ sorted. sorted ≡ by_name members.now) }
    ensures rises { IfOk result (λ sorted. RisesBy member_name sorted) }
{
    let copies = copy_members(alloc, members)?;
    sort_named(alloc, copies)
}

pub(crate) fn pkgs_of(alloc: Global, members: &[Member]) -> Result<Items<Pkg>, OutOfMemory>
    ensures { IfOk result (λ pkgs. pkgs ≡ violations.pkgs_of members.now) }
{
    let mut pkgs = Items::new(alloc);
    for member in members {
        pkgs.push(member.package.pkg.copy(alloc)?)?;
    }
    Ok(pkgs)
}

fn has_name(set: &[Pkg], name: &Name) -> bool
    requires { NeverFallsBy (λ (pkg : Pkg). pkg.name) set.now }
    ensures { result ≡ is_name_in set.now name.now }
{
    has_bytes(set, name.as_str().as_bytes())
}

fn note_found(
    alloc: Global,
    set: &[Pkg],
    name: &Name,
    found: &mut Items<Name>,
) -> Result<(), OutOfMemory>
    requires { NeverFallsBy (λ (pkg : Pkg). pkg.name) set.now }
    ensures { OnOk result (found.new
        ≡ found.old ++ filter (is_name_in set.now) (name.now ∷ [])) }
{
    if has_name(set, name) {
        found.push(name.copy(alloc)?)?;
    }
    Ok(())
}

// The names of packages in the set.
pub(crate) fn names_in(
    alloc: Global,
    set: &[Pkg],
    names: &[Name],
) -> Result<Items<Name>, OutOfMemory>
    requires { NeverFallsBy (λ (pkg : Pkg). pkg.name) set.now }
    ensures { IfOk result (λ found. found ≡ filter (is_name_in set.now) names.now) }
{
    let mut found = Items::new(alloc);
    for name in names {
        note_found(alloc, set, name, &mut found)?;
    }
    Ok(found)
}

fn note_absent(
    alloc: Global,
    set: &[Pkg],
    name: &Name,
    told: &mut Items<Violation>,
) -> Result<(), OutOfMemory>
    requires { NeverFallsBy (λ (pkg : Pkg). pkg.name) set.now }
    ensures { OnOk result (told.new ≡ told.old ++ absents_in set.now (name.now ∷ [])) }
{
    if has_name(set, name) {
        return Ok(());
    }
    told.push(Violation {
        who: Who::Name(name.copy(alloc)?),
        what: What::NotInstalled,
    })
}

// What is told of the names of no packages in the set.
fn absents(alloc: Global, set: &[Pkg], names: &[Name]) -> Result<Items<Violation>, OutOfMemory>
    requires { NeverFallsBy (λ (pkg : Pkg). pkg.name) set.now }
    ensures { IfOk result (λ told. told ≡ absents_in set.now names.now) }
{
    let mut told = Items::new(alloc);
    for name in names {
        note_absent(alloc, set, name, &mut told)?;
    }
    Ok(told)
}

/// What a switch is to become where the named packages are built once more, and what stands against it: names that are not
/// installed, and all that stands against the installed packages. The roots that are handed in are those that the switch has.
pub fn reinstall_target(
    alloc: Global,
    installed: &[Member],
    names: &[Name],
    roots: &[Name],
) -> Result<(Target, Items<Violation>), OutOfMemory>
    requires { IsDistinct bytes_eq (map member_name installed.now) }
    ensures target { IfOk result (λ made. made.0 ≡ reinstalled installed.now names.now roots.now) }
    ensures violations { IfOk result (λ made. made.1
        ≡ reinstall_violations installed.now names.now) }
    ensures rises { IfOk result (λ made. RisesBy member_name made.0.members) }
{
    let members = sort_members(alloc, installed)?;
    let set = pkgs_of(alloc, members.as_slice())?;
    let mut told = absents(alloc, set.as_slice(), names)?;
    tell_members(alloc, members.as_slice(), set.as_slice(), &[], &mut told)?;
    told.sort_by_bytes()?;
    let target = Target {
        redo: names_in(alloc, set.as_slice(), names)?,
        roots: names_in(alloc, set.as_slice(), roots)?,
        fresh: Items::new(alloc),
        members,
    };
    Ok((target, told))
}

pub(crate) fn name_set(alloc: Global, names: &[Name]) -> Result<BTreeSet<Name>, OutOfMemory>
    ensures { IfOk result (λ set. set.keys ≡ each_once names.now) }
{
    let mut set = BTreeSet::new(alloc);
    for name in names {
        set.insert(name.copy(alloc)?)?;
    }
    Ok(set)
}

fn is_named(named: &BTreeSet<Name>, member: &Member) -> bool
    ensures { result ≡ list_any (bytes_eq (member_name member.now)) named.now.keys }
{
    named.contains(&member.package.pkg.name)
}

fn not_named_in(
    alloc: Global,
    installed: &[Member],
    named: &BTreeSet<Name>,
) -> Result<Items<Member>, OutOfMemory>
    ensures { IfOk result (λ others. others ≡ not_named installed.now named.now.keys) }
{
    let mut others = Items::new(alloc);
    for member in installed {
        if !is_named(named, member) {
            others.push(member.copy(alloc)?)?;
        }
    }
    Ok(others)
}

// The installed packages that are not named.
fn not_named(
    alloc: Global,
    installed: &[Member],
    names: &[Name],
) -> Result<Items<Member>, OutOfMemory>
    ensures { IfOk result (λ others. others ≡ not_named installed.now names.now) }
{
    texts_rise();
    let named = name_set(alloc, names)?;
    not_named_in(alloc, installed, &named)
}

// What is told of the names of packages that are not installed.
fn absents_of(
    alloc: Global,
    installed: &[Member],
    names: &[Name],
) -> Result<Items<Violation>, OutOfMemory>
    requires { IsDistinct bytes_eq (map member_name installed.now) }
    ensures { IfOk result (λ told. told ≡ told_absents installed.now names.now) }
{
    let members = sort_members(alloc, installed)?;
    let set = pkgs_of(alloc, members.as_slice())?;
    absents(alloc, set.as_slice(), names)
}

/// What a switch is to become where the named packages are removed: the largest part of the others in which all items of each are
/// met. Besides what stands against it: names that are not installed, and all that stands against what is left. The roots that
/// are handed in are those that the switch has.
pub fn remove_target(
    alloc: Global,
    installed: &[Member],
    names: &[Name],
    roots: &[Name],
) -> Result<(Target, Items<Violation>), OutOfMemory>
    requires { IsDistinct bytes_eq (map member_name installed.now) }
    ensures target { IfOk result (λ made. IsRemoved installed.now names.now roots.now made.0) }
    ensures violations { IfOk result (λ made. made.1
        ≡ remove_violations installed.now names.now made.0.members) }
{
    let others = not_named(alloc, installed, names)?;
    let members = largest_met(alloc, others.as_slice())?;
    let set = pkgs_of(alloc, members.as_slice())?;
    let mut told = absents_of(alloc, installed, names)?;
    tell_members(alloc, members.as_slice(), set.as_slice(), &[], &mut told)?;
    told.sort_by_bytes()?;
    let target = Target {
        redo: Items::new(alloc),
        roots: names_in(alloc, set.as_slice(), roots)?,
        fresh: Items::new(alloc),
        members,
    };
    Ok((target, told))
}
