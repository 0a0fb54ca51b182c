// What a switch is to become where packages of a lock are installed, once all that are needed were read.
ghost use Rattle.std.specs.Prelude.{[], ◌∷◌, ◌≡◌, ◌++◌, IfOk, OnOk, bytes_eq, filter, map, not};
ghost use Rattle.std.specs.List.{IsDistinct};
ghost use Rattle.opam_names.specs.ByteOrders.{NeverFallsBy, each_once, in_order_by};
ghost use Rattle.lock_check.specs.Chased as chased;
ghost use Rattle.lock_check.specs.Chased.{is_replaced, pkg_name};
ghost use Rattle.lock_check.specs.Installs.{inner, names_among};
ghost use Rattle.lock_check.specs.Targets.{has_member, member_name};

use crate::growth::has;
use crate::held::{append, bound_at};
use crate::targets::{Named, name_set, names_in};
use crate::{Violation, What, Who};
use opam_names::{Items, Name, OutOfMemory, Pkg, has_bytes, order_is_stable};
use opam_package::Member;
use std::alloc::Global;
use std::collections::BTreeSet;

pub(crate) fn copy_names(alloc: Global, names: &[Name]) -> Result<Items<Name>, OutOfMemory>
    ensures { IfOk result (λ copies. copies ≡ names.now) }
{
    let mut copies = Items::new(alloc);
    for name in names {
        copies.push(name.copy(alloc)?)?;
    }
    Ok(copies)
}

pub(crate) fn copy_pkgs(alloc: Global, pkgs: &[Pkg]) -> Result<Items<Pkg>, OutOfMemory>
    ensures { IfOk result (λ copies. copies ≡ pkgs.now) }
{
    let mut copies = Items::new(alloc);
    for pkg in pkgs {
        copies.push(pkg.copy(alloc)?)?;
    }
    Ok(copies)
}

fn names_of(alloc: Global, pkgs: &[Pkg]) -> Result<Items<Name>, OutOfMemory>
    ensures { IfOk result (λ names. names ≡ map pkg_name pkgs.now) }
{
    let mut names = Items::new(alloc);
    for pkg in pkgs {
        names.push(pkg.name.copy(alloc)?)?;
    }
    Ok(names)
}

/// The names that are asked for: all that are bound where none is.
pub(crate) fn starts(
    alloc: Global,
    bound: &[Pkg],
    asked: &[Name],
) -> Result<Items<Name>, OutOfMemory>
    ensures { IfOk result (λ names. names ≡ chased.starts bound.now asked.now) }
{
    if asked.is_empty() {
        return names_of(alloc, bound);
    }
    copy_names(alloc, asked)
}

// Whether another version of a member's name is bound, and the name is needed.
fn is_replaced(bound: &[Pkg], needed: &BTreeSet<Name>, member: &Member) -> bool
    requires { NeverFallsBy pkg_name bound.now }
    ensures { result ≡ is_replaced bound.now needed.now.keys member.now }
{
    let pkg = &member.package.pkg;
    match bound_at(bound, &pkg.name) {
        None => false,
        Some(other) => other.version != pkg.version && has(needed, &pkg.name),
    }
}

fn keep_one(
    alloc: Global,
    bound: &[Pkg],
    needed: &BTreeSet<Name>,
    member: &Member,
    copies: &mut Items<Named>,
) -> Result<(), OutOfMemory>
    requires { NeverFallsBy pkg_name bound.now }
    ensures { OnOk result (map inner copies.new
        ≡ map inner copies.old ++ chased.stay bound.now needed.now.keys (member.now ∷ [])) }
{
    if is_replaced(bound, needed, member) {
        return Ok(());
    }
    copies.push(Named {
        member: member.copy(alloc)?,
    })
}

// The installed members that stay.
fn kept(
    alloc: Global,
    bound: &[Pkg],
    needed: &BTreeSet<Name>,
    installed: &[Member],
) -> Result<Items<Named>, OutOfMemory>
    requires { NeverFallsBy pkg_name bound.now }
    ensures { IfOk result (λ copies. map inner copies
        ≡ chased.stay bound.now needed.now.keys installed.now) }
{
    let mut copies = Items::new(alloc);
    for member in installed {
        keep_one(alloc, bound, needed, member, &mut copies)?;
    }
    Ok(copies)
}

fn add_members(known: Items<Member>, copies: &mut Items<Named>) -> Result<(), OutOfMemory>
    ensures { OnOk result (map inner copies.new ≡ map inner copies.old ++ known) }
{
    for member in known.into_vec() {
        copies.push(Named { member })?;
    }
    Ok(())
}

/// The members that an install leads to, before they are put into order.
pub(crate) fn all_members(
    alloc: Global,
    bound: &[Pkg],
    needed: &BTreeSet<Name>,
    installed: &[Member],
    known: Items<Member>,
) -> Result<Items<Named>, OutOfMemory>
    requires { NeverFallsBy pkg_name bound.now }
    ensures { IfOk result (λ copies. map inner copies
        ≡ chased.stay bound.now needed.now.keys installed.now ++ known) }
{
    let mut copies = kept(alloc, bound, needed, installed)?;
    add_members(known, &mut copies)?;
    Ok(copies)
}

fn member_names(alloc: Global, members: &[Member]) -> Result<Items<Name>, OutOfMemory>
    ensures { IfOk result (λ names. names ≡ map member_name members.now) }
{
    let mut names = Items::new(alloc);
    for member in members {
        names.push(member.package.pkg.name.copy(alloc)?)?;
    }
    Ok(names)
}

/// The names of members in byte order.
pub(crate) fn sorted_names(alloc: Global, members: &[Member]) -> Result<Items<Name>, OutOfMemory>
    ensures value { IfOk result (λ names. names
        ≡ in_order_by (λ name. name) (map member_name members.now)) }
    ensures order { IfOk result (NeverFallsBy (λ name. name)) }
{
    order_is_stable::<Name>();
    let mut names = member_names(alloc, members)?;
    names.sort_by_bytes()?;
    Ok(names)
}

/// The roots that a set has, and more names, in byte order and each once.
pub(crate) fn roots_with(
    alloc: Global,
    set: &[Pkg],
    roots: &[Name],
    more: Items<Name>,
) -> Result<Items<Name>, OutOfMemory>
    requires { NeverFallsBy pkg_name set.now }
    ensures { IfOk result (λ names. names ≡ each_once (names_among set.now roots.now ++ more)) }
{
    let mut names = names_in(alloc, set, roots)?;
    append(more, &mut names)?;
    let once = name_set(alloc, names.as_slice())?;
    Ok(Items::from_vec(once.into_iter().collect(alloc)?))
}

fn note_unbound(
    alloc: Global,
    bound: &[Pkg],
    name: &Name,
    told: &mut Items<Violation>,
) -> Result<(), OutOfMemory>
    requires { NeverFallsBy pkg_name bound.now }
    ensures { OnOk result (told.new ≡ told.old ++ chased.told_unbounds bound.now (name.now ∷ [])) }
{
    if has_bytes(bound, name.as_str().as_bytes()) {
        return Ok(());
    }
    told.push(Violation {
        who: Who::Name(name.copy(alloc)?),
        what: What::Unknown,
    })
}

fn note_unbounds(
    alloc: Global,
    bound: &[Pkg],
    asked: &[Name],
    told: &mut Items<Violation>,
) -> Result<(), OutOfMemory>
    requires { NeverFallsBy pkg_name bound.now }
    ensures { OnOk result (told.new ≡ told.old ++ chased.told_unbounds bound.now asked.now) }
{
    for name in asked {
        note_unbound(alloc, bound, name, told)?;
    }
    Ok(())
}

fn note_unknown(unknown: Items<Pkg>, told: &mut Items<Violation>) -> Result<(), OutOfMemory>
    ensures { OnOk result (told.new ≡ told.old ++ map chased.told_unknown unknown) }
{
    for pkg in unknown.into_vec() {
        told.push(Violation {
            who: Who::Pkg(pkg),
            what: What::Unknown,
        })?;
    }
    Ok(())
}

/// What is told of names that are not bound and of packages that the repository has not.
pub(crate) fn tell_unknown(
    alloc: Global,
    bound: &[Pkg],
    asked: &[Name],
    unknown: Items<Pkg>,
) -> Result<Items<Violation>, OutOfMemory>
    requires { NeverFallsBy pkg_name bound.now }
    ensures { IfOk result (λ told. told
        ≡ chased.told_unbounds bound.now asked.now ++ map chased.told_unknown unknown) }
{
    let mut told = Items::new(alloc);
    note_unbounds(alloc, bound, asked, &mut told)?;
    note_unknown(unknown, &mut told)?;
    Ok(told)
}
