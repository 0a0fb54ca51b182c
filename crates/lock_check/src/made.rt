// The target of an install, once all that are needed were read.
ghost use Rattle.std.specs.Prelude.{[], ◌≡◌, IfOk, bytes_eq, map};
ghost use Rattle.std.specs.List.{IsDistinct};
ghost use Rattle.opam_names.specs.ByteOrders.{NeverFallsBy, RisesBy, in_order_by};
ghost use Rattle.opam_filter.specs.Sets.{Rises};
ghost use Rattle.lock_check.specs.Made.{all_of, roots_of, told_of_all};
ghost use Rattle.lock_check.specs.Targets.{by_name, member_name};

use crate::Violation;
use crate::install::{all_members, roots_with, sorted_names, starts, tell_unknown};
use crate::progress::Sources;
use crate::targets::{pkgs_of, sort_named};
use crate::violations::tell_members;
use opam_names::{Items, Name, OutOfMemory, Pkg};
use opam_package::{Member, Target};
use std::alloc::Global;
use std::collections::BTreeSet;

// The members in the byte order of their names.
fn install_members(
    alloc: Global,
    sources: &Sources,
    needed: &BTreeSet<Name>,
    installed: &[Member],
    known: Items<Member>,
) -> Result<Items<Member>, OutOfMemory>
    requires bound { Rises sources.now.bound }
    requires differ { IsDistinct bytes_eq
        (map member_name (all_of sources.now needed.now.keys installed.now known)) }
    ensures value { IfOk result (λ members. members
        ≡ by_name (all_of sources.now needed.now.keys installed.now known)) }
    ensures rises { IfOk result (RisesBy member_name) }
{
    let bound = sources.bound.as_slice();
    let copies = all_members(alloc, bound, needed, installed, known)?;
    sort_named(alloc, copies)
}

// The roots of before that are members, and the names that are asked for.
fn install_roots(
    alloc: Global,
    sources: &Sources,
    members: &[Member],
    roots: &[Name],
) -> Result<Items<Name>, OutOfMemory>
    requires { RisesBy member_name members.now }
    ensures { IfOk result (λ names. names ≡ roots_of sources.now members.now roots.now) }
{
    let starts = starts(alloc, sources.bound.as_slice(), sources.asked.as_slice())?;
    let set = pkgs_of(alloc, members)?;
    roots_with(alloc, set.as_slice(), roots, starts)
}

/// The target.
pub(crate) fn install_target(
    alloc: Global,
    sources: &Sources,
    needed: &BTreeSet<Name>,
    known: Items<Member>,
    installed: &[Member],
    roots: &[Name],
) -> Result<Target, OutOfMemory>
    requires bound { Rises sources.now.bound }
    requires differ { IsDistinct bytes_eq
        (map member_name (all_of sources.now needed.now.keys installed.now known)) }
    ensures members { IfOk result (λ target. target.members
        ≡ by_name (all_of sources.now needed.now.keys installed.now known)) }
    ensures redo { IfOk result (λ target. target.redo ≡ []) }
    ensures fresh { IfOk result (λ target. target.fresh
        ≡ in_order_by (λ name. name) (map member_name known)) }
    ensures roots { IfOk result (λ target. target.roots
        ≡ roots_of sources.now target.members roots.now) }
    ensures rises { IfOk result (λ target. RisesBy member_name target.members) }
    ensures order { IfOk result (λ target. NeverFallsBy (λ name. name) target.fresh) }
{
    let fresh = sorted_names(alloc, known.as_slice())?;
    let members = install_members(alloc, sources, needed, installed, known)?;
    Ok(Target {
        roots: install_roots(alloc, sources, members.as_slice(), roots)?,
        redo: Items::new(alloc),
        fresh,
        members,
    })
}

/// What stands against it.
pub(crate) fn install_told(
    alloc: Global,
    sources: &Sources,
    unknown: Items<Pkg>,
    target: &Target,
) -> Result<Items<Violation>, OutOfMemory>
    requires bound { Rises sources.now.bound }
    requires rises { RisesBy member_name target.now.members }
    requires order { NeverFallsBy (λ name. name) target.now.fresh }
    ensures { IfOk result (λ told. told ≡ told_of_all sources.now unknown target.now) }
{
    let members = target.members.as_slice();
    let set = pkgs_of(alloc, members)?;
    let bound = sources.bound.as_slice();
    let mut told = tell_unknown(alloc, bound, sources.asked.as_slice(), unknown)?;
    tell_members(
        alloc,
        members,
        set.as_slice(),
        target.fresh.as_slice(),
        &mut told,
    )?;
    told.sort_by_bytes()?;
    Ok(told)
}
