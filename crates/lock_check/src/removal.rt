// The largest part of members in which all items of each are met.
ghost use Rattle.std.specs.Prelude.{◌≡◌, IfOk, OnOk, bytes_eq, false, map};
ghost use Rattle.std.specs.List.{IsDistinct};
ghost use Rattle.opam_names.specs.ByteOrders.{in_order_by};
ghost use Rattle.opam_filter.specs.Sets.{Rises};
ghost use Rattle.lock_check.specs.Passes.{Judges, pass_after, set_after, set_without};
ghost use Rattle.lock_check.specs.Removals as removals;
ghost use Rattle.lock_check.specs.Targets.{member_name};
ghost use Rattle.lock_check.specs.Violations as violations;

use crate::targets::{pkgs_of, sort_members};
use crate::violations::is_met_among;
use opam_filter::holding_is_monotone;
use opam_names::{Items, Name, OutOfMemory, Pkg, order_is_stable, rising_is_kept, sort_by_bytes};
use opam_package::Member;
use std::alloc::Global;

/// What a pass over members leaves, and whether it drops any.
#[derive(Drop)]
pub(crate) struct Pass {
    pub(crate) kept: Items<Member>,
    pub(crate) dropped: bool,
}

fn drop_pkg(set: &mut Vec<Pkg>, name: &Name)
    ensures { set.new.items ≡ set_without set.old.items name.now }
{
    set.retain(|pkg| pkg.name != *name);
}

// Keeps a member that is met in the set, and drops another one from the set.
fn judge(
    alloc: Global,
    member: &Member,
    set: &mut Vec<Pkg>,
    pass: &mut Pass,
) -> Result<(), OutOfMemory>
    requires { Rises set.old.items }
    ensures pass { OnOk result (pass.new ≡ pass_after set.old.items member.now pass.old) }
    ensures set { OnOk result (set.new.items ≡ set_after set.old.items member.now) }
{
    if is_met_among(&member.package, set.as_slice()) {
        pass.kept.push(member.copy(alloc)?)?;
    } else {
        drop_pkg(set, &member.package.pkg.name);
        pass.dropped = true;
    }
    Ok(())
}

// A pass over members in their order: each is met among those that are left at its turn, or dropped.
fn keep_met(alloc: Global, members: &[Member], set: &mut Vec<Pkg>) -> Result<Pass, OutOfMemory>
    requires { Rises set.old.items }
    ensures rises { OnOk result (Rises set.new.items) }
    ensures judges { IfOk result (λ pass. Judges members.now set.old.items pass set.new.items) }
{
    rising_is_kept::<Pkg>();
    holding_is_monotone();
    let mut pass = Pass {
        kept: Items::new(alloc),
        dropped: false,
    };
    for member in members {
        judge(alloc, member, set, &mut pass)?;
    }
    Ok(pass)
}

// Passes over what is left, until none is dropped.
fn settle(alloc: Global, members: &[Member], set: &mut Vec<Pkg>) -> Result<Pass, OutOfMemory>
    requires { Rises set.old.items }
    ensures judges { IfOk result (λ pass. Judges members.now set.old.items pass set.new.items) }
    ensures quiet { IfOk result (λ pass. pass.dropped ≡ false) }
{
    let mut pass = keep_met(alloc, members, set)?;
    while pass.dropped {
        pass = keep_met(alloc, pass.kept.as_slice(), set)?;
    }
    Ok(pass)
}

fn sorted_pkgs(alloc: Global, members: &[Member]) -> Result<Vec<Pkg>, OutOfMemory>
    ensures { IfOk result (λ set. set.items
        ≡ in_order_by (λ (pkg : Pkg). pkg.name) (violations.pkgs_of members.now)) }
{
    let mut set = pkgs_of(alloc, members)?.into_vec();
    sort_by_bytes(&mut set)?;
    Ok(set)
}

/// The largest part of members, none of which has the name of another, in which all items of each are met.
pub(crate) fn largest_met(alloc: Global, members: &[Member]) -> Result<Items<Member>, OutOfMemory>
    requires { IsDistinct bytes_eq (map member_name members.now) }
    ensures { IfOk result (removals.IsLargestMet members.now) }
{
    order_is_stable::<Pkg>();
    holding_is_monotone();
    let mut set = sorted_pkgs(alloc, members)?;
    let pass = settle(alloc, members, &mut set)?;
    sort_members(alloc, pass.kept.as_slice())
}
