// What a change comes to: its target, what stands against it, its plan, and what each build sees.
ghost use Rattle.std.specs.Prelude.{◌+◌, ◌<◌, ◌^◌, bytes_eq, length, map};
ghost use Rattle.std.specs.List.{IsDistinct};
ghost use Rattle.opam_names.specs.ByteOrders.{RisesBy};
ghost use Rattle.lock_check.specs.Targets.{member_name};

use crate::shelf::{installed_in, names_in};
use crate::shows::{
    push_against, push_cycle, push_installs, push_pkgs, push_removals, push_target,
};
use action_graph::{PlanFault, are_in_order, order, plan_of, view_of};
use lock_check::{Violation, reinstall_target, remove_target};
use opam_names::{Name, order_is_stable};
use opam_package::{Member, Target};
use row_script::fault::Fault;
use row_script::lexer::Word;
use std::alloc::Global;

pub fn reinstall(
    alloc: Global,
    shelf: &[Member],
    installed: &Word,
    names: &Word,
    roots: &Word,
) -> Result<String, Fault> {
    let installed = installed_in(alloc, shelf, installed)?;
    let names = names_in(alloc, names)?;
    let roots = names_in(alloc, roots)?;
    let entries = installed.as_slice();
    let (target, told) = reinstall_target(alloc, entries, names.as_slice(), roots.as_slice())?;
    let mut text = String::from_str(alloc, "names")?;
    push_change(alloc, &mut text, entries, &target, told.as_slice())?;
    Ok(text)
}

pub fn remove(
    alloc: Global,
    shelf: &[Member],
    installed: &Word,
    names: &Word,
    roots: &Word,
) -> Result<String, Fault> {
    let installed = installed_in(alloc, shelf, installed)?;
    let names = names_in(alloc, names)?;
    let roots = names_in(alloc, roots)?;
    let entries = installed.as_slice();
    let (target, told) = remove_target(alloc, entries, names.as_slice(), roots.as_slice())?;
    let mut text = String::from_str(alloc, "names")?;
    push_change(alloc, &mut text, entries, &target, told.as_slice())?;
    Ok(text)
}

/// The order of those of the names that the installed packages have.
pub fn list(
    alloc: Global,
    shelf: &[Member],
    installed: &Word,
    names: &Word,
) -> Result<String, Fault> {
    order_is_stable::<Name>();
    let installed = installed_in(alloc, shelf, installed)?;
    let mut names = names_in(alloc, names)?;
    names.sort_by_bytes()?;
    let (target, _) = reinstall_target(alloc, installed.as_slice(), &[], &[])?;
    let members = target.members.as_slice();
    if !are_in_order(members) || members.len() > 65535 {
        return Err(Fault::Line("the members are not in order"));
    }
    let mut text = String::new(alloc);
    match order(alloc, &target, names.as_slice()) {
        Ok(steps) => push_installs(&mut text, members, steps.as_slice())?,
        Err(fault) => push_cycle(&mut text, fault)?,
    }
    Ok(text)
}

/// A line each for what it comes to.
pub fn push_change(
    alloc: Global,
    text: &mut String,
    installed: &[Member],
    target: &Target,
    told: &[Violation],
) -> Result<(), Fault>
    requires { IsDistinct bytes_eq (map member_name installed.now) }
{
    push_target(text, target)?;
    push_against(text, told)?;
    let members = target.members.as_slice();
    if !are_in_order(members) || members.len() > 65535 || installed.len() > 65535 {
        return Err(Fault::Line("the members are not in order"));
    }
    push_plan(alloc, text, installed, target)?;
    push_views(alloc, text, target)
}

fn push_plan(
    alloc: Global,
    text: &mut String,
    installed: &[Member],
    target: &Target,
) -> Result<(), Fault>
    requires small { length target.now.members + length installed.now < 2 ^ 32 }
    requires differ { IsDistinct bytes_eq (map member_name installed.now) }
    requires rises { RisesBy member_name target.now.members }
{
    text.push_str("\n  plan ")?;
    let plan = match plan_of(alloc, installed, target) {
        Ok(plan) => plan,
        Err(fault) => return push_cycle(text, fault),
    };
    if !plan.missing.is_empty() {
        return Err(Fault::Line("a plan misses members"));
    }
    push_removals(text, installed, plan.removals.as_slice())?;
    if plan.installs.is_empty() && !plan.removals.is_empty() {
        return Ok(());
    }
    if !plan.removals.is_empty() {
        text.push_str(" ")?;
    }
    push_installs(text, target.members.as_slice(), plan.installs.as_slice())
}

fn push_views(alloc: Global, text: &mut String, target: &Target) -> Result<(), Fault>
    requires small { length target.now.members < 2 ^ 32 }
    requires rises { RisesBy member_name target.now.members }
{
    text.push_str("\n  views ")?;
    if target.members.is_empty() {
        text.push_str("-")?;
    }
    for at in 0..target.members.len() {
        push_view(alloc, text, target, at as u32)?;
    }
    Ok(())
}

fn push_view(alloc: Global, text: &mut String, target: &Target, at: u32) -> Result<(), Fault>
    requires small { length target.now.members < 2 ^ 32 }
    requires rises { RisesBy member_name target.now.members }
    requires within { at < length target.now.members }
{
    let view = view_of(alloc, target, at)?;
    text.push_str(if at == 0 { "" } else { "; " })?;
    crate::shows::push_pkg(text, &target.members.as_slice()[at as usize].package.pkg)?;
    text.push_str(": ")?;
    push_pkgs(text, view.members.as_slice())
}
