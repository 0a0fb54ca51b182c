// Which needs are installed.
ghost use Rattle.std.specs.Prelude.{◌≡◌, ◌+◌, ◌-◌, ◌<◌, ◌≤◌, ◌^◌, false, length, map, slice_index_or, IfOk};
ghost use Rattle.action_graph.specs.declared.plan.Step.{Step};
ghost use Rattle.change_floor.specs.FloorLaws.{install_needs};
ghost use Rattle.change_floor.specs.Floors as floors;
ghost use Rattle.change_floor.specs.Keeping.{Indexes, unmet};

use crate::index::Index;
use action_graph::{Plan, Step};
use opam_names::{Items, OutOfMemory};
use std::alloc::Global;

fn was_done(decided: &[bool], at: usize) -> bool
    ensures { result ≡ slice_index_or decided.now at false }
{
    match decided.get(at) {
        Some(done) => *done,
        None => false,
    }
}

fn is_installed(plan: &Plan, index: &Index, decided: &[bool], member: u32) -> bool
    requires known { Indexes plan.now index.now }
    requires small { length plan.now.removals + length plan.now.installs < 2 ^ 64 }
    requires few { length decided.now ≤ length plan.now.removals + length plan.now.installs }
    ensures { result ≡ floors.has_installed plan.now decided.now member }
{
    match index.place(member) {
        Some(place) => was_done(decided, plan.removals.len() + place),
        None => !index.is_missing(member),
    }
}

fn lesser(one: u32, least: Option<u32>) -> u32
    ensures { result ≡ floors.least_with one least }
{
    match least {
        None => one,
        Some(other) => one.min(other),
    }
}

fn least_lacking(plan: &Plan, index: &Index, decided: &[bool], needs: &[u32]) -> Option<u32>
    requires known { Indexes plan.now index.now }
    requires small { length plan.now.removals + length plan.now.installs < 2 ^ 64 }
    requires few { length decided.now ≤ length plan.now.removals + length plan.now.installs }
    ensures { result ≡ floors.lacking plan.now decided.now needs.now }
{
    let mut least = None;
    for need in needs {
        if !is_installed(plan, index, decided, *need) {
            least = Some(lesser(*need, least));
        }
    }
    least
}

// What the next install lacks, once the removals are done.
pub(crate) fn next_lacks(plan: &Plan, index: &Index, decided: &[bool]) -> Option<u32>
    requires known { Indexes plan.now index.now }
    requires small { length plan.now.removals + length plan.now.installs < 2 ^ 64 }
    requires few { length decided.now ≤ length plan.now.removals + length plan.now.installs }
    ensures { length plan.now.removals ≤ length decided.now
        → result ≡ floors.lacking plan.now decided.now
        (install_needs plan.now (length decided.now - length plan.now.removals)) }
{
    if decided.len() < plan.removals.len() {
        return None;
    }
    let place = decided.len() - plan.removals.len();
    if place >= plan.installs.len() {
        return None;
    }
    let installs = plan.installs.as_slice();
    least_lacking(plan, index, decided, installs[place].needs.as_slice())
}

fn unmet_of(plan: &Plan, index: &Index, decided: &[bool], needs: &[u32]) -> usize
    requires known { Indexes plan.now index.now }
    requires small { length plan.now.removals + length plan.now.installs < 2 ^ 64 }
    requires few { length decided.now ≤ length plan.now.removals + length plan.now.installs }
    ensures { result ≡ unmet plan.now decided.now needs.now }
{
    let mut count = 0;
    for need in needs {
        if !is_installed(plan, index, decided, *need) {
            count += 1;
        }
    }
    count
}

// Of each install how many of its needs are not installed.
pub(crate) fn counts_of(
    alloc: Global,
    plan: &Plan,
    index: &Index,
    decided: &[bool],
) -> Result<Items<usize>, OutOfMemory>
    requires known { Indexes plan.now index.now }
    requires small { length plan.now.removals + length plan.now.installs < 2 ^ 64 }
    requires few { length decided.now ≤ length plan.now.removals + length plan.now.installs }
    ensures { IfOk result (λ counts. counts
        ≡ map (λ (step : Step). unmet plan.now decided.now step.needs) plan.now.installs) }
{
    let installs = plan.installs.as_slice();
    let mut counts = Items::new(alloc);
    for place in 0..installs.len() {
        counts.push(unmet_of(plan, index, decided, installs[place].needs.as_slice()))?;
    }
    Ok(counts)
}
