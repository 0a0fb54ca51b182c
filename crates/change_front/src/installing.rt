// An install: its lock, the packages that it needs, and the judgement of its target.
#![tactic(auto, using(outside_io::proofs::HostEffects::host_steps))]

ghost use Rattle.std.specs.Prelude.{◌≡◌, ◌≤◌, IfOk, bytes_eq, map};
ghost use Rattle.std.specs.List.{IsDistinct};
ghost use Rattle.std.specs.declared.option.Option.TheVariants.{None, Some};
ghost use Rattle.opam_filter.specs.Sets.{Rises};
ghost use Rattle.outside_io.specs.Counts.{Files};
ghost use Rattle.outside_io.specs.HostEffects.{HostFails, OnlyReadsHost, has_host_failed};
ghost use Rattle.lock_check.specs.Chased.{count_of, held_by_name, install_target, install_violations, next_of};
ghost use Rattle.lock_check.specs.Targets.{member_name};
ghost use Rattle.change_front.specs.Fronts.{IsInstall, IsInstallOf};
ghost use Rattle.change_front.specs.Judging.{IsJudged};
ghost use Rattle.change_front.specs.Turns.{AreRead, IsOwnFront};
ghost use Rattle.change_front.specs.declared.limits.TheConstants.{NAMES_LIMIT};

use crate::Front;
use crate::judging::judge;
use crate::locks::{LockRead, load_lock};
use crate::reading::{End, read_all};
use lock_check::{Chase, Held, Lock};
use opam_filter::Vars;
use opam_names::{Name, OutOfMemory, order_is_stable, texts_rise};
use opam_package::Member;
use outside_io::{Host, HostFault};
use std::alloc::Global;

// The target of what was read is judged.
fn judge_read(
    alloc: Global,
    chase: Chase,
    installed: &[Member],
    roots: &[Name],
    globals: &Vars,
) -> Result<Front, OutOfMemory>
    requires complete { next_of chase ≡ None }
    requires differ { IsDistinct bytes_eq (map member_name installed.now) }
    requires installed { chase.installed ≡ held_by_name installed.now }
    requires few { count_of chase ≤ NAMES_LIMIT }
    requires read { AreRead globals.now chase.known }
    ensures judged { IfOk result (IsJudged installed.now
        (install_target chase installed.now roots.now)
        (install_violations chase (install_target chase installed.now roots.now))) }
    ensures own { IfOk result (IsOwnFront installed.now globals.now) }
{
    order_is_stable::<Held>();
    texts_rise();
    let (target, told) = chase.finish(alloc, installed, roots)?;
    judge(alloc, installed, target, told)
}

fn install_bound<H: Host>(
    host: &mut H,
    alloc: Global,
    repo: &str,
    lock: &Lock,
    names: &[Name],
    installed: &[Member],
    roots: &[Name],
    globals: &Vars,
) -> Result<Front, HostFault>
    requires differ { IsDistinct bytes_eq (map member_name installed.now) }
    requires rises { Rises lock.now.bound }
    ensures reads { OnlyReadsHost H.Host host.old host.new }
    ensures cause { HostFails H.Host (has_host_failed result) host.old host.new }
    ensures told { (files : Files) → H.files host.old ≡ Some files → IfOk result
        (IsInstallOf files repo.now lock.now.bound names.now installed.now roots.now
        globals.now) }
    ensures own { IfOk result (IsOwnFront installed.now globals.now) }
{
    let begun = Chase::begin(alloc, installed, lock, names)?;
    match read_all(host, alloc, repo, globals, begun)? {
        End::Stops(refusal) => Ok(Front::Refuses(refusal)),
        End::Whole(chase) => Ok(judge_read(alloc, chase, installed, roots, globals)?),
    }
}

/// What an install comes to.
pub(crate) fn install<H: Host>(
    host: &mut H,
    alloc: Global,
    lock_file: &str,
    repo: &str,
    names: &[Name],
    installed: &[Member],
    roots: &[Name],
    globals: &Vars,
) -> Result<Front, HostFault>
    requires { IsDistinct bytes_eq (map member_name installed.now) }
    ensures reads { OnlyReadsHost H.Host host.old host.new }
    ensures cause { HostFails H.Host (has_host_failed result) host.old host.new }
    ensures told { (files : Files) → H.files host.old ≡ Some files → IfOk result
        (IsInstall files lock_file.now repo.now names.now installed.now roots.now
        globals.now) }
    ensures own { IfOk result (IsOwnFront installed.now globals.now) }
{
    match load_lock(host, alloc, lock_file, globals)? {
        LockRead::Refused(refusal) => Ok(Front::Refuses(refusal)),
        LockRead::Bound(lock) => {
            install_bound(host, alloc, repo, &lock, names, installed, roots, globals)
        }
    }
}
