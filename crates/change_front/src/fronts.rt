// What requests come to before anything is changed.
ghost use Rattle.std.specs.Prelude.{◌≡◌, ◌≤◌, ◌<◌, ◌^◌, IfOk, bytes_eq, false, length, map};
ghost use Rattle.std.specs.List.{IsDistinct};
ghost use Rattle.opam_names.specs.ByteOrders.{RisesBy};
ghost use Rattle.outside_io.specs.HostEffects.{HostFails, OnlyReadsHost};
ghost use Rattle.lock_check.specs.Removals.{AreAmong};
ghost use Rattle.lock_check.specs.Targets.{member_name};
ghost use Rattle.action_graph.specs.Plans.{IsPlan};
ghost use Rattle.change_front.specs.Fronts.{Answers, AreInstalledOrRead, IsReinstall, IsRemove, TellsInstall, has_front_failed};
ghost use Rattle.change_front.specs.Judging.{texts_length};
ghost use Rattle.change_front.specs.Turns.{IsPartFront, told_answer, told_front};
ghost use Rattle.change_front.specs.declared.limits.TheConstants.{NAMES_LIMIT, TEXTS_LIMIT};

use crate::installing::install;
use crate::judging::judge;
use crate::{Front, FrontFault, Planned};
use lock_check::{Held, reinstall_target, remove_target};
use opam_filter::Vars;
use opam_names::{Name, OutOfMemory, order_is_stable};
use opam_package::Member;
use outside_io::{Host, HostFault};
use std::alloc::Global;

fn told_front(front: Result<Front, HostFault>) -> Result<Planned, FrontFault>
    ensures { result ≡ told_front front }
{
    match front {
        Ok(Front::Plans(planned)) => Ok(planned),
        Ok(Front::Refuses(refusal)) => Err(FrontFault::Refused(refusal)),
        Err(HostFault::Failed) => Err(FrontFault::HostFailed),
        Err(HostFault::Memory) => Err(FrontFault::Memory),
    }
}

/// What an `install` comes to. The lock and the repository stand at these paths of the host. First the lock is read, then each
/// package that is needed and not installed, the least name first; the first file that cannot be taken ends that. Then the
/// target is judged. The packages and the roots that are handed in are those that the switch has.
pub fn install_front<H: Host>(
    host: &mut H,
    alloc: Global,
    lock_file: &str,
    repo: &str,
    names: &[Name],
    installed: &[Member],
    roots: &[Name],
    globals: &Vars,
) -> Result<Planned, FrontFault>
    requires { IsDistinct bytes_eq (map member_name installed.now) }
    ensures reads { OnlyReadsHost H.Host host.old host.new }
    ensures cause { HostFails H.Host (has_front_failed result) host.old host.new }
    ensures told { TellsInstall (H.files host.old) lock_file.now repo.now names.now
        installed.now roots.now globals.now result }
    ensures plan { IfOk result (λ planned. IsPlan installed.now planned.target planned.plan) }
    ensures rises { IfOk result (λ planned. RisesBy member_name planned.target.members) }
    ensures read { IfOk result (λ planned. AreInstalledOrRead installed.now globals.now
        planned.target.members) }
    ensures few { IfOk result (λ planned. length planned.target.members ≤ NAMES_LIMIT) }
    ensures short { IfOk result (λ planned. texts_length planned.target.members
        ≤ TEXTS_LIMIT) }
{
    told_front(install(
        host, alloc, lock_file, repo, names, installed, roots, globals,
    ))
}

fn answered(front: Result<Front, OutOfMemory>) -> Result<Planned, FrontFault>
    ensures { result ≡ told_answer front }
{
    match front {
        Ok(Front::Plans(planned)) => Ok(planned),
        Ok(Front::Refuses(refusal)) => Err(FrontFault::Refused(refusal)),
        Err(OutOfMemory) => Err(FrontFault::Memory),
    }
}

fn remove(
    alloc: Global,
    names: &[Name],
    installed: &[Member],
    roots: &[Name],
) -> Result<Front, OutOfMemory>
    requires differ { IsDistinct bytes_eq (map member_name installed.now) }
    requires small { length installed.now < 2 ^ 31 }
    ensures judged { IfOk result (IsRemove names.now installed.now roots.now) }
    ensures own { IfOk result (IsPartFront installed.now) }
{
    let (target, told) = remove_target(alloc, installed, names, roots)?;
    judge(alloc, installed, target, told)
}

fn reinstall(
    alloc: Global,
    names: &[Name],
    installed: &[Member],
    roots: &[Name],
) -> Result<Front, OutOfMemory>
    requires differ { IsDistinct bytes_eq (map member_name installed.now) }
    requires small { length installed.now < 2 ^ 31 }
    ensures judged { IfOk result (IsReinstall names.now installed.now roots.now) }
    ensures own { IfOk result (IsPartFront installed.now) }
{
    order_is_stable::<Held>();
    let (target, told) = reinstall_target(alloc, installed, names, roots)?;
    judge(alloc, installed, target, told)
}

/// What a `remove` comes to. The packages and the roots that are handed in are those that the switch has.
pub fn remove_front(
    alloc: Global,
    names: &[Name],
    installed: &[Member],
    roots: &[Name],
) -> Result<Planned, FrontFault>
    requires differ { IsDistinct bytes_eq (map member_name installed.now) }
    requires small { length installed.now < 2 ^ 31 }
    ensures host { has_front_failed result ≡ false }
    ensures told { Answers (IsRemove names.now installed.now roots.now) result }
    ensures plan { IfOk result (λ planned. IsPlan installed.now planned.target planned.plan) }
    ensures rises { IfOk result (λ planned. RisesBy member_name planned.target.members) }
    ensures among { IfOk result (λ planned. AreAmong planned.target.members installed.now) }
    ensures few { IfOk result (λ planned. length planned.target.members
        ≤ length installed.now) }
    ensures short { IfOk result (λ planned. texts_length planned.target.members
        ≤ TEXTS_LIMIT) }
{
    answered(remove(alloc, names, installed, roots))
}

/// What a `reinstall` comes to. The packages and the roots that are handed in are those that the switch has.
pub fn reinstall_front(
    alloc: Global,
    names: &[Name],
    installed: &[Member],
    roots: &[Name],
) -> Result<Planned, FrontFault>
    requires differ { IsDistinct bytes_eq (map member_name installed.now) }
    requires small { length installed.now < 2 ^ 31 }
    ensures host { has_front_failed result ≡ false }
    ensures told { Answers (IsReinstall names.now installed.now roots.now) result }
    ensures plan { IfOk result (λ planned. IsPlan installed.now planned.target planned.plan) }
    ensures rises { IfOk result (λ planned. RisesBy member_name planned.target.members) }
    ensures among { IfOk result (λ planned. AreAmong planned.target.members installed.now) }
    ensures few { IfOk result (λ planned. length planned.target.members
        ≤ length installed.now) }
    ensures short { IfOk result (λ planned. texts_length planned.target.members
        ≤ TEXTS_LIMIT) }
{
    answered(reinstall(alloc, names, installed, roots))
}
