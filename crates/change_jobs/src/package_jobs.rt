// The job of a member of the target.
ghost use Rattle.std.specs.Prelude.{◌≡◌, ◌<◌, ◌^◌, IfOk, length};
ghost use Rattle.opam_names.specs.ByteOrders.{NeverFallsBy, RisesBy};
ghost use Rattle.action_graph.specs.Leaving.{name_of};
ghost use Rattle.change_jobs.specs.PackageJobs.{IsJobOf, export_of, exports_in, is_seen, name_of_pkg};

use action_graph::view_of;
use build_env::{Export, job_for};
use opam_names::{Items, OutOfMemory, Pkg, has_bytes};
use opam_package::{EnvUpdate, Member, Target};
use outside_io::Job;
use package_vars::Facts;
use std::alloc::Global;

/// The job of a member of the target: what is to be built of it, in sight of its view, in the environment that the
/// packages of its view set.
pub fn job_of(
    alloc: Global,
    target: &Target,
    member: u32,
    facts: &Facts,
) -> Result<Job, OutOfMemory>
    requires small { length target.now.members < 2 ^ 32 }
    requires rises { RisesBy name_of target.now.members }
    requires within { member < length target.now.members }
    ensures job { IfOk result (IsJobOf target.now.members facts.now member) }
{
    let view = view_of(alloc, target, member)?;
    let members = target.members.as_slice();
    let exports = exports_of(alloc, members, view.members.as_slice())?;
    job_for(
        alloc,
        &members[member as usize].package,
        &view,
        exports.as_slice(),
        facts,
    )
}

// What the members of a view set for others.
fn exports_of(alloc: Global, members: &[Member], view: &[Pkg]) -> Result<Items<Export>, OutOfMemory>
    requires { NeverFallsBy name_of_pkg view.now }
    ensures { IfOk result (λ exports. exports ≡ exports_in members.now view.now) }
{
    let mut exports = Items::new(alloc);
    for member in members {
        if is_seen(view, member) {
            exports.push(export_of(alloc, member)?)?;
        }
    }
    Ok(exports)
}

fn is_seen(view: &[Pkg], member: &Member) -> bool
    requires { NeverFallsBy name_of_pkg view.now }
    ensures { result ≡ is_seen view.now member.now }
{
    has_bytes(view, member.package.pkg.name.as_str().as_bytes())
}

fn export_of(alloc: Global, member: &Member) -> Result<Export, OutOfMemory>
    ensures { IfOk result (λ export. export ≡ export_of member.now) }
{
    Ok(Export {
        pkg: member.package.pkg.copy(alloc)?,
        updates: copy_updates(alloc, member.package.exports.as_slice())?,
    })
}

fn copy_updates(alloc: Global, updates: &[EnvUpdate]) -> Result<Items<EnvUpdate>, OutOfMemory>
    ensures { IfOk result (λ copies. copies ≡ updates.now) }
{
    let mut copies = Items::new(alloc);
    for update in updates {
        copies.push(update.copy(alloc)?)?;
    }
    Ok(copies)
}
