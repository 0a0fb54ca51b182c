// What is told of one package.
ghost use Rattle.std.specs.Prelude.{◌≡◌, IfOk, Ok, Err};
ghost use Rattle.std.specs.FinMap.{get};
ghost use Rattle.std.specs.Option.{option_copied};
ghost use Rattle.std.specs.declared.option.Option.TheVariants.{None, Some};
ghost use Rattle.action_report.specs.Queries.{show_text};
ghost use Rattle.change_front.specs.declared.refusal.Refusal.TheVariants.{BadOpam, TooLong};
ghost use Rattle.folder_repo.specs.OpamPaths.{path_in_repo};
ghost use Rattle.opam_names.specs.Packages.{pkg_text};
ghost use Rattle.owner_map.specs.Owning.{is_same_pkg};
ghost use Rattle.run_answers.specs.Stops.{refusal_stop};
ghost use Rattle.opam_queries.specs.Asking.{AsksHost, IsGivenOf, OrMemory};
ghost use Rattle.opam_queries.specs.Replies.{IsAvailable, IsNotInstalled, IsShown, asked_entry, is_asked, nothing_found, told_answer};

use crate::asking::{not_found, refused, told_answer, too_long};
use action_report::show_text;
use change_front::{READ_LIMIT, Refusal};
use command_words::Shown;
use folder_repo::{RepoFault, find};
use opam_filter::Vars;
use opam_names::{OutOfMemory, Pkg, Text};
use opam_package::{Member, PackageFault};
use outside_io::Host;
use owner_map::Owners;
use run_answers::{Answer, Opened, Stop};
use std::alloc::Global;
use switch_state::Switch;

// What is told of the package that is asked for: of the entry, where there is one, or else of the package in the repository.
pub(crate) fn show<H: Host>(
    host: &mut H,
    alloc: Global,
    repo: &str,
    what: &Shown,
    opened: &Opened,
) -> Result<Answer, Stop>
    ensures { AsksHost H.Host (λ files. IsShown files opened.now.globals repo.now
        opened.now.switch.state what.now (asked_entry what.now opened.now.switch.state.members))
        host.old host.new result }
{
    match entry_in(&opened.switch, what) {
        Some(member) => show_member(alloc, member, Some(opened.switch.owners())),
        None => show_absent(host, alloc, repo, what, &opened.globals),
    }
}

fn entry_in<'a>(switch: &'a Switch, what: &Shown) -> Option<&'a Member>
    ensures { option_copied result ≡ asked_entry what.now switch.now.state.members }
{
    entry_of(switch.installed(), what)
}

fn entry_of<'a>(members: &'a [Member], what: &Shown) -> Option<&'a Member>
    ensures { option_copied result ≡ asked_entry what.now members.now }
{
    members.iter().find(|member| is_asked(what, member))
}

fn is_asked(what: &Shown, member: &Member) -> bool
    ensures { result ≡ is_asked what.now member.now }
{
    match what {
        Shown::Name(name) => member.package.pkg.name.as_str() == name.as_str(),
        Shown::Exact(pkg) => is_pkg(&member.package.pkg, pkg),
    }
}

fn is_pkg(one: &Pkg, other: &Pkg) -> bool
    ensures { result ≡ is_same_pkg one.now other.now }
{
    one.name.as_str() == other.name.as_str() && one.version.as_str() == other.version.as_str()
}

fn show_member(alloc: Global, member: &Member, owners: Option<&Owners>) -> Result<Answer, Stop>
    ensures { OrMemory (Ok (told_answer (show_text member.now (option_copied owners.entry))))
        result }
{
    match show_text(alloc, member, owners) {
        Ok(text) => Ok(told_answer(text)),
        Err(OutOfMemory) => Err(Stop::Memory),
    }
}

// Of what is not installed: a name is not found, and a package is looked for in the repository.
fn show_absent<H: Host>(
    host: &mut H,
    alloc: Global,
    repo: &str,
    what: &Shown,
    globals: &Vars,
) -> Result<Answer, Stop>
    ensures { AsksHost H.Host (λ files. IsNotInstalled files globals.now repo.now what.now)
        host.old host.new result }
{
    match what {
        Shown::Name(name) => not_found(alloc, name.as_str()),
        Shown::Exact(pkg) => show_available(host, alloc, repo, pkg, globals),
    }
}

fn show_available<H: Host>(
    host: &mut H,
    alloc: Global,
    repo: &str,
    pkg: &Pkg,
    globals: &Vars,
) -> Result<Answer, Stop>
    ensures { AsksHost H.Host (λ files. IsAvailable globals.now repo.now pkg.now
        (get files (path_in_repo repo.now pkg.now))) host.old host.new result }
{
    let found = find(host, alloc, repo, pkg, READ_LIMIT, globals);
    available(alloc, repo, pkg, found)
}

// What is told where the repository answered so.
fn available(
    alloc: Global,
    repo: &str,
    pkg: &Pkg,
    found: Result<Option<Member>, RepoFault>,
) -> Result<Answer, Stop>
    ensures { IsGivenOf repo.now pkg.now found result }
{
    match found {
        Ok(None) => pkg_not_found(alloc, pkg),
        Ok(Some(member)) => show_member(alloc, &member, None),
        Err(RepoFault::HostFailed) => Err(Stop::HostFailed),
        Err(RepoFault::TooLong) => too_long_in(alloc, repo, pkg),
        Err(RepoFault::Package(fault)) => bad_opam(alloc, repo, pkg, fault),
        Err(RepoFault::Memory) => Err(Stop::Memory),
    }
}

fn pkg_not_found(alloc: Global, pkg: &Pkg) -> Result<Answer, Stop>
    ensures { OrMemory (nothing_found (pkg_text pkg.now)) result }
{
    match pkg.print(alloc) {
        Ok(word) => not_found(alloc, word.as_str()),
        Err(OutOfMemory) => Err(Stop::Memory),
    }
}

fn too_long_in(alloc: Global, repo: &str, pkg: &Pkg) -> Result<Answer, Stop>
    ensures { OrMemory (Err (refusal_stop (TooLong (path_in_repo repo.now pkg.now)))) result }
{
    match repo_path(alloc, repo, pkg) {
        Ok(path) => too_long(alloc, path.as_str()),
        Err(OutOfMemory) => Err(Stop::Memory),
    }
}

fn bad_opam(alloc: Global, repo: &str, pkg: &Pkg, fault: PackageFault) -> Result<Answer, Stop>
    ensures { OrMemory (Err (refusal_stop (BadOpam (path_in_repo repo.now pkg.now) fault)))
        result }
{
    match repo_path(alloc, repo, pkg) {
        Ok(path) => refused(alloc, &Refusal::BadOpam(path, fault)),
        Err(OutOfMemory) => Err(Stop::Memory),
    }
}

fn repo_path(alloc: Global, repo: &str, pkg: &Pkg) -> Result<Text, OutOfMemory>
    ensures { IfOk result (λ path. path ≡ path_in_repo repo.now pkg.now) }
{
    let full = pkg.print(alloc)?;
    let mut path = String::from_str(alloc, repo)?;
    path.push_str("/packages/")?;
    path.push_str(pkg.name.as_str())?;
    path.push_str("/")?;
    path.push_str(full.as_str())?;
    path.push_str("/opam")?;
    Ok(Text::from_string(path))
}
