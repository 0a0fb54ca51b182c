// The packages that an install needs are read one after another.
#![tactic(auto, using(outside_io::proofs::HostEffects::host_steps))]

ghost use Rattle.std.specs.Prelude.{[], ◌≡◌, ◌≤◌, ◌-◌, IfOk};
ghost use Rattle.std.specs.FinMap.{get};
ghost use Rattle.std.specs.declared.option.Option.TheVariants.{Some};
ghost use Rattle.outside_io.specs.Counts.{Files};
ghost use Rattle.outside_io.specs.HostEffects.{HostFails, OnlyReadsHost, has_host_failed};
ghost use Rattle.lock_check.specs.Chased.{IsAnswer, next_of};
ghost use Rattle.folder_repo.specs.OpamPaths.{path_in_repo};
ghost use Rattle.change_front.specs.Reading as reading;
ghost use Rattle.change_front.specs.Reading.{IsAfter, Reads};
ghost use Rattle.change_front.specs.Turns as turns;
ghost use Rattle.change_front.specs.Turns.{IsOwnEnd, IsOwnReply, IsOwnTurn, IsReply, IsTurn, has_fault_failed, refusal_at};
ghost use Rattle.change_front.specs.declared.limits.TheConstants.{READ_LIMIT};
ghost use Rattle.change_front.specs.declared.refusal.Refusal.TheVariants.{BadOpam, TooLong};

use crate::{NAMES_LIMIT, READ_LIMIT, Refusal};
use folder_repo::{RepoFault, find};
use lock_check::{Answer, Chase};
use opam_filter::Vars;
use opam_names::{OutOfMemory, Pkg, Text};
use opam_package::{Member, PackageFault};
use outside_io::{Host, HostFault};
use std::alloc::Global;

/// What was read so far, and how many bytes may still be read.
#[derive(Drop)]
pub(crate) struct Reader {
    pub(crate) chase: Chase,
    pub(crate) room: u64,
}

/// What the repository says of a package.
#[derive(Drop)]
pub(crate) enum Reply {
    Answered(Answer),
    Refused(Refusal),
}

/// What a turn of the reader comes to.
#[derive(Drop)]
pub(crate) enum Turn {
    On(Reader),
    End(Chase),
    Refused(Refusal),
}

/// How reading ends: with all that is needed, or at the first refusal.
#[derive(Drop)]
pub(crate) enum End {
    Whole(Chase),
    Stops(Refusal),
}

fn repo_path(alloc: Global, repo: &str, pkg: &Pkg) -> Result<Text, OutOfMemory>
    ensures { IfOk result (λ path. path ≡ path_in_repo repo.now pkg.now) }
{
    let full = pkg.print(alloc)?;
    let mut path = String::from_str(alloc, repo)?;
    path.push_str("/packages/")?;
    path.push_str(pkg.name.as_str())?;
    path.push_str("/")?;
    path.push_str(full.as_str())?;
    path.push_str("/opam")?;
    Ok(Text::from_string(path))
}

fn answer_of(found: Option<Member>) -> Answer
    ensures { result ≡ turns.answer_of found }
{
    match found {
        None => Answer::Unknown,
        Some(member) => Answer::Known(member),
    }
}

fn too_long(alloc: Global, repo: &str, pkg: &Pkg) -> Result<Refusal, OutOfMemory>
    ensures { IfOk result (λ refusal. refusal ≡ TooLong (path_in_repo repo.now pkg.now)) }
{
    Ok(Refusal::TooLong(repo_path(alloc, repo, pkg)?))
}

fn bad_opam(
    alloc: Global,
    repo: &str,
    pkg: &Pkg,
    fault: PackageFault,
) -> Result<Refusal, OutOfMemory>
    ensures { IfOk result (λ refusal. refusal ≡ BadOpam (path_in_repo repo.now pkg.now) fault) }
{
    Ok(Refusal::BadOpam(repo_path(alloc, repo, pkg)?, fault))
}

// Why the repository says nothing of the package.
fn refusal_of(alloc: Global, repo: &str, pkg: &Pkg, fault: RepoFault) -> Result<Refusal, HostFault>
    ensures failed { has_host_failed result ≡ has_fault_failed fault }
    ensures refusal { IfOk result (λ refusal. refusal_at (path_in_repo repo.now pkg.now) fault
        ≡ Some refusal) }
{
    match fault {
        RepoFault::HostFailed => Err(HostFault::Failed),
        RepoFault::Memory => Err(HostFault::Memory),
        RepoFault::TooLong => Ok(too_long(alloc, repo, pkg)?),
        RepoFault::Package(fault) => Ok(bad_opam(alloc, repo, pkg, fault)?),
    }
}

// The repository is asked for a package.
fn ask<H: Host>(
    host: &mut H,
    alloc: Global,
    repo: &str,
    pkg: &Pkg,
    room: u64,
    globals: &Vars,
) -> Result<Reply, HostFault>
    ensures reads { OnlyReadsHost H.Host host.old host.new }
    ensures cause { HostFails H.Host (has_host_failed result) host.old host.new }
    ensures told { (files : Files) → H.files host.old ≡ Some files → IfOk result
        (IsReply (path_in_repo repo.now pkg.now) pkg.now room globals.now
        (get files (path_in_repo repo.now pkg.now))) }
    ensures own { IfOk result (IsOwnReply pkg.now room globals.now) }
{
    match find(host, alloc, repo, pkg, room, globals) {
        Ok(found) => Ok(Reply::Answered(answer_of(found))),
        Err(fault) => match refusal_of(alloc, repo, pkg, fault) {
            Ok(refusal) => Ok(Reply::Refused(refusal)),
            Err(fault) => Err(fault),
        },
    }
}

fn bytes_read(answer: &Answer) -> u64
    ensures { result ≡ reading.bytes_read answer.now }
{
    match answer {
        Answer::Unknown => 0,
        Answer::Known(member) => member.opam.len() as u64,
    }
}

// The answer is noted, and takes its bytes off the room.
fn note(alloc: Global, chase: Chase, room: u64, answer: Answer) -> Result<Reader, OutOfMemory>
    requires answer { IsAnswer (next_of chase) answer }
    requires within { reading.bytes_read answer ≤ room }
    ensures chase { IfOk result (λ reader. IsAfter chase answer reader.chase) }
    ensures room { IfOk result (λ reader. reader.room ≡ room - reading.bytes_read answer) }
{
    let left = room - bytes_read(&answer);
    let mut chase = chase;
    chase.give(alloc, answer)?;
    Ok(Reader { chase, room: left })
}

// The next package is read, where there is one.
fn take_turn<H: Host>(
    host: &mut H,
    alloc: Global,
    repo: &str,
    globals: &Vars,
    reader: Reader,
) -> Result<Turn, HostFault>
    ensures reads { OnlyReadsHost H.Host host.old host.new }
    ensures cause { HostFails H.Host (has_host_failed result) host.old host.new }
    ensures told { (files : Files) → H.files host.old ≡ Some files
        → IfOk result (IsTurn files repo.now globals.now reader) }
    ensures own { IfOk result (IsOwnTurn globals.now reader) }
{
    let Reader { chase, room } = reader;
    if chase.count() > NAMES_LIMIT {
        return Ok(Turn::Refused(Refusal::TooManyPackages));
    }
    let pkg = match chase.next() {
        None => return Ok(Turn::End(chase)),
        Some(pkg) => pkg,
    };
    match ask(host, alloc, repo, pkg, room, globals)? {
        Reply::Refused(refusal) => Ok(Turn::Refused(refusal)),
        Reply::Answered(answer) => Ok(Turn::On(note(alloc, chase, room, answer)?)),
    }
}

/// Reads what is needed, one package after another, up to the first refusal.
pub(crate) fn read_all<H: Host>(
    host: &mut H,
    alloc: Global,
    repo: &str,
    globals: &Vars,
    begun: Chase,
) -> Result<End, HostFault>
    requires { begun.known ≡ [] }
    ensures reads { OnlyReadsHost H.Host host.old host.new }
    ensures cause { HostFails H.Host (has_host_failed result) host.old host.new }
    ensures told { (files : Files) → H.files host.old ≡ Some files
        → IfOk result (Reads files repo.now globals.now begun READ_LIMIT) }
    ensures own { IfOk result (IsOwnEnd globals.now begun) }
{
    let mut reader = Reader {
        chase: begun,
        room: READ_LIMIT,
    };
    'packages: loop {
        match take_turn(host, alloc, repo, globals, reader)? {
            Turn::End(chase) => return Ok(End::Whole(chase)),
            Turn::Refused(refusal) => return Ok(End::Stops(refusal)),
            Turn::On(after) => reader = after,
        }
    }
}
