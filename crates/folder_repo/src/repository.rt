// The packages of a repository.
ghost use Rattle.std.specs.Prelude.{◌≡◌, IfErr, IfOk};
ghost use Rattle.outside_io.specs.HostEffects.{HostFails, OnlyReadsHost};
ghost use Rattle.folder_repo.specs.Repository as repository;
ghost use Rattle.folder_repo.specs.Repository.{IsMemberFault, IsMemberOf, IsReadAlone, IsReadOf, RepoTells, TellsAt, has_repo_failed, read_limit};

use crate::RepoFault;
use crate::opam_paths::opam_path;
use opam_filter::Vars;
use opam_names::{Items, OutOfMemory, Pkg};
use opam_package::{Member, OPAM_LIMIT, PackageFault, read_package};
use outside_io::calls::read;
use outside_io::{Found, Host, HostFault};
use std::alloc::Global;

/// A package of the repository in the folder `repo`, read from `<repo>/packages/<name>/<name>.<version>/opam`: the
/// package that the file is of, with the bytes of the file. None where there is no such file. `room` is the number of
/// bytes that may still be read (opam manual, repositories).
pub fn find<H: Host>(
    host: &mut H,
    alloc: Global,
    repo: &str,
    pkg: &Pkg,
    room: u64,
    globals: &Vars,
) -> Result<Option<Member>, RepoFault>
    ensures reads { OnlyReadsHost H.Host host.old host.new }
    ensures cause { HostFails H.Host (has_repo_failed result) host.old host.new }
    ensures told { RepoTells (H.files host.old) repo.now pkg.now room globals.now result }
    ensures own { IfOk result (λ found. IsReadAlone pkg.now room globals.now found) }
{
    match opam_path(alloc, repo, pkg) {
        Ok(path) => find_at(host, alloc, path.as_str(), pkg, room, globals),
        Err(OutOfMemory) => Err(RepoFault::Memory),
    }
}

// The same where the path is known.
fn find_at<H: Host>(
    host: &mut H,
    alloc: Global,
    path: &str,
    pkg: &Pkg,
    room: u64,
    globals: &Vars,
) -> Result<Option<Member>, RepoFault>
    ensures reads { OnlyReadsHost H.Host host.old host.new }
    ensures cause { HostFails H.Host (has_repo_failed result) host.old host.new }
    ensures told { TellsAt (H.files host.old) path.now pkg.now room globals.now result }
    ensures own { IfOk result (λ found. IsReadAlone pkg.now room globals.now found) }
{
    match read(host, alloc, path, read_limit(room)) {
        Err(fault) => Err(told_host(fault)),
        Ok(Found::Absent) => Ok(None),
        Ok(Found::TooLong) => Err(RepoFault::TooLong),
        Ok(Found::Bytes(bytes)) => read_found(alloc, bytes, pkg, room, globals),
    }
}

fn told_host(fault: HostFault) -> RepoFault
    ensures { result ≡ repository.told_host fault }
{
    match fault {
        HostFault::Failed => RepoFault::HostFailed,
        HostFault::Memory => RepoFault::Memory,
    }
}

// How many bytes an opam file may have.
fn read_limit(room: u64) -> u64
    ensures { result ≡ read_limit room }
{
    room.min(OPAM_LIMIT as u64)
}

fn read_found(
    alloc: Global,
    bytes: Items<u8>,
    pkg: &Pkg,
    room: u64,
    globals: &Vars,
) -> Result<Option<Member>, RepoFault>
    ensures { IsReadOf bytes pkg.now room globals.now result }
{
    match read_member(alloc, bytes, pkg, room, globals) {
        Ok(member) => Ok(Some(member)),
        Err(fault) => Err(fault),
    }
}

// The member that an opam file is of. The length is tested once more, since a host may give what it likes.
fn read_member(
    alloc: Global,
    bytes: Items<u8>,
    pkg: &Pkg,
    room: u64,
    globals: &Vars,
) -> Result<Member, RepoFault>
    ensures ok { IfOk result (λ member. IsMemberOf bytes pkg.now room globals.now member) }
    ensures err { IfErr result (λ fault. IsMemberFault bytes pkg.now room fault) }
{
    if bytes.len() as u64 > read_limit(room) {
        return Err(RepoFault::TooLong);
    }
    match read_package(alloc, bytes.as_slice(), pkg, globals) {
        Ok(package) => Ok(Member {
            package,
            opam: bytes,
        }),
        Err(fault) => Err(told_package(fault)),
    }
}

fn told_package(fault: PackageFault) -> RepoFault
    ensures { result ≡ repository.told_package fault }
{
    match fault {
        PackageFault::Memory => RepoFault::Memory,
        _ => RepoFault::Package(fault),
    }
}
