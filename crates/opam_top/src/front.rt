// From the words to what is to be installed.
ghost use Rattle.std.specs.Prelude.{◌≡◌, ◌≢◌, ◌≤◌, ℕ, List, Some, Ok, Err, IfOk, IsTrue, length};
ghost use Rattle.std.specs.List.{list_all};
ghost use Rattle.std.specs.declared.option.Option.{Option};
ghost use Rattle.std.specs.FinMap.{get};
ghost use Rattle.opam_names.specs.declared.packages.Pkg.{Pkg};
ghost use Rattle.outside_io.specs.Counts.{Files};
ghost use Rattle.outside_io.specs.Hosts.{IsFound};
ghost use Rattle.crash_disk.specs.Disks.{State};
ghost use Rattle.opam_top.specs.Pasts.{Passes};
ghost use Rattle.opam_top.specs.Fronts.{bound_in_lock, if_built, in_repository, is_short, lock_limit, members_for};
ghost use Rattle.opam_top.specs.Journals.{is_fresh};
ghost use Rattle.opam_top.specs.Locks.{read_lock};
ghost use Rattle.opam_top.specs.Refusals.{Causes, Gives};
ghost use Rattle.opam_top.specs.declared.member.Member.{Member};

use crate::fresh::are_absent;
use crate::host_file::read_file;
use crate::lock::bound_by;
use crate::member::Member;
use crate::numbering::{gate_path_of, record_path_of};
use crate::repository::members_in_repository;
use crate::request::Request;
use crate::stops::{Stop, stop_not_built, stop_not_found};
use crash_disk::Disk;
use opam_names::{Items, OutOfMemory, Pkg};
use outside_io::{Found, Host};
use std::alloc::Global;

const LOCK_LIMIT: u64 = 4194304;

// The packages to install, in the order of their names.
pub fn members_to_install<H: Host, D: Disk>(
    alloc: Global,
    request: &Request,
    host: &mut H,
    disk: &mut D,
) -> Result<Items<Member>, Stop>
    ensures host { Causes Stop.Host (H.faults host.old) (H.faults host.new) result }
    ensures disk { Causes Stop.Disk (D.faults disk.old) (D.faults disk.new) result }
    ensures same { D.told disk.new ≡ D.told disk.old }
    ensures time { Passes (D.moment disk.old) (D.moment disk.new) (D.past disk.old) (D.past disk.new) }
    ensures told { (files : Files) (s : State) → H.files host.old ≡ Some files → D.told disk.old ≡ Some s →
        Gives (λ (members : List Member). members) result (members_for request.now files s.files) }
    ensures few { IfOk result (λ members. length members ≤ 64) }
    ensures short { IfOk result (λ members. IsTrue (list_all is_short members)) }
{
    match is_fresh_disk(alloc, disk) {
        Ok(true) => members_of_lock(alloc, host, request),
        Ok(false) => Err(stop_not_built(alloc)),
        Err(stop) => Err(stop),
    }
}

// Whether the disk has no journal yet.
fn is_fresh_disk<D: Disk>(alloc: Global, disk: &mut D) -> Result<bool, Stop>
    ensures cause { Causes Stop.Disk (D.faults disk.old) (D.faults disk.new) result }
    ensures host { result ≢ Err Stop.Host }
    ensures same { D.told disk.new ≡ D.told disk.old }
    ensures time { Passes (D.moment disk.old) (D.moment disk.new) (D.past disk.old) (D.past disk.new) }
    ensures told { (s : State) → D.told disk.old ≡ Some s → Gives (λ fresh. fresh) result (Ok (is_fresh s.files)) }
{
    let Ok(record) = record_path_of(alloc, 1) else {
        return Err(Stop::Memory);
    };
    let Ok(gate) = gate_path_of(alloc, 1) else {
        return Err(Stop::Memory);
    };
    match are_absent(disk, &record, &gate) {
        Ok(fresh) => Ok(fresh),
        Err(_) => Err(Stop::Disk),
    }
}

fn members_of_lock<H: Host>(
    alloc: Global,
    host: &mut H,
    request: &Request,
) -> Result<Items<Member>, Stop>
    ensures cause { Causes Stop.Host (H.faults host.old) (H.faults host.new) result }
    ensures disk { result ≢ Err Stop.Disk }
    ensures told { (files : Files) → H.files host.old ≡ Some files →
        Gives (λ (members : List Member). members) result (in_repository files request.now.repo (bound_in_lock request.now.lock_file (get files request.now.lock_file))) }
    ensures few { IfOk result (λ members. length members ≤ 64) }
    ensures short { IfOk result (λ members. IsTrue (list_all is_short members)) }
{
    match read_lock_file(alloc, host, request.lock_file.as_str()) {
        Ok(pkgs) => members_in_repository(alloc, host, request.repo.as_str(), pkgs.as_slice()),
        Err(stop) => Err(stop),
    }
}

fn read_lock_file<H: Host>(alloc: Global, host: &mut H, file: &str) -> Result<Items<Pkg>, Stop>
    ensures cause { Causes Stop.Host (H.faults host.old) (H.faults host.new) result }
    ensures disk { result ≢ Err Stop.Disk }
    ensures same { H.files host.new ≡ H.files host.old }
    ensures told { (files : Files) → H.files host.old ≡ Some files →
        Gives (λ (pkgs : List Pkg). pkgs) result (bound_in_lock file.now (get files file.now)) }
    ensures few { IfOk result (λ pkgs. length pkgs ≤ 64) }
{
    match read_file(alloc, host, file, LOCK_LIMIT) {
        Ok(found) => packages_found(alloc, file, &found),
        Err(stop) => Err(stop),
    }
}

fn packages_found(alloc: Global, file: &str, found: &Found) -> Result<Items<Pkg>, Stop>
    ensures host { result ≢ Err Stop.Host }
    ensures disk { result ≢ Err Stop.Disk }
    ensures told { (stood : Option (List ℕ)) → IsFound stood lock_limit found.now →
        Gives (λ (pkgs : List Pkg). pkgs) result (bound_in_lock file.now stood) }
    ensures few { IfOk result (λ pkgs. length pkgs ≤ 64) }
{
    match found {
        Found::Absent => Err(stop_not_found(alloc, file)),
        Found::TooLong => Err(stop_not_built(alloc)),
        Found::Bytes(bytes) => {
            if bytes.len() > 4194304 {
                return Err(stop_not_built(alloc));
            }
            packages_bound(alloc, bytes.as_slice())
        }
    }
}

fn packages_bound(alloc: Global, bytes: &[u8]) -> Result<Items<Pkg>, Stop>
    requires { length bytes.now ≤ 4194304 }
    ensures host { result ≢ Err Stop.Host }
    ensures disk { result ≢ Err Stop.Disk }
    ensures told { Gives (λ (pkgs : List Pkg). pkgs) result (if_built (read_lock bytes.now)) }
    ensures few { IfOk result (λ pkgs. length pkgs ≤ 64) }
{
    match bound_by(alloc, bytes) {
        Ok(Some(pkgs)) => Ok(pkgs),
        Ok(None) => Err(stop_not_built(alloc)),
        Err(OutOfMemory) => Err(Stop::Memory),
    }
}
