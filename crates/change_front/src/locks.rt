// The lock file of an install.
#![tactic(auto, using(outside_io::proofs::HostEffects::host_steps))]

ghost use Rattle.std.specs.Prelude.{◌≡◌, ◌≢◌, IfOk, OnOk};
ghost use Rattle.std.specs.FinMap.{get};
ghost use Rattle.std.specs.declared.option.Option.TheVariants.{Some};
ghost use Rattle.outside_io.specs.Counts.{Files};
ghost use Rattle.outside_io.specs.HostEffects.{HostFails, OnlyReadsHost, has_host_failed};
ghost use Rattle.lock_check.specs.declared.lock_fault.LockFault.TheVariants.{Memory};
ghost use Rattle.change_front.specs.Turns.{IsLockRead, RisesWhereBound};
ghost use Rattle.change_front.specs.declared.refusal.Refusal.TheVariants.{BadLock, NotFound, TooLong};

use crate::Refusal;
use lock_check::{Lock, LockFault, read_lock};
use opam_filter::Vars;
use opam_names::{Items, OutOfMemory, Text};
use outside_io::calls::read;
use outside_io::{Found, Host, HostFault};
use std::alloc::Global;
use syntax_trees::FILE_LIMIT;

/// What the file of a lock comes to.
#[derive(Drop)]
pub(crate) enum LockRead {
    Bound(Lock),
    Refused(Refusal),
}

/// The lock at this path.
pub(crate) fn load_lock<H: Host>(
    host: &mut H,
    alloc: Global,
    path: &str,
    globals: &Vars,
) -> Result<LockRead, HostFault>
    ensures reads { OnlyReadsHost H.Host host.old host.new }
    ensures cause { HostFails H.Host (has_host_failed result) host.old host.new }
    ensures told { (files : Files) → H.files host.old ≡ Some files
        → IfOk result (IsLockRead globals.now path.now (get files path.now)) }
    ensures rises { IfOk result RisesWhereBound }
{
    match read(host, alloc, path, FILE_LIMIT as u64) {
        Err(fault) => Err(fault),
        Ok(Found::Absent) => Ok(LockRead::Refused(not_found(alloc, path)?)),
        Ok(Found::TooLong) => Ok(LockRead::Refused(too_long(alloc, path)?)),
        Ok(Found::Bytes(bytes)) => Ok(lock_of(alloc, bytes, path, globals)?),
    }
}

fn not_found(alloc: Global, path: &str) -> Result<Refusal, OutOfMemory>
    ensures { IfOk result (λ refusal. refusal ≡ NotFound path.now) }
{
    Ok(Refusal::NotFound(Text::from_str(alloc, path)?))
}

fn too_long(alloc: Global, path: &str) -> Result<Refusal, OutOfMemory>
    ensures { IfOk result (λ refusal. refusal ≡ TooLong path.now) }
{
    Ok(Refusal::TooLong(Text::from_str(alloc, path)?))
}

// The length is tested once more, since a host may give what it likes.
fn lock_of(
    alloc: Global,
    bytes: Items<u8>,
    path: &str,
    globals: &Vars,
) -> Result<LockRead, OutOfMemory>
    ensures told { IfOk result (IsLockRead globals.now path.now (Some bytes)) }
    ensures rises { IfOk result RisesWhereBound }
{
    if bytes.len() > FILE_LIMIT {
        return Ok(LockRead::Refused(too_long(alloc, path)?));
    }
    match read_lock(alloc, bytes.as_slice(), globals) {
        Ok(lock) => Ok(LockRead::Bound(lock)),
        Err(fault) => Ok(LockRead::Refused(bad_lock(alloc, path, fault)?)),
    }
}

fn bad_lock(alloc: Global, path: &str, fault: LockFault) -> Result<Refusal, OutOfMemory>
    ensures value { IfOk result (λ refusal. refusal ≡ BadLock path.now fault) }
    ensures known { OnOk result (fault ≢ Memory) }
{
    match fault {
        LockFault::Memory => Err(OutOfMemory),
        _ => Ok(Refusal::BadLock(Text::from_str(alloc, path)?, fault)),
    }
}
