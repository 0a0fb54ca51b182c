// The changes of a disk, each with its moment, and what they leave at a path.
ghost use Rattle.std.specs.Prelude.{◌≡◌, ℕ, List, Some, None, IsTrue, Err, OnErr, IfOk};
ghost use Rattle.std.specs.Result.{ForOk};
ghost use Rattle.std.specs.Bool.{OnTrue, OnFalse};
ghost use Rattle.std.specs.Option.{option_copied};
ghost use Rattle.std.specs.FinMap.{get};
ghost use Rattle.crash_disk.specs.Below.{IsBelow, IsOut, NoneOf, NonePut};
ghost use Rattle.crash_disk.specs.Disks.{IsLook, IsRead};
ghost use Rattle.crash_disk.specs.Log.{IsAt, Loosens, PlacesAt, first_state, kept, replay, stored_at, stored_by, stored_first};

use crate::{DiskFault, DiskRead, Look};
use opam_names::{Items, OutOfMemory, RelPath};
use std::alloc::Global;

// A path, the bytes of the file there, and its executable bit.
pub(crate) type Listed = (RelPath, Vec<u8>, bool);

// What a call did, or tried to do where it failed. A loosened path is one at which a call failed for want of memory.
#[derive(Drop)]
pub(crate) enum Change {
    Put(Listed),
    Removed(RelPath),
    FailedPut(Listed),
    FailedRemoval(RelPath),
    Loosened(RelPath),
    Synced,
}

#[derive(Drop)]
pub(crate) struct Entry {
    pub(crate) moment: u64,
    pub(crate) change: Change,
}

fn stored_now<'a>(
    change: &'a Change,
    path: &RelPath,
    here: Option<&'a Listed>,
) -> Option<&'a Listed>
    ensures { option_copied result ≡ stored_by change.now path.now (option_copied here.entry) }
{
    match change {
        Change::Put(listed) => {
            if path.as_str() == listed.0.as_str() {
                Some(listed)
            } else {
                here
            }
        }
        Change::Removed(gone) => {
            if path.as_str() == gone.as_str() {
                None
            } else {
                here
            }
        }
        Change::FailedPut(_) => here,
        Change::FailedRemoval(_) => here,
        Change::Loosened(_) => here,
        Change::Synced => here,
    }
}

pub(crate) fn find_first<'a>(first: &'a [Listed], path: &RelPath) -> Option<&'a Listed>
    ensures { option_copied result ≡ stored_first first.now path.now }
{
    let mut rest = first;
    while let [listed, after @ ..] = rest {
        if path.as_str() == listed.0.as_str() {
            return Some(listed);
        }
        rest = after;
    }
    None
}

fn find<'a>(first: &'a [Listed], log: &'a [Entry], path: &RelPath) -> Option<&'a Listed>
    ensures { option_copied result ≡ stored_at first.now log.now path.now }
{
    let mut here = find_first(first, path);
    let mut rest = log;
    while let [entry, after @ ..] = rest {
        here = stored_now(&entry.change, path, here);
        rest = after;
    }
    here
}

fn stands_below(listed: &Listed, first: &[Listed], log: &[Entry], path: &RelPath) -> bool
    ensures found { OnTrue result (IsBelow first.now log.now path.now) }
    ensures none { OnFalse result (IsOut first.now log.now path.now listed.now) }
{
    path.above(&listed.0) && find(first, log, &listed.0).is_some()
}

// Whether a file of the list stands on the disk below the path.
fn first_below(files: &[Listed], first: &[Listed], log: &[Entry], path: &RelPath) -> bool
    ensures found { OnTrue result (IsBelow first.now log.now path.now) }
    ensures none { OnFalse result (NoneOf files.now first.now log.now path.now) }
{
    let mut rest = files;
    while let [listed, after @ ..] = rest {
        if stands_below(listed, first, log, path) {
            return true;
        }
        rest = after;
    }
    false
}

// The same of the files that were put.
fn put_below(entries: &[Entry], first: &[Listed], log: &[Entry], path: &RelPath) -> bool
    ensures found { OnTrue result (IsBelow first.now log.now path.now) }
    ensures none { OnFalse result (NonePut entries.now first.now log.now path.now) }
{
    let mut rest = entries;
    while let [entry, after @ ..] = rest {
        if let Change::Put(listed) = &entry.change {
            if stands_below(listed, first, log, path) {
                return true;
            }
        }
        rest = after;
    }
    false
}

pub(crate) fn look_at(first: &[Listed], log: &[Entry], path: &RelPath) -> Look
    ensures { IsLook (replay log.now (first_state first.now)).files path.now result }
{
    match find(first, log, path) {
        Some(_) => Look::File,
        None => {
            if first_below(first, first, log, path) {
                Look::Folder
            } else if put_below(log, first, log, path) {
                Look::Folder
            } else {
                Look::Absent
            }
        }
    }
}

fn read_listed(alloc: Global, listed: &Listed, limit: u64) -> Result<DiskRead, DiskFault>
    ensures read { IfOk result (λ seen. IsRead (Some (kept listed.now)) limit seen) }
    ensures memory { OnErr result (result ≡ Err DiskFault.Memory) }
{
    if listed.1.len() as u64 > limit {
        return Ok(DiskRead::TooLong);
    }
    match Items::from_slice(alloc, listed.1.as_slice()) {
        Ok(bytes) => Ok(DiskRead::File {
            bytes,
            exec: listed.2,
        }),
        Err(_) => Err(DiskFault::Memory),
    }
}

pub(crate) fn read_at(
    alloc: Global,
    first: &[Listed],
    log: &[Entry],
    path: &RelPath,
    limit: u64,
) -> Result<DiskRead, DiskFault>
    ensures read { IfOk result (λ seen. IsRead (get (replay log.now (first_state first.now)).files path.now) limit seen) }
    ensures memory { OnErr result (result ≡ Err DiskFault.Memory) }
{
    match find(first, log, path) {
        None => Ok(DiskRead::Absent),
        Some(listed) => read_listed(alloc, listed, limit),
    }
}

pub(crate) fn make_put(
    alloc: Global,
    path: &RelPath,
    bytes: &[u8],
    exec: bool,
) -> Result<Change, OutOfMemory>
    ensures leaves { IfOk result (λ change. PlacesAt path.now (Some (record { bytes = bytes.now; exec = exec })) change) }
    ensures at { IfOk result (λ change. IsAt path.now change) }
{
    let path = path.copy(alloc)?;
    let bytes = Vec::from_slice(alloc, bytes)?;
    Ok(Change::Put((path, bytes, exec)))
}

pub(crate) fn make_removed(alloc: Global, path: &RelPath) -> Result<Change, OutOfMemory>
    ensures leaves { IfOk result (λ change. PlacesAt path.now None change) }
    ensures at { IfOk result (λ change. IsAt path.now change) }
{
    Ok(Change::Removed(path.copy(alloc)?))
}

// What a change leaves where the call has failed.
fn failed_change(change: Change) -> Change
    ensures { (path : List ℕ) → IsAt path change → Loosens path result }
{
    match change {
        Change::Put(listed) => Change::FailedPut(listed),
        Change::Removed(path) => Change::FailedRemoval(path),
        Change::FailedPut(listed) => Change::FailedPut(listed),
        Change::FailedRemoval(path) => Change::FailedRemoval(path),
        Change::Loosened(path) => Change::Loosened(path),
        Change::Synced => Change::Synced,
    }
}

// The same of a change for which memory may have been refused: then it is known only that the path is loose.
pub(crate) fn make_failed(
    alloc: Global,
    path: &RelPath,
    change: Result<Change, OutOfMemory>,
) -> Result<Change, OutOfMemory>
    requires { ForOk change (λ made. IsAt path.now made) }
    ensures { IfOk result (λ failed. Loosens path.now failed) }
{
    match change {
        Ok(change) => Ok(failed_change(change)),
        Err(_) => make_loosened(alloc, path),
    }
}

fn make_loosened(alloc: Global, path: &RelPath) -> Result<Change, OutOfMemory>
    ensures { IfOk result (λ change. change ≡ Change.Loosened path.now) }
{
    Ok(Change::Loosened(path.copy(alloc)?))
}
