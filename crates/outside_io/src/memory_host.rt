// A host that is a list of files in memory.
ghost use Rattle.std.specs.Prelude.{◌≡◌, ◌≤◌, Some, Contains, ◌↔◌, IfOk, IsErrOf, OnErr};
ghost use Rattle.std.specs.Option.{option_copied};
ghost use Rattle.std.specs.Ordering.{nat_cmp};
ghost use Rattle.std.specs.Cmp.Lexicographic.{slice_cmp};
ghost use Rattle.std.specs.FinMap.{find, get};
ghost use Rattle.outside_io.specs.Hosts.{HostCause, HostTells, IsFound};
ghost use Rattle.outside_io.specs.Memories.{IsHeld, files_at, next_call, pairs_of};
ghost use Rattle.outside_io.specs.declared.host.HostFault.TheVariants.{Failed, Memory};

use crate::{Found, Host, HostFault};
use opam_names::{Items, OutOfMemory};
use std::alloc::Global;
use std::cmp::Ordering;
use std::marker::Model;

/// Files in memory: paths and bytes. It fails in chosen calls of `read` and in no others.
#[derive(Drop)]
pub struct MemoryHost {
    files: Vec<(String, Vec<u8>)>,
    fail: Vec<u64>,
    calls: u64,
    faults: u64,
}

impl Model for MemoryHost {
    ghost use Rattle.outside_io.specs.Memories.{HostMemory, pairs_of};

    ghost Value = { HostMemory };

    ghost view = { λ h. record { files = pairs_of h.files.items; fail = h.fail.items; calls = h.calls; faults = h.faults } };
}

impl MemoryHost {
    /// Of several files with one path the first counts. `fail` lists the calls of `read` that are to fail, from 1 on.
    pub fn new(files: Vec<(String, Vec<u8>)>, fail: Vec<u64>) -> MemoryHost
        ensures told { ⟦<MemoryHost as Host>⟧.files result ≡ Some (files_at (pairs_of files.items)) }
        ensures faults { ⟦<MemoryHost as Host>⟧.faults result ≡ 0 }
        ensures files { result.files ≡ pairs_of files.items }
        ensures fail { result.fail ≡ fail.items }
        ensures calls { result.calls ≡ 0 }
    {
        MemoryHost {
            files,
            fail,
            calls: 0,
            faults: 0,
        }
    }
}

impl Host for MemoryHost {
    ghost files = { λ h. Some (files_at h.files) };

    ghost faults = { λ h. h.faults };

    /// `Failed` exactly where the list names the call's number. It takes memory only where it answers bytes.
    fn read(&mut self, alloc: Global, path: &str, limit: u64) -> Result<Found, HostFault>
        ensures cause { HostCause self.old.faults self.new.faults result }
        ensures same { self.new.files ≡ self.old.files }
        ensures told { HostTells (Some (files_at self.old.files)) path.now limit result }
        ensures listed { IsErrOf result Failed ↔ Contains self.old.fail (next_call self.old.calls) }
        ensures held { IsErrOf result Memory → IsHeld (get (files_at self.old.files) path.now) limit }
        ensures calls { self.new.calls ≡ next_call self.old.calls }
        ensures later { self.old.calls ≤ self.new.calls }
        ensures fail { self.new.fail ≡ self.old.fail }
    {
        self.calls = self.calls.saturating_add(1);
        if self.fail.contains(&self.calls) {
            self.faults = self.faults.saturating_add(1);
            return Err(HostFault::Failed);
        }
        Ok(read_file(alloc, &self.files, path, limit)?)
    }
}

fn read_file(
    alloc: Global,
    files: &[(String, Vec<u8>)],
    path: &str,
    limit: u64,
) -> Result<Found, OutOfMemory>
    ensures found { IfOk result (λ found. IsFound (get (files_at (pairs_of files.now)) path.now) limit found) }
    ensures held { OnErr result (IsHeld (get (files_at (pairs_of files.now)) path.now) limit) }
{
    match find_file(files, path) {
        None => Ok(Found::Absent),
        Some(bytes) => {
            if bytes.len() as u64 > limit {
                return Ok(Found::TooLong);
            }
            Ok(Found::Bytes(Items::from_slice(alloc, bytes)?))
        }
    }
}

#[tactic(auto, using(crate::proofs::Tells::get_files))]
fn find_file<'a>(files: &'a [(String, Vec<u8>)], path: &str) -> Option<&'a [u8]>
    ensures { option_copied result ≡ get (files_at (pairs_of files.now)) path.now }
{
    find_pair(files, path)
}

fn find_pair<'a>(files: &'a [(String, Vec<u8>)], path: &str) -> Option<&'a [u8]>
    ensures { option_copied result ≡ find (slice_cmp nat_cmp) path.now (pairs_of files.now) }
{
    let mut rest = files;
    while let [(name, bytes), after @ ..] = rest {
        if path.cmp(name.as_str()) == Ordering::Equal {
            return Some(bytes.as_slice());
        }
        rest = after;
    }
    None
}
