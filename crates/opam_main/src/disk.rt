// The folder of a switch as a disk.
ghost use Rattle.std.specs.Prelude.{◌≡◌, ◌≤◌, ◌+◌, ◌-◌, ◌^◌, min, OnErr, OnOk};
ghost use Rattle.std.specs.declared.option.Option.TheVariants.{None};
ghost use Rattle.outside_io.specs.Counts.{Rose};
ghost use mathlib.Core.Path.{refl};

use crate::fault::FileError;
use crate::switch::SwitchFolder;
use crash_disk::{Claim, Disk, DiskFault, DiskRead, Look};
use opam_names::RelPath;
use outside_io::Failed;
use std::alloc::Global;
use std::fs::File;
use std::rt::Files;

/// The folder of a switch as a disk. It tells nothing of what stands there.
#[derive(Drop)]
pub struct FolderDisk<R: Files<File = File>> {
    folder: SwitchFolder<R>,
    calls: u64,
    faults: u64,
    held: u64,
}

impl<R: Files<File = File> + Alloc + Clone + Drop> FolderDisk<R> {
    /// The disk below a folder, which need not be there yet.
    pub fn new(alloc: Global, rt: R, root: String) -> FolderDisk<R> {
        FolderDisk {
            folder: SwitchFolder::new(alloc, rt, root),
            calls: 0,
            faults: 0,
            held: 0,
        }
    }

    // The next call.
    fn begin(&mut self)
        ensures clock { self.new.calls ≡ min (self.old.calls + 1) (2 ^ 64 - 1) }
        ensures later { self.old.calls ≤ self.new.calls }
        ensures faults { self.new.faults ≡ self.old.faults }
        ensures held { self.new.held ≡ self.old.held }
    {
        self.calls = self.calls.saturating_add(1);
    }

    // A call that has failed.
    fn fail(&mut self)
        ensures calls { self.new.calls ≡ self.old.calls }
        ensures held { self.new.held ≡ self.old.held }
        ensures later { self.old.faults ≤ self.new.faults }
        ensures faults { self.new.faults ≡ min (self.old.faults + 1) (2 ^ 64 - 1) }
    {
        self.faults = self.faults.saturating_add(1);
    }

    // Counts what came of a call.
    fn count<T: Drop>(&mut self, outcome: Result<T, FileError>) -> Result<T, Failed>
        ensures calls { self.new.calls ≡ self.old.calls }
        ensures held { self.new.held ≡ self.old.held }
        ensures later { self.old.faults ≤ self.new.faults }
        ensures ok { OnOk result (self.new.faults ≡ self.old.faults) }
        ensures failed { OnErr result (Rose self.old.faults self.new.faults) }
    {
        match outcome {
            Ok(value) => Ok(value),
            Err(_) => {
                self.fail();
                Err(Failed)
            }
        }
    }
}

impl<R: Files<File = File> + Alloc + Clone + Drop> Disk for FolderDisk<R> {
    ghost told = { λ _. None };

    ghost past = { λ _ _. None };

    ghost taken = { λ _. None };

    ghost moment = { λ d. d.calls };

    ghost faults = { λ d. d.faults };

    ghost held = { λ d. d.held };

    ghost now_is = { λ d below. refl };

    fn claim(&mut self) -> Result<Claim, Failed> {
        self.begin();
        let outcome = self.folder.claim();
        if self.count(outcome)? {
            return Ok(Claim::Mine);
        }
        self.held = self.held.saturating_add(1);
        Ok(Claim::Held)
    }

    fn look(&mut self, path: &RelPath) -> Result<Look, Failed> {
        self.begin();
        let outcome = self.folder.look(path);
        self.count(outcome)
    }

    fn read(&mut self, alloc: Global, path: &RelPath, limit: u64) -> Result<DiskRead, DiskFault> {
        self.begin();
        match self.folder.read(alloc, path, limit) {
            Ok(content) => Ok(content),
            Err(error) => {
                if error.is_memory() {
                    return Err(DiskFault::Memory);
                }
                self.fail();
                Err(DiskFault::Failed)
            }
        }
    }

    fn put(&mut self, path: &RelPath, bytes: &[u8], exec: bool) -> Result<(), Failed> {
        self.begin();
        let outcome = self.folder.put(path, bytes, exec);
        self.count(outcome)
    }

    fn remove(&mut self, path: &RelPath) -> Result<(), Failed> {
        self.begin();
        let outcome = self.folder.remove(path);
        self.count(outcome)
    }

    fn sync(&mut self) -> Result<(), Failed> {
        self.begin();
        let outcome = self.folder.sync();
        self.count(outcome)
    }

    fn clock(&self) -> u64 {
        self.calls
    }
}
