// A disk as a switch sees it: what a read gives, and what a stop may leave.
ghost use Rattle.std.specs.Prelude.{◌≡◌, ◌<◌, ℕ, Bool};
ghost use Rattle.std.specs.declared.option.Option.{Option};
ghost use Rattle.std.specs.declared.option.Option.TheVariants.{None, Some};
ghost use Rattle.crash_disk.specs.declared.disk.DiskFault.TheVariants.{Memory};

use opam_names::{Items, OutOfMemory, RelPath};
use outside_io::Failed;
use std::alloc::{AllocError, Global};

/// Whose a disk is.
#[derive(Clone, Copy, Debug, PartialEq, Eq)]
pub enum Claim {
    Mine,
    Held,
}

/// What stands at a path: a file, or files below it.
#[derive(Clone, Copy, Debug, PartialEq, Eq)]
pub enum Look {
    Absent,
    File,
    Folder,
}

/// The file at a path, read up to a limit in bytes, with its executable bit.
#[derive(Drop)]
pub enum DiskRead {
    Absent,
    File { bytes: Items<u8>, exec: bool },
    TooLong,
}

/// Why a file was not read.
#[derive(Clone, Copy, Debug, PartialEq, Eq)]
pub enum DiskFault {
    Failed,
    Memory,
}

impl From<AllocError> for DiskFault {
    ghost from_gives = { λ _ e. e ≡ Memory };

    fn from(_: AllocError) -> Self {
        DiskFault::Memory
    }
}

impl From<OutOfMemory> for DiskFault {
    ghost from_gives = { λ _ e. e ≡ Memory };

    fn from(_: OutOfMemory) -> Self {
        DiskFault::Memory
    }
}

/// The files below the prefix of a switch, but for its build folders.
pub trait Disk {
    ghost use Rattle.outside_io.specs.Counts.{last_count};
    ghost use Rattle.crash_disk.specs.Disks.{State, Elapses, Counted, CountedRead, ClaimGives, TellsChange, TellsSync, Looks, Reads};

    /// The files and the loose paths, where the disk tells them.
    ghost told: { Self → Option State };

    /// The same at a moment that has been.
    ghost past: { Self → ℕ → Option State };

    /// Whether another has claimed it, where it tells.
    ghost taken: { Self → Option Bool };

    /// The clock. It rises by one with each call but `clock`.
    ghost moment: { Self → ℕ };

    /// How often a call has failed. It never falls.
    ghost faults: { Self → ℕ };

    /// How often a claim answered `Held`. It never falls.
    ghost held: { Self → ℕ };

    /// Claims the disk for this run.
    fn claim(&mut self) -> Result<Claim, Failed>
        ensures cause { Counted (faults self.old) (faults self.new) result }
        ensures held { ClaimGives (held self.old) (held self.new) (taken self.old) result }
        ensures taken { taken self.new ≡ taken self.old }
        ensures same { told self.new ≡ told self.old }
        ensures time { Elapses (moment self.old) (moment self.new) (past self.old) (past self.new) (told self.new) };

    /// What stands at a path.
    fn look(&mut self, path: &RelPath) -> Result<Look, Failed>
        ensures cause { Counted (faults self.old) (faults self.new) result }
        ensures held { held self.new ≡ held self.old }
        ensures taken { taken self.new ≡ taken self.old }
        ensures same { told self.new ≡ told self.old }
        ensures look { Looks (told self.old) path.now result }
        ensures time { Elapses (moment self.old) (moment self.new) (past self.old) (past self.new) (told self.new) };

    /// The file at a path, if it has at most `limit` bytes.
    fn read(&mut self, alloc: Global, path: &RelPath, limit: u64) -> Result<DiskRead, DiskFault>
        ensures cause { CountedRead (faults self.old) (faults self.new) result }
        ensures held { held self.new ≡ held self.old }
        ensures taken { taken self.new ≡ taken self.old }
        ensures same { told self.new ≡ told self.old }
        ensures read { Reads (told self.old) path.now limit result }
        ensures time { Elapses (moment self.old) (moment self.new) (past self.old) (past self.new) (told self.new) };

    /// Leaves this file at the path. It is durable from the next sync on.
    fn put(&mut self, path: &RelPath, bytes: &[u8], exec: bool) -> Result<(), Failed>
        ensures cause { Counted (faults self.old) (faults self.new) result }
        ensures held { held self.new ≡ held self.old }
        ensures taken { taken self.new ≡ taken self.old }
        ensures put { TellsChange path.now (Some (record { bytes = bytes.now; exec = exec })) (told self.old) (told self.new) result }
        ensures time { Elapses (moment self.old) (moment self.new) (past self.old) (past self.new) (told self.new) };

    /// Leaves no file at the path. It is durable from the next sync on.
    fn remove(&mut self, path: &RelPath) -> Result<(), Failed>
        ensures cause { Counted (faults self.old) (faults self.new) result }
        ensures held { held self.new ≡ held self.old }
        ensures taken { taken self.new ≡ taken self.old }
        ensures removed { TellsChange path.now None (told self.old) (told self.new) result }
        ensures time { Elapses (moment self.old) (moment self.new) (past self.old) (past self.new) (told self.new) };

    /// Makes all that was put and removed durable.
    fn sync(&mut self) -> Result<(), Failed>
        ensures cause { Counted (faults self.old) (faults self.new) result }
        ensures held { held self.new ≡ held self.old }
        ensures taken { taken self.new ≡ taken self.old }
        ensures synced { TellsSync (told self.old) (told self.new) result }
        ensures time { Elapses (moment self.old) (moment self.new) (past self.old) (past self.new) (told self.new) };

    fn clock(&self) -> u64
        ensures { result ≡ moment self.now };

    /// This moment's state is what the disk tells now.
    ghost now_is: { (disk : Self) → moment disk < last_count → past disk (moment disk) ≡ told disk };
}
