// The calls of a disk in memory: each is counted, and keeps what it changed.
ghost use Rattle.std.specs.Prelude.{◌≡◌, ◌≤◌, ◌+◌, ◌⊎◌, ◌↔◌, min, ◌++◌, [], ◌∷◌, Some, None, IsTrue, Ok, Err, IsErrOf, OnOk, OnErr, IfOk, IsErr};
ghost use Rattle.std.specs.Bool.{OnTrue, OnFalse};
ghost use Rattle.std.specs.Result.{ForOk};
ghost use Rattle.std.specs.declared.option.Option.{Option};
ghost use Rattle.outside_io.specs.Counts.{Rose, last_count};
ghost use Rattle.crash_disk.specs.Disks.{ClaimGives, Counted, CountedRead, Elapses, Kept, Looks, Reads, TellsChange, TellsSync};
ghost use Rattle.crash_disk.specs.Log.{IsAt, Loosens, PlacesAt, first_state, placed, replay};
ghost use Rattle.crash_disk.specs.Memory.{FailsLoose, fails_next, shown, told_at, told_now, told_taken};
ghost use Rattle.crash_disk.specs.declared.changes.Change.{Change};

use super::MemoryDisk;
use crate::changes::{Change, Entry, look_at, make_failed, make_put, make_removed, read_at};
use crate::{Claim, Disk, DiskFault, DiskRead, Look};
use opam_names::{Items, OutOfMemory, RelPath};
use outside_io::Failed;
use std::alloc::Global;

impl MemoryDisk {
    /// A disk with these files, each with its bytes and its executable bit: of several with one path the first counts.
    /// `fail` has the numbers of the calls that are to fail: the first call is 1, and `clock` is not counted. Where
    /// `held` is true another has claimed it. It grows by `alloc`.
    pub fn new(
        alloc: Global,
        files: Vec<(RelPath, Vec<u8>, bool)>,
        fail: Vec<u64>,
        held: bool,
    ) -> MemoryDisk
        ensures told { ⟦<MemoryDisk as Disk>⟧.told result ≡ Some (first_state files.items) }
        ensures taken { ⟦<MemoryDisk as Disk>⟧.taken result ≡ Some held }
        ensures moment { ⟦<MemoryDisk as Disk>⟧.moment result ≡ 0 }
        ensures faults { ⟦<MemoryDisk as Disk>⟧.faults result ≡ 0 }
        ensures held { ⟦<MemoryDisk as Disk>⟧.held result ≡ 0 }
        ensures starved { (shown result).starved ≡ 0 }
        ensures fail { (shown result).fail ≡ fail.items }
    {
        MemoryDisk {
            alloc,
            first: files,
            log: Items::new(alloc),
            fail,
            calls: 0,
            faults: 0,
            starved: 0,
            held: 0,
            taken: held,
        }
    }

    /// How many calls there have been, `clock` aside.
    pub fn calls(&self) -> u64
        ensures { result ≡ (shown self.now).calls }
    {
        self.calls
    }

    /// How often it was refused memory of its own.
    pub fn starved(&self) -> u64
        ensures { result ≡ (shown self.now).starved }
    {
        self.starved
    }

    // The next call. Whether it is to fail.
    fn begin(&mut self) -> bool
        ensures listed { result ≡ fails_next (shown self.old) }
        ensures clock { self.new.calls ≡ min (self.old.calls + 1) last_count }
        ensures clock_later { self.old.calls ≤ self.new.calls }
        ensures first { self.new.first ≡ self.old.first }
        ensures log { self.new.log ≡ self.old.log }
        ensures fail { self.new.fail ≡ self.old.fail }
        ensures taken { self.new.taken ≡ self.old.taken }
        ensures held { self.new.held ≡ self.old.held }
        ensures starved { self.new.starved ≡ self.old.starved }
        ensures later { self.old.faults ≤ self.new.faults }
        ensures fails { OnTrue result (self.new.faults ≡ min (self.old.faults + 1) last_count) }
        ensures goes_on { OnFalse result (self.new.faults ≡ self.old.faults) }
    {
        self.calls = self.calls.saturating_add(1);
        let fails = self.fail.contains(&self.calls);
        if fails {
            self.faults = self.faults.saturating_add(1);
        }
        fails
    }

    // Keeps a change. Where memory is refused, then or when it was made, nothing has changed.
    fn note(&mut self, change: Result<Change, OutOfMemory>) -> Result<(), OutOfMemory>
        ensures clock { self.new.calls ≡ self.old.calls }
        ensures first { self.new.first ≡ self.old.first }
        ensures fail { self.new.fail ≡ self.old.fail }
        ensures taken { self.new.taken ≡ self.old.taken }
        ensures held { self.new.held ≡ self.old.held }
        ensures faults { self.new.faults ≡ self.old.faults }
        ensures ok { OnOk result ((made : Change) × (change ≡ Ok made) × (self.new.log ≡ self.old.log ++ record { moment = self.old.calls; change = made } ∷ [])) }
        ensures err { OnErr result (self.new.log ≡ self.old.log) }
        ensures later { self.old.starved ≤ self.new.starved }
        ensures kept { OnOk result (self.new.starved ≡ self.old.starved) }
        ensures starved { OnErr result (Rose self.old.starved self.new.starved) }
    {
        match change {
            Ok(change) => self.note_made(change),
            Err(_) => {
                self.starve();
                Err(OutOfMemory)
            }
        }
    }

    fn note_made(&mut self, change: Change) -> Result<(), OutOfMemory>
        ensures clock { self.new.calls ≡ self.old.calls }
        ensures first { self.new.first ≡ self.old.first }
        ensures fail { self.new.fail ≡ self.old.fail }
        ensures taken { self.new.taken ≡ self.old.taken }
        ensures held { self.new.held ≡ self.old.held }
        ensures faults { self.new.faults ≡ self.old.faults }
        ensures ok { OnOk result (self.new.log ≡ self.old.log ++ record { moment = self.old.calls; change = change } ∷ []) }
        ensures err { OnErr result (self.new.log ≡ self.old.log) }
        ensures later { self.old.starved ≤ self.new.starved }
        ensures kept { OnOk result (self.new.starved ≡ self.old.starved) }
        ensures starved { OnErr result (Rose self.old.starved self.new.starved) }
    {
        let entry = Entry {
            moment: self.calls,
            change,
        };
        match self.log.push(entry) {
            Ok(()) => Ok(()),
            Err(_) => {
                self.starve();
                Err(OutOfMemory)
            }
        }
    }

    // Memory was refused.
    fn starve(&mut self)
        ensures clock { self.new.calls ≡ self.old.calls }
        ensures first { self.new.first ≡ self.old.first }
        ensures log { self.new.log ≡ self.old.log }
        ensures fail { self.new.fail ≡ self.old.fail }
        ensures taken { self.new.taken ≡ self.old.taken }
        ensures held { self.new.held ≡ self.old.held }
        ensures faults { self.new.faults ≡ self.old.faults }
        ensures later { self.old.starved ≤ self.new.starved }
        ensures starved { Rose self.old.starved self.new.starved }
    {
        self.starved = self.starved.saturating_add(1);
    }

    // A fault that was not listed.
    fn count_fault(&mut self)
        ensures clock { self.new.calls ≡ self.old.calls }
        ensures first { self.new.first ≡ self.old.first }
        ensures log { self.new.log ≡ self.old.log }
        ensures fail { self.new.fail ≡ self.old.fail }
        ensures taken { self.new.taken ≡ self.old.taken }
        ensures held { self.new.held ≡ self.old.held }
        ensures starved { self.new.starved ≡ self.old.starved }
        ensures later { self.old.faults ≤ self.new.faults }
        ensures faults { Rose self.old.faults self.new.faults }
    {
        self.faults = self.faults.saturating_add(1);
    }

    // A call on this path has failed, and a stop may leave anything there, if there is memory to say so.
    fn loosen(&mut self, path: &RelPath, change: Result<Change, OutOfMemory>)
        requires { ForOk change (λ made. IsAt path.now made) }
        ensures clock { self.new.calls ≡ self.old.calls }
        ensures first { self.new.first ≡ self.old.first }
        ensures fail { self.new.fail ≡ self.old.fail }
        ensures taken { self.new.taken ≡ self.old.taken }
        ensures held { self.new.held ≡ self.old.held }
        ensures faults { self.new.faults ≡ self.old.faults }
        ensures later { self.old.starved ≤ self.new.starved }
        ensures log { ((self.new.log ≡ self.old.log) × Rose self.old.starved self.new.starved)
            ⊎ ((failed : Change) × Loosens path.now failed × (self.new.log ≡ self.old.log ++ record { moment = self.old.calls; change = failed } ∷ [])) }
    {
        let failed = make_failed(self.alloc, path, change);
        let _ = self.note(failed);
    }

    // A call on a path, by a change for which memory may have been refused.
    fn change(&mut self, path: &RelPath, change: Result<Change, OutOfMemory>) -> Result<(), Failed>
        requires { ForOk change (λ made. IsAt path.now made) }
        ensures cause { Counted self.old.faults self.new.faults result }
        ensures held { self.new.held ≡ self.old.held }
        ensures taken { self.new.taken ≡ self.old.taken }
        ensures fail { self.new.fail ≡ self.old.fail }
        ensures done { (file : Option Kept) → IfOk change (λ made. PlacesAt path.now file made) → OnOk result ((shown self.new).state ≡ placed path.now file (shown self.old).state) }
        ensures loose { OnErr result (FailsLoose path.now (shown self.old) (shown self.new)) }
        ensures time { Elapses self.old.calls self.new.calls (told_at (shown self.old)) (told_at (shown self.new)) (told_now (shown self.new)) }
        ensures listed { IsTrue (fails_next (shown self.old)) → IsErr result }
        ensures starved { IsErr result → IsTrue (fails_next (shown self.old)) ⊎ Rose self.old.starved self.new.starved }
        ensures starved_later { self.old.starved ≤ self.new.starved }
        ensures kept { OnOk result (self.new.starved ≡ self.old.starved) }
    {
        if self.begin() {
            self.loosen(path, change);
            return Err(Failed);
        }
        match self.note(change) {
            Ok(()) => Ok(()),
            Err(_) => {
                self.count_fault();
                self.loosen(path, Err(OutOfMemory));
                Err(Failed)
            }
        }
    }
}

impl Disk for MemoryDisk {
    ghost use Rattle.crash_disk.specs.InOrder.{until_all};
    ghost use mathlib.Core.Path.{ap};

    ghost told = { λ d. told_now (shown d) };

    ghost past = { λ d. told_at (shown d) };

    ghost taken = { λ d. told_taken (shown d) };

    ghost moment = { λ d. (shown d).calls };

    ghost faults = { λ d. (shown d).faults };

    ghost held = { λ d. (shown d).held };

    ghost now_is = { λ d below. ap (λ log. Some (replay log (first_state d.first.items))) (until_all d.calls d.log d.in_order) };

    #[tactic(auto, using(crate::proofs::Moments::elapses_same))]
    fn claim(&mut self) -> Result<Claim, Failed>
        ensures cause { Counted (shown self.old).faults (shown self.new).faults result }
        ensures held { ClaimGives (shown self.old).held (shown self.new).held (told_taken (shown self.old)) result }
        ensures taken { told_taken (shown self.new) ≡ told_taken (shown self.old) }
        ensures same { told_now (shown self.new) ≡ told_now (shown self.old) }
        ensures time { Elapses (shown self.old).calls (shown self.new).calls (told_at (shown self.old)) (told_at (shown self.new)) (told_now (shown self.new)) }
        ensures failed { IsErr result ↔ IsTrue (fails_next (shown self.old)) }
        ensures fail { (shown self.new).fail ≡ (shown self.old).fail }
        ensures starved { (shown self.new).starved ≡ (shown self.old).starved }
    {
        if self.begin() {
            return Err(Failed);
        }
        if self.taken {
            self.held = self.held.saturating_add(1);
            return Ok(Claim::Held);
        }
        Ok(Claim::Mine)
    }

    #[tactic(auto, using(crate::proofs::Moments::elapses_same))]
    fn look(&mut self, path: &RelPath) -> Result<Look, Failed>
        ensures cause { Counted (shown self.old).faults (shown self.new).faults result }
        ensures held { (shown self.new).held ≡ (shown self.old).held }
        ensures taken { told_taken (shown self.new) ≡ told_taken (shown self.old) }
        ensures same { told_now (shown self.new) ≡ told_now (shown self.old) }
        ensures look { Looks (told_now (shown self.old)) path.now result }
        ensures time { Elapses (shown self.old).calls (shown self.new).calls (told_at (shown self.old)) (told_at (shown self.new)) (told_now (shown self.new)) }
        ensures failed { IsErr result ↔ IsTrue (fails_next (shown self.old)) }
        ensures fail { (shown self.new).fail ≡ (shown self.old).fail }
        ensures starved { (shown self.new).starved ≡ (shown self.old).starved }
    {
        if self.begin() {
            return Err(Failed);
        }
        Ok(look_at(self.first.as_slice(), self.log.as_slice(), path))
    }

    #[tactic(auto, using(crate::proofs::Moments::elapses_same))]
    fn read(&mut self, alloc: Global, path: &RelPath, limit: u64) -> Result<DiskRead, DiskFault>
        ensures cause { CountedRead (shown self.old).faults (shown self.new).faults result }
        ensures held { (shown self.new).held ≡ (shown self.old).held }
        ensures taken { told_taken (shown self.new) ≡ told_taken (shown self.old) }
        ensures same { told_now (shown self.new) ≡ told_now (shown self.old) }
        ensures read { Reads (told_now (shown self.old)) path.now limit result }
        ensures time { Elapses (shown self.old).calls (shown self.new).calls (told_at (shown self.old)) (told_at (shown self.new)) (told_now (shown self.new)) }
        ensures failed { IsErrOf result DiskFault.Failed ↔ IsTrue (fails_next (shown self.old)) }
        ensures fail { (shown self.new).fail ≡ (shown self.old).fail }
        ensures starved { (shown self.new).starved ≡ (shown self.old).starved }
    {
        if self.begin() {
            return Err(DiskFault::Failed);
        }
        read_at(
            alloc,
            self.first.as_slice(),
            self.log.as_slice(),
            path,
            limit,
        )
    }

    fn put(&mut self, path: &RelPath, bytes: &[u8], exec: bool) -> Result<(), Failed>
        ensures cause { Counted (shown self.old).faults (shown self.new).faults result }
        ensures held { (shown self.new).held ≡ (shown self.old).held }
        ensures taken { told_taken (shown self.new) ≡ told_taken (shown self.old) }
        ensures put { TellsChange path.now (Some (record { bytes = bytes.now; exec = exec })) (told_now (shown self.old)) (told_now (shown self.new)) result }
        ensures time { Elapses (shown self.old).calls (shown self.new).calls (told_at (shown self.old)) (told_at (shown self.new)) (told_now (shown self.new)) }
        ensures listed { IsTrue (fails_next (shown self.old)) → IsErr result }
        ensures failed { IsErr result → IsTrue (fails_next (shown self.old)) ⊎ Rose (shown self.old).starved (shown self.new).starved }
        ensures later { (shown self.old).starved ≤ (shown self.new).starved }
        ensures starved { OnOk result ((shown self.new).starved ≡ (shown self.old).starved) }
        ensures fail { (shown self.new).fail ≡ (shown self.old).fail }
        ensures done { OnOk result ((shown self.new).state ≡ placed path.now (Some (record { bytes = bytes.now; exec = exec })) (shown self.old).state) }
        ensures loose { OnErr result (FailsLoose path.now (shown self.old) (shown self.new)) }
    {
        let change = make_put(self.alloc, path, bytes, exec);
        self.change(path, change)
    }

    fn remove(&mut self, path: &RelPath) -> Result<(), Failed>
        ensures cause { Counted (shown self.old).faults (shown self.new).faults result }
        ensures held { (shown self.new).held ≡ (shown self.old).held }
        ensures taken { told_taken (shown self.new) ≡ told_taken (shown self.old) }
        ensures removed { TellsChange path.now None (told_now (shown self.old)) (told_now (shown self.new)) result }
        ensures time { Elapses (shown self.old).calls (shown self.new).calls (told_at (shown self.old)) (told_at (shown self.new)) (told_now (shown self.new)) }
        ensures listed { IsTrue (fails_next (shown self.old)) → IsErr result }
        ensures failed { IsErr result → IsTrue (fails_next (shown self.old)) ⊎ Rose (shown self.old).starved (shown self.new).starved }
        ensures later { (shown self.old).starved ≤ (shown self.new).starved }
        ensures starved { OnOk result ((shown self.new).starved ≡ (shown self.old).starved) }
        ensures fail { (shown self.new).fail ≡ (shown self.old).fail }
        ensures done { OnOk result ((shown self.new).state ≡ placed path.now None (shown self.old).state) }
        ensures loose { OnErr result (FailsLoose path.now (shown self.old) (shown self.new)) }
    {
        let change = make_removed(self.alloc, path);
        self.change(path, change)
    }

    #[tactic(auto, using(crate::proofs::Moments::elapses_same))]
    fn sync(&mut self) -> Result<(), Failed>
        ensures cause { Counted (shown self.old).faults (shown self.new).faults result }
        ensures held { (shown self.new).held ≡ (shown self.old).held }
        ensures taken { told_taken (shown self.new) ≡ told_taken (shown self.old) }
        ensures synced { TellsSync (told_now (shown self.old)) (told_now (shown self.new)) result }
        ensures time { Elapses (shown self.old).calls (shown self.new).calls (told_at (shown self.old)) (told_at (shown self.new)) (told_now (shown self.new)) }
        ensures listed { IsTrue (fails_next (shown self.old)) → IsErr result }
        ensures failed { IsErr result → IsTrue (fails_next (shown self.old)) ⊎ Rose (shown self.old).starved (shown self.new).starved }
        ensures later { (shown self.old).starved ≤ (shown self.new).starved }
        ensures starved { OnOk result ((shown self.new).starved ≡ (shown self.old).starved) }
        ensures fail { (shown self.new).fail ≡ (shown self.old).fail }
    {
        if self.begin() {
            return Err(Failed);
        }
        match self.note(Ok(Change::Synced)) {
            Ok(()) => Ok(()),
            Err(_) => {
                self.count_fault();
                Err(Failed)
            }
        }
    }

    fn clock(&self) -> u64 {
        self.calls
    }
}
