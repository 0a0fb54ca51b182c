// A disk that is made of what a stop may have left of another.
ghost use Rattle.std.specs.Prelude.{◌≡◌, ◌≤◌, ℕ, List, ◌++◌, [], ◌∷◌, IsTrue, IfOk, OnOk, false, map, if◌then◌else◌};
ghost use Rattle.std.specs.Option.{option_copied};
ghost use Rattle.crash_disk.specs.Disks.{LeftSince, State};
ghost use Rattle.crash_disk.specs.Log.{all_until, first_state, replay, until};
ghost use Rattle.crash_disk.specs.Memory.{shown, told_at, told_now};
ghost use Rattle.crash_disk.specs.Spots.{Spot, TellsImage, image_file, spot_after, spot_at, spot_first};
ghost use Rattle.crash_disk.specs.Traces.{is_here, is_touched, listing, path_in};

use super::MemoryDisk;
use crate::changes::{Change, Entry, Listed};
use crate::spots::{Choice, make_chosen, trace_at};
use opam_names::{Items, OutOfMemory, RelPath};
use std::alloc::Global;

impl MemoryDisk {
    /// A disk made of what a stop at this moment may have left: each path that was put or removed since the last sync has
    /// what the choice says, and each other path what it had. No other has claimed it, and nothing is loose.
    pub fn image(&self, moment: u64, choice: Choice) -> Result<MemoryDisk, OutOfMemory>
        requires { moment ≤ (shown self.now).calls }
        ensures told { IfOk result (λ disk.
            TellsImage choice ((shown self.now).spot moment) (told_now (shown disk))) }
        // It is one of the images that a disk might have left at that moment.
        ensures left { IfOk result (λ disk. LeftSince (shown self.now).calls (told_at (shown self.now))
            moment (shown disk).state.files) }
        ensures taken { IfOk result (λ disk. (shown disk).taken ≡ false) }
        ensures calls { IfOk result (λ disk. (shown disk).calls ≡ 0) }
        ensures fail { IfOk result (λ disk. (shown disk).fail ≡ []) }
    {
        let first = copy_files(self.alloc, self.first.as_slice())?;
        let log = choose_all(
            self.alloc,
            self.first.as_slice(),
            self.log.as_slice(),
            moment,
            choice,
        )?;
        Ok(make_image(self.alloc, first, log))
    }
}

fn make_image(alloc: Global, first: Vec<Listed>, log: Items<Entry>) -> MemoryDisk
    requires { IsTrue (all_until 0 log) }
    ensures told { (shown result).state ≡ replay log (first_state first.items) }
    ensures taken { (shown result).taken ≡ false }
    ensures calls { (shown result).calls ≡ 0 }
    ensures fail { (shown result).fail ≡ [] }
{
    MemoryDisk {
        alloc,
        first,
        log,
        fail: Vec::new(alloc),
        calls: 0,
        faults: 0,
        starved: 0,
        held: 0,
        taken: false,
    }
}

fn copy_listed(alloc: Global, listed: &Listed) -> Result<Listed, OutOfMemory>
    ensures { IfOk result (λ copy. listing copy ≡ listing listed.now) }
{
    let path = listed.0.copy(alloc)?;
    let bytes = Vec::from_slice(alloc, listed.1.as_slice())?;
    Ok((path, bytes, listed.2))
}

fn copy_files(alloc: Global, files: &[Listed]) -> Result<Vec<Listed>, OutOfMemory>
    ensures { IfOk result (λ copies. map listing copies.items ≡ map listing files.now) }
{
    let mut copies = Vec::new(alloc);
    for file in files {
        copies.push(copy_listed(alloc, file)?)?;
    }
    Ok(copies)
}

fn path_of(change: &Change) -> Option<&RelPath>
    ensures { option_copied result ≡ path_in change.now }
{
    match change {
        Change::Put(listed) => Some(&listed.0),
        Change::Removed(path) => Some(path),
        Change::FailedPut(listed) => Some(&listed.0),
        Change::FailedRemoval(path) => Some(path),
        Change::Loosened(path) => Some(path),
        Change::Synced => None,
    }
}

// Leaves what the image has at the path of this change.
fn choose_one(
    made: &mut Items<Entry>,
    alloc: Global,
    first: &[Listed],
    log: &[Entry],
    moment: u64,
    choice: Choice,
    change: &Change,
) -> Result<(), OutOfMemory>
    ensures chosen { OnOk result ((q : List ℕ) (spot : Spot) → (spot_after made.new q spot).here ≡
        (if is_here q (path_in change.now)
        then image_file choice (spot_at first.now (until moment log.now) q)
        else (spot_after made.old q spot).here)) }
    ensures start { OnOk result (IsTrue (all_until 0 made.old) → IsTrue (all_until 0 made.new)) }
{
    match path_of(change) {
        Some(path) => {
            let trace = trace_at(first, log, moment, path);
            let change = make_chosen(alloc, path, choice, trace)?;
            made.push(Entry { moment: 0, change })
        }
        None => Ok(()),
    }
}

// The changes that make an image of the first files.
fn choose_all(
    alloc: Global,
    first: &[Listed],
    log: &[Entry],
    moment: u64,
    choice: Choice,
) -> Result<Items<Entry>, OutOfMemory>
    ensures chosen { IfOk result (λ made. (q : List ℕ) (spot : Spot)
        → spot.here ≡ (spot_first first.now q).here
        → (spot_after made q spot).here
        ≡ image_file choice (spot_at first.now (until moment log.now) q)) }
    ensures firm { IfOk result (λ made. (s : State) → (replay made s).loose ≡ []) }
    ensures start { IfOk result (λ made. IsTrue (all_until 0 made)) }
{
    let mut made = Items::new(alloc);
    for entry in log {
        choose_one(&mut made, alloc, first, log, moment, choice, &entry.change)?;
    }
    made.push(Entry {
        moment: 0,
        change: Change::Synced,
    })?;
    Ok(made)
}
