// The commit of a record, and the opening that does the last one's work again.
ghost use Rattle.std.specs.Prelude.{◌≡◌, ◌+◌, ◌≤◌, ◌^◌, ℕ, List, IfOk, OnOk};
ghost use Rattle.crash_disk.specs.Effects.{Fails, Touches};
ghost use Rattle.crash_disk.specs.Stops.{StopsLeave};
ghost use Rattle.crash_disk.specs.Writes.{paths_of};
ghost use Rattle.switch_journal.specs.Commits.{Begins, BeginsAgain, entry_writes, gate_writes, paths_of_ready, ready_with};
ghost use Rattle.switch_journal.specs.Texts.{IsBeforeOrAfter, IsOldOrSame, Journal, RestsAs, with_record};

use crate::places::{gate_path_of, record_path_of};
use crash_disk::calls::sync;
use crash_disk::{Disk, Write, write_all};
use opam_names::{Items, OutOfMemory};
use outside_io::Failed;
use std::alloc::Global;

/// A record that is ready for its commit. Each part is durable before the next begins.
#[derive(Drop)]
pub struct Ready {
    /// The next gate is gone, and the record stands.
    pub entry: Items<Write>,
    /// Its gate stands.
    pub gate: Items<Write>,
    /// What it puts and takes away.
    pub writes: Items<Write>,
}

/// Makes ready the record with this number and these bytes, which puts and takes away what `writes` says.
pub fn make_ready(
    alloc: Global,
    number: u64,
    bytes: Items<u8>,
    writes: Items<Write>,
) -> Result<Ready, OutOfMemory>
    requires { number ≤ 2 ^ 63 }
    ensures { IfOk result (λ ready. ready ≡ ready_with number bytes writes) }
{
    let entry = make_entry(alloc, number, bytes)?;
    let gate = make_gate(alloc, number)?;
    Ok(Ready {
        entry,
        gate,
        writes,
    })
}

fn make_entry(alloc: Global, number: u64, bytes: Items<u8>) -> Result<Items<Write>, OutOfMemory>
    requires { number ≤ 2 ^ 63 }
    ensures { IfOk result (λ writes. writes ≡ entry_writes number bytes) }
{
    let next_gate = gate_path_of(alloc, number + 1)?;
    let path = record_path_of(alloc, number)?;
    let mut writes = Items::new(alloc);
    writes.push(Write::Remove { path: next_gate })?;
    writes.push(Write::Put {
        path,
        bytes,
        exec: false,
    })?;
    Ok(writes)
}

fn make_gate(alloc: Global, number: u64) -> Result<Items<Write>, OutOfMemory>
    ensures { IfOk result (λ writes. writes ≡ gate_writes number) }
{
    let path = gate_path_of(alloc, number)?;
    let bytes = Items::from_slice(alloc, b"ok\n")?;
    let mut writes = Items::new(alloc);
    writes.push(Write::Put {
        path,
        bytes,
        exec: false,
    })?;
    Ok(writes)
}

/// Commits a record. It gives up at the first failure; then the journal has to be opened again.
pub fn commit<D: Disk>(disk: &mut D, ready: &Ready) -> Result<(), Failed>
    ensures cause { Fails D.Disk disk.old disk.new result }
    ensures touches { Touches D.Disk (paths_of_ready ready.now) disk.old disk.new }
    // A stop at any moment leaves the journal from before, or the one with the record.
    ensures crash { (j : Journal) (text : List ℕ) → Begins j text ready.now (D.told disk.old)
        → StopsLeave D.Disk (IsBeforeOrAfter j text ready.now.writes) disk.old disk.new }
    ensures done { OnOk result ((j : Journal) (text : List ℕ)
        → Begins j text ready.now (D.told disk.old)
        → RestsAs (with_record j text ready.now.writes) (D.told disk.new)) }
{
    write_all(disk, ready.entry.as_slice())?;
    write_all(disk, ready.gate.as_slice())?;
    write_all(disk, ready.writes.as_slice())
}

/// Makes up for a stop: all that was written is made durable, and the last record's work is done again.
pub fn redo<D: Disk>(disk: &mut D, last: &[Write]) -> Result<(), Failed>
    ensures cause { Fails D.Disk disk.old disk.new result }
    ensures touches { Touches D.Disk (paths_of last.now) disk.old disk.new }
    // A stop at any moment leaves what one before might have left, or what reads as the same journal.
    ensures crash { (j : Journal) → BeginsAgain j last.now (D.told disk.old)
        → StopsLeave D.Disk (IsOldOrSame j (D.told disk.old)) disk.old disk.new }
    ensures done { OnOk result ((j : Journal) → BeginsAgain j last.now (D.told disk.old)
        → RestsAs j (D.told disk.new)) }
{
    sync(disk)?;
    write_all(disk, last)
}
