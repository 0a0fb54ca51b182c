// A file that counts only while its gate is open.
#![tactic(auto, using(crash_disk::proofs::Effects::read_steps))]

ghost use Rattle.std.specs.Prelude.{◌≡◌, IfOk};
ghost use Rattle.std.specs.FinMap.{get};
ghost use Rattle.crash_disk.specs.Disks.{State};
ghost use Rattle.crash_disk.specs.Effects.{FailsReading, OnlyReads};
ghost use Rattle.switch_journal.specs.Gated.{TellsGated};
ghost use Rattle.switch_journal.specs.Places.{gate_path, is_open, opens, record_path, slot_gate, slot_path};
ghost use Rattle.switch_journal.specs.Walks.{IsText};

use crate::places::{gate_path_of, record_path_of, slot_gate_of, slot_path_of};
use crash_disk::calls::read;
use crash_disk::{Disk, DiskFault, DiskRead};
use journal_text::RECORD_LIMIT;
use opam_names::{Items, RelPath};
use std::alloc::Global;

/// What stands behind a gate.
#[derive(Drop)]
pub enum Gated {
    /// The gate is shut.
    Shut,
    /// It is open, and no file is there.
    Absent,
    /// It is open, and the file is longer than the limit.
    TooLong,
    Text(Items<u8>),
}

// Whether the gate at this path is open.
fn is_gate_open<D: Disk>(disk: &mut D, alloc: Global, gate: &RelPath) -> Result<bool, DiskFault>
    ensures cause { FailsReading D.Disk disk.old disk.new result }
    ensures reads { OnlyReads D.Disk disk.old disk.new }
    ensures told { (s : State) → D.told disk.old ≡ Some s
        → IfOk result (λ is. is ≡ opens (get s.files gate.now)) }
{
    match read(disk, alloc, gate, 3)? {
        DiskRead::Absent => Ok(false),
        DiskRead::TooLong => Ok(false),
        DiskRead::File { bytes, .. } => Ok(bytes.as_slice() == b"ok\n".as_slice()),
    }
}

fn read_gated<D: Disk>(
    disk: &mut D,
    alloc: Global,
    gate: &RelPath,
    path: &RelPath,
    limit: u64,
) -> Result<Gated, DiskFault>
    ensures cause { FailsReading D.Disk disk.old disk.new result }
    ensures reads { OnlyReads D.Disk disk.old disk.new }
    ensures told { TellsGated (D.told disk.old) gate.now path.now limit result }
{
    if !is_gate_open(disk, alloc, gate)? {
        return Ok(Gated::Shut);
    }
    match read(disk, alloc, path, limit)? {
        DiskRead::Absent => Ok(Gated::Absent),
        DiskRead::TooLong => Ok(Gated::TooLong),
        DiskRead::File { bytes, .. } => Ok(Gated::Text(bytes)),
    }
}

/// The record with this number, if it has at most `limit` bytes.
pub fn read_record<D: Disk>(
    disk: &mut D,
    alloc: Global,
    number: u64,
    limit: u64,
) -> Result<Gated, DiskFault>
    ensures cause { FailsReading D.Disk disk.old disk.new result }
    ensures reads { OnlyReads D.Disk disk.old disk.new }
    ensures told { TellsGated (D.told disk.old) (gate_path number) (record_path number)
        limit result }
{
    let gate = gate_path_of(alloc, number)?;
    let path = record_path_of(alloc, number)?;
    read_gated(disk, alloc, &gate, &path, limit)
}

/// A slot, if it has at most `limit` bytes: `false` names slot 0, `true` slot 1.
pub fn read_slot<D: Disk>(
    disk: &mut D,
    alloc: Global,
    slot: bool,
    limit: u64,
) -> Result<Gated, DiskFault>
    ensures cause { FailsReading D.Disk disk.old disk.new result }
    ensures reads { OnlyReads D.Disk disk.old disk.new }
    ensures told { TellsGated (D.told disk.old) (slot_gate slot) (slot_path slot) limit result }
{
    let gate = slot_gate_of(alloc, slot)?;
    let path = slot_path_of(alloc, slot)?;
    read_gated(disk, alloc, &gate, &path, limit)
}

/// Whether the gate of the record with this number is open.
pub(crate) fn is_record_open<D: Disk>(
    disk: &mut D,
    alloc: Global,
    number: u64,
) -> Result<bool, DiskFault>
    ensures cause { FailsReading D.Disk disk.old disk.new result }
    ensures reads { OnlyReads D.Disk disk.old disk.new }
    ensures told { (s : State) → D.told disk.old ≡ Some s
        → IfOk result (λ is. is ≡ is_open number s.files) }
{
    let gate = gate_path_of(alloc, number)?;
    is_gate_open(disk, alloc, &gate)
}

/// The bytes of the record with this number; None where it is absent or too long. Its gate is not looked at.
pub(crate) fn read_record_text<D: Disk>(
    disk: &mut D,
    alloc: Global,
    number: u64,
) -> Result<Option<Items<u8>>, DiskFault>
    ensures cause { FailsReading D.Disk disk.old disk.new result }
    ensures reads { OnlyReads D.Disk disk.old disk.new }
    ensures told { (s : State) → D.told disk.old ≡ Some s
        → IfOk result (IsText (get s.files (record_path number))) }
{
    let path = record_path_of(alloc, number)?;
    match read(disk, alloc, &path, RECORD_LIMIT as u64)? {
        DiskRead::Absent => Ok(None),
        DiskRead::TooLong => Ok(None),
        DiskRead::File { bytes, .. } => Ok(Some(bytes)),
    }
}
