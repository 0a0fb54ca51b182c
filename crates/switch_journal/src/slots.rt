// The writing of a slot.
ghost use Rattle.std.specs.Prelude.{◌≡◌, ◌+◌, ◌≤◌, ◌-◌, ◌^◌, ℕ, List, Bool, IfOk, OnOk};
ghost use Rattle.crash_disk.specs.Effects.{Fails, Touches};
ghost use Rattle.crash_disk.specs.Stops.{StopsLeave};
ghost use Rattle.switch_journal.specs.Slots.{IsSlotStage, SlotBegins, old_writes, paths_of_slot, ready_slot, shut_writes, slot_gate_writes, slot_writes, slot_written};
ghost use Rattle.switch_journal.specs.Texts.{Journal, RestsAs};

use crate::places::{gate_path_of, record_path_of, slot_gate_of, slot_path_of};
use crash_disk::{Disk, Write, write_all};
use opam_names::{Items, OutOfMemory};
use outside_io::Failed;
use std::alloc::Global;

/// A slot that is ready to be written. Each part is durable before the next begins.
#[derive(Drop)]
pub struct ReadySlot {
    /// The slot's gate is shut.
    pub shut: Items<Write>,
    /// The slot stands.
    pub slot: Items<Write>,
    /// Its gate stands.
    pub gate: Items<Write>,
    /// The gates and records that are needless then are gone.
    pub old: Items<Write>,
}

/// Makes a slot ready with this text, which makes `count` records from number `first` on needless. `is_open` says whether the
/// slot's gate is open now.
pub fn make_slot(
    alloc: Global,
    slot: bool,
    is_open: bool,
    text: Items<u8>,
    first: u64,
    count: u64,
) -> Result<ReadySlot, OutOfMemory>
    requires { first + count ≤ 2 ^ 63 }
    ensures { IfOk result (λ ready. ready ≡ ready_slot slot is_open text first count) }
{
    let shut = make_shut(alloc, slot, is_open)?;
    let text = make_text(alloc, slot, text)?;
    let gate = make_slot_gate(alloc, slot)?;
    let old = make_old(alloc, first, count)?;
    Ok(ReadySlot {
        shut,
        slot: text,
        gate,
        old,
    })
}

fn make_shut(alloc: Global, slot: bool, is_open: bool) -> Result<Items<Write>, OutOfMemory>
    ensures { IfOk result (λ writes. writes ≡ shut_writes slot is_open) }
{
    let mut writes = Items::new(alloc);
    if is_open {
        let path = slot_gate_of(alloc, slot)?;
        writes.push(Write::Remove { path })?;
    }
    Ok(writes)
}

fn make_text(alloc: Global, slot: bool, bytes: Items<u8>) -> Result<Items<Write>, OutOfMemory>
    ensures { IfOk result (λ writes. writes ≡ slot_writes slot bytes) }
{
    let path = slot_path_of(alloc, slot)?;
    let mut writes = Items::new(alloc);
    writes.push(Write::Put {
        path,
        bytes,
        exec: false,
    })?;
    Ok(writes)
}

fn make_slot_gate(alloc: Global, slot: bool) -> Result<Items<Write>, OutOfMemory>
    ensures { IfOk result (λ writes. writes ≡ slot_gate_writes slot) }
{
    let path = slot_gate_of(alloc, slot)?;
    let bytes = Items::from_slice(alloc, b"ok\n")?;
    let mut writes = Items::new(alloc);
    writes.push(Write::Put {
        path,
        bytes,
        exec: false,
    })?;
    Ok(writes)
}

fn make_old(alloc: Global, first: u64, count: u64) -> Result<Items<Write>, OutOfMemory>
    requires { first + count ≤ 2 ^ 63 }
    ensures { IfOk result (λ writes. writes ≡ old_writes first count) }
{
    let mut writes = Items::new(alloc);
    for at in 0..count {
        let gate = gate_path_of(alloc, first + at)?;
        let path = record_path_of(alloc, first + at)?;
        writes.push(Write::Remove { path: gate })?;
        writes.push(Write::Remove { path })?;
    }
    Ok(writes)
}

/// Writes a slot. It gives up at the first failure; then the journal has to be opened again.
pub fn write_slot<D: Disk>(disk: &mut D, ready: &ReadySlot) -> Result<(), Failed>
    ensures cause { Fails D.Disk disk.old disk.new result }
    ensures touches { Touches D.Disk (paths_of_slot ready.now) disk.old disk.new }
    // A stop at any moment leaves the journal from before, with the slot shut, or with the slot written.
    ensures crash { (j : Journal) (slot : Bool) (text : List ℕ)
        → SlotBegins j slot text ready.now (D.told disk.old)
        → StopsLeave D.Disk (IsSlotStage j slot text) disk.old disk.new }
    ensures done { OnOk result ((j : Journal) (slot : Bool) (text : List ℕ)
        → SlotBegins j slot text ready.now (D.told disk.old)
        → RestsAs (slot_written j slot text) (D.told disk.new)) }
{
    write_all(disk, ready.shut.as_slice())?;
    write_all(disk, ready.slot.as_slice())?;
    write_all(disk, ready.gate.as_slice())?;
    write_all(disk, ready.old.as_slice())
}
