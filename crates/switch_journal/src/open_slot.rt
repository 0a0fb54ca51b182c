// The slots of a journal: which are open, and which counts.
#![tactic(auto, using(crash_disk::proofs::Effects::read_steps))]

ghost use Rattle.std.specs.Prelude.{◌≡◌, IfOk};
ghost use Rattle.crash_disk.specs.Disks.{State};
ghost use Rattle.crash_disk.specs.Effects.{FailsReading, OnlyReads};
ghost use Rattle.switch_journal.specs.Found.{IsFit, IsSlotRead, IsSlotText, counting_of, few_in, found_of, limited};
ghost use Rattle.switch_journal.specs.Reading.{second_counts};

use crate::conditions::are_few;
use crate::gated::{Gated, read_slot};
use crate::request::OWNED_LIMIT;
use crate::steps::NUMBER_LIMIT;
use crash_disk::{Disk, DiskFault};
use journal_text::{SLOT_LIMIT, Snapshot, decode_old_slot, decode_slot, one_slot_for_bytes};
use opam_names::{Items, OutOfMemory};
use std::alloc::Global;

/// A slot behind an open gate: of which format, in which place, and what it says.
#[derive(Drop)]
pub(crate) struct OpenSlot {
    pub(crate) old: bool,
    pub(crate) place: bool,
    pub(crate) slot: Snapshot,
}

/// What stands in the place of a slot: a bad one, or a good one, or none.
#[derive(Drop)]
pub(crate) enum SlotRead {
    Bad,
    Good(Option<OpenSlot>),
}

// Whether what the slot says is within the limits of a switch.
fn is_few(slot: &Snapshot) -> bool
    ensures { result ≡ few_in slot.now }
{
    are_few(slot.entries.as_slice()) && slot.owned.len() <= OWNED_LIMIT
}

// A slot whose number and size are within the limits, or a bad one.
fn within(old: bool, place: bool, slot: Snapshot) -> SlotRead
    ensures { result ≡ limited old place slot }
{
    if slot.number < NUMBER_LIMIT && is_few(&slot) {
        SlotRead::Good(Some(OpenSlot { old, place, slot }))
    } else {
        SlotRead::Bad
    }
}

// The slot that the bytes spell, in the format that is written or in the old one.
fn slot_in(alloc: Global, place: bool, bytes: Items<u8>) -> Result<SlotRead, OutOfMemory>
    ensures { IfOk result (IsSlotText bytes place) }
{
    one_slot_for_bytes();
    match decode_slot(alloc, bytes.as_slice())? {
        Some(slot) => Ok(within(false, place, slot)),
        None => match decode_old_slot(alloc, bytes.as_slice())? {
            Some(slot) => Ok(within(true, place, slot)),
            None => Ok(SlotRead::Bad),
        },
    }
}

/// The slot in this place. A bad one stands behind an open gate, and is absent, too long, no spelling, too large, or has a number
/// that is.
pub(crate) fn find_slot<D: Disk>(
    disk: &mut D,
    alloc: Global,
    place: bool,
) -> Result<SlotRead, DiskFault>
    ensures cause { FailsReading D.Disk disk.old disk.new result }
    ensures reads { OnlyReads D.Disk disk.old disk.new }
    ensures told { (s : State) → D.told disk.old ≡ Some s
        → IfOk result (IsSlotRead s.files place) }
    ensures fit { IfOk result IsFit }
{
    match read_slot(disk, alloc, place, SLOT_LIMIT as u64)? {
        Gated::Shut => Ok(SlotRead::Good(None)),
        Gated::Absent => Ok(SlotRead::Bad),
        Gated::TooLong => Ok(SlotRead::Bad),
        Gated::Text(bytes) => Ok(slot_in(alloc, place, bytes)?),
    }
}

// The second counts only where its number is greater, or the same and it alone is of the format that is written.
fn second_counts(first: &OpenSlot, second: &OpenSlot) -> bool
    ensures { result ≡ second_counts (found_of first.now) (found_of second.now) }
{
    let same = first.slot.number == second.slot.number;
    first.slot.number < second.slot.number || (same && first.old && !second.old)
}

/// The slot that counts.
pub(crate) fn counting(zero: Option<OpenSlot>, one: Option<OpenSlot>) -> Option<OpenSlot>
    ensures { result ≡ counting_of zero one }
{
    match zero {
        None => one,
        Some(first) => match one {
            None => Some(first),
            Some(second) => {
                if second_counts(&first, &second) {
                    Some(second)
                } else {
                    Some(first)
                }
            }
        },
    }
}
