// Slots read from their bytes.
ghost use Rattle.std.specs.Prelude.{◌≡◌, IfNone, IfOk, IfSome};
ghost use Rattle.journal_text.specs.Reading.{Gives};
ghost use Rattle.journal_text.specs.SlotReading.{back_at, front_at, old_slot_at, old_slot_body_at, slot_at, slot_body_at};
ghost use Rattle.journal_text.specs.Slots.{IsOldSlotSpelledBy, IsSlotInOrder, IsSlotSpelledBy, SpellNoOldSlot, SpellNoSlot};

use crate::field::list_of;
use crate::reader::{behind, ended, number_of};
use crate::record::Entry;
use crate::slot::{Owned, SLOT_LIMIT, Snapshot};
use crate::slot_order::is_slot_in_order;
use crate::stop::Stop;
use opam_names::{Items, Name, OutOfMemory};
use std::alloc::Global;

/// The slot that the bytes spell; None exactly where they spell none.
pub fn decode_slot(alloc: Global, bytes: &[u8]) -> Result<Option<Snapshot>, OutOfMemory>
    ensures some { IfOk result (λ found. IfSome found (λ slot. IsSlotSpelledBy slot bytes.now)) }
    ensures none { IfOk result (λ found. IfNone found (SpellNoSlot bytes.now)) }
{
    if bytes.len() > SLOT_LIMIT {
        return Ok(None);
    }
    match slot_of(alloc, bytes) {
        Ok(slot) => in_order(alloc, slot),
        Err(Stop::Bad) => Ok(None),
        Err(Stop::Memory) => Err(OutOfMemory),
    }
}

/// The slot that the bytes spell in the old format, which has no roots; None exactly where they
/// spell none.
pub fn decode_old_slot(alloc: Global, bytes: &[u8]) -> Result<Option<Snapshot>, OutOfMemory>
    ensures some { IfOk result (λ found. IfSome found (λ slot. IsOldSlotSpelledBy slot bytes.now)) }
    ensures none { IfOk result (λ found. IfNone found (SpellNoOldSlot bytes.now)) }
{
    if bytes.len() > SLOT_LIMIT {
        return Ok(None);
    }
    match old_slot_of(alloc, bytes) {
        Ok(slot) => in_order(alloc, slot),
        Err(Stop::Bad) => Ok(None),
        Err(Stop::Memory) => Err(OutOfMemory),
    }
}

// The slot, where its parts stand in order.
fn in_order(alloc: Global, slot: Snapshot) -> Result<Option<Snapshot>, OutOfMemory>
    ensures some { IfOk result (λ found. IfSome found (λ s. (s ≡ slot) × IsSlotInOrder slot)) }
    ensures none { IfOk result (λ found. IfNone found (¬ (IsSlotInOrder slot))) }
{
    let ordered = is_slot_in_order(alloc, &slot)?;
    if ordered { Ok(Some(slot)) } else { Ok(None) }
}

#[tactic(auto, unfolding(crate::specs::Reading::whole_at))]
fn slot_of(alloc: Global, text: &[u8]) -> Result<Snapshot, Stop>
    ensures { Gives (λ x. x) result (slot_at text.now) }
{
    let rest = behind(text, b"OPAMSNP2")?;
    let (slot, rest) = slot_body_of(alloc, rest)?;
    ended(slot, rest)
}

#[tactic(auto, unfolding(crate::specs::Reading::whole_at))]
fn old_slot_of(alloc: Global, text: &[u8]) -> Result<Snapshot, Stop>
    ensures { Gives (λ x. x) result (old_slot_at text.now) }
{
    let rest = behind(text, b"OPAMSNP1")?;
    let (slot, rest) = old_slot_body_of(alloc, rest)?;
    ended(slot, rest)
}

#[tactic(auto, unfolding(crate::specs::Reading::both_at))]
fn slot_body_of(alloc: Global, text: &[u8]) -> Result<(Snapshot, &[u8]), Stop>
    ensures { Gives (λ x. (x.0, x.1.now)) result (slot_body_at text.now) }
{
    let ((number, entries), rest) = front_of(alloc, text)?;
    let ((roots, owned), rest) = back_of(alloc, rest)?;
    Ok((
        Snapshot {
            number,
            entries,
            roots,
            owned,
        },
        rest,
    ))
}

#[tactic(auto, unfolding(crate::specs::Reading::both_at))]
fn old_slot_body_of(alloc: Global, text: &[u8]) -> Result<(Snapshot, &[u8]), Stop>
    ensures { Gives (λ x. (x.0, x.1.now)) result (old_slot_body_at text.now) }
{
    let ((number, entries), rest) = front_of(alloc, text)?;
    let (owned, rest) = list_of(alloc, rest)?;
    Ok((
        Snapshot {
            number,
            entries,
            roots: Items::new(alloc),
            owned,
        },
        rest,
    ))
}

// The number of the last record, and the entries.
#[tactic(auto, unfolding(crate::specs::Reading::both_at))]
fn front_of(alloc: Global, text: &[u8]) -> Result<((u64, Items<Entry>), &[u8]), Stop>
    ensures { Gives (λ x. (x.0, x.1.now)) result (front_at text.now) }
{
    let (number, rest) = number_of(text)?;
    let (entries, rest) = list_of(alloc, rest)?;
    Ok(((number, entries), rest))
}

// The roots, and the owned paths.
#[tactic(auto, unfolding(crate::specs::Reading::both_at))]
fn back_of(alloc: Global, text: &[u8]) -> Result<((Items<Name>, Items<Owned>), &[u8]), Stop>
    ensures { Gives (λ x. (x.0, x.1.now)) result (back_at text.now) }
{
    let (roots, rest) = list_of(alloc, text)?;
    let (owned, rest) = list_of(alloc, rest)?;
    Ok(((roots, owned), rest))
}
