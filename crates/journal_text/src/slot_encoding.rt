// The bytes of slots.
ghost use Rattle.std.specs.Prelude.{◌≡◌, ◌<◌, ◌≤◌, ◌^◌, ◌++◌, IfOk, OnOk, length};
ghost use Rattle.journal_text.specs.Slots.{AreListsValid, IsSlotInOrder, IsSlotSpelledBy, IsSlotValid, lists_bytes, slot_body, slot_bytes};

use crate::field::push_list;
use crate::record::Entry;
use crate::slot::{Owned, SLOT_LIMIT, Snapshot};
use crate::writer::push_number;
use opam_names::{Items, Name, OutOfMemory};
use std::alloc::Global;

/// The bytes of a slot. Its parts stand in order, and it is not too long.
pub fn encode_slot(alloc: Global, slot: &Snapshot) -> Result<Items<u8>, OutOfMemory>
    requires ordered { IsSlotInOrder slot.now }
    requires short { length (slot_bytes slot.now) ≤ SLOT_LIMIT }
    ensures { IfOk result (λ bytes. IsSlotSpelledBy slot.now bytes) }
{
    let mut out = Vec::new(alloc);
    out.extend_from_slice(b"OPAMSNP2")?;
    push_slot(&mut out, slot)?;
    Ok(Items::from_vec(out))
}

fn push_slot(out: &mut Vec<u8>, slot: &Snapshot) -> Result<(), OutOfMemory>
    requires { length (slot_body slot.now) < 2 ^ 32 }
    ensures spelled { OnOk result (out.new.items ≡ out.old.items ++ slot_body slot.now) }
    ensures valid { OnOk result (IsSlotValid slot.now) }
{
    push_number(out, slot.number)?;
    push_lists(
        out,
        slot.entries.as_slice(),
        slot.roots.as_slice(),
        slot.owned.as_slice(),
    )
}

fn push_lists(
    out: &mut Vec<u8>,
    entries: &[Entry],
    roots: &[Name],
    owned: &[Owned],
) -> Result<(), OutOfMemory>
    requires { length (lists_bytes entries.now roots.now owned.now) < 2 ^ 32 }
    ensures spelled { OnOk result
        (out.new.items ≡ out.old.items ++ lists_bytes entries.now roots.now owned.now) }
    ensures valid { OnOk result (AreListsValid entries.now roots.now owned.now) }
{
    push_list(out, entries)?;
    push_list(out, roots)?;
    push_list(out, owned)
}
