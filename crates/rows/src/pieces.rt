// A slot is given to a journal piece by piece.
ghost use Rattle.std.specs.Prelude.{◌≡◌, ◌≤◌, ◌+◌, IfOk, OnOk, length, nat_le, true};
ghost use Rattle.std.specs.List.{filter_map, list_all};
ghost use Rattle.journal_text.specs.Parts.{AreFree};
ghost use Rattle.journal_text.specs.Slots.{IsSlotSpelledBy, has_owner, owned_paths};
ghost use Rattle.switch_journal.specs.Applying.{text_total};
ghost use Rattle.switch_journal.specs.Reading.{owned_with};
ghost use Rattle.switch_journal.specs.declared.request.TheConstants.{TEXT_LIMIT};
ghost use Rattle.rows.specs.Pieces.{with_entries, with_roots};

use journal_text::{Entry, Owned, Snapshot};
use opam_names::{Name, OutOfMemory};
use owner_map::Owners;
use row_script::fault::Fault;
use std::alloc::Global;
use switch_journal::{ENTRY_LIMIT, Journal, OWNED_LIMIT, ReadySlot, Slot, TEXT_LIMIT};

// The slot, ready to be written for the journal.
pub fn slot_in_pieces(
    alloc: Global,
    journal: &Journal,
    slot: &Snapshot,
    bytes: &[u8],
) -> Result<ReadySlot, Fault>
    requires { IsSlotSpelledBy slot.now bytes.now }
{
    let _spelled = bytes;
    let entries = slot.entries.as_slice();
    let owned = slot.owned.as_slice();
    if entries.len() > ENTRY_LIMIT {
        return Err(Fault::Line("the slot has too many entries"));
    }
    if !are_texts_short(entries) {
        return Err(Fault::Line("the texts of the slot are too long"));
    }
    if owned.len() > OWNED_LIMIT {
        return Err(Fault::Line("the slot has too many paths"));
    }
    let owners = owners_of(alloc, entries, owned)?;
    let mut pieces = Slot::begin(alloc, journal, entries.len() as u32)?;
    give_entries(&mut pieces, entries)?;
    give_roots(&mut pieces, slot.roots.as_slice())?;
    Ok(pieces.finish(&owners)?)
}

// Whether the opam texts have together no more bytes than a switch may have.
fn are_texts_short(entries: &[Entry]) -> bool
    ensures { result ≡ nat_le (text_total entries.now) TEXT_LIMIT }
{
    let mut room = TEXT_LIMIT;
    for entry in entries {
        if entry.opam.len() > room {
            return false;
        }
        room -= entry.opam.len();
    }
    true
}

fn owners_of(alloc: Global, entries: &[Entry], owned: &[Owned]) -> Result<Owners, OutOfMemory>
    requires free { AreFree (owned_paths owned.now) }
    requires among { list_all (has_owner (length entries.now)) owned.now ≡ true }
    ensures { IfOk result (λ owners. owners.owned ≡ filter_map (owned_with entries.now) owned.now) }
{
    let mut owners = Owners::empty(alloc);
    owners.reserve(owned.len())?;
    for one in owned {
        let owner = entries[one.owner as usize].pkg.copy(alloc)?;
        owners.add(one.path.copy(alloc)?, owner);
    }
    Ok(owners)
}

fn give_entries(slot: &mut Slot, entries: &[Entry]) -> Result<(), OutOfMemory>
    requires more { length slot.old.entries + length entries.now ≤ slot.old.asked }
    requires short { text_total entries.now ≤ TEXT_LIMIT }
    ensures { OnOk result (slot.new ≡ with_entries entries.now slot.old) }
{
    for entry in entries {
        slot.entry(&entry.pkg, entry.opam.as_slice())?;
    }
    Ok(())
}

fn give_roots(slot: &mut Slot, roots: &[Name]) -> Result<(), OutOfMemory>
    ensures { OnOk result (slot.new ≡ with_roots roots.now slot.old) }
{
    for root in roots {
        slot.root(root)?;
    }
    Ok(())
}
