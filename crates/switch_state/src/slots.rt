// The slot that tells the state of a switch.
ghost use Rattle.std.specs.Prelude.{◌≡◌, ◌≤◌, ◌+◌, IfOk, OnOk, length, map, true};
ghost use Rattle.std.specs.declared.option.Option.TheVariants.{None};
ghost use Rattle.switch_journal.specs.Applying.{text_total};
ghost use Rattle.switch_journal.specs.Reading.{is_small};
ghost use Rattle.switch_journal.specs.declared.request.TheConstants.{TEXT_LIMIT};
ghost use Rattle.switch_state.specs.State.{contents_in, member_entry};
ghost use Rattle.switch_state.specs.Telling.{IsSlotOf, with_entries, with_roots};
ghost use Rattle.switch_state.specs.WellFormed.{IsWellFormed};

use crate::switch::Switch;
use journal_text::Entry;
use opam_names::{Items, Name, OutOfMemory};
use opam_package::Member;
use std::alloc::Global;
use switch_journal::{ReadySlot, Slot};

impl Switch {
    // The slot that tells the state while no request is open, ready to be written.
    pub(crate) fn ready_slot(&self) -> Result<ReadySlot, OutOfMemory>
        requires free { self.now.state.request ≡ None }
        requires formed { IsWellFormed self.now.state }
        requires small { is_small (contents_in self.now.state) ≡ true }
        ensures { IfOk result (IsSlotOf self.now) }
    {
        let members = self.members.as_slice();
        let mut slot = Slot::begin(self.alloc, &self.journal, members.len() as u32)?;
        give_entries(&mut slot, members)?;
        give_roots(&mut slot, self.roots.as_slice())?;
        slot.finish(&self.owners)
    }
}

// Gives the members to a slot.
fn give_entries(slot: &mut Slot, members: &[Member]) -> Result<(), OutOfMemory>
    requires more { length slot.old.entries + length members.now ≤ slot.old.asked }
    requires short { text_total (map member_entry members.now) ≤ TEXT_LIMIT }
    ensures { OnOk result (slot.new ≡ with_entries (map member_entry members.now) slot.old) }
{
    for member in members {
        slot.entry(&member.package.pkg, member.opam.as_slice())?;
    }
    Ok(())
}

// Gives the roots to a slot.
fn give_roots(slot: &mut Slot, roots: &[Name]) -> Result<(), OutOfMemory>
    ensures { OnOk result (slot.new ≡ with_roots roots.now slot.old) }
{
    for root in roots {
        slot.root(root)?;
    }
    Ok(())
}

// The entries of members.
pub(crate) fn entries_of(alloc: Global, members: &[Member]) -> Result<Items<Entry>, OutOfMemory>
    ensures { IfOk result (λ entries. entries ≡ map member_entry members.now) }
{
    let mut entries = Items::new(alloc);
    for member in members {
        entries.push(entry_of(alloc, member)?)?;
    }
    Ok(entries)
}

fn entry_of(alloc: Global, member: &Member) -> Result<Entry, OutOfMemory>
    ensures { IfOk result (λ entry. entry ≡ member_entry member.now) }
{
    Ok(Entry {
        pkg: member.package.pkg.copy(alloc)?,
        opam: Items::from_slice(alloc, member.opam.as_slice())?,
    })
}
