// A slot that is spelled piece by piece, so that what it says does not stand in memory twice.
ghost use Rattle.std.specs.Prelude.{◌≡◌, ◌<◌, ◌^◌, ◌++◌, ◌-◌, ℕ, List, length, IfOk, OnErr, OnOk};
ghost use Rattle.std.specs.List.{All, flat_map};
ghost use Rattle.opam_names.specs.Names.{IsName};
ghost use Rattle.journal_text.specs.Parts.{IsPackage, pkg_bytes};
ghost use Rattle.journal_text.specs.Words.{counted, long_text, short_text};
ghost use Rattle.journal_text.specs.Slots.{owned_bytes};
ghost use Rattle.switch_journal.specs.SlotPieces.{CanFinish, IsSlotGiven, begun, with_entry, with_root};
ghost use Rattle.switch_journal.specs.Pieced.{slot_front};

use crate::journal::Journal;
use crate::slot_owners::{Given, push_paths};
use crate::slots::ReadySlot;
use journal_text::{push_slot_count, push_slot_entry, push_slot_front, push_slot_root};
use opam_names::{Buffer, Items, Name, OutOfMemory, Pkg};
use owner_map::Owners;
use std::alloc::Global;
use std::marker::Model;

/// A slot that is being made for a journal, piece by piece: its entries, in the order of installation; its roots, in byte order; and
/// at the end its paths. Entries are spelled as they come.
#[derive(Drop)]
pub struct Slot {
    journal: Journal,
    asked: u32,
    text: Vec<u8>,
    given: Buffer<Given>,
    roots: Items<Name>,
    alloc: Global,
}

impl Model for Slot {
    ghost use Rattle.switch_journal.specs.Pieced.{IsPieced, entries_in};
    ghost use Rattle.switch_journal.specs.SlotPieces.{Pieces};

    ghost Value = { Pieces };

    ghost view = { λ s. record {
      head = s.journal;
      asked = s.asked;
      entries = entries_in s.text.items s.given.items;
      roots = s.roots;
    } };

    ghost invariant = { λ s. IsPieced s.journal s.asked s.text.items s.given.items };
}

impl Slot {
    /// Begins a slot with the number of the last record, for the place in the journal that is free. So many entries will be given.
    pub fn begin(alloc: Global, journal: &Journal, entries: u32) -> Result<Slot, OutOfMemory>
        ensures { IfOk result (λ slot. slot ≡ begun journal.now entries) }
    {
        let mut text = Vec::new(alloc);
        push_slot_front(&mut text, journal.last_number(), entries)?;
        Ok(Slot {
            journal: journal.same(),
            asked: entries,
            text,
            given: Buffer::new(alloc),
            roots: Items::new(alloc),
            alloc,
        })
    }

    /// Gives the next entry. Where memory is wanting the slot is as it was.
    pub fn entry(&mut self, pkg: &Pkg, opam: &[u8]) -> Result<(), OutOfMemory>
        requires more { length self.old.entries < self.old.asked }
        requires short { length opam.now < 2 ^ 32 }
        ensures ok { OnOk result (self.new ≡ with_entry pkg.now opam.now self.old) }
        ensures err { OnErr result (self.new ≡ self.old) }
    {
        let pkg_copy = pkg.copy(self.alloc)?;
        let piece = spelled_entry(self.alloc, pkg, opam)?;
        self.given.reserve(1)?;
        let from = self.text.len() + (piece.len() - opam.len());
        self.text.extend_from_slice(piece.as_slice())?;
        self.given.push(Given {
            pkg: pkg_copy,
            from,
            len: opam.len(),
        });
        Ok(())
    }

    /// Gives the next root. Where memory is wanting the slot is as it was.
    pub fn root(&mut self, name: &Name) -> Result<(), OutOfMemory>
        ensures ok { OnOk result (self.new ≡ with_root name.now self.old) }
        ensures err { OnErr result (self.new ≡ self.old) }
    {
        let root = name.copy(self.alloc)?;
        self.roots.push(root)
    }

    /// Ends the slot with the paths and their owners: it is ready to be written for the journal for which it was begun.
    pub fn finish(self, owners: &Owners) -> Result<ReadySlot, OutOfMemory>
        requires { CanFinish self owners.now.owned }
        ensures { IfOk result (IsSlotGiven self owners.now.owned) }
    {
        owners.stand_apart();
        let Slot {
            journal,
            text,
            given,
            roots,
            alloc,
            ..
        } = self;
        let mut out = text;
        push_roots(&mut out, roots.as_slice())?;
        push_slot_count(&mut out, owners.len() as u32)?;
        push_paths(alloc, &mut out, owners, given.as_slice())?;
        journal.slot_with(alloc, Items::from_vec(out))
    }
}

// An entry as it is spelled.
fn spelled_entry(alloc: Global, pkg: &Pkg, opam: &[u8]) -> Result<Vec<u8>, OutOfMemory>
    requires { length opam.now < 2 ^ 32 }
    ensures spelled { IfOk result (λ piece. piece.items ≡ pkg_bytes pkg.now ++ long_text opam.now) }
    ensures valid { IfOk result (λ piece. IsPackage pkg.now) }
{
    let mut piece = Vec::new(alloc);
    push_slot_entry(&mut piece, pkg, opam)?;
    Ok(piece)
}

// The roots as a counted list.
fn push_roots(out: &mut Vec<u8>, roots: &[Name]) -> Result<(), OutOfMemory>
    requires { length roots.now < 2 ^ 32 }
    ensures spelled { OnOk result (out.new.items ≡ out.old.items ++ counted short_text roots.now) }
    ensures valid { OnOk result (All IsName roots.now) }
{
    push_slot_count(out, roots.len() as u32)?;
    push_names(out, roots)
}

fn push_names(out: &mut Vec<u8>, names: &[Name]) -> Result<(), OutOfMemory>
    ensures spelled { OnOk result (out.new.items ≡ out.old.items ++ flat_map short_text names.now) }
    ensures valid { OnOk result (All IsName names.now) }
{
    for name in names {
        push_slot_root(out, name)?;
    }
    Ok(())
}
