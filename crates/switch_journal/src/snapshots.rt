// The writing of a slot, in the words of what the journal says.
ghost use Rattle.std.specs.Prelude.{◌≡◌, ◌≤◌, ◌-◌, ◌^◌, IfOk, OnOk};
ghost use Rattle.std.specs.declared.option.Option.TheVariants.{Some};
ghost use Rattle.crash_disk.specs.Disks.{Tree};
ghost use Rattle.crash_disk.specs.Effects.{Fails, Touches, at_rest};
ghost use Rattle.crash_disk.specs.Stops.{IsSameBut, StopsLeave};
ghost use Rattle.journal_text.specs.declared.slot.Snapshot.{Snapshot};
ghost use Rattle.switch_journal.specs.Contents.{Contents};
ghost use Rattle.switch_journal.specs.Journal.{StandsFor};
ghost use Rattle.switch_journal.specs.Slots.{paths_of_slot};
ghost use Rattle.switch_journal.specs.Snapshots.{CanWriteSlot, ComesToSame, contents_by, place_for, slot_for, with_slot};

use crate::journal::Journal;
use crate::slots::{ReadySlot, make_slot, write_slot};
use crash_disk::Disk;
use opam_names::{Items, OutOfMemory};
use outside_io::Failed;
use std::alloc::Global;

impl Journal {
    // The same numbers once more.
    pub(crate) fn same(&self) -> Journal
        ensures is { result ≡ self.now }
        ensures few { self.now.next ≤ 2 ^ 63 }
    {
        Journal {
            counts: self.counts,
            zero_is_open: self.zero_is_open,
            one_is_open: self.one_is_open,
            first: self.first,
            next: self.next,
            old: self.old,
        }
    }

    // The slot that does not count, and slot 0 where neither does.
    fn place_for_slot(&self) -> bool
        ensures { result ≡ place_for self.now }
    {
        match self.counts {
            None => false,
            Some(place) => !place,
        }
    }

    // Makes ready a slot with this text, in the place that is free.
    pub(crate) fn slot_with(&self, alloc: Global, text: Items<u8>) -> Result<ReadySlot, OutOfMemory>
        ensures { IfOk result (λ ready. ready ≡ slot_for self.now text) }
    {
        let place = self.place_for_slot();
        let is_open = if place {
            self.one_is_open
        } else {
            self.zero_is_open
        };
        let count = self.next.saturating_sub(self.first);
        make_slot(alloc, place, is_open, text, self.first, count)
    }

    /// The number that the next record gets.
    pub fn next_number(&self) -> u64
        ensures { result ≡ self.now.next }
    {
        self.next
    }

    /// The number of the last record, which a slot of this journal has.
    pub fn last_number(&self) -> u64
        ensures { result ≡ self.now.next - 1 }
    {
        self.next.saturating_sub(1)
    }

    /// Writes a slot that was made ready for this journal. After a failure the journal has to be opened again.
    pub fn write_slot<D: Disk>(&mut self, disk: &mut D, slot: &ReadySlot) -> Result<(), Failed>
        ensures cause { Fails D.Disk disk.old disk.new result }
        ensures touches { Touches D.Disk (paths_of_slot slot.now) disk.old disk.new }
        ensures numbers { OnOk result (self.exit.now ≡ with_slot self.entry.now) }
        // Other files stay as they were, whenever the machine stops.
        ensures foreign { (tree : Tree) → D.told disk.old ≡ Some (at_rest tree)
            → StopsLeave D.Disk (IsSameBut (paths_of_slot slot.now) tree) disk.old disk.new }
        // Whenever the machine stops, an opening makes the same switch of the disk.
        ensures crash { (c : Contents) (snapshot : Snapshot) (files : Tree)
            → CanWriteSlot self.entry.now c snapshot files slot.now (D.told disk.old)
            → StopsLeave D.Disk (ComesToSame c files) disk.old disk.new }
        ensures done { OnOk result ((c : Contents) (snapshot : Snapshot) (files : Tree)
            → CanWriteSlot self.entry.now c snapshot files slot.now (D.told disk.old)
            → StandsFor self.exit.now (contents_by self.entry.now snapshot) files
            (D.told disk.new)) }
    {
        write_slot(disk, slot)?;
        *self = self.from_new_slot();
        Ok(())
    }

    // The journal that counts from the new slot on.
    fn from_new_slot(&self) -> Journal
        ensures { result ≡ with_slot self.now }
    {
        let place = self.place_for_slot();
        Journal {
            counts: Some(place),
            zero_is_open: self.zero_is_open || !place,
            one_is_open: self.one_is_open || place,
            first: self.next,
            next: self.next,
            old: false,
        }
    }
}
