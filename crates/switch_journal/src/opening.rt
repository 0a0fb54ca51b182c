// The opening of a journal: all that was written is made durable, the files are read, and the last record's work is done again.
#![tactic(auto, using(crash_disk::proofs::Effects::read_steps))]

ghost use Rattle.std.specs.Prelude.{◌≡◌, ◌≤◌, ◌^◌, false, true, IfOk, IfSome};
ghost use Rattle.std.specs.Option.{option_map};
ghost use Rattle.std.specs.declared.option.Option.TheVariants.{Some};
ghost use Rattle.crash_disk.specs.Disks.{State, Tree};
ghost use Rattle.crash_disk.specs.Effects.{FailsReading, OnlyReads, Touches, at_rest};
ghost use Rattle.crash_disk.specs.Stops.{StopsLeave};
ghost use Rattle.crash_disk.specs.Writes.{paths_of};
ghost use Rattle.switch_journal.specs.Formed.{IsFormed, IsOpenedFormed, IsWalkFormed};
ghost use Rattle.switch_journal.specs.Found.{IsFitSlot, found_of};
ghost use Rattle.switch_journal.specs.Journal.{IsReadAt};
ghost use Rattle.switch_journal.specs.Opening.{FailsOpening, IsNamed, IsOpened, IsWhileOpening, Opening, OpensAs, TouchesLast, begun_with, opened_of, with_records};
ghost use Rattle.switch_journal.specs.Reading.{SlotIs};
ghost use Rattle.switch_journal.specs.Walks.{IsSmallWalk};

use crate::fault::OpenFault;
use crate::journal::Journal;
use crate::kept::Kept;
use crate::open_slot::{OpenSlot, SlotRead, counting, find_slot};
use crate::places::{record_path_of, slot_path_of};
use crate::walk::{Walk, Walked, walk_after};
use crash_disk::calls::sync;
use crash_disk::{Disk, DiskFault, Write, write_all};
use opam_names::{Items, OutOfMemory, RelPath};
use outside_io::Failed;
use std::alloc::Global;

/// What files are as a journal: the first bad one, or the journal, what it says, and the work of its last record.
#[derive(Drop)]
pub(crate) enum Opened {
    Bad {
        path: RelPath,
    },
    Whole {
        journal: Journal,
        kept: Kept,
        work: Items<Write>,
    },
}

// The journal before its records are counted.
fn begun(found: &Option<OpenSlot>, zero_is_open: bool, one_is_open: bool) -> Journal
    requires { IfSome found.now IsFitSlot }
    ensures { result ≡ begun_with (option_map found_of found.now) zero_is_open one_is_open }
{
    match found {
        None => Journal {
            counts: None,
            zero_is_open,
            one_is_open,
            first: 1,
            next: 1,
            old: false,
        },
        Some(found) => Journal {
            counts: Some(found.place),
            zero_is_open,
            one_is_open,
            first: found.slot.number + 1,
            next: found.slot.number + 1,
            old: false,
        },
    }
}

// The journal with its records counted.
fn as_opened(alloc: Global, journal: Journal, walked: Walked) -> Result<Opened, OutOfMemory>
    requires small { IsSmallWalk walked }
    requires formed { IsWalkFormed walked }
    ensures is { IfOk result (λ o. o ≡ opened_of journal walked) }
    ensures formed { IfOk result IsOpenedFormed }
{
    match walked {
        Walked::Bad { number } => Ok(Opened::Bad {
            path: record_path_of(alloc, number)?,
        }),
        Walked::Whole { old, next, walk } => {
            let Walk { kept, work } = walk;
            let kept = kept.said_by(alloc, old)?;
            Ok(Opened::Whole {
                journal: journal.with_records(old, next),
                kept,
                work,
            })
        }
    }
}

impl Journal {
    fn with_records(self, old: bool, next: u64) -> Journal
        requires { next ≤ 2 ^ 63 }
        ensures { result ≡ with_records old next self }
    {
        Journal {
            counts: self.counts,
            zero_is_open: self.zero_is_open,
            one_is_open: self.one_is_open,
            first: self.first,
            next,
            old,
        }
    }
}

fn read_records<D: Disk>(
    disk: &mut D,
    alloc: Global,
    zero: Option<OpenSlot>,
    one: Option<OpenSlot>,
) -> Result<Opened, DiskFault>
    requires zero { IfSome zero IsFitSlot }
    requires one { IfSome one IsFitSlot }
    ensures cause { FailsReading D.Disk disk.old disk.new result }
    ensures reads { OnlyReads D.Disk disk.old disk.new }
    ensures told { (s : State) → D.told disk.old ≡ Some s
        → SlotIs s.files false (option_map found_of zero)
        → SlotIs s.files true (option_map found_of one) → IfOk result (IsOpened s.files) }
    ensures formed { IfOk result IsOpenedFormed }
{
    let zero_is_open = zero.is_some();
    let one_is_open = one.is_some();
    let found = counting(zero, one);
    let journal = begun(&found, zero_is_open, one_is_open);
    let walked = walk_after(disk, alloc, found)?;
    Ok(as_opened(alloc, journal, walked)?)
}

fn read_second<D: Disk>(
    disk: &mut D,
    alloc: Global,
    zero: Option<OpenSlot>,
) -> Result<Opened, DiskFault>
    requires { IfSome zero IsFitSlot }
    ensures cause { FailsReading D.Disk disk.old disk.new result }
    ensures reads { OnlyReads D.Disk disk.old disk.new }
    ensures told { (s : State) → D.told disk.old ≡ Some s
        → SlotIs s.files false (option_map found_of zero) → IfOk result (IsOpened s.files) }
    ensures formed { IfOk result IsOpenedFormed }
{
    match find_slot(disk, alloc, true)? {
        SlotRead::Bad => Ok(Opened::Bad {
            path: slot_path_of(alloc, true)?,
        }),
        SlotRead::Good(one) => read_records(disk, alloc, zero, one),
    }
}

// The files are read as a journal.
fn read_journal<D: Disk>(disk: &mut D, alloc: Global) -> Result<Opened, DiskFault>
    ensures cause { FailsReading D.Disk disk.old disk.new result }
    ensures reads { OnlyReads D.Disk disk.old disk.new }
    ensures told { (s : State) → D.told disk.old ≡ Some s → IfOk result (IsOpened s.files) }
    ensures formed { IfOk result IsOpenedFormed }
{
    match find_slot(disk, alloc, false)? {
        SlotRead::Bad => Ok(Opened::Bad {
            path: slot_path_of(alloc, false)?,
        }),
        SlotRead::Good(zero) => read_second(disk, alloc, zero),
    }
}

// The work of the last record is done again.
fn redo_last<D: Disk>(
    disk: &mut D,
    journal: Journal,
    kept: Kept,
    work: Items<Write>,
) -> Result<(Journal, Kept), OpenFault>
    requires { IsFormed kept }
    ensures cause { FailsOpening D.Disk disk.old disk.new result }
    ensures touches { Touches D.Disk (paths_of work) disk.old disk.new }
    ensures opening { (s : State) → D.told disk.old ≡ Some (at_rest s.files)
        → IsReadAt journal kept work s.files → Opening D.Disk s disk.old disk.new result }
    ensures formed { IfOk result (λ both. IsFormed both.1) }
{
    match write_all(disk, work.as_slice()) {
        Ok(()) => Ok((journal, kept)),
        Err(Failed) => Err(OpenFault::DiskFailed),
    }
}

// The opening of a disk on which nothing is loose.
fn open_at_rest<D: Disk>(disk: &mut D, alloc: Global) -> Result<(Journal, Kept), OpenFault>
    ensures cause { FailsOpening D.Disk disk.old disk.new result }
    ensures touches { TouchesLast D.Disk disk.old disk.new }
    ensures opening { (s : State) → D.told disk.old ≡ Some (at_rest s.files)
        → Opening D.Disk s disk.old disk.new result }
    ensures formed { IfOk result (λ both. IsFormed both.1) }
{
    match read_journal(disk, alloc) {
        Err(DiskFault::Failed) => Err(OpenFault::DiskFailed),
        Err(DiskFault::Memory) => Err(OpenFault::Memory),
        Ok(Opened::Bad { path }) => Err(OpenFault::NotAJournal { path }),
        Ok(
            Opened::Whole {
                journal,
                kept,
                work,
            },
        ) => redo_last(disk, journal, kept, work),
    }
}

impl Journal {
    /// Opens the journal of a disk. All that was written is made durable, the files are read, and the work of the last counted
    /// record is done again. After a fault it may be called again.
    pub fn recover<D: Disk>(disk: &mut D, alloc: Global) -> Result<(Journal, Kept), OpenFault>
        ensures cause { FailsOpening D.Disk disk.old disk.new result }
        // Nothing changes but at the paths of the last counted record, which all lie outside of the journal.
        ensures touches { TouchesLast D.Disk disk.old disk.new }
        // Journal and contents are those of the files, nothing is loose, and the last record's work is done.
        ensures opens { (s : State) → D.told disk.old ≡ Some s
            → IfOk result (λ both. OpensAs both.0 both.1 s.files (D.told disk.new)) }
        // The files are no journal, and this is the first bad one.
        ensures bad { (s : State) → D.told disk.old ≡ Some s → IsNamed result s.files }
        // Whenever the machine stops, an opening makes the same of the disk. Where paths were loose, a stop may leave what one
        // before might have left.
        ensures crash { (s : State) → D.told disk.old ≡ Some s
            → StopsLeave D.Disk (IsWhileOpening s) disk.old disk.new }
        // Whatever the disk tells: each name stands once, and owners and roots are installed.
        ensures formed { IfOk result (λ both. IsFormed both.1) }
    {
        match sync(disk) {
            Err(Failed) => Err(OpenFault::DiskFailed),
            Ok(()) => open_at_rest(disk, alloc),
        }
    }
}
