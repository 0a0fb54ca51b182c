// The records of a journal are counted and applied, one by one.
#![tactic(auto, using(crash_disk::proofs::Effects::read_steps))]

ghost use Rattle.std.specs.Prelude.{◌≡◌, ◌<◌, ◌≤◌, ◌^◌, [], IfNone, IfOk, IfSome};
ghost use Rattle.std.specs.Option.{option_map};
ghost use Rattle.crash_disk.specs.Disks.{State};
ghost use Rattle.crash_disk.specs.Effects.{FailsReading, OnlyReads};
ghost use Rattle.journal_text.specs.Records.{IsInOrder};
ghost use Rattle.std.specs.declared.option.Option.TheVariants.{None, Some};
ghost use Rattle.switch_journal.specs.Formed.{IsFirstFormed, IsFormedIn, IsStepFormed, IsTurnFormed, IsWalkFormed};
ghost use Rattle.switch_journal.specs.Found.{IsFitSlot, found_of};
ghost use Rattle.switch_journal.specs.Journal.{work_of};
ghost use Rattle.switch_journal.specs.Reading.{SpellsRecord, after_record};
ghost use Rattle.switch_journal.specs.Walks.{IsFirst, IsFirstText, IsSpelled, IsSmallWalk, IsStep, IsStepText, IsTurn, IsWalked, IsWalkedAfter, SpellsNone, said_of, taken_by};

use crate::gated::{is_record_open, read_record_text};
use crate::kept::Kept;
use crate::open_slot::OpenSlot;
use crate::steps::{NUMBER_LIMIT, work_writes};
use crash_disk::{Disk, DiskFault, Write};
use journal_text::{Rec, decode, decode_old, one_record_for_bytes};
use opam_names::{Items, OutOfMemory, RelPath};
use std::alloc::Global;

/// What is said so far, and the work of the last record.
#[derive(Drop)]
pub(crate) struct Walk {
    pub(crate) kept: Kept,
    pub(crate) work: Items<Write>,
}

/// The end of a walk: at a record that is bad, or before the number that no record counts under.
#[derive(Drop)]
pub(crate) enum Walked {
    Bad { number: u64 },
    Whole { old: bool, next: u64, walk: Walk },
}

// What one number of a walk gives: the gate is shut, the record is bad, or it was applied.
#[derive(Drop)]
pub(crate) enum Turn {
    End(Walk),
    Bad,
    On(Walk),
}

// The first record of a journal without slots: its format, and what it gives, if it is not bad.
#[derive(Drop)]
pub(crate) struct First {
    pub(crate) old: bool,
    pub(crate) step: Option<Walk>,
}

// Of which format bytes are, and the record that they spell.
#[derive(Drop)]
pub(crate) struct Spelled {
    pub(crate) old: bool,
    pub(crate) entry: Option<Rec>,
}

impl Kept {
    // The paths that the record takes away.
    fn taken_by(&self, alloc: Global, entry: &Rec) -> Result<Items<RelPath>, OutOfMemory>
        ensures { IfOk result (λ paths. paths ≡ taken_by entry.now self.now) }
    {
        match entry {
            Rec::Remove { pkg, .. } => self.owners.paths_of(pkg),
            Rec::Install { .. } => Ok(Items::new(alloc)),
            Rec::PutBack { .. } => Ok(Items::new(alloc)),
            Rec::Begin { .. } => Ok(Items::new(alloc)),
            Rec::End => Ok(Items::new(alloc)),
        }
    }

    // What is said after the record, in a journal of this format.
    fn after(
        self,
        alloc: Global,
        old: bool,
        number: u64,
        entry: &Rec,
    ) -> Result<Option<Kept>, OutOfMemory>
        requires { IsInOrder entry.now }
        ensures { IfOk result (λ after. after ≡ after_record old number entry.now self) }
    {
        if old {
            self.apply_old(alloc, number, entry)
        } else {
            self.apply(alloc, number, entry)
        }
    }
}

// The record is applied, and its work is kept.
fn apply_entry(
    alloc: Global,
    old: bool,
    number: u64,
    kept: Kept,
    entry: Rec,
) -> Result<Option<Walk>, OutOfMemory>
    requires ordered { IsInOrder entry }
    requires formed { IsFormedIn old kept }
    ensures said { IfOk result (λ w. option_map said_of w ≡ after_record old number entry kept) }
    ensures work { IfOk result (λ w. IfSome w (λ walk. walk.work ≡ work_of entry kept)) }
    ensures formed { IfOk result (IsStepFormed old) }
{
    let takes = kept.taken_by(alloc, &entry)?;
    match kept.after(alloc, old, number, &entry)? {
        None => Ok(None),
        Some(kept) => {
            let work = work_writes(alloc, entry, takes)?;
            Ok(Some(Walk { kept, work }))
        }
    }
}

// The record that the bytes spell in this format.
fn decode_as(alloc: Global, old: bool, bytes: Items<u8>) -> Result<Option<Rec>, OutOfMemory>
    ensures some { IfOk result (λ found. IfSome found (λ entry. SpellsRecord old entry bytes)) }
    ensures none { IfOk result (λ found. IfNone found (SpellsNone old bytes)) }
{
    if old {
        decode_old(alloc, bytes.as_slice())
    } else {
        decode(alloc, bytes.as_slice())
    }
}

fn apply_text(
    alloc: Global,
    old: bool,
    number: u64,
    kept: Kept,
    bytes: Items<u8>,
) -> Result<Option<Walk>, OutOfMemory>
    requires { IsFormedIn old kept }
    ensures told { IfOk result (IsStepText old number kept bytes) }
    ensures formed { IfOk result (IsStepFormed old) }
{
    one_record_for_bytes();
    match decode_as(alloc, old, bytes)? {
        None => Ok(None),
        Some(entry) => apply_entry(alloc, old, number, kept, entry),
    }
}

// The record with this number is read and applied.
fn step<D: Disk>(
    disk: &mut D,
    alloc: Global,
    old: bool,
    number: u64,
    kept: Kept,
) -> Result<Option<Walk>, DiskFault>
    requires small { number < 2 ^ 63 }
    requires formed { IsFormedIn old kept }
    ensures cause { FailsReading D.Disk disk.old disk.new result }
    ensures reads { OnlyReads D.Disk disk.old disk.new }
    ensures told { (s : State) → D.told disk.old ≡ Some s
        → IfOk result (IsStep old s.files number kept) }
    ensures formed { IfOk result (IsStepFormed old) }
{
    match read_record_text(disk, alloc, number)? {
        None => Ok(None),
        Some(bytes) => Ok(apply_text(alloc, old, number, kept, bytes)?),
    }
}

// One number of a walk.
fn take_turn<D: Disk>(
    disk: &mut D,
    alloc: Global,
    old: bool,
    number: u64,
    walk: Walk,
) -> Result<Turn, DiskFault>
    requires small { number < 2 ^ 63 }
    requires formed { IsFormedIn old walk.kept }
    ensures cause { FailsReading D.Disk disk.old disk.new result }
    ensures reads { OnlyReads D.Disk disk.old disk.new }
    ensures told { (s : State) → D.told disk.old ≡ Some s
        → IfOk result (IsTurn old s.files number walk) }
    ensures formed { IfOk result (IsTurnFormed old) }
{
    if !is_record_open(disk, alloc, number)? {
        return Ok(Turn::End(walk));
    }
    let kept = without_work(walk);
    match step(disk, alloc, old, number, kept)? {
        None => Ok(Turn::Bad),
        Some(walk) => Ok(Turn::On(walk)),
    }
}

// What is said. The work is let go before another record is read.
fn without_work(walk: Walk) -> Kept
    ensures { result ≡ walk.kept }
{
    let Walk { kept, .. } = walk;
    kept
}

// Records are counted from this number on.
fn walk_from<D: Disk>(
    disk: &mut D,
    alloc: Global,
    old: bool,
    from: u64,
    walk: Walk,
) -> Result<Walked, DiskFault>
    requires small { from ≤ 2 ^ 63 }
    requires formed { IsFormedIn old walk.kept }
    ensures cause { FailsReading D.Disk disk.old disk.new result }
    ensures reads { OnlyReads D.Disk disk.old disk.new }
    ensures told { (s : State) → D.told disk.old ≡ Some s
        → IfOk result (IsWalked old s.files from walk.kept walk.work) }
    ensures small { IfOk result IsSmallWalk }
    ensures formed { IfOk result IsWalkFormed }
{
    let mut walk = walk;
    for number in from..NUMBER_LIMIT {
        match take_turn(disk, alloc, old, number, walk)? {
            Turn::End(walk) => {
                return Ok(Walked::Whole {
                    old,
                    next: number,
                    walk,
                });
            }
            Turn::Bad => return Ok(Walked::Bad { number }),
            Turn::On(after) => walk = after,
        }
    }
    if is_record_open(disk, alloc, NUMBER_LIMIT)? {
        Ok(Walked::Bad {
            number: NUMBER_LIMIT,
        })
    } else {
        Ok(Walked::Whole {
            old,
            next: NUMBER_LIMIT,
            walk,
        })
    }
}

// Of which format the bytes are, and the record that they spell.
fn decode_first(alloc: Global, bytes: Items<u8>) -> Result<Spelled, OutOfMemory>
    ensures { IfOk result (λ found. IsSpelled bytes found.old found.entry) }
{
    match decode(alloc, bytes.as_slice())? {
        Some(entry) => Ok(Spelled {
            old: false,
            entry: Some(entry),
        }),
        None => {
            let entry = decode_old(alloc, bytes.as_slice())?;
            let old = entry.is_some();
            Ok(Spelled { old, entry })
        }
    }
}

fn first_text(alloc: Global, bytes: Items<u8>) -> Result<First, OutOfMemory>
    ensures told { IfOk result (IsFirstText bytes) }
    ensures formed { IfOk result IsFirstFormed }
{
    one_record_for_bytes();
    let Spelled { old, entry } = decode_first(alloc, bytes)?;
    match entry {
        None => Ok(First { old, step: None }),
        Some(entry) => {
            let step = apply_entry(alloc, old, 1, Kept::empty(alloc), entry)?;
            Ok(First { old, step })
        }
    }
}

// The first record of a journal without slots is read and applied.
fn first_step<D: Disk>(disk: &mut D, alloc: Global) -> Result<First, DiskFault>
    ensures cause { FailsReading D.Disk disk.old disk.new result }
    ensures reads { OnlyReads D.Disk disk.old disk.new }
    ensures told { (s : State) → D.told disk.old ≡ Some s → IfOk result (IsFirst s.files) }
    ensures formed { IfOk result IsFirstFormed }
{
    match read_record_text(disk, alloc, 1)? {
        None => Ok(First {
            old: false,
            step: None,
        }),
        Some(bytes) => Ok(first_text(alloc, bytes)?),
    }
}

// The walk of a journal without slots.
fn walk_all<D: Disk>(disk: &mut D, alloc: Global) -> Result<Walked, DiskFault>
    ensures cause { FailsReading D.Disk disk.old disk.new result }
    ensures reads { OnlyReads D.Disk disk.old disk.new }
    ensures told { (s : State) → D.told disk.old ≡ Some s
        → IfOk result (IsWalkedAfter s.files None) }
    ensures small { IfOk result IsSmallWalk }
    ensures formed { IfOk result IsWalkFormed }
{
    if !is_record_open(disk, alloc, 1)? {
        return Ok(Walked::Whole {
            old: false,
            next: 1,
            walk: start_with(alloc, Kept::empty(alloc)),
        });
    }
    let First { old, step } = first_step(disk, alloc)?;
    match step {
        None => Ok(Walked::Bad { number: 1 }),
        Some(walk) => walk_from(disk, alloc, old, 2, walk),
    }
}

fn start_with(alloc: Global, kept: Kept) -> Walk
    ensures kept { result.kept ≡ kept }
    ensures work { result.work ≡ [] }
{
    Walk {
        kept,
        work: Items::new(alloc),
    }
}

/// Counts and applies the records after the slot that counts, or all records where there is none.
pub(crate) fn walk_after<D: Disk>(
    disk: &mut D,
    alloc: Global,
    found: Option<OpenSlot>,
) -> Result<Walked, DiskFault>
    requires { IfSome found IsFitSlot }
    ensures cause { FailsReading D.Disk disk.old disk.new result }
    ensures reads { OnlyReads D.Disk disk.old disk.new }
    ensures told { (s : State) → D.told disk.old ≡ Some s
        → IfOk result (IsWalkedAfter s.files (option_map found_of found)) }
    ensures small { IfOk result IsSmallWalk }
    ensures formed { IfOk result IsWalkFormed }
{
    match found {
        None => walk_all(disk, alloc),
        Some(found) => {
            let OpenSlot { old, place, slot } = found;
            let from = slot.number + 1;
            let kept = Kept::of_slot(alloc, place, slot)?;
            walk_from(disk, alloc, old, from, start_with(alloc, kept))
        }
    }
}
