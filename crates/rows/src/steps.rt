// A step of a journal that is opened for it: the commit of a record, or the writing of a slot.
ghost use Rattle.journal_text.specs.Records.{IsSpelledBy};
ghost use Rattle.journal_text.specs.Slots.{IsSlotSpelledBy};

use crate::openings::paths_of;
use crate::pieces::slot_in_pieces;
use crash_disk::{MemoryDisk, Write};
use journal_text::{Rec, Snapshot, decode, decode_slot};
use opam_names::{Items, RelPath};
use outside_io::Failed;
use row_script::devices::Devices;
use row_script::fault::Fault;
use row_script::lexer::Word;
use row_script::script::Call;
use row_script::show::plain;
use std::alloc::Global;
use switch_journal::{Journal, OpenFault, ReadySlot};

pub fn answer(alloc: Global, call: &Call, devices: &mut Devices) -> Result<String, Fault> {
    let words = call.words.as_slice();
    match call.name.as_str() {
        "Journal::commit" => run_commit(alloc, devices, words),
        "Journal::write_slot" => run_slot(alloc, devices, words),
        _ => Err(Fault::Unknown),
    }
}

fn run_commit(alloc: Global, devices: &mut Devices, words: &[Word]) -> Result<String, Fault> {
    let [text, takes @ ..] = words else {
        return Err(Fault::Unknown);
    };
    let takes = paths_of(alloc, takes)?;
    let mut disk = devices.take_disk(alloc);
    let answer = commit_bytes(alloc, &mut disk, text.bytes.as_slice(), takes);
    devices.keep_disk(disk);
    answer
}

fn commit_bytes(
    alloc: Global,
    disk: &mut MemoryDisk,
    bytes: &[u8],
    takes: Items<RelPath>,
) -> Result<String, Fault> {
    match decode(alloc, bytes)? {
        None => Err(Fault::Line("a word is no record")),
        Some(entry) => commit_record(alloc, disk, entry, takes, bytes),
    }
}

fn commit_record(
    alloc: Global,
    disk: &mut MemoryDisk,
    entry: Rec,
    takes: Items<RelPath>,
    bytes: &[u8],
) -> Result<String, Fault>
    requires { IsSpelledBy entry bytes.now }
{
    let _spelled = bytes;
    let mut journal = open(alloc, disk)?;
    let ready = journal.ready(alloc, entry, takes)?;
    let answer = journal.commit(disk, &ready);
    show_step(alloc, answer, &journal)
}

fn run_slot(alloc: Global, devices: &mut Devices, words: &[Word]) -> Result<String, Fault> {
    let [text] = words else {
        return Err(Fault::Unknown);
    };
    let mut disk = devices.take_disk(alloc);
    let answer = write_bytes(alloc, &mut disk, text.bytes.as_slice());
    devices.keep_disk(disk);
    answer
}

fn write_bytes(alloc: Global, disk: &mut MemoryDisk, bytes: &[u8]) -> Result<String, Fault> {
    match decode_slot(alloc, bytes)? {
        None => Err(Fault::Line("a word is no slot")),
        Some(slot) => write_slot(alloc, disk, &slot, bytes),
    }
}

fn write_slot(
    alloc: Global,
    disk: &mut MemoryDisk,
    slot: &Snapshot,
    bytes: &[u8],
) -> Result<String, Fault>
    requires { IsSlotSpelledBy slot.now bytes.now }
{
    let mut journal = open(alloc, disk)?;
    if slot.number != journal.last_number() {
        return Err(Fault::Line("the slot has another number than the last record"));
    }
    let ready = slot_in_pieces(alloc, &journal, slot, bytes)?;
    if !is_spelled_so(&ready, bytes) {
        return Err(Fault::Line("the slot is spelled otherwise"));
    }
    let answer = journal.write_slot(disk, &ready);
    show_step(alloc, answer, &journal)
}

// Whether the slot has this text.
fn is_spelled_so(ready: &ReadySlot, bytes: &[u8]) -> bool {
    match ready.slot.as_slice() {
        [Write::Put { bytes: text, .. }] => text.as_slice() == bytes,
        _ => false,
    }
}

fn open(alloc: Global, disk: &mut MemoryDisk) -> Result<Journal, Fault> {
    match Journal::recover(disk, alloc) {
        Ok((journal, _kept)) => Ok(journal),
        Err(OpenFault::NotAJournal { path: _path }) => {
            Err(Fault::Line("the disk holds no journal"))
        }
        Err(OpenFault::DiskFailed) => Err(Fault::Line("the disk fails before")),
        Err(OpenFault::Memory) => Err(Fault::Memory),
    }
}

fn show_step(
    alloc: Global,
    answer: Result<(), Failed>,
    journal: &Journal,
) -> Result<String, Fault> {
    match answer {
        Err(_) => plain(alloc, "failed"),
        Ok(()) => {
            let next = journal.next_number();
            Ok(format!(in alloc; "done, next {next}")?)
        }
    }
}
