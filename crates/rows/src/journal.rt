// Calls of `switch_journal` over a disk in memory.
ghost use Rattle.std.specs.Prelude.{◌≡◌, ◌<◌, ◌^◌, codes, not, IfOk};
ghost use Rattle.std.specs.List.{list_all};
ghost use Rattle.opam_names.specs.Paths.{is_above};
ghost use Rattle.crash_disk.specs.Writes.{path_of};
ghost use Rattle.switch_journal.specs.Commits.{is_outside};

use crash_disk::{DiskFault, Write};
use opam_names::{Items, OutOfMemory, RelPath};
use row_script::devices::Devices;
use row_script::disk_calls::done;
use row_script::fault::Fault;
use row_script::lexer::Word;
use row_script::script::Call;
use row_script::show::{plain, quoted};
use row_script::writes::{push_writes, writes_of};
use std::alloc::Global;
use switch_journal::{
    Gated, Ready, ReadySlot, commit, gate_path_of, make_ready, make_slot, read_record, read_slot,
    record_path_of, redo, slot_gate_of, slot_path_of, write_slot,
};

/// Numbers of records in a script are smaller.
const MOST_RECORDS: u64 = 1000000;

pub fn answer(alloc: Global, call: &Call, devices: &mut Devices) -> Result<String, Fault> {
    let words = call.words.as_slice();
    match call.name.as_str() {
        "make_ready" => show_ready(alloc, words),
        "commit" => run_commit(alloc, devices, words),
        "redo" => run_redo(alloc, devices, words),
        "make_slot" => show_slot(alloc, words),
        "write_slot" => run_slot(alloc, devices, words),
        "read_record" => read_a_record(alloc, devices, words),
        "read_slot" => read_a_slot(alloc, devices, words),
        name => answer_path(alloc, name, words),
    }
}

// Where a record or a slot stands.
fn answer_path(alloc: Global, name: &str, words: &[Word]) -> Result<String, Fault> {
    let [word] = words else {
        return Err(Fault::Unknown);
    };
    match name {
        "record_path_of" => shown(alloc, record_path_of(alloc, word.number()?)),
        "gate_path_of" => shown(alloc, gate_path_of(alloc, word.number()?)),
        "slot_path_of" => shown(alloc, slot_path_of(alloc, slot_of(word)?)),
        "slot_gate_of" => shown(alloc, slot_gate_of(alloc, slot_of(word)?)),
        _ => Err(Fault::Unknown),
    }
}

fn shown(alloc: Global, path: Result<RelPath, OutOfMemory>) -> Result<String, Fault> {
    quoted(alloc, path?.as_str().as_bytes())
}

// Slot 1 is named by true.
fn slot_of(word: &Word) -> Result<bool, Fault> {
    match word.text()? {
        "0" => Ok(false),
        "1" => Ok(true),
        _ => Err(Fault::Line("a word is no slot")),
    }
}

// A record's number: less than 2^63.
fn record_number(word: &Word) -> Result<u64, Fault>
    ensures { IfOk result (λ number. number < 2 ^ 63) }
{
    let number = word.number()?;
    if number < 9223372036854775808 {
        Ok(number)
    } else {
        Err(Fault::Line("a number of a record is too large"))
    }
}

fn ready_of(alloc: Global, words: &[Word]) -> Result<Ready, Fault> {
    let [number, text, writes @ ..] = words else {
        return Err(Fault::Unknown);
    };
    let number = record_number(number)?;
    let bytes = Items::from_slice(alloc, text.bytes.as_slice())?;
    Ok(make_ready(alloc, number, bytes, writes_of(alloc, writes)?)?)
}

fn show_ready(alloc: Global, words: &[Word]) -> Result<String, Fault> {
    let mut text = String::new(alloc);
    push_ready(&mut text, &ready_of(alloc, words)?)?;
    Ok(text)
}

fn push_ready(text: &mut String, ready: &Ready) -> Result<(), Fault> {
    push_batch(text, "record:", ready.entry.as_slice())?;
    push_batch(text, "; gate:", ready.gate.as_slice())?;
    push_batch(text, "; work:", ready.writes.as_slice())
}

fn push_batch(text: &mut String, name: &str, writes: &[Write]) -> Result<(), Fault> {
    text.push_str(name)?;
    push_writes(text, writes)
}

fn run_commit(alloc: Global, devices: &mut Devices, words: &[Word]) -> Result<String, Fault> {
    let ready = ready_of(alloc, words)?;
    if !are_outside(alloc, ready.writes.as_slice())? {
        return Err(Fault::Line("a record's work lies in the journal's folder"));
    }
    let mut disk = devices.take_disk(alloc);
    let answer = commit(&mut disk, &ready);
    devices.keep_disk(disk);
    done(alloc, answer)
}

fn run_redo(alloc: Global, devices: &mut Devices, writes: &[Word]) -> Result<String, Fault> {
    let writes = writes_of(alloc, writes)?;
    if !are_outside(alloc, writes.as_slice())? {
        return Err(Fault::Line("a record's work lies in the journal's folder"));
    }
    let mut disk = devices.take_disk(alloc);
    let answer = redo(&mut disk, writes.as_slice());
    devices.keep_disk(disk);
    done(alloc, answer)
}

// Whether no write is of a path below the folder of the journal.
fn are_outside(alloc: Global, writes: &[Write]) -> Result<bool, Fault>
    ensures { IfOk result (λ are. are ≡ list_all is_outside writes.now) }
{
    let folder = RelPath::fixed(alloc, ".opam-switch")?;
    Ok(all_outside(&folder, writes))
}

fn all_outside(folder: &RelPath, writes: &[Write]) -> bool
    requires { folder.now ≡ codes ".opam-switch" }
    ensures { result ≡ list_all is_outside writes.now }
{
    let mut rest = writes;
    while let [write, after @ ..] = rest {
        if !is_outside_of(folder, write) {
            return false;
        }
        rest = after;
    }
    true
}

fn is_outside_of(folder: &RelPath, write: &Write) -> bool
    ensures { result ≡ not (is_above folder.now (path_of write.now)) }
{
    match write {
        Write::Put { path, .. } => !folder.above(path),
        Write::Remove { path } => !folder.above(path),
    }
}

fn slot_ready(alloc: Global, words: &[Word]) -> Result<ReadySlot, Fault> {
    let [slot, state, text, first, count] = words else {
        return Err(Fault::Unknown);
    };
    let slot = slot_of(slot)?;
    let is_open = gate_of(state)?;
    let first = small(first)?;
    let count = small(count)?;
    let bytes = Items::from_slice(alloc, text.bytes.as_slice())?;
    Ok(make_slot(alloc, slot, is_open, bytes, first, count)?)
}

// Whether a gate is open.
fn gate_of(word: &Word) -> Result<bool, Fault> {
    match word.text()? {
        "open" => Ok(true),
        "shut" => Ok(false),
        _ => Err(Fault::Line("a gate is open or shut")),
    }
}

fn small(word: &Word) -> Result<u64, Fault>
    ensures { IfOk result (λ number. number < 1000000) }
{
    let number = word.number()?;
    if number < MOST_RECORDS {
        Ok(number)
    } else {
        Err(Fault::Line("a number of records is too large"))
    }
}

fn show_slot(alloc: Global, words: &[Word]) -> Result<String, Fault> {
    let mut text = String::new(alloc);
    push_slot(&mut text, &slot_ready(alloc, words)?)?;
    Ok(text)
}

fn push_slot(text: &mut String, ready: &ReadySlot) -> Result<(), Fault> {
    push_batch(text, "shut:", ready.shut.as_slice())?;
    push_batch(text, "; slot:", ready.slot.as_slice())?;
    push_batch(text, "; gate:", ready.gate.as_slice())?;
    push_batch(text, "; old:", ready.old.as_slice())
}

fn run_slot(alloc: Global, devices: &mut Devices, words: &[Word]) -> Result<String, Fault> {
    let ready = slot_ready(alloc, words)?;
    let mut disk = devices.take_disk(alloc);
    let answer = write_slot(&mut disk, &ready);
    devices.keep_disk(disk);
    done(alloc, answer)
}

fn read_a_record(alloc: Global, devices: &mut Devices, words: &[Word]) -> Result<String, Fault> {
    let [number, limit] = words else {
        return Err(Fault::Unknown);
    };
    let number = number.number()?;
    let limit = limit.number()?;
    let mut disk = devices.take_disk(alloc);
    let answer = read_record(&mut disk, alloc, number, limit);
    devices.keep_disk(disk);
    show_gated(alloc, answer)
}

fn read_a_slot(alloc: Global, devices: &mut Devices, words: &[Word]) -> Result<String, Fault> {
    let [slot, limit] = words else {
        return Err(Fault::Unknown);
    };
    let slot = slot_of(slot)?;
    let limit = limit.number()?;
    let mut disk = devices.take_disk(alloc);
    let answer = read_slot(&mut disk, alloc, slot, limit);
    devices.keep_disk(disk);
    show_gated(alloc, answer)
}

fn show_gated(alloc: Global, answer: Result<Gated, DiskFault>) -> Result<String, Fault> {
    match answer {
        Ok(Gated::Shut) => plain(alloc, "shut"),
        Ok(Gated::Absent) => plain(alloc, "absent"),
        Ok(Gated::TooLong) => plain(alloc, "too long"),
        Ok(Gated::Text(bytes)) => quoted(alloc, bytes.as_slice()),
        Err(DiskFault::Failed) => plain(alloc, "failed"),
        Err(DiskFault::Memory) => Err(Fault::Memory),
    }
}
