// The opening of a journal on a disk in memory, and what an opening makes of each stop.
use crash_disk::{Choice, Disk, DiskFault, DiskRead, MemoryDisk};
use journal_text::Entry;
use opam_names::{Items, Name, Pkg, RelPath};
use row_script::devices::Devices;
use row_script::fault::Fault;
use row_script::lexer::Word;
use row_script::script::Call;
use row_script::show::{plain, quoted};
use row_script::values::path_of;
use std::alloc::Global;
use switch_journal::{Done, Journal, Kept, Open, OpenFault, Standing};

/// Longer files are not shown.
const LONGEST_SHOWN: u64 = 100;

/// Of more packages in a target the number is shown.
const MOST_LISTED: usize = 20;

/// No record of these scripts puts or takes more paths together with those that are looked at then.
const LAST_CALLS: u64 = 7;

pub fn answer(alloc: Global, call: &Call, devices: &mut Devices) -> Result<String, Fault> {
    let paths = call.words.as_slice();
    match call.name.as_str() {
        "Journal::recover" => recover(alloc, devices, paths),
        "stops" => stops(alloc, devices, paths),
        _ => Err(Fault::Unknown),
    }
}

// What an opening makes of the disk, with the files at these paths after it.
fn recover(alloc: Global, devices: &mut Devices, words: &[Word]) -> Result<String, Fault> {
    let paths = paths_of(alloc, words)?;
    let mut disk = devices.take_disk(alloc);
    let answer = opened(alloc, &mut disk, paths.as_slice());
    devices.keep_disk(disk);
    answer
}

pub fn paths_of(alloc: Global, words: &[Word]) -> Result<Items<RelPath>, Fault> {
    let mut paths = Items::new(alloc);
    for word in words {
        paths.push(path_of(alloc, word)?)?;
    }
    Ok(paths)
}

fn opened(alloc: Global, disk: &mut MemoryDisk, paths: &[RelPath]) -> Result<String, Fault> {
    match Journal::recover(disk, alloc) {
        Ok((journal, kept)) => show_opened(alloc, &journal, &kept, disk, paths),
        Err(OpenFault::NotAJournal { path }) => {
            let path = path.as_str();
            Ok(format!(in alloc; "no journal: {path}")?)
        }
        Err(OpenFault::DiskFailed) => plain(alloc, "failed"),
        Err(OpenFault::Memory) => Err(Fault::Memory),
    }
}

fn show_opened(
    alloc: Global,
    journal: &Journal,
    kept: &Kept,
    disk: &mut MemoryDisk,
    paths: &[RelPath],
) -> Result<String, Fault> {
    let next = journal.next_number();
    let mut text = format!(in alloc; "next {next}")?;
    push_standing(&mut text, kept.standing())?;
    let owned = kept.owners().len();
    write!(text, "; owned {owned}; roots")?;
    push_names(&mut text, kept.roots())?;
    if let Some(request) = kept.request() {
        push_request(&mut text, request)?;
    }
    if journal.due() {
        text.push_str("; due")?;
    }
    push_files(alloc, &mut text, disk, paths)?;
    Ok(text)
}

pub fn push_standing(text: &mut String, standing: &[Standing]) -> Result<(), Fault> {
    for s in standing {
        text.push_str(" ")?;
        push_pkg(text, &s.entry.pkg)?;
        text.push_str(" from ")?;
        text.push_str(s.from.as_str())?;
    }
    Ok(())
}

pub fn push_pkg(text: &mut String, pkg: &Pkg) -> Result<(), Fault> {
    text.push_str(pkg.name.as_str())?;
    text.push_str(".")?;
    Ok(text.push_str(pkg.version.as_str())?)
}

pub fn push_names(text: &mut String, names: &[Name]) -> Result<(), Fault> {
    for name in names {
        text.push_str(" ")?;
        text.push_str(name.as_str())?;
    }
    Ok(())
}

pub fn push_request(text: &mut String, request: &Open) -> Result<(), Fault> {
    text.push_str("; target")?;
    push_entries(text, request.target.as_slice())?;
    text.push_str("; removals")?;
    push_pkgs(text, request.removals.as_slice())?;
    text.push_str("; done")?;
    for done in request.done.as_slice() {
        push_done(text, done)?;
    }
    Ok(())
}

fn push_entries(text: &mut String, entries: &[Entry]) -> Result<(), Fault> {
    let count = entries.len();
    if count > MOST_LISTED {
        write!(text, " {count} packages")?;
        return Ok(());
    }
    for entry in entries {
        text.push_str(" ")?;
        push_pkg(text, &entry.pkg)?;
    }
    Ok(())
}

fn push_pkgs(text: &mut String, pkgs: &[Pkg]) -> Result<(), Fault> {
    for pkg in pkgs {
        text.push_str(" ")?;
        push_pkg(text, pkg)?;
    }
    Ok(())
}

fn push_done(text: &mut String, done: &Done) -> Result<(), Fault> {
    match done {
        Done::Removed { pkg, number, kept } => {
            text.push_str(" removed ")?;
            push_pkg(text, pkg)?;
            let what = if *kept { "kept" } else { "dropped" };
            write!(text, " by {number} {what}")?;
            Ok(())
        }
        Done::Installed(pkg) => {
            text.push_str(" installed ")?;
            push_pkg(text, pkg)
        }
        Done::PutBack(pkg) => {
            text.push_str(" put back ")?;
            push_pkg(text, pkg)
        }
    }
}

fn push_files(
    alloc: Global,
    text: &mut String,
    disk: &mut MemoryDisk,
    paths: &[RelPath],
) -> Result<(), Fault> {
    for path in paths {
        let shown = file_at(alloc, disk, path)?;
        text.push_str("; ")?;
        text.push_str(path.as_str())?;
        text.push_str(" ")?;
        text.push_str(shown.as_str())?;
    }
    Ok(())
}

fn file_at(alloc: Global, disk: &mut MemoryDisk, path: &RelPath) -> Result<String, Fault> {
    match disk.read(alloc, path, LONGEST_SHOWN) {
        Ok(DiskRead::Absent) => plain(alloc, "absent"),
        Ok(DiskRead::TooLong) => plain(alloc, "too long"),
        Ok(DiskRead::File { bytes, .. }) => quoted(alloc, bytes.as_slice()),
        Err(DiskFault::Failed) => plain(alloc, "failed"),
        Err(DiskFault::Memory) => Err(Fault::Memory),
    }
}

// An answer of an opening, and how often it came.
#[derive(Drop)]
struct Seen {
    text: String,
    count: u64,
}

// What an opening makes of the disk after a stop at each moment with each choice, and that a stop of this opening leads to the
// same. The disk stays as it is.
fn stops(alloc: Global, devices: &mut Devices, words: &[Word]) -> Result<String, Fault> {
    let paths = paths_of(alloc, words)?;
    let disk = devices.take_disk(alloc);
    let answer = each_stop(alloc, &disk, paths.as_slice());
    devices.keep_disk(disk);
    answer
}

fn each_stop(alloc: Global, disk: &MemoryDisk, paths: &[RelPath]) -> Result<String, Fault> {
    let mut seen = Vec::new(alloc);
    for moment in 0..disk.clock().saturating_add(1) {
        note(
            &mut seen,
            stopped_at(alloc, disk, moment, Choice::Before, paths)?,
        )?;
        note(
            &mut seen,
            stopped_at(alloc, disk, moment, Choice::After, paths)?,
        )?;
        note(
            &mut seen,
            stopped_at(alloc, disk, moment, Choice::Gone, paths)?,
        )?;
        note(
            &mut seen,
            stopped_at(alloc, disk, moment, Choice::Junk, paths)?,
        )?;
    }
    show_seen(alloc, seen.as_slice())
}

fn stopped_at(
    alloc: Global,
    disk: &MemoryDisk,
    moment: u64,
    choice: Choice,
    paths: &[RelPath],
) -> Result<String, Fault> {
    let mut image = image_of(disk, moment, choice)?;
    let text = opened(alloc, &mut image, paths)?;
    if !is_same_after_stops(alloc, &image, paths, text.as_str())? {
        return Ok(format!(in alloc; "{text}, or another after one more stop")?);
    }
    Ok(text)
}

fn image_of(disk: &MemoryDisk, moment: u64, choice: Choice) -> Result<MemoryDisk, Fault> {
    if moment > disk.clock() {
        return Err(Fault::Line("the disk has not come to this moment"));
    }
    Ok(disk.image(moment, choice)?)
}

// Whether a stop at each moment of what was done with the disk leads to the same. The last record's work and the looks at files
// after it are the last calls: there each choice is tried.
fn is_same_after_stops(
    alloc: Global,
    disk: &MemoryDisk,
    paths: &[RelPath],
    text: &str,
) -> Result<bool, Fault> {
    let last = disk.clock().saturating_sub(LAST_CALLS);
    Ok(
        is_same_before(alloc, disk, last, paths, text)?
            && is_same_from(alloc, disk, last, paths, text)?,
    )
}

// Before this moment nothing is loose, so that a stop leaves the disk as it was, whatever the choice is.
fn is_same_before(
    alloc: Global,
    disk: &MemoryDisk,
    last: u64,
    paths: &[RelPath],
    text: &str,
) -> Result<bool, Fault> {
    for moment in 0..last {
        if !is_same_at(alloc, disk, moment, Choice::Junk, paths, text)? {
            return Ok(false);
        }
    }
    Ok(true)
}

fn is_same_from(
    alloc: Global,
    disk: &MemoryDisk,
    first: u64,
    paths: &[RelPath],
    text: &str,
) -> Result<bool, Fault> {
    for moment in first..disk.clock().saturating_add(1) {
        let same = is_same_at(alloc, disk, moment, Choice::Before, paths, text)?
            && is_same_at(alloc, disk, moment, Choice::After, paths, text)?
            && is_same_at(alloc, disk, moment, Choice::Gone, paths, text)?
            && is_same_at(alloc, disk, moment, Choice::Junk, paths, text)?;
        if !same {
            return Ok(false);
        }
    }
    Ok(true)
}

fn is_same_at(
    alloc: Global,
    disk: &MemoryDisk,
    moment: u64,
    choice: Choice,
    paths: &[RelPath],
    text: &str,
) -> Result<bool, Fault> {
    let mut image = image_of(disk, moment, choice)?;
    let other = opened(alloc, &mut image, paths)?;
    Ok(other.as_str() == text)
}

fn note(seen: &mut Vec<Seen>, text: String) -> Result<(), Fault> {
    for one in seen.iter_mut() {
        if one.text.as_str() == text.as_str() {
            one.count = one.count.saturating_add(1);
            return Ok(());
        }
    }
    Ok(seen.push(Seen { text, count: 1 })?)
}

fn show_seen(alloc: Global, seen: &[Seen]) -> Result<String, Fault> {
    let mut text = String::new(alloc);
    for one in seen {
        let count = one.count;
        if !text.is_empty() {
            text.push_str(" | ")?;
        }
        write!(text, "{count} times ")?;
        text.push_str(one.text.as_str())?;
    }
    Ok(text)
}
