// Calls of `journal_text`. What is read is written again, and has to give the same bytes.
ghost use Rattle.journal_text.specs.Records.{IsSpelledBy};
ghost use Rattle.journal_text.specs.Slots.{IsSlotSpelledBy};

use journal_text::{
    Entry, KeptFiles, Owned, Placed, Rec, Snapshot, decode, decode_old, decode_old_slot,
    decode_slot, encode, encode_slot, push_slot_count, push_slot_entry, push_slot_front,
    push_slot_path, push_slot_root,
};
use opam_names::{Name, Pkg};
use row_script::fault::Fault;
use row_script::script::Call;
use row_script::show::{plain, push_quoted};
use std::alloc::Global;

pub fn answer(alloc: Global, call: &Call) -> Result<String, Fault> {
    let [text] = call.words.as_slice() else {
        return Err(Fault::Unknown);
    };
    let bytes = text.bytes.as_slice();
    match call.name.as_str() {
        "decode" => read_record(alloc, bytes),
        "decode_old" => read_old_record(alloc, bytes),
        "decode_slot" => read_slot(alloc, bytes),
        "decode_old_slot" => read_old_slot(alloc, bytes),
        "decode_broken" => break_bytes(alloc, Kind::Record, bytes),
        "decode_slot_broken" => break_bytes(alloc, Kind::Slot, bytes),
        _ => Err(Fault::Unknown),
    }
}

fn read_record(alloc: Global, bytes: &[u8]) -> Result<String, Fault> {
    match decode(alloc, bytes)? {
        None => plain(alloc, "none"),
        Some(entry) => show_read_record(alloc, &entry, bytes),
    }
}

fn show_read_record(alloc: Global, entry: &Rec, bytes: &[u8]) -> Result<String, Fault>
    requires { IsSpelledBy entry.now bytes.now }
{
    let same = is_written_so(alloc, entry, bytes)?;
    shown(show_record(alloc, entry)?, same)
}

fn read_old_record(alloc: Global, bytes: &[u8]) -> Result<String, Fault> {
    match decode_old(alloc, bytes)? {
        None => plain(alloc, "none"),
        Some(entry) => show_record(alloc, &entry),
    }
}

fn read_slot(alloc: Global, bytes: &[u8]) -> Result<String, Fault> {
    match decode_slot(alloc, bytes)? {
        None => plain(alloc, "none"),
        Some(slot) => show_read_slot(alloc, &slot, bytes),
    }
}

fn show_read_slot(alloc: Global, slot: &Snapshot, bytes: &[u8]) -> Result<String, Fault>
    requires { IsSlotSpelledBy slot.now bytes.now }
{
    let same = is_slot_written_so(alloc, slot, bytes)?;
    shown(show_slot(alloc, slot)?, same)
}

fn read_old_slot(alloc: Global, bytes: &[u8]) -> Result<String, Fault> {
    match decode_old_slot(alloc, bytes)? {
        None => plain(alloc, "none"),
        Some(slot) => show_slot(alloc, &slot),
    }
}

fn shown(mut text: String, same: bool) -> Result<String, Fault> {
    if !same {
        text.push_str(", written otherwise")?;
    }
    Ok(text)
}

fn is_written_so(alloc: Global, entry: &Rec, bytes: &[u8]) -> Result<bool, Fault>
    requires { IsSpelledBy entry.now bytes.now }
{
    let again = encode(alloc, entry)?;
    Ok(again.as_slice() == bytes)
}

fn is_slot_written_so(alloc: Global, slot: &Snapshot, bytes: &[u8]) -> Result<bool, Fault>
    requires { IsSlotSpelledBy slot.now bytes.now }
{
    let again = encode_slot(alloc, slot)?;
    let pieces = slot_in_pieces(alloc, slot)?;
    Ok(again.as_slice() == bytes && pieces.as_slice() == bytes)
}

fn count_of(len: usize) -> Result<u32, Fault> {
    match u32::try_from(len) {
        Ok(count) => Ok(count),
        Err(_) => Err(Fault::Line("a list is too long")),
    }
}

fn slot_in_pieces(alloc: Global, slot: &Snapshot) -> Result<Vec<u8>, Fault> {
    let mut out = Vec::new(alloc);
    push_pieces(&mut out, slot)?;
    Ok(out)
}

fn push_pieces(out: &mut Vec<u8>, slot: &Snapshot) -> Result<(), Fault> {
    push_slot_front(out, slot.number, count_of(slot.entries.len())?)?;
    push_entries(out, slot.entries.as_slice())?;
    push_slot_count(out, count_of(slot.roots.len())?)?;
    push_root_names(out, slot.roots.as_slice())?;
    push_slot_count(out, count_of(slot.owned.len())?)?;
    push_paths(out, slot.owned.as_slice())
}

fn push_root_names(out: &mut Vec<u8>, roots: &[Name]) -> Result<(), Fault> {
    for root in roots {
        push_slot_root(out, root)?;
    }
    Ok(())
}

fn push_paths(out: &mut Vec<u8>, paths: &[Owned]) -> Result<(), Fault> {
    for owned in paths {
        push_slot_path(out, &owned.path, owned.owner)?;
    }
    Ok(())
}

fn push_entries(out: &mut Vec<u8>, entries: &[Entry]) -> Result<(), Fault> {
    for entry in entries {
        let opam = entry.opam.as_slice();
        if opam.len() >= 4294967296 {
            return Err(Fault::Line("a text is too long"));
        }
        push_slot_entry(out, &entry.pkg, opam)?;
    }
    Ok(())
}

// What bytes are read as.
#[derive(Clone, Copy)]
enum Kind {
    Record,
    Slot,
}

// Each front of the bytes, and the bytes with each byte changed in each way: none is read, or what they spell.
fn break_bytes(alloc: Global, kind: Kind, bytes: &[u8]) -> Result<String, Fault> {
    let len = bytes.len();
    let cut = cuts_are_right(alloc, kind, bytes)?;
    let changed = changes_are_right(alloc, kind, bytes)?;
    let answer = if cut && changed {
        "none, or what they spell"
    } else {
        "some are read otherwise"
    };
    Ok(format!(in alloc; "{len} bytes, cut and changed: {answer}")?)
}

fn cuts_are_right(alloc: Global, kind: Kind, bytes: &[u8]) -> Result<bool, Fault> {
    for len in 0..bytes.len() {
        let (front, _) = bytes.split_at(len);
        if !is_right(alloc, kind, front)? {
            return Ok(false);
        }
    }
    Ok(true)
}

fn changes_are_right(alloc: Global, kind: Kind, bytes: &[u8]) -> Result<bool, Fault> {
    for at in 0..bytes.len() {
        let (front, rest) = bytes.split_at(at);
        if !byte_is_right(alloc, kind, front, rest)? {
            return Ok(false);
        }
    }
    Ok(true)
}

// The byte after the front in each way.
fn byte_is_right(alloc: Global, kind: Kind, front: &[u8], rest: &[u8]) -> Result<bool, Fault> {
    let [_, back @ ..] = rest else {
        return Ok(true);
    };
    for byte in 0..=255 {
        let mut text = Vec::from_slice(alloc, front)?;
        text.push(byte)?;
        text.extend_from_slice(back)?;
        if !is_right(alloc, kind, text.as_slice())? {
            return Ok(false);
        }
    }
    Ok(true)
}

// Whether the bytes spell nothing, or are what is written for that as which they are read.
fn is_right(alloc: Global, kind: Kind, bytes: &[u8]) -> Result<bool, Fault> {
    match kind {
        Kind::Record => is_right_record(alloc, bytes),
        Kind::Slot => is_right_slot(alloc, bytes),
    }
}

fn is_right_record(alloc: Global, bytes: &[u8]) -> Result<bool, Fault> {
    match decode(alloc, bytes)? {
        None => Ok(true),
        Some(entry) => is_written_so(alloc, &entry, bytes),
    }
}

fn is_right_slot(alloc: Global, bytes: &[u8]) -> Result<bool, Fault> {
    match decode_slot(alloc, bytes)? {
        None => Ok(true),
        Some(slot) => is_slot_written_so(alloc, &slot, bytes),
    }
}

fn show_record(alloc: Global, entry: &Rec) -> Result<String, Fault> {
    let mut text = String::new(alloc);
    push_record(&mut text, entry)?;
    Ok(text)
}

fn push_record(text: &mut String, entry: &Rec) -> Result<(), Fault> {
    match entry {
        Rec::Install { pkg, opam, files } => {
            text.push_str("install ")?;
            push_coming(text, pkg, opam.as_slice(), files.as_slice())
        }
        Rec::PutBack { pkg, opam, files } => {
            text.push_str("put back ")?;
            push_coming(text, pkg, opam.as_slice(), files.as_slice())
        }
        Rec::Remove { pkg, kept } => push_removal(text, pkg, kept),
        Rec::Begin {
            roots,
            target,
            removals,
        } => push_request(
            text,
            roots.as_slice(),
            target.as_slice(),
            removals.as_slice(),
        ),
        Rec::End => Ok(text.push_str("end")?),
    }
}

fn push_pkg(text: &mut String, pkg: &Pkg) -> Result<(), Fault> {
    text.push_str(pkg.name.as_str())?;
    text.push_str(".")?;
    Ok(text.push_str(pkg.version.as_str())?)
}

fn push_coming(text: &mut String, pkg: &Pkg, opam: &[u8], files: &[Placed]) -> Result<(), Fault> {
    push_pkg(text, pkg)?;
    text.push_str(" with ")?;
    push_quoted(text, opam)?;
    for file in files {
        push_file(text, file)?;
    }
    Ok(())
}

fn push_file(text: &mut String, file: &Placed) -> Result<(), Fault> {
    text.push_str(", ")?;
    text.push_str(file.path.as_str())?;
    text.push_str(if file.exec { " runs " } else { " has " })?;
    push_quoted(text, file.bytes.as_slice())
}

fn push_removal(text: &mut String, pkg: &Pkg, kept: &Option<KeptFiles>) -> Result<(), Fault> {
    match kept {
        None => {
            text.push_str("remove ")?;
            push_pkg(text, pkg)
        }
        Some(kept) => {
            text.push_str("remove and keep ")?;
            push_coming(text, pkg, kept.opam.as_slice(), kept.files.as_slice())
        }
    }
}

fn push_request(
    text: &mut String,
    roots: &[Name],
    target: &[Entry],
    removals: &[Pkg],
) -> Result<(), Fault> {
    text.push_str("begin")?;
    push_roots(text, roots)?;
    push_target(text, target)?;
    for pkg in removals {
        text.push_str(", without ")?;
        push_pkg(text, pkg)?;
    }
    Ok(())
}

fn push_roots(text: &mut String, roots: &[Name]) -> Result<(), Fault> {
    for root in roots {
        text.push_str(", root ")?;
        text.push_str(root.as_str())?;
    }
    Ok(())
}

fn push_target(text: &mut String, target: &[Entry]) -> Result<(), Fault> {
    for entry in target {
        text.push_str(", ")?;
        push_coming(text, &entry.pkg, entry.opam.as_slice(), &[])?;
    }
    Ok(())
}

fn show_slot(alloc: Global, slot: &Snapshot) -> Result<String, Fault> {
    let number = slot.number;
    let mut text = format!(in alloc; "slot {number}")?;
    push_slot(&mut text, slot)?;
    Ok(text)
}

fn push_slot(text: &mut String, slot: &Snapshot) -> Result<(), Fault> {
    push_target(text, slot.entries.as_slice())?;
    push_roots(text, slot.roots.as_slice())?;
    for owned in slot.owned.as_slice() {
        push_owned(text, owned)?;
    }
    Ok(())
}

fn push_owned(text: &mut String, owned: &Owned) -> Result<(), Fault> {
    let owner = owned.owner;
    text.push_str(", ")?;
    text.push_str(owned.path.as_str())?;
    Ok(write!(text, " of {owner}")?)
}
