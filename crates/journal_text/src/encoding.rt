// The bytes of records.
ghost use Rattle.std.specs.Prelude.{◌≡◌, ◌<◌, ◌≤◌, ◌^◌, ◌++◌, ℕ, List, IfOk, OnOk, length};
ghost use Rattle.std.specs.List.{All};
ghost use Rattle.journal_text.specs.Parts.{IsComingValid, IsPlaced, IsRemovalValid, IsRequestValid, coming_bytes, contents_bytes, removal_bytes, request_bytes};
ghost use Rattle.journal_text.specs.Records.{HasValidParts, IsInOrder, IsSpelledBy, body_bytes, record_bytes};

use crate::field::{Field, push_list};
use crate::record::{Entry, KeptFiles, Placed, RECORD_LIMIT, Rec};
use crate::writer::push_long;
use opam_names::{Items, Name, OutOfMemory, Pkg};
use std::alloc::Global;

/// The bytes of a record. Its parts stand in order, and it is not too long.
pub fn encode(alloc: Global, entry: &Rec) -> Result<Items<u8>, OutOfMemory>
    requires ordered { IsInOrder entry.now }
    requires short { length (record_bytes entry.now) ≤ RECORD_LIMIT }
    ensures { IfOk result (λ bytes. IsSpelledBy entry.now bytes) }
{
    let mut out = Vec::with_capacity(alloc, room_of(entry))?;
    out.extend_from_slice(b"OPAMREC2")?;
    push_body(&mut out, entry)?;
    Ok(Items::from_vec(out))
}

fn push_body(out: &mut Vec<u8>, entry: &Rec) -> Result<(), OutOfMemory>
    requires { length (body_bytes entry.now) < 2 ^ 32 }
    ensures spelled { OnOk result
        (out.new.items ≡ out.old.items ++ body_bytes entry.now) }
    ensures valid { OnOk result (HasValidParts entry.now) }
{
    match entry {
        Rec::Install { pkg, opam, files } => {
            out.push(1)?;
            push_coming(out, pkg, opam.as_slice(), files.as_slice())
        }
        Rec::Remove { pkg, kept } => {
            out.push(2)?;
            push_removal(out, pkg, kept)
        }
        Rec::Begin {
            roots,
            target,
            removals,
        } => {
            out.push(3)?;
            push_request(
                out,
                roots.as_slice(),
                target.as_slice(),
                removals.as_slice(),
            )
        }
        Rec::End => {
            out.push(4)?;
            Ok(())
        }
        Rec::PutBack { pkg, opam, files } => {
            out.push(5)?;
            push_coming(out, pkg, opam.as_slice(), files.as_slice())
        }
    }
}

fn push_coming(
    out: &mut Vec<u8>,
    pkg: &Pkg,
    opam: &[u8],
    files: &[Placed],
) -> Result<(), OutOfMemory>
    requires { length (coming_bytes pkg.now opam.now files.now) < 2 ^ 32 }
    ensures spelled { OnOk result
        (out.new.items ≡ out.old.items ++ coming_bytes pkg.now opam.now files.now) }
    ensures valid { OnOk result (IsComingValid pkg.now files.now) }
{
    pkg.push(out)?;
    push_contents(out, opam, files)
}

fn push_removal(out: &mut Vec<u8>, pkg: &Pkg, kept: &Option<KeptFiles>) -> Result<(), OutOfMemory>
    requires { length (removal_bytes pkg.now kept.now) < 2 ^ 32 }
    ensures spelled { OnOk result
        (out.new.items ≡ out.old.items ++ removal_bytes pkg.now kept.now) }
    ensures valid { OnOk result (IsRemovalValid pkg.now kept.now) }
{
    pkg.push(out)?;
    match kept {
        None => {
            out.push(0)?;
            Ok(())
        }
        Some(kept) => {
            out.push(1)?;
            push_contents(out, kept.opam.as_slice(), kept.files.as_slice())
        }
    }
}

fn push_contents(out: &mut Vec<u8>, opam: &[u8], files: &[Placed]) -> Result<(), OutOfMemory>
    requires { length (contents_bytes opam.now files.now) < 2 ^ 32 }
    ensures spelled { OnOk result
        (out.new.items ≡ out.old.items ++ contents_bytes opam.now files.now) }
    ensures placed { OnOk result (All IsPlaced files.now) }
{
    push_long(out, opam)?;
    push_list(out, files)
}

fn push_request(
    out: &mut Vec<u8>,
    roots: &[Name],
    target: &[Entry],
    removals: &[Pkg],
) -> Result<(), OutOfMemory>
    requires { length (request_bytes roots.now target.now removals.now) < 2 ^ 32 }
    ensures spelled { OnOk result
        (out.new.items ≡ out.old.items ++ request_bytes roots.now target.now removals.now) }
    ensures valid { OnOk result (IsRequestValid roots.now target.now removals.now) }
{
    push_list(out, roots)?;
    push_list(out, target)?;
    push_list(out, removals)
}

// About how many bytes the record takes, so that it is not moved while it grows.
fn room_of(entry: &Rec) -> usize {
    let contents = match entry {
        Rec::Install { opam, files, .. } => opam
            .len()
            .saturating_add(room_of_files(files.as_slice())),
        Rec::PutBack { opam, files, .. } => opam
            .len()
            .saturating_add(room_of_files(files.as_slice())),
        Rec::Remove {
            kept: Some(kept),
            ..
        } => kept
            .opam
            .len()
            .saturating_add(room_of_files(kept.files.as_slice())),
        Rec::Begin { target, .. } => room_of_entries(target.as_slice()),
        _ => 0,
    };
    contents.saturating_add(512)
}

fn room_of_files(files: &[Placed]) -> usize {
    let mut room: usize = 0;
    for file in files {
        room = room
            .saturating_add(file.path.as_str().len())
            .saturating_add(file.bytes.len())
            .saturating_add(7);
    }
    room
}

fn room_of_entries(entries: &[Entry]) -> usize {
    let mut room: usize = 0;
    for entry in entries {
        room = room.saturating_add(entry.opam.len()).saturating_add(64);
    }
    room
}
