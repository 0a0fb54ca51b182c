// What is known of one path of a disk in memory, and the changes that leave on a copy of it what an image has.
ghost use Rattle.std.specs.Prelude.{◌≡◌, ◌++◌, Some, IfOk, OnOk};
ghost use Rattle.crash_disk.specs.Log.{PlacesAt, until};
ghost use Rattle.crash_disk.specs.Spots.{bytes_in, changed_spot, image_file, junk_file, spot_at, spot_by, tried_spot};
ghost use Rattle.crash_disk.specs.Traces.{file_of, spot_of};

use crate::changes::{Change, Entry, Listed, find_first, make_put, make_removed};
use opam_names::{OutOfMemory, RelPath};
use std::alloc::Global;

/// What a stop leaves at each path that was put or removed since the last sync: the file that this sync left, the file that
/// the last put or removal made (a failed one too), none, or a file of other bytes.
#[derive(Clone, Copy, Debug, PartialEq, Eq)]
pub enum Choice {
    Before,
    After,
    Gone,
    Junk,
}

// The files at a path: what a read gives, what the last sync left, what the last put or removal made.
#[derive(Clone, Copy)]
pub(crate) struct Trace<'a> {
    pub(crate) here: Option<&'a Listed>,
    pub(crate) before: Option<&'a Listed>,
    pub(crate) after: Option<&'a Listed>,
    pub(crate) loose: bool,
}

// A put or a removal that was done.
fn done<'a>(trace: Trace<'a>, file: Option<&'a Listed>) -> Trace<'a>
    ensures { spot_of result ≡ changed_spot (file_of file.entry) (spot_of trace.entry) }
{
    Trace {
        here: file,
        before: trace.before,
        after: file,
        loose: true,
    }
}

// One that failed.
fn tried<'a>(trace: Trace<'a>, file: Option<&'a Listed>) -> Trace<'a>
    ensures { spot_of result ≡ tried_spot (file_of file.entry) (spot_of trace.entry) }
{
    Trace {
        here: trace.here,
        before: trace.before,
        after: file,
        loose: true,
    }
}

fn trace_by<'a>(change: &'a Change, path: &RelPath, trace: Trace<'a>) -> Trace<'a>
    ensures { spot_of result ≡ spot_by change.now path.now (spot_of trace.entry) }
{
    match change {
        Change::Put(listed) => {
            if path.as_str() == listed.0.as_str() {
                done(trace, Some(listed))
            } else {
                trace
            }
        }
        Change::Removed(gone) => {
            if path.as_str() == gone.as_str() {
                done(trace, None)
            } else {
                trace
            }
        }
        Change::FailedPut(listed) => {
            if path.as_str() == listed.0.as_str() {
                tried(trace, Some(listed))
            } else {
                trace
            }
        }
        Change::FailedRemoval(gone) => {
            if path.as_str() == gone.as_str() {
                tried(trace, None)
            } else {
                trace
            }
        }
        Change::Loosened(at) => {
            if path.as_str() == at.as_str() {
                tried(trace, trace.after)
            } else {
                trace
            }
        }
        Change::Synced => Trace {
            here: trace.here,
            before: trace.here,
            after: trace.here,
            loose: false,
        },
    }
}

// What is known of a path at a moment.
pub(crate) fn trace_at<'a>(
    first: &'a [Listed],
    log: &'a [Entry],
    moment: u64,
    path: &RelPath,
) -> Trace<'a>
    ensures { spot_of result ≡ spot_at first.now (until moment log.now) path.now }
{
    let file = find_first(first, path);
    let mut trace = Trace {
        here: file,
        before: file,
        after: file,
        loose: false,
    };
    let mut rest = log;
    while let [entry, after @ ..] = rest {
        if entry.moment <= moment {
            trace = trace_by(&entry.change, path, trace);
        }
        rest = after;
    }
    trace
}

// The change that leaves this file, or none, at the path.
fn make_placed(alloc: Global, path: &RelPath, file: Option<&Listed>) -> Result<Change, OutOfMemory>
    ensures { IfOk result (λ change. PlacesAt path.now (file_of file.entry) change) }
{
    match file {
        Some(listed) => make_put(alloc, path, listed.1.as_slice(), listed.2),
        None => make_removed(alloc, path),
    }
}

fn append_bytes(bytes: &mut Vec<u8>, file: Option<&Listed>) -> Result<(), OutOfMemory>
    ensures { OnOk result (bytes.new.items ≡ bytes.old.items ++ bytes_in (file_of file.entry)) }
{
    match file {
        Some(listed) => {
            bytes.extend_from_slice(listed.1.as_slice())?;
            Ok(())
        }
        None => Ok(()),
    }
}

fn make_junk(alloc: Global, path: &RelPath, trace: Trace) -> Result<Change, OutOfMemory>
    ensures { IfOk result (λ change.
        PlacesAt path.now (Some (junk_file (spot_of trace.entry))) change) }
{
    let mut bytes = Vec::new(alloc);
    append_bytes(&mut bytes, trace.before)?;
    append_bytes(&mut bytes, trace.after)?;
    bytes.push(0)?;
    make_put(alloc, path, bytes.as_slice(), false)
}

// The change that leaves what an image has at the path.
pub(crate) fn make_chosen(
    alloc: Global,
    path: &RelPath,
    choice: Choice,
    trace: Trace,
) -> Result<Change, OutOfMemory>
    ensures { IfOk result (λ change.
        PlacesAt path.now (image_file choice (spot_of trace.entry)) change) }
{
    if !trace.loose {
        return make_placed(alloc, path, trace.here);
    }
    match choice {
        Choice::Before => make_placed(alloc, path, trace.before),
        Choice::After => make_placed(alloc, path, trace.after),
        Choice::Gone => make_removed(alloc, path),
        Choice::Junk => make_junk(alloc, path, trace),
    }
}
