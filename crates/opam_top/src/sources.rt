// From where the files of a package come.
ghost use Rattle.std.specs.Prelude.{◌≡◌, ◌≤◌, ℕ, List, Option, Some, IfOk, IsTrue, length, map, string_bytes};
ghost use Rattle.std.specs.List.{list_all};
ghost use Rattle.std.specs.FinMap.{get};
ghost use Rattle.outside_io.specs.Shops.{IsSeen, Told};
ghost use Rattle.opam_top.specs.InstallTexts.{is_item};
ghost use Rattle.opam_top.specs.Placements.{bin_path, first_room, is_in_bin, paths_of, placed_from, source, total_bytes};

use crate::decision::Reason;
use crate::records::Placed;
use opam_names::{Items, OutOfMemory, RelPath};
use outside_io::{Job, Seen, Workshop};
use std::alloc::Global;

const FIRST_ROOM: u64 = 268435456;

// The files of the items, or why the first that cannot be had is not.
pub fn sources_of<W: Workshop>(
    alloc: Global,
    shop: &W,
    job: &Job,
    items: &[Items<u8>],
) -> Result<Result<Items<Placed>, Reason>, OutOfMemory>
    requires { IsTrue (list_all is_item items.now) }
    ensures paths { IfOk result (λ files. IfOk files (λ placed. paths_of placed ≡ map bin_path items.now)) }
    ensures in_bin { IfOk result (λ files. IfOk files (λ placed. IsTrue (list_all is_in_bin placed))) }
    ensures short { IfOk result (λ files. IfOk files (λ placed. total_bytes placed ≤ first_room)) }
    ensures told { (told : Told) → W.told shop.now ≡ Some told → IfOk result (λ files. files ≡ placed_from (told.files job.now) first_room items.now) }
{
    let mut files = Items::new(alloc);
    let mut room = FIRST_ROOM;
    for item in items {
        match source_of(alloc, shop, job, item.as_slice(), room)? {
            Err(reason) => return Ok(Err(reason)),
            Ok(file) => {
                room -= file.bytes.len() as u64;
                files.push(file)?;
            }
        }
    }
    Ok(Ok(files))
}

// The file of an item, if it has at most `room` bytes.
fn source_of<W: Workshop>(
    alloc: Global,
    shop: &W,
    job: &Job,
    item: &[u8],
    room: u64,
) -> Result<Result<Placed, Reason>, OutOfMemory>
    requires { IsTrue (is_item item.now) }
    ensures path { IfOk result (λ file. IfOk file (λ placed. placed.path ≡ bin_path item.now)) }
    ensures short { IfOk result (λ file. IfOk file (λ placed. length placed.bytes ≤ room)) }
    ensures told { (told : Told) → W.told shop.now ≡ Some told → IfOk result (λ file. file ≡ source item.now room (get (told.files job.now) item.now)) }
{
    let path = path_of_item(alloc, item)?;
    let seen = shop.read(alloc, job, &path, room)?;
    file_seen(alloc, item, seen, room)
}

// The file, where this is seen of it.
fn file_seen(
    alloc: Global,
    item: &[u8],
    seen: Seen,
    room: u64,
) -> Result<Result<Placed, Reason>, OutOfMemory>
    requires { IsTrue (is_item item.now) }
    ensures path { IfOk result (λ file. IfOk file (λ placed. placed.path ≡ bin_path item.now)) }
    ensures short { IfOk result (λ file. IfOk file (λ placed. length placed.bytes ≤ room)) }
    ensures told { (stood : Option (Option (List ℕ))) → IsSeen stood room seen → IfOk result (λ file. file ≡ source item.now room stood) }
{
    match seen {
        Seen::Bytes(bytes) => {
            if bytes.len() as u64 > room {
                return Ok(Err(Reason::FilesTooLong));
            }
            let path = path_below_bin(alloc, item)?;
            Ok(Ok(Placed {
                path,
                exec: true,
                bytes,
            }))
        }
        Seen::TooLong => Ok(Err(Reason::FilesTooLong)),
        Seen::Absent => Ok(Err(Reason::Missing(path_of_item(alloc, item)?))),
        Seen::Unreadable => Ok(Err(Reason::Unreadable(path_of_item(alloc, item)?))),
    }
}

fn path_of_item(alloc: Global, item: &[u8]) -> Result<RelPath, OutOfMemory>
    requires { IsTrue (is_item item.now) }
    ensures { IfOk result (λ path. path ≡ item.now) }
{
    RelPath::fixed(alloc, text_of_item(item))
}

fn path_below_bin(alloc: Global, item: &[u8]) -> Result<RelPath, OutOfMemory>
    requires { IsTrue (is_item item.now) }
    ensures { IfOk result (λ path. path ≡ bin_path item.now) }
{
    let text = text_below_bin(alloc, item)?;
    RelPath::fixed(alloc, text.as_str())
}

fn text_below_bin(alloc: Global, item: &[u8]) -> Result<String, OutOfMemory>
    requires { IsTrue (is_item item.now) }
    ensures { IfOk result (λ text. string_bytes text ≡ bin_path item.now) }
{
    let mut text = String::from_str(alloc, "bin/")?;
    text.push_str(text_of_item(item))?;
    Ok(text)
}

fn text_of_item(item: &[u8]) -> &str
    requires { IsTrue (is_item item.now) }
    ensures { result.now ≡ item.now }
{
    match str::from_utf8(item) {
        Ok(text) => text,
        Err(_) => unreachable!(),
    }
}
