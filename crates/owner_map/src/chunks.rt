// The chunks of a sorted list: those with elements stand first.
ghost use Rattle.std.specs.Prelude.{◌≡◌, ◌+◌, ◌-◌, ◌*◌, ◌^◌, ◌<◌, ◌≤◌, [], drop, filter, insert, length, map, max, slice_get, slice_index_or, slice_set, take, IfOk, OnOk};
ghost use Rattle.opam_names.specs.ByteOrders.{RisesBy, put_by};
ghost use Rattle.owner_map.specs.Chunks.{AllEmpty, AllShort, IsRoomFor, Shaped, chunk_for, chunk_from, debt, joined, split_off};
ghost use Rattle.owner_map.specs.Owning.{is_of_another, paths_owned_by};

use crate::OwnedPath;
use crate::chunk::{CHUNK_HALF, CHUNK_LIMIT, Chunk};
use opam_names::{ByteKey, Items, OutOfMemory, Pkg, RelPath};
use std::alloc::Global;

/// The chunk in which the first element stands that does not stand before this text.
pub(crate) fn chunk_from<T: ByteKey + Drop>(chunks: &[Chunk<T>], used: usize, text: &[u8]) -> usize
    requires shaped { Shaped used chunks.now }
    requires rises { RisesBy T.key (joined chunks.now) }
    ensures value { result ≡ chunk_from T.key text.now chunks.now }
    ensures within { result ≤ length chunks.now }
{
    chunks.partition_point(|chunk| chunk.ends_before(text))
}

/// The chunk into which an element with this text is put: that one, or the last that has elements.
pub(crate) fn chunk_for<T: ByteKey + Drop>(chunks: &[Chunk<T>], used: usize, text: &[u8]) -> usize
    requires shaped { Shaped used chunks.now }
    requires rises { RisesBy T.key (joined chunks.now) }
    ensures { result ≡ chunk_for T.key text.now used chunks.now }
{
    chunk_from(chunks, used, text).min(used.saturating_sub(1))
}

/// How many elements the chunks have.
pub(crate) fn count_all<T>(chunks: &[Chunk<T>]) -> usize
    requires { length (joined chunks.now) < 2 ^ 64 }
    ensures { result ≡ length (joined chunks.now) }
{
    let mut count = 0;
    for i in 0..chunks.len() {
        count += chunks[i].len();
    }
    count
}

/// The element at this place.
pub(crate) fn element<T>(chunks: &[Chunk<T>], place: usize) -> &T
    requires { place < length (joined chunks.now) }
    ensures { slice_get (joined chunks.now) place ≡ Some result.now }
{
    let mut at = 0;
    let mut rest = place;
    while rest >= chunks[at].len() {
        rest -= chunks[at].len();
        at += 1;
    }
    &chunks[at].as_slice()[rest]
}

// How many chunks have more than the half.
fn count_heavy<T>(chunks: &[Chunk<T>], used: usize) -> usize
    requires { Shaped used chunks.now }
    ensures debt { debt chunks.now ≤ result * CHUNK_HALF }
    ensures within { result ≤ length chunks.now }
{
    let mut heavy = 0;
    for i in 0..chunks.len() {
        if chunks[i].len() > CHUNK_HALF {
            heavy += 1;
        }
    }
    heavy
}

/// Makes empty chunks for so many more elements.
pub(crate) fn make_room<T: Drop>(
    chunks: &mut Vec<Chunk<T>>,
    used: usize,
    more: usize,
    alloc: Global,
) -> Result<(), OutOfMemory>
    requires { Shaped used chunks.old.items }
    ensures ok { OnOk result (IsRoomFor chunks.new.items used more) }
    ensures shaped { Shaped used chunks.new.items }
    ensures joined { joined chunks.new.items ≡ joined chunks.old.items }
    ensures debt { debt chunks.new.items ≡ debt chunks.old.items }
    ensures kept { length chunks.old.items ≤ length chunks.new.items }
{
    let need = count_heavy(chunks.as_slice(), used) + more / CHUNK_HALF + 2;
    add_empty(chunks, used, need, alloc)
}

// Adds empty chunks until so many are unused, or one less.
fn add_empty<T: Drop>(
    chunks: &mut Vec<Chunk<T>>,
    used: usize,
    need: usize,
    alloc: Global,
) -> Result<(), OutOfMemory>
    requires { Shaped used chunks.old.items }
    ensures ok { OnOk result (need ≤ length chunks.new.items + 1 - max used 1) }
    ensures shaped { Shaped used chunks.new.items }
    ensures joined { joined chunks.new.items ≡ joined chunks.old.items }
    ensures debt { debt chunks.new.items ≡ debt chunks.old.items }
    ensures kept { length chunks.old.items ≤ length chunks.new.items }
{
    for _ in chunks.len().saturating_sub(used)..need {
        chunks.push(Chunk::new(alloc)?)?;
    }
    Ok(())
}

/// Moves the upper half of a full chunk to an empty one, and that one behind it. Takes no memory.
pub(crate) fn split<T: Drop>(chunks: &mut Vec<Chunk<T>>, at: usize)
    requires within { at + 1 < length chunks.old.items }
    requires full { length (slice_index_or chunks.old.items at []) ≡ CHUNK_LIMIT }
    requires empty { length (slice_index_or chunks.old.items (length chunks.old.items - 1) []) ≡ 0 }
    ensures { chunks.new.items ≡ split_off at chunks.old.items }
{
    match chunks.pop() {
        Some(spare) => {
            let mut upper = spare;
            chunks[at].move_half(&mut upper);
            match chunks.insert(at + 1, upper) {
                Ok(()) => {}
                // The place that was left is there.
                Err(_) => {}
            }
        }
        None => {}
    }
}

/// The paths that a package owns, in the order of the list.
pub(crate) fn paths_of(
    chunks: &[Chunk<OwnedPath>],
    owner: &Pkg,
    alloc: Global,
) -> Result<Items<RelPath>, OutOfMemory>
    ensures { IfOk result (λ paths. paths ≡ paths_owned_by owner.now (joined chunks.now)) }
{
    let mut paths = Items::new(alloc);
    for chunk in chunks {
        chunk.add_paths(&mut paths, owner, alloc)?;
    }
    Ok(paths)
}

/// Drops what a package owns from each chunk: how many paths that were.
pub(crate) fn drop_from_each(chunks: &mut Vec<Chunk<OwnedPath>>, owner: &Pkg) -> usize
    requires { length (joined chunks.old.items) < 2 ^ 64 }
    ensures items { chunks.new.items ≡ map (filter (is_of_another owner.now)) chunks.old.items }
    ensures count { result + length (joined chunks.new.items) ≡ length (joined chunks.old.items) }
{
    let mut count = 0;
    for i in 0..chunks.len() {
        count += chunks[i].drop_owner(owner);
    }
    count
}

/// Moves the chunks with elements to the front, in their order: how many there are. The first `used` are looked at, and
/// the others are empty.
pub(crate) fn gather<T>(chunks: &mut Vec<Chunk<T>>, used: usize) -> usize
    requires short { AllShort chunks.old.items }
    requires empty { AllEmpty (drop used chunks.old.items) }
    requires within { used ≤ length chunks.old.items }
    ensures shaped { Shaped result chunks.new.items }
    ensures less { result ≤ used }
    ensures joined { joined chunks.new.items ≡ joined chunks.old.items }
    ensures debt { debt chunks.new.items ≡ debt chunks.old.items }
    ensures length { length chunks.new.items ≡ length chunks.old.items }
{
    let mut filled = 0;
    for i in 0..used {
        if chunks[i].len() > 0 {
            if filled < i {
                chunks.swap(filled, i);
            }
            filled += 1;
        }
    }
    filled
}
