// A list in the byte order of a key, with room made beforehand.
ghost use Rattle.std.specs.Prelude.{◌≡◌, ◌+◌, ◌<◌, ◌≤◌, [], length, filter, slice_get, slice_index_or, IfOk, OnOk};
ghost use Rattle.std.specs.List.{find};
ghost use Rattle.std.specs.Option.{option_copied};
ghost use Rattle.opam_names.specs.ByteOrders.{RisesBy, count_before, put_by};
ghost use Rattle.owner_map.specs.Owning.{is_of_another, paths_owned_by};
ghost use Rattle.owner_map.specs.Searching.{is_from};

use crate::OwnedPath;
use crate::chunk::{CHUNK_LIMIT, Chunk};
use crate::chunks::{
    chunk_for, chunk_from, count_all, drop_from_each, element, gather, make_room, paths_of, split,
};
use opam_names::{ByteKey, Items, OutOfMemory, Pkg, RelPath, count_before_bytes};
use std::alloc::Global;
use std::marker::Model;

/// A list in the byte order of a key, which contracts see with its room: how many more elements it takes without memory. It
/// is kept in chunks, so that an addition moves few elements.
#[derive(Drop)]
pub(crate) struct SortedList<T> {
    chunks: Vec<Chunk<T>>,
    used: usize,
    len: usize,
    room: usize,
    alloc: Global,
}

impl<T> Model for SortedList<T> {
    ghost use Rattle.opam_names.specs.Buffers.{Buffered, coded_buffered};
    ghost use Rattle.owner_map.specs.Chunks.{AreChunks, joined};

    ghost Value = { Buffered T };

    ghost coded = { coded_buffered T.code };

    ghost view = { λ b. record { items = joined b.chunks.items; room = b.room } };

    ghost invariant = { λ b. AreChunks b.chunks.items b.used b.len b.room };
}

impl<T> SortedList<T> {
    pub(crate) fn new(alloc: Global) -> SortedList<T>
        ensures { result.items ≡ [] }
    {
        SortedList {
            chunks: Vec::new(alloc),
            used: 0,
            len: 0,
            room: 0,
            alloc,
        }
    }

    pub(crate) fn len(&self) -> usize
        ensures { result ≡ length self.now.items }
    {
        self.len
    }

    pub(crate) fn room(&self) -> usize
        ensures { result ≡ self.now.room }
    {
        self.room
    }

    pub(crate) fn at(&self, place: usize) -> &T
        requires { place < length self.now.items }
        ensures { slice_get self.now.items place ≡ Some result.now }
    {
        element(self.chunks.as_slice(), place)
    }
}

impl<T: Drop> SortedList<T> {
    /// Makes room for so many more elements.
    pub(crate) fn reserve(&mut self, more: usize) -> Result<(), OutOfMemory>
        ensures ok { OnOk result (more ≤ self.new.room) }
        ensures items { self.new.items ≡ self.old.items }
        ensures kept { self.old.room ≤ self.new.room }
    {
        if more <= self.room {
            return Ok(());
        }
        if more > usize::MAX - self.len {
            return Err(OutOfMemory);
        }
        make_room(&mut self.chunks, self.used, more, self.alloc)?;
        self.room = more;
        Ok(())
    }
}

impl<T: ByteKey + Drop> SortedList<T> {
    /// How many elements stand before this text.
    pub(crate) fn place(&self, text: &[u8]) -> usize
        requires { RisesBy T.key self.now.items }
        ensures value { result ≡ count_before T.key text.now self.now.items }
        ensures within { result ≤ length self.now.items }
    {
        let at = chunk_from(self.chunks.as_slice(), self.used, text);
        let (front, back) = self.chunks.as_slice().split_at(at);
        count_all(front) + count_first(back, text)
    }

    /// The first element that does not stand before this text.
    pub(crate) fn first_from(&self, text: &[u8]) -> Option<&T>
        requires { RisesBy T.key self.now.items }
        ensures { option_copied result ≡ find (is_from T.key text.now) self.now.items }
    {
        let at = chunk_from(self.chunks.as_slice(), self.used, text);
        if at == self.chunks.len() {
            return None;
        }
        let items = self.chunks[at].as_slice();
        let place = count_before_bytes(items, text);
        items.get(place)
    }

    /// Puts an element where it stands in the order. Takes no memory.
    pub(crate) fn put(&mut self, item: T)
        requires room { 0 < self.old.room }
        requires rises { RisesBy T.key self.old.items }
        ensures items { self.new.items ≡ put_by T.key item self.old.items }
        ensures room { self.new.room + 1 ≡ self.old.room }
    {
        let at = chunk_for(self.chunks.as_slice(), self.used, item.key());
        self.chunks[at].put(item);
        let size = self.chunks[at].len();
        self.used = self.used.max(1);
        self.len += 1;
        self.room -= 1;
        if size == CHUNK_LIMIT {
            split(&mut self.chunks, at);
            self.used += 1;
        }
    }
}

impl SortedList<OwnedPath> {
    /// The paths that a package owns.
    pub(crate) fn paths_of(&self, owner: &Pkg) -> Result<Items<RelPath>, OutOfMemory>
        ensures { IfOk result (λ paths. paths ≡ paths_owned_by owner.now self.now.items) }
    {
        paths_of(self.chunks.as_slice(), owner, self.alloc)
    }

    /// Drops what a package owns: how many paths that were.
    pub(crate) fn drop_owner(&mut self, owner: &Pkg) -> usize
        ensures items { self.new.items ≡ filter (is_of_another owner.now) self.old.items }
        ensures count { result + length self.new.items ≡ length self.old.items }
        ensures room { self.old.room ≤ self.new.room }
    {
        let count = drop_from_each(&mut self.chunks, owner);
        self.used = gather(&mut self.chunks, self.used);
        self.len -= count;
        count
    }
}

// How many elements of the first chunk stand before this text.
fn count_first<T: ByteKey>(chunks: &[Chunk<T>], text: &[u8]) -> usize
    requires { RisesBy T.key (slice_index_or chunks.now 0 []) }
    ensures value { result ≡ count_before T.key text.now (slice_index_or chunks.now 0 []) }
    ensures within { result ≤ length (slice_index_or chunks.now 0 []) }
{
    match chunks.first() {
        Some(chunk) => count_before_bytes(chunk.as_slice(), text),
        None => 0,
    }
}
