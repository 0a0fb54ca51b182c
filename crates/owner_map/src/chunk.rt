// A part of a sorted list, with room for a fixed number of elements.
ghost use Rattle.std.specs.Prelude.{◌≡◌, ◌+◌, ◌<◌, ◌≤◌, [], ◌++◌, drop, filter, insert, length, take, IfOk, OnOk};
ghost use Rattle.opam_names.specs.ByteOrders.{RisesBy, put_by};
ghost use Rattle.owner_map.specs.Chunks.{ends_before};
ghost use Rattle.owner_map.specs.Owning.{is_of_another, paths_owned_by};

use crate::OwnedPath;
use opam_names::{ByteKey, Items, OutOfMemory, Pkg, RelPath, count_before_bytes};
use std::alloc::Global;
use std::marker::Model;

/// How many elements a chunk has room for.
pub(crate) const CHUNK_LIMIT: usize = 512;

/// How many a chunk keeps that is split.
pub(crate) const CHUNK_HALF: usize = 256;

/// A list of at most [`CHUNK_LIMIT`] elements, which has room for so many.
#[derive(Drop)]
pub(crate) struct Chunk<T> {
    inner: Vec<T>,
}

impl<T> Model for Chunk<T> {
    ghost use Rattle.std.specs.Prelude.{List, ◌≤◌};
    ghost use Rattle.std.specs.Coded.{coded_list};
    ghost use Rattle.std.specs.Vec.{vec_capacity};
    ghost use Rattle.owner_map.specs.declared.chunk.TheConstants.{CHUNK_LIMIT};

    ghost Value = { List T };

    ghost coded = { coded_list T.code };

    ghost view = { λ c. c.inner.items };

    ghost invariant = { λ c. CHUNK_LIMIT ≤ vec_capacity c.inner };
}

impl<T> Chunk<T> {
    pub(crate) fn new(alloc: Global) -> Result<Chunk<T>, OutOfMemory>
        ensures { IfOk result (λ chunk. chunk ≡ []) }
    {
        Ok(Chunk {
            inner: Vec::with_capacity(alloc, CHUNK_LIMIT)?,
        })
    }

    pub(crate) fn as_slice(&self) -> &[T]
        ensures { result.now ≡ self.now }
    {
        self.inner.as_slice()
    }

    pub(crate) fn len(&self) -> usize
        ensures { result ≡ length self.now }
    {
        self.inner.len()
    }
}

impl<T: Drop> Chunk<T> {
    // Takes no memory.
    fn insert(&mut self, place: usize, item: T)
        requires within { place ≤ length self.old }
        requires room { length self.old < CHUNK_LIMIT }
        ensures { self.new ≡ insert self.old place item }
    {
        match self.inner.insert(place, item) {
            Ok(()) => {}
            // There is room, so nothing is refused.
            Err(_) => {}
        }
    }

    /// Moves the elements beyond the half to another chunk, which is empty.
    pub(crate) fn move_half(&mut self, other: &mut Chunk<T>)
        requires full { length self.old ≡ CHUNK_LIMIT }
        requires empty { length other.old ≡ 0 }
        ensures kept { self.new ≡ take CHUNK_HALF self.old }
        ensures moved { other.new ≡ drop CHUNK_HALF self.old }
    {
        for _ in 0..CHUNK_HALF {
            match self.inner.pop() {
                Some(item) => other.insert(0, item),
                None => {}
            }
        }
    }
}

impl<T: ByteKey + Drop> Chunk<T> {
    /// Puts an element where it stands in the order. Takes no memory.
    pub(crate) fn put(&mut self, item: T)
        requires room { length self.old < CHUNK_LIMIT }
        requires rises { RisesBy T.key self.old }
        ensures { self.new ≡ put_by T.key item self.old }
    {
        let place = count_before_bytes(self.inner.as_slice(), item.key());
        self.insert(place, item);
    }

    /// Whether the last element stands before this text.
    pub(crate) fn ends_before(&self, text: &[u8]) -> bool
        ensures { result ≡ ends_before T.key text.now self.now }
    {
        match self.inner.as_slice().last() {
            Some(item) => item.key().cmp(text).is_lt(),
            None => false,
        }
    }
}

impl Chunk<OwnedPath> {
    /// Adds the paths that the package owns.
    pub(crate) fn add_paths(
        &self,
        paths: &mut Items<RelPath>,
        owner: &Pkg,
        alloc: Global,
    ) -> Result<(), OutOfMemory>
        ensures { OnOk result (paths.new ≡ paths.old ++ paths_owned_by owner.now self.now) }
    {
        for entry in self.as_slice() {
            if entry.owner.name == owner.name && entry.owner.version == owner.version {
                paths.push(entry.path.copy(alloc)?)?;
            }
        }
        Ok(())
    }

    /// Drops what a package owns: how many paths that were.
    pub(crate) fn drop_owner(&mut self, owner: &Pkg) -> usize
        ensures items { self.new ≡ filter (is_of_another owner.now) self.old }
        ensures count { result + length self.new ≡ length self.old }
    {
        let before = self.inner.len();
        self.inner.retain(|entry| {
            !(entry.owner.name == owner.name && entry.owner.version == owner.version)
        });
        before - self.inner.len()
    }
}
