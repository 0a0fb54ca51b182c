// A list with room made beforehand.
ghost use Rattle.std.specs.Prelude.{◌≡◌, ◌+◌, ◌<◌, ◌≤◌, [], ◌∷◌, ◌++◌, length, take, OnErr, OnOk};

use crate::{Items, OutOfMemory};
use std::alloc::Global;
use std::marker::Model;

/// A list that contracts see with its room: how many more elements it takes without memory.
#[derive(Drop)]
pub struct Buffer<T> {
    inner: Vec<T>,
}

impl<T> Model for Buffer<T> {
    ghost use Rattle.std.specs.Prelude.{◌-◌};
    ghost use Rattle.std.specs.Vec.{vec_capacity, vec_len};
    ghost use Rattle.opam_names.specs.Buffers.{Buffered, coded_buffered};

    ghost Value = { Buffered T };

    ghost coded = { coded_buffered T.code };

    ghost view = { λ b. record { items = b.inner.items; room = vec_capacity b.inner - vec_len b.inner } };
}

impl<T> Buffer<T> {
    pub fn new(alloc: Global) -> Buffer<T>
        ensures { result.items ≡ [] }
    {
        Buffer {
            inner: Vec::new(alloc),
        }
    }

    /// Takes no memory.
    pub fn from_items(items: Items<T>) -> Buffer<T>
        ensures { result.items ≡ items }
    {
        Buffer {
            inner: items.into_vec(),
        }
    }

    /// Takes no memory.
    pub fn into_items(self) -> Items<T>
        ensures { result ≡ self.items }
    {
        let Buffer { inner } = self;
        Items::from_vec(inner)
    }

    pub fn as_slice(&self) -> &[T]
        ensures { result.now ≡ self.now.items }
    {
        self.inner.as_slice()
    }

    pub fn len(&self) -> usize
        ensures { result ≡ length self.now.items }
    {
        self.inner.len()
    }

    /// Makes room for so many more elements.
    pub fn reserve(&mut self, more: usize) -> Result<(), OutOfMemory>
        ensures ok { OnOk result (more ≤ self.new.room) }
        ensures items { self.new.items ≡ self.old.items }
        ensures kept { self.old.room ≤ self.new.room }
    {
        self.inner.reserve(more)?;
        Ok(())
    }

    /// Takes no memory.
    pub fn push(&mut self, item: T)
        requires { 0 < self.old.room }
        ensures items { self.new.items ≡ self.old.items ++ item ∷ [] }
        ensures room { self.new.room + 1 ≡ self.old.room }
    {
        self.inner.push_reserved(item);
    }
}

impl<T: Drop> Buffer<T> {
    /// Keeps the first `len` elements, and the room that they leave.
    pub fn truncate(&mut self, len: usize)
        ensures items { self.new.items ≡ take len self.old.items }
        ensures room { self.old.room ≤ self.new.room }
    {
        self.inner.truncate(len);
    }
}
