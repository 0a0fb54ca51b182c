// Who owns the paths of a switch.
ghost use Rattle.std.specs.Prelude.{◌≡◌, ◌+◌, ◌<◌, ◌≤◌, [], false, filter, not, length, slice_get, slice_index_or, take, IfNone, IfOk, IfSome, OnOk};
ghost use Rattle.std.specs.List.{list_any};
ghost use Rattle.std.specs.Option.{option_copied};
ghost use Rattle.opam_names.specs.ByteOrders.{count_before, put_by};
ghost use Rattle.path_order.specs.Apart.{AreApart, meets};
ghost use Rattle.owner_map.specs.Clashes.{IsClash, IsFree, IsLeastMet, NoneClash};
ghost use Rattle.owner_map.specs.Owning.{is_of_another, owned_by, owner_of, path_of, paths_of, paths_owned_by};
ghost use Rattle.owner_map.specs.Searching.{Gathers, below_bound};
ghost use Rattle.owner_map.specs.declared.clash.Other.TheVariants.{Owned};

use crate::clash::{Clash, Other};
use crate::earlier::Place;
use crate::meeting::{find_met, find_text};
use crate::owned::OwnedPath;
use crate::sorted_list::SortedList;
use opam_names::{ByteKey, Items, OutOfMemory, Pkg, RelPath};
use path_order::stands_before;
use std::alloc::Global;
use std::marker::Model;

/// The owned paths of a switch in byte order, none above another, each with the package that owns it; and `spare`, how
/// many more are added without memory.
#[derive(Drop)]
pub struct Owners {
    list: SortedList<OwnedPath>,
    alloc: Global,
}

impl Model for Owners {
    ghost use Rattle.owner_map.specs.Owning.{Owning, paths_of};
    ghost use Rattle.path_order.specs.Apart.{AreApart};

    ghost Value = { Owning };

    ghost view = { λ o. record { owned = o.list.items; spare = o.list.room } };

    ghost invariant = { λ o. AreApart (paths_of o.list.items) };
}

impl Owners {
    /// Nothing is owned. The allocator is kept.
    pub fn empty(alloc: Global) -> Owners
        ensures { result.owned ≡ [] }
    {
        Owners {
            list: SortedList::new(alloc),
            alloc,
        }
    }

    /// Who owns the path, found by halves.
    pub fn owner(&self, path: &RelPath) -> Option<&Pkg>
        ensures { option_copied result ≡ owner_of path.now self.now.owned }
    {
        match find_text(&self.list, path.as_str().as_bytes()) {
            Some(entry) => Some(&entry.owner),
            None => None,
        }
    }

    /// How many paths are owned.
    pub fn len(&self) -> usize
        ensures { result ≡ length self.now.owned }
    {
        self.list.len()
    }

    /// Whoever holds owners knows that no owned path is above another.
    pub fn stand_apart(&self)
        ensures { AreApart (paths_of self.now.owned) }
    {
        let _list = &self.list;
    }

    /// The path at this place in byte order, and its owner.
    pub fn at(&self, i: usize) -> (&RelPath, &Pkg)
        requires { i < length self.now.owned }
        ensures { slice_get self.now.owned i ≡ Some (owned_by result.0.now result.1.now) }
    {
        let entry = self.list.at(i);
        (&entry.path, &entry.owner)
    }

    /// The paths that the package owns, in byte order. The list is walked once.
    pub fn paths_of(&self, owner: &Pkg) -> Result<Items<RelPath>, OutOfMemory>
        ensures { IfOk result (λ paths. paths ≡ paths_owned_by owner.now self.now.owned) }
    {
        self.list.paths_of(owner)
    }

    /// The first of new paths that is the same as an owned path or an earlier new one, above it or below it; and which
    /// path that is: the least in byte order, of equal ones the owned one. Found by halves.
    pub fn clash(&self, paths: &[RelPath]) -> Result<Option<Clash>, OutOfMemory>
        ensures some { IfOk result (λ found. IfSome found (IsClash (paths_of self.now.owned) paths.now)) }
        ensures none { IfOk result (λ found.
            IfNone found (NoneClash (paths_of self.now.owned) paths.now (length paths.now))) }
    {
        let mut earlier = SortedList::new(self.alloc);
        earlier.reserve(paths.len())?;
        for index in 0..paths.len() {
            match self.other_met(&earlier, paths, index)? {
                Some(other) => return Ok(Some(Clash { index, other })),
                None => {}
            }
            earlier.put(Place {
                path: paths[index].copy(self.alloc)?,
                index,
            });
        }
        Ok(None)
    }

    /// Whether the path meets no owned one.
    pub fn is_free(&self, path: &RelPath) -> Result<bool, OutOfMemory>
        ensures { IfOk result (λ free.
            list_any (meets path.now) (paths_of self.now.owned) ≡ not free) }
    {
        let text = path.as_str().as_bytes();
        let bound = bound_below(self.alloc, text)?;
        match find_met(&self.list, text, &bound) {
            Some(_) => Ok(false),
            None => Ok(true),
        }
    }

    // The least path that the new path at this place meets. The earlier ones stand in byte order.
    fn other_met(
        &self,
        earlier: &SortedList<Place>,
        paths: &[RelPath],
        index: usize,
    ) -> Result<Option<Other>, OutOfMemory>
        requires within { index < length paths.now }
        requires earlier { Gathers paths.now index earlier.now.items }
        ensures some { IfOk result (λ found. IfSome found (IsLeastMet
            (paths_of self.now.owned) (take index paths.now) (slice_index_or paths.now index []))) }
        ensures none { IfOk result (λ found. IfNone found (IsFree
            (paths_of self.now.owned) (take index paths.now) (slice_index_or paths.now index []))) }
    {
        let text = paths[index].as_str().as_bytes();
        let bound = bound_below(self.alloc, text)?;
        let owned = find_met(&self.list, text, &bound);
        let place = find_met(earlier, text, &bound);
        match (owned, place) {
            (None, None) => Ok(None),
            (None, Some(place)) => Ok(Some(Other::Earlier(place.index))),
            (Some(entry), None) => Ok(Some(self.named(entry))),
            (Some(entry), Some(place)) => {
                let before = stands_before(place.key(), entry.key());
                if before {
                    Ok(Some(Other::Earlier(place.index)))
                } else {
                    Ok(Some(self.named(entry)))
                }
            }
        }
    }

    // The owned path of this entry, by its place.
    fn named(&self, entry: &OwnedPath) -> Other
        ensures { result ≡ Owned (count_before path_of entry.now.path self.now.owned) }
    {
        Other::Owned(self.list.place(entry.key()))
    }

    /// How many more paths are added without memory.
    pub fn spare(&self) -> usize
        ensures { result ≡ self.now.spare }
    {
        self.list.room()
    }

    /// Makes room for so many more paths.
    pub fn reserve(&mut self, n: usize) -> Result<(), OutOfMemory>
        ensures ok { OnOk result (n ≤ self.new.spare) }
        ensures owned { self.new.owned ≡ self.old.owned }
        ensures kept { self.old.spare ≤ self.new.spare }
    {
        self.list.reserve(n)
    }

    /// Adds a path that meets no owned one. Takes no memory.
    pub fn add(&mut self, path: RelPath, owner: Pkg)
        requires spare { 0 < self.old.spare }
        requires free { list_any (meets path) (paths_of self.old.owned) ≡ false }
        ensures owned { self.new.owned ≡ put_by path_of (owned_by path owner) self.old.owned }
        ensures spare { self.new.spare + 1 ≡ self.old.spare }
    {
        self.list.put(OwnedPath { path, owner });
    }

    /// Drops the paths that the package owns: how many they were. Takes no memory.
    pub fn drop_owner(&mut self, owner: &Pkg) -> usize
        ensures owned { self.new.owned ≡ filter (is_of_another owner.now) self.old.owned }
        ensures count { result + length self.new.owned ≡ length self.old.owned }
        ensures spare { self.old.spare ≤ self.new.spare }
    {
        self.list.drop_owner(owner)
    }
}

// The least text that a path below this one can have, or less.
fn bound_below(alloc: Global, text: &[u8]) -> Result<Vec<u8>, OutOfMemory>
    ensures { IfOk result (λ bound. bound.items ≡ below_bound text.now) }
{
    let mut bound = Vec::from_slice(alloc, text)?;
    bound.push(b'/')?;
    bound.push(0)?;
    Ok(bound)
}
