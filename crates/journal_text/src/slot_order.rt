// Whether the parts of a slot stand in the order that the format asks for.
ghost use Rattle.std.specs.Prelude.{◌≡◌, ◌↔◌, ◌&&◌, IfOk, IsTrue, length, map};
ghost use Rattle.std.specs.List.{list_all};
ghost use Rattle.opam_names.specs.ByteOrders.{NeverFallsBy, in_order_by};
ghost use Rattle.journal_text.specs.Parts.{AreFree, own_name};
ghost use Rattle.journal_text.specs.Slots.{AreNamesInOrder, IsSlotInOrder, entry_names, has_owner, is_among, owned_paths};

use crate::order::are_free;
use crate::record::Entry;
use crate::slot::{Owned, Snapshot};
use opam_names::{ByteKey, Name, OutOfMemory, has_bytes, rises_by_bytes, sort_by_bytes};
use std::alloc::Global;

pub(crate) fn is_slot_in_order(alloc: Global, slot: &Snapshot) -> Result<bool, OutOfMemory>
    ensures { IfOk result (λ yes. IsTrue yes ↔ IsSlotInOrder slot.now) }
{
    let free = owned_are_free(alloc, slot.owned.as_slice())?;
    let among = owners_are_among(slot.owned.as_slice(), slot.entries.len());
    let named = are_names_in_order(alloc, slot.entries.as_slice(), slot.roots.as_slice())?;
    Ok(free && among && named)
}

fn owned_are_free(alloc: Global, owned: &[Owned]) -> Result<bool, OutOfMemory>
    ensures { IfOk result (λ yes. IsTrue yes ↔ AreFree (owned_paths owned.now)) }
{
    are_free(alloc, owned)
}

fn owners_are_among(owned: &[Owned], count: usize) -> bool
    ensures { result ≡ list_all (has_owner count) owned.now }
{
    for item in owned {
        if item.owner as usize >= count {
            return false;
        }
    }
    true
}

fn are_names_in_order(alloc: Global, entries: &[Entry], roots: &[Name]) -> Result<bool, OutOfMemory>
    ensures { IfOk result (λ yes.
        IsTrue yes ↔ AreNamesInOrder (entry_names entries.now) roots.now) }
{
    let sorted = sorted_names(alloc, entries)?;
    let names = sorted.as_slice();
    let differ = rises_by_bytes(names);
    let rise = rises_by_bytes(roots);
    let among = are_among(names, roots);
    Ok(all_hold(differ, rise, among))
}

fn all_hold(differ: bool, rise: bool, among: bool) -> bool
    ensures { result ≡ (differ && rise && among) }
{
    differ && rise && among
}

// The names of the entries in byte order.
fn sorted_names(alloc: Global, entries: &[Entry]) -> Result<Vec<Name>, OutOfMemory>
    ensures { IfOk result (λ names.
        names.items ≡ in_order_by own_name (entry_names entries.now)) }
{
    let mut names = names_of_entries(alloc, entries)?;
    sort_by_bytes(&mut names)?;
    Ok(names)
}

fn names_of_entries(alloc: Global, entries: &[Entry]) -> Result<Vec<Name>, OutOfMemory>
    ensures { IfOk result (λ names. names.items ≡ entry_names entries.now) }
{
    let mut names = Vec::new(alloc);
    for entry in entries {
        names.push(entry.pkg.name.copy(alloc)?)?;
    }
    Ok(names)
}

// Whether each root is one of the names.
fn are_among(names: &[Name], roots: &[Name]) -> bool
    requires { NeverFallsBy own_name names.now }
    ensures { result ≡ list_all (is_among names.now) roots.now }
{
    for root in roots {
        if !has_bytes(names, root.key()) {
            return false;
        }
    }
    true
}
