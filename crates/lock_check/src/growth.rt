// Names that are needed: those that come, those to which they lead, and which of these are to be read.
ghost use Rattle.std.specs.Prelude.{[], ◌∷◌, ◌≡◌, ℕ, ◌+◌, ◌-◌, ◌^◌, min, List, IfOk, OnErr, OnOk, cond, filter, length};
ghost use Rattle.opam_names.specs.ByteOrders.{NeverFallsBy};
ghost use Rattle.opam_filter.specs.NameSets.{with_name};
ghost use Rattle.lock_check.specs.Chased.{held_name, is_among, pkg_name};
ghost use Rattle.lock_check.specs.Growth.{AddsAll, AddsOne, AreSame, AreWithin, Awaits, AwaitsSome, Grows, Reaches, Spread, Undoes, is_open, is_uninstalled, led_to, removed, without};

use crate::held::{Held, bound_among, bound_at, stored_at};
use opam_names::{Items, Name, OutOfMemory, Pkg, has_bytes};
use std::alloc::Global;
use std::collections::BTreeSet;

/// Whether it is among them.
pub(crate) fn has(names: &BTreeSet<Name>, name: &Name) -> bool
    ensures { result ≡ is_among names.now.keys name.now }
{
    names.contains(name)
}

/// Puts a name to its place.
pub(crate) fn insert(names: &mut BTreeSet<Name>, name: Name) -> Result<(), OutOfMemory>
    ensures ok { OnOk result (names.new.keys ≡ with_name names.old.keys name) }
    ensures err { OnErr result (names.new.keys ≡ names.old.keys) }
{
    names.insert(name)?;
    Ok(())
}

/// Takes a name away.
pub(crate) fn remove(names: &mut BTreeSet<Name>, name: &Name)
    ensures keys { names.new.keys ≡ removed names.old.keys name.now }
    ensures those { (other : List ℕ) → is_among names.new.keys other
        ≡ without names.old.keys (name.now ∷ []) other }
{
    names.remove(name);
}

// A name that was not needed comes to the end of those that came.
fn add_name(
    alloc: Global,
    name: &Name,
    needed: &mut BTreeSet<Name>,
    fresh: &mut Items<Name>,
) -> Result<(), OutOfMemory>
    ensures ok { OnOk result (AddsOne name.now
        needed.old.keys fresh.old needed.new.keys fresh.new) }
    ensures needed { OnErr result (needed.new.keys ≡ needed.old.keys) }
    ensures fresh { OnErr result (fresh.new ≡ fresh.old) }
{
    if has(needed, name) {
        return Ok(());
    }
    let copy = name.copy(alloc)?;
    fresh.push(name.copy(alloc)?)?;
    match insert(needed, copy) {
        Ok(()) => Ok(()),
        Err(OutOfMemory) => {
            fresh.pop();
            Err(OutOfMemory)
        }
    }
}

// Adds names one after another.
fn add_all(
    alloc: Global,
    names: &[Name],
    needed: &mut BTreeSet<Name>,
    fresh: &mut Items<Name>,
) -> Result<(), OutOfMemory>
    ensures ok { OnOk result (AddsAll names.now
        needed.old.keys fresh.old needed.new.keys fresh.new) }
    ensures err { OnErr result (Grows needed.old.keys fresh.old needed.new.keys fresh.new) }
{
    for name in names {
        add_name(alloc, name, needed, fresh)?;
    }
    Ok(())
}

// The names to which one leads whose package is installed.
fn led_to(
    alloc: Global,
    bound: &[Pkg],
    installed: &[Held],
    name: &Name,
) -> Result<Items<Name>, OutOfMemory>
    requires bound { NeverFallsBy pkg_name bound.now }
    requires installed { NeverFallsBy held_name installed.now }
    ensures { IfOk result (λ names. names ≡ led_to bound.now installed.now name.now) }
{
    let Some(pkg) = bound_at(bound, name) else {
        return Ok(Items::new(alloc));
    };
    match stored_at(installed, pkg) {
        None => Ok(Items::new(alloc)),
        Some(held) => bound_among(alloc, bound, held.names.as_slice()),
    }
}

// Adds all those to which the ones that came lead, and to which these lead, in one walk over a list that grows.
fn spread(
    alloc: Global,
    bound: &[Pkg],
    installed: &[Held],
    needed: &mut BTreeSet<Name>,
    fresh: &mut Items<Name>,
) -> Result<(), OutOfMemory>
    requires bound { NeverFallsBy pkg_name bound.now }
    requires installed { NeverFallsBy held_name installed.now }
    ensures ok { OnOk result (Spread (led_to bound.now installed.now)
        needed.old.keys fresh.old needed.new.keys fresh.new) }
    ensures err { OnErr result (Grows needed.old.keys fresh.old needed.new.keys fresh.new) }
{
    let mut done = 0;
    while done < fresh.len() {
        let names = led_to(alloc, bound, installed, &fresh.as_slice()[done])?;
        add_all(alloc, names.as_slice(), needed, fresh)?;
        done += 1;
    }
    Ok(())
}

// Whether a name is bound to a package that is not installed.
fn is_open(bound: &[Pkg], installed: &[Held], name: &Name) -> bool
    requires bound { NeverFallsBy pkg_name bound.now }
    requires installed { NeverFallsBy held_name installed.now }
    ensures { result ≡ is_open bound.now installed.now name.now }
{
    match bound_at(bound, name) {
        None => false,
        Some(pkg) => stored_at(installed, pkg).is_none(),
    }
}

fn await_one(
    alloc: Global,
    bound: &[Pkg],
    installed: &[Held],
    name: &Name,
    waiting: &mut BTreeSet<Name>,
) -> Result<(), OutOfMemory>
    requires bound { NeverFallsBy pkg_name bound.now }
    requires installed { NeverFallsBy held_name installed.now }
    ensures ok { OnOk result (waiting.new.keys ≡ cond (is_open bound.now installed.now name.now)
        (with_name waiting.old.keys name.now) waiting.old.keys) }
    ensures err { OnErr result (waiting.new.keys ≡ waiting.old.keys) }
{
    if !is_open(bound, installed, name) {
        return Ok(());
    }
    insert(waiting, name.copy(alloc)?)
}

// Those that are open are to be read.
fn await_open(
    alloc: Global,
    bound: &[Pkg],
    installed: &[Held],
    names: &[Name],
    waiting: &mut BTreeSet<Name>,
) -> Result<(), OutOfMemory>
    requires bound { NeverFallsBy pkg_name bound.now }
    requires installed { NeverFallsBy held_name installed.now }
    ensures ok { OnOk result (Awaits (is_open bound.now installed.now) names.now
        waiting.old.keys waiting.new.keys) }
    ensures err { OnErr result (AwaitsSome names.now waiting.old.keys waiting.new.keys) }
{
    for name in names {
        await_one(alloc, bound, installed, name, waiting)?;
    }
    Ok(())
}

// Takes back the names that came.
fn undo(needed: &mut BTreeSet<Name>, waiting: &mut BTreeSet<Name>, names: Items<Name>)
    ensures needed { Undoes names needed.old.keys needed.new.keys }
    ensures waiting { (name : List ℕ) → is_among waiting.new.keys name
        ≡ without waiting.old.keys names name }
{
    let mut left = names;
    while let Some(name) = left.pop() {
        remove(needed, &name);
        remove(waiting, &name);
    }
}

// Adds names and all those to which they lead, and awaits those that are open.
fn grow(
    alloc: Global,
    bound: &[Pkg],
    installed: &[Held],
    names: &[Name],
    needed: &mut BTreeSet<Name>,
    waiting: &mut BTreeSet<Name>,
    fresh: &mut Items<Name>,
) -> Result<(), OutOfMemory>
    requires bound { NeverFallsBy pkg_name bound.now }
    requires installed { NeverFallsBy held_name installed.now }
    requires fresh { fresh.old ≡ [] }
    ensures ok { OnOk result (Reaches names.now (led_to bound.now installed.now)
        needed.old.keys needed.new.keys fresh.new) }
    ensures awaits { OnOk result (Awaits (is_open bound.now installed.now) fresh.new
        waiting.old.keys waiting.new.keys) }
    ensures err { OnErr result (Grows needed.old.keys [] needed.new.keys fresh.new) }
    ensures some { OnErr result (AwaitsSome fresh.new waiting.old.keys waiting.new.keys) }
{
    add_all(alloc, names, needed, fresh)?;
    spread(alloc, bound, installed, needed, fresh)?;
    await_open(alloc, bound, installed, fresh.as_slice(), waiting)
}

/// Adds names and all those to which they lead, and gives those that are new. Where memory is refused all stays.
pub(crate) fn reach(
    alloc: Global,
    bound: &[Pkg],
    installed: &[Held],
    names: &[Name],
    needed: &mut BTreeSet<Name>,
    waiting: &mut BTreeSet<Name>,
) -> Result<Items<Name>, OutOfMemory>
    requires bound { NeverFallsBy pkg_name bound.now }
    requires installed { NeverFallsBy held_name installed.now }
    requires within { AreWithin waiting.old.keys needed.old.keys }
    ensures ok { IfOk result (λ fresh. Reaches names.now (led_to bound.now installed.now)
        needed.old.keys needed.new.keys fresh) }
    ensures awaits { IfOk result (λ fresh. Awaits (is_open bound.now installed.now) fresh
        waiting.old.keys waiting.new.keys) }
    ensures needed { OnErr result (needed.new.keys ≡ needed.old.keys) }
    ensures waiting { OnErr result (AreSame waiting.old.keys waiting.new.keys) }
{
    let mut fresh = Items::new(alloc);
    match grow(alloc, bound, installed, names, needed, waiting, &mut fresh) {
        Ok(()) => Ok(fresh),
        Err(OutOfMemory) => {
            undo(needed, waiting, fresh);
            Err(OutOfMemory)
        }
    }
}

/// A count with one more for each of the names that is not installed. It stands still at the greatest number.
pub(crate) fn count_new(count: u32, installed: &[Held], names: &[Name]) -> u32
    requires { NeverFallsBy held_name installed.now }
    ensures { result
        ≡ min (count + length (filter (is_uninstalled installed.now) names.now)) (2 ^ 32 - 1) }
{
    let mut sum = count;
    for name in names {
        if !has_bytes(installed, name.as_str().as_bytes()) {
            sum = sum.saturating_add(1);
        }
    }
    sum
}

/// How many there are, up to the greatest number.
pub(crate) fn small_len(installed: &[Held]) -> u32
    ensures { result ≡ min (length installed.now) (2 ^ 32 - 1) }
{
    installed.len().min(u32::MAX as usize) as u32
}
