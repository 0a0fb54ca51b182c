// Whether the parts of a record stand in the order that the format asks for.
ghost use Rattle.std.specs.Prelude.{◌≡◌, ◌↔◌, IfOk, IsTrue, map};
ghost use Rattle.std.specs.List.{list_any};
ghost use Rattle.opam_names.specs.ByteOrders.{RisesBy};
ghost use Rattle.journal_text.specs.Parts.{AreFree, AreNamedApart, IsRequestInOrder, entry_name, is_own, names_of, own_folder, own_name, paths_of};
ghost use Rattle.journal_text.specs.Records.{IsInOrder};

use crate::record::{Entry, Placed, Rec};
use opam_names::{Name, OutOfMemory, Pkg, RelPath, rises_by_bytes, sort_by_bytes};
use path_order::{Pathed, are_apart};
use std::alloc::Global;

pub(crate) fn is_in_order(alloc: Global, entry: &Rec) -> Result<bool, OutOfMemory>
    ensures { IfOk result (λ yes. IsTrue yes ↔ IsInOrder entry.now) }
{
    match entry {
        Rec::Install { files, .. } => files_are_free(alloc, files.as_slice()),
        Rec::PutBack { files, .. } => files_are_free(alloc, files.as_slice()),
        Rec::Remove { kept: None, .. } => Ok(true),
        Rec::Remove {
            kept: Some(kept),
            ..
        } => files_are_free(alloc, kept.files.as_slice()),
        Rec::Begin {
            roots,
            target,
            removals,
        } => is_request_in_order(
            alloc,
            roots.as_slice(),
            target.as_slice(),
            removals.as_slice(),
        ),
        Rec::End => Ok(true),
    }
}

fn is_request_in_order(
    alloc: Global,
    roots: &[Name],
    target: &[Entry],
    removals: &[Pkg],
) -> Result<bool, OutOfMemory>
    ensures { IfOk result (λ yes.
        IsTrue yes ↔ IsRequestInOrder roots.now target.now removals.now) }
{
    let rise = names_rise(roots, target);
    let apart = are_named_apart(alloc, removals)?;
    Ok(rise && apart)
}

fn names_rise(roots: &[Name], target: &[Entry]) -> bool
    ensures { IsTrue result ↔ (RisesBy own_name roots.now × RisesBy entry_name target.now) }
{
    let roots_rise = rises_by_bytes(roots);
    let target_rises = rises_by_bytes(target);
    roots_rise && target_rises
}

fn files_are_free(alloc: Global, files: &[Placed]) -> Result<bool, OutOfMemory>
    ensures { IfOk result (λ yes. IsTrue yes ↔ AreFree (paths_of files.now)) }
{
    are_free(alloc, files)
}

// Whether paths rise, none is above another, and none is the switch's own.
pub(crate) fn are_free<T: Pathed>(alloc: Global, list: &[T]) -> Result<bool, OutOfMemory>
    ensures { IfOk result (λ yes. IsTrue yes ↔ AreFree (map T.path list.now)) }
{
    let own = RelPath::fixed(alloc, ".opam-switch")?;
    if has_own(list, &own) {
        return Ok(false);
    }
    Ok(are_apart(list))
}

fn has_own<T: Pathed>(list: &[T], own: &RelPath) -> bool
    requires { own.now ≡ own_folder }
    ensures { result ≡ list_any is_own (map T.path list.now) }
{
    for item in list {
        if is_own(item.path(), own) {
            return true;
        }
    }
    false
}

// Whether the path is the switch's own folder or lies below it.
fn is_own(path: &RelPath, own: &RelPath) -> bool
    requires { own.now ≡ own_folder }
    ensures { result ≡ is_own path.now }
{
    path == own || own.above(path)
}

fn are_named_apart(alloc: Global, pkgs: &[Pkg]) -> Result<bool, OutOfMemory>
    ensures { IfOk result (λ yes. IsTrue yes ↔ AreNamedApart pkgs.now) }
{
    let mut names = names_of(alloc, pkgs)?;
    sort_by_bytes(&mut names)?;
    Ok(rises_by_bytes(names.as_slice()))
}

fn names_of(alloc: Global, pkgs: &[Pkg]) -> Result<Vec<Name>, OutOfMemory>
    ensures { IfOk result (λ names. names.items ≡ names_of pkgs.now) }
{
    let mut names = Vec::new(alloc);
    for pkg in pkgs {
        names.push(pkg.name.copy(alloc)?)?;
    }
    Ok(names)
}
