// What a record changes in a switch.
ghost use Rattle.std.specs.Prelude.{◌≡◌, [], false, filter, fold, map, IfOk};
ghost use Rattle.std.specs.List.{list_any};
ghost use Rattle.journal_text.specs.Parts.{AreFree, paths_of};
ghost use Rattle.switch_journal.specs.Applying.{is_another, is_named, own};
ghost use Rattle.switch_journal.specs.Contents.{entry_of};
ghost use Rattle.switch_journal.specs.Keeping.{meets_any};

use crate::conditions::{has_name, same_pkg};
use crate::standing::Standing;
use journal_text::{Entry, Placed};
use opam_names::{Items, Name, OutOfMemory, Pkg};
use owner_map::{Owners, additions_are_met};
use std::alloc::Global;

// The paths of these files go to a package.
pub(crate) fn with_files(
    owners: Owners,
    alloc: Global,
    pkg: &Pkg,
    files: &[Placed],
) -> Result<Owners, OutOfMemory>
    requires free { meets_any owners.owned (paths_of files.now) ≡ false }
    requires apart { AreFree (paths_of files.now) }
    ensures { IfOk result (λ after.
        after.owned ≡ fold (own pkg.now) owners.owned (paths_of files.now)) }
{
    additions_are_met();
    let mut owners = owners;
    owners.reserve(files.len())?;
    for file in files {
        owners.add(file.path.copy(alloc)?, pkg.copy(alloc)?);
    }
    Ok(owners)
}

// All but this package.
pub(crate) fn without(standing: Items<Standing>, pkg: &Pkg) -> Items<Standing>
    ensures { result ≡ filter (is_another pkg.now) standing }
{
    let mut rest = standing.into_vec();
    rest.retain(|s| !same_pkg(&s.entry.pkg, pkg));
    Items::from_vec(rest)
}

// The names that are installed.
pub(crate) fn installed_names(roots: Items<Name>, standing: &[Standing]) -> Items<Name>
    ensures { result
        ≡ filter (λ name. list_any (is_named name) (map entry_of standing.now)) roots }
{
    let mut names = roots.into_vec();
    names.retain(|name| has_name(standing, name));
    Items::from_vec(names)
}

pub(crate) fn copy_entry(alloc: Global, entry: &Entry) -> Result<Entry, OutOfMemory>
    ensures { IfOk result (λ copy. copy ≡ entry.now) }
{
    Ok(Entry {
        pkg: entry.pkg.copy(alloc)?,
        opam: Items::from_slice(alloc, entry.opam.as_slice())?,
    })
}

pub(crate) fn copy_entries(alloc: Global, entries: &[Entry]) -> Result<Items<Entry>, OutOfMemory>
    ensures { IfOk result (λ copies. copies ≡ entries.now) }
{
    let mut copies = Items::new(alloc);
    for entry in entries {
        copies.push(copy_entry(alloc, entry)?)?;
    }
    Ok(copies)
}

pub(crate) fn copy_pkgs(alloc: Global, pkgs: &[Pkg]) -> Result<Items<Pkg>, OutOfMemory>
    ensures { IfOk result (λ copies. copies ≡ pkgs.now) }
{
    let mut copies = Items::new(alloc);
    for pkg in pkgs {
        copies.push(pkg.copy(alloc)?)?;
    }
    Ok(copies)
}

pub(crate) fn copy_names(alloc: Global, names: &[Name]) -> Result<Items<Name>, OutOfMemory>
    ensures { IfOk result (λ copies. copies ≡ names.now) }
{
    let mut copies = Items::new(alloc);
    for name in names {
        copies.push(name.copy(alloc)?)?;
    }
    Ok(copies)
}
