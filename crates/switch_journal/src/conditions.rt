// What is asked of a switch before a record is applied.
ghost use Rattle.std.specs.Prelude.{◌≡◌, ◌&&◌, filter, length, map, nat_le, not, IfOk};
ghost use Rattle.std.specs.List.{list_all, list_any};
ghost use Rattle.journal_text.specs.Parts.{paths_of};
ghost use Rattle.owner_map.specs.Owning.{is_same_pkg};
ghost use Rattle.switch_journal.specs.Applying.{are_few, is_entry_with, is_named, is_of, is_same_entry, may_stand, text_total};
ghost use Rattle.switch_journal.specs.Contents.{entry_of};
ghost use Rattle.switch_journal.specs.Keeping.{are_owned, are_standing, can_come, meets_any};
ghost use Rattle.switch_journal.specs.declared.request.TheConstants.{ENTRY_LIMIT, OWNED_LIMIT, TEXT_LIMIT};

use crate::request::{ENTRY_LIMIT, OWNED_LIMIT, TEXT_LIMIT};
use crate::standing::Standing;
use journal_text::{Entry, Placed};
use opam_names::{Name, OutOfMemory, Pkg};
use owner_map::Owners;

pub(crate) fn same_pkg(one: &Pkg, other: &Pkg) -> bool
    ensures { result ≡ is_same_pkg one.now other.now }
{
    one.name == other.name && one.version == other.version
}

// Whether the entry is of this package with this opam text.
fn is_entry(entry: &Entry, pkg: &Pkg, opam: &[u8]) -> bool
    ensures { result ≡ is_entry_with pkg.now opam.now entry.now }
{
    same_pkg(&entry.pkg, pkg) && entry.opam.as_slice() == opam
}

pub(crate) fn has_name(standing: &[Standing], name: &Name) -> bool
    ensures { result ≡ list_any (is_named name.now) (map entry_of standing.now) }
{
    for s in standing {
        if *name == s.entry.pkg.name {
            return true;
        }
    }
    false
}

pub(crate) fn has_pkg(standing: &[Standing], pkg: &Pkg) -> bool
    ensures { result ≡ list_any (is_of pkg.now) (map entry_of standing.now) }
{
    for s in standing {
        if same_pkg(&s.entry.pkg, pkg) {
            return true;
        }
    }
    false
}

// Whether this package is installed with this opam text.
pub(crate) fn has_entry(standing: &[Standing], pkg: &Pkg, opam: &[u8]) -> bool
    ensures { result ≡ list_any (is_entry_with pkg.now opam.now) (map entry_of standing.now) }
{
    for s in standing {
        if is_entry(&s.entry, pkg, opam) {
            return true;
        }
    }
    false
}

// Whether a member of the target is this package with this opam text.
pub(crate) fn is_member(target: &[Entry], pkg: &Pkg, opam: &[u8]) -> bool
    ensures { result
        ≡ list_any (is_same_entry (record { pkg = pkg.now; opam = opam.now })) target.now }
{
    for entry in target {
        if same_pkg(pkg, &entry.pkg) && opam == entry.opam.as_slice() {
            return true;
        }
    }
    false
}

pub(crate) fn names_member(target: &[Entry], name: &Name) -> bool
    ensures { result ≡ list_any (is_named name.now) target.now }
{
    for entry in target {
        if *name == entry.pkg.name {
            return true;
        }
    }
    false
}

// Whether a path of these files meets an owned one.
fn is_any_met(owners: &Owners, files: &[Placed]) -> Result<bool, OutOfMemory>
    ensures { IfOk result (λ met. met ≡ meets_any owners.now.owned (paths_of files.now)) }
{
    for file in files {
        if !owners.is_free(&file.path)? {
            return Ok(true);
        }
    }
    Ok(false)
}

// Whether the package can come with these files.
pub(crate) fn can_come(
    standing: &[Standing],
    owners: &Owners,
    pkg: &Pkg,
    files: &[Placed],
) -> Result<bool, OutOfMemory>
    ensures { IfOk result (λ can. can ≡
        can_come (map entry_of standing.now) owners.now.owned pkg.now (paths_of files.now)) }
{
    if has_name(standing, &pkg.name) {
        return Ok(false);
    }
    Ok(!is_any_met(owners, files)?)
}

// Whether the package owns the path of each of these files.
pub(crate) fn owns_all(owners: &Owners, pkg: &Pkg, files: &[Placed]) -> bool
    ensures { result ≡ are_owned owners.now.owned pkg.now (paths_of files.now) }
{
    for file in files {
        match owners.owner(&file.path) {
            None => return false,
            Some(owner) => {
                if !same_pkg(owner, pkg) {
                    return false;
                }
            }
        }
    }
    true
}

// Whether each of these packages is installed.
pub(crate) fn has_all(standing: &[Standing], pkgs: &[Pkg]) -> bool
    ensures { result ≡ are_standing (map entry_of standing.now) pkgs.now }
{
    for pkg in pkgs {
        if !has_pkg(standing, pkg) {
            return false;
        }
    }
    true
}

fn is_one_of(pkgs: &[Pkg], entry: &Entry) -> bool
    ensures { result ≡ list_any (λ pkg. is_of pkg entry.now) pkgs.now }
{
    for pkg in pkgs {
        if same_pkg(&entry.pkg, pkg) {
            return true;
        }
    }
    false
}

// Whether each installed package is to be removed, or is a member of the target.
pub(crate) fn may_all_stand(standing: &[Standing], target: &[Entry], removals: &[Pkg]) -> bool
    ensures { result ≡ list_all (may_stand target.now removals.now) (map entry_of standing.now) }
{
    for s in standing {
        let goes = is_one_of(removals, &s.entry);
        if !(goes || is_member(target, &s.entry.pkg, s.entry.opam.as_slice())) {
            return false;
        }
    }
    true
}

// Whether the opam texts have together no more bytes than a switch may have.
fn are_texts_short(entries: &[Entry]) -> bool
    ensures { result ≡ nat_le (text_total entries.now) TEXT_LIMIT }
{
    let mut room = TEXT_LIMIT;
    for entry in entries {
        if entry.opam.len() > room {
            return false;
        }
        room -= entry.opam.len();
    }
    true
}

// The same of installed packages.
fn are_standing_short(standing: &[Standing]) -> bool
    ensures { result ≡ nat_le (text_total (map entry_of standing.now)) TEXT_LIMIT }
{
    let mut room = TEXT_LIMIT;
    for s in standing {
        if s.entry.opam.len() > room {
            return false;
        }
        room -= s.entry.opam.len();
    }
    true
}

pub(crate) fn are_few(entries: &[Entry]) -> bool
    ensures { result ≡ are_few entries.now }
{
    entries.len() <= ENTRY_LIMIT && are_texts_short(entries)
}

// Whether a switch of these packages and so many paths is within the limits.
pub(crate) fn are_within(standing: &[Standing], paths: usize) -> bool
    ensures { result ≡ (are_few (map entry_of standing.now) && nat_le paths OWNED_LIMIT) }
{
    let few = standing.len() <= ENTRY_LIMIT && are_standing_short(standing);
    few && paths <= OWNED_LIMIT
}
