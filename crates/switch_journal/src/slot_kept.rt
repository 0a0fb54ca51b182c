// What a slot says, as what is kept of a switch.
ghost use Rattle.std.specs.Prelude.{◌≡◌, length, map, true, IfOk};
ghost use Rattle.std.specs.List.{filter_map, list_all};
ghost use Rattle.journal_text.specs.Parts.{AreFree};
ghost use Rattle.journal_text.specs.Slots.{IsSlotInOrder, has_owner, owned_paths};
ghost use Rattle.switch_journal.specs.Journal.{said_by};
ghost use Rattle.switch_journal.specs.Places.{slot_path};
ghost use Rattle.switch_journal.specs.Reading.{name_of_standing, owned_with, slot_contents, standing_of, with_all_roots};

use crate::kept::Kept;
use crate::places::slot_path_of;
use crate::standing::Standing;
use journal_text::{Entry, Owned, Snapshot};
use opam_names::{Items, Name, OutOfMemory};
use owner_map::Owners;
use std::alloc::Global;

impl Kept {
    /// What the slot in this place says.
    pub(crate) fn of_slot(alloc: Global, place: bool, slot: Snapshot) -> Result<Kept, OutOfMemory>
        requires { IsSlotInOrder slot }
        ensures { IfOk result (λ kept. kept ≡ slot_contents (slot_path place) slot) }
    {
        let Snapshot {
            entries,
            roots,
            owned,
            ..
        } = slot;
        let owners = owners_of(alloc, entries.as_slice(), owned)?;
        let standing = standing_of(alloc, place, entries)?;
        Ok(Kept {
            standing,
            owners,
            roots,
            request: None,
        })
    }

    /// What is said at the end of the records: in an old journal all packages were asked for.
    pub(crate) fn said_by(self, alloc: Global, old: bool) -> Result<Kept, OutOfMemory>
        ensures { IfOk result (λ kept. kept ≡ said_by old self) }
    {
        if old {
            self.with_all_roots(alloc)
        } else {
            Ok(self)
        }
    }

    // All packages were asked for.
    fn with_all_roots(self, alloc: Global) -> Result<Kept, OutOfMemory>
        ensures { IfOk result (λ kept. kept ≡ with_all_roots self) }
    {
        let roots = names_of(alloc, self.standing.as_slice())?;
        Ok(Kept {
            standing: self.standing,
            owners: self.owners,
            roots,
            request: self.request,
        })
    }
}

// The paths that a slot lists, with their owners.
fn owners_of(alloc: Global, entries: &[Entry], owned: Items<Owned>) -> Result<Owners, OutOfMemory>
    requires free { AreFree (owned_paths owned) }
    requires among { list_all (has_owner (length entries.now)) owned ≡ true }
    ensures { IfOk result (λ owners. owners.owned ≡ filter_map (owned_with entries.now) owned) }
{
    let mut owners = Owners::empty(alloc);
    owners.reserve(owned.len())?;
    for one in owned.into_vec() {
        let Owned { path, owner } = one;
        let entry = &entries[owner as usize];
        owners.add(path, entry.pkg.copy(alloc)?);
    }
    Ok(owners)
}

// The packages that a slot lists, as they stand in the switch.
fn standing_of(
    alloc: Global,
    place: bool,
    entries: Items<Entry>,
) -> Result<Items<Standing>, OutOfMemory>
    ensures { IfOk result (λ standing. standing ≡ map (standing_of (slot_path place)) entries) }
{
    let mut standing = Items::new(alloc);
    for entry in entries.into_vec() {
        let from = slot_path_of(alloc, place)?;
        standing.push(Standing { entry, from })?;
    }
    Ok(standing)
}

// The names of what is installed.
fn names_of(alloc: Global, standing: &[Standing]) -> Result<Items<Name>, OutOfMemory>
    ensures { IfOk result (λ names. names ≡ map name_of_standing standing.now) }
{
    let mut names = Items::new(alloc);
    for s in standing {
        names.push(s.entry.pkg.name.copy(alloc)?)?;
    }
    Ok(names)
}
