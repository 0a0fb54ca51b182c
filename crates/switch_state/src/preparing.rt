// Actions are prepared: the memory that their commits need is taken beforehand.
ghost use Rattle.std.specs.Prelude.{◌≡◌, ◌<◌, ◌≤◌, [], IfOk, IsSome, OnOk, length};
ghost use Rattle.journal_text.specs.Records.{IsInOrder, record_bytes};
ghost use Rattle.journal_text.specs.declared.record.TheConstants.{RECORD_LIMIT};
ghost use Rattle.switch_journal.specs.Journal.{work_with};
ghost use Rattle.switch_journal.specs.Steps.{IsReady};
ghost use Rattle.switch_journal.specs.declared.request.Done.TheVariants as done;
ghost use Rattle.switch_state.specs.Actions.{CanBeSpelled, CanFollow, Installs, PutsBack, record_of};
ghost use Rattle.switch_state.specs.Prepares as prepares;
ghost use Rattle.switch_state.specs.Prepares.{IsAsBefore, IsPrepared};
ghost use Rattle.switch_state.specs.declared.prepared.Change.TheVariants.{Comes};

use crate::prepared::{Change, Prepared};
use crate::switch::Switch;
use journal_text::{Placed, Rec};
use opam_names::{Items, OutOfMemory, Pkg};
use opam_package::Member;
use owner_map::{OwnedPath, additions_are_met};
use std::alloc::Global;
use switch_journal::Done;

impl Switch {
    /// Prepares the install of a member with these files. The state stays as it is. The install can follow on it, and its record
    /// can be spelled.
    pub fn prepare_install(
        &mut self,
        member: &Member,
        files: Items<Placed>,
    ) -> Result<Prepared, OutOfMemory>
        requires follows { CanFollow self.old.head.next
            (Installs member.now files) self.old.state }
        requires spelled { CanBeSpelled (Installs member.now files) }
        ensures before { IsAsBefore self.old self.new }
        ensures prepared { IfOk result (IsPrepared (Installs member.now files) self.new) }
    {
        additions_are_met();
        self.make_room(1, files.len())?;
        let change = install_change(self.alloc, member, files.as_slice())?;
        let entry = install_record(self.alloc, member, files)?;
        self.with_record(change, entry)
    }

    /// Prepares that a package which the open request removed comes back with these files. The state stays as it is. The package
    /// can come back, and its record can be spelled.
    pub fn prepare_back(
        &mut self,
        member: &Member,
        files: Items<Placed>,
    ) -> Result<Prepared, OutOfMemory>
        requires follows { CanFollow self.old.head.next
            (PutsBack member.now files) self.old.state }
        requires spelled { CanBeSpelled (PutsBack member.now files) }
        ensures before { IsAsBefore self.old self.new }
        ensures prepared { IfOk result (IsPrepared (PutsBack member.now files) self.new) }
    {
        additions_are_met();
        self.make_room(1, files.len())?;
        let change = back_change(self.alloc, member, files.as_slice())?;
        let entry = back_record(self.alloc, member, files)?;
        self.with_record(change, entry)
    }

    // Room for so many entries and paths more, and for one thing more that the open request does.
    pub(crate) fn make_room(&mut self, entries: usize, paths: usize) -> Result<(), OutOfMemory>
        ensures before { IsAsBefore self.old self.new }
        ensures entries { OnOk result (entries ≤ self.new.room.entries) }
        ensures paths { OnOk result (paths ≤ self.new.room.paths) }
        ensures done { OnOk result
            (IsSome self.new.state.request → 0 < self.new.room.done) }
    {
        self.members.reserve(entries)?;
        self.owners.reserve(paths)?;
        match &mut self.request {
            None => Ok(()),
            Some(request) => request.done.reserve(1),
        }
    }

    // A change with its record, which takes nothing away.
    fn with_record(&self, change: Change, entry: Rec) -> Result<Prepared, OutOfMemory>
        requires ordered { IsInOrder entry }
        requires short { length (record_bytes entry) ≤ RECORD_LIMIT }
        ensures change { IfOk result (λ prepared. prepared.change ≡ change) }
        ensures ready { IfOk result (λ prepared.
            IsReady self.now.head.next entry (work_with entry []) prepared.ready) }
    {
        let ready = self
            .journal
            .ready(self.alloc, entry, Items::new(self.alloc))?;
        Ok(Prepared { ready, change })
    }
}

fn install_change(alloc: Global, member: &Member, files: &[Placed]) -> Result<Change, OutOfMemory>
    ensures { IfOk result (λ change. change ≡ Comes member.now
        (prepares.owned_files member.now.package.pkg files.now)
        (done.Installed member.now.package.pkg)) }
{
    let what = Done::Installed(member.package.pkg.copy(alloc)?);
    coming(alloc, member, files, what)
}

fn back_change(alloc: Global, member: &Member, files: &[Placed]) -> Result<Change, OutOfMemory>
    ensures { IfOk result (λ change. change ≡ Comes member.now
        (prepares.owned_files member.now.package.pkg files.now)
        (done.PutBack member.now.package.pkg)) }
{
    let what = Done::PutBack(member.package.pkg.copy(alloc)?);
    coming(alloc, member, files, what)
}

fn install_record(alloc: Global, member: &Member, files: Items<Placed>) -> Result<Rec, OutOfMemory>
    ensures { IfOk result (λ entry. entry ≡ record_of (Installs member.now files)) }
{
    let pkg = member.package.pkg.copy(alloc)?;
    let opam = Items::from_slice(alloc, member.opam.as_slice())?;
    Ok(Rec::Install { pkg, opam, files })
}

fn back_record(alloc: Global, member: &Member, files: Items<Placed>) -> Result<Rec, OutOfMemory>
    ensures { IfOk result (λ entry. entry ≡ record_of (PutsBack member.now files)) }
{
    let pkg = member.package.pkg.copy(alloc)?;
    let opam = Items::from_slice(alloc, member.opam.as_slice())?;
    Ok(Rec::PutBack { pkg, opam, files })
}

// A member comes with these files.
fn coming(
    alloc: Global,
    member: &Member,
    files: &[Placed],
    what: Done,
) -> Result<Change, OutOfMemory>
    ensures { IfOk result (λ change. change ≡
        Comes member.now (prepares.owned_files member.now.package.pkg files.now) what) }
{
    let owned = owned_files(alloc, &member.package.pkg, files)?;
    Ok(Change::Comes {
        member: member.copy(alloc)?,
        owned,
        what,
    })
}

// The paths of files, each owned by a package.
fn owned_files(alloc: Global, pkg: &Pkg, files: &[Placed]) -> Result<Items<OwnedPath>, OutOfMemory>
    ensures { IfOk result (λ owned. owned ≡ prepares.owned_files pkg.now files.now) }
{
    let mut owned = Items::new(alloc);
    for file in files {
        owned.push(OwnedPath {
            path: file.path.copy(alloc)?,
            owner: pkg.copy(alloc)?,
        })?;
    }
    Ok(owned)
}
