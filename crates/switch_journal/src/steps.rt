// A record is made ready and committed, in the words of what the journal says.
ghost use Rattle.std.specs.Prelude.{◌≡◌, ◌≤◌, List, length, map, IfOk, OnOk};
ghost use Rattle.crash_disk.specs.Disks.{Tree};
ghost use Rattle.crash_disk.specs.Effects.{Fails, Touches, at_rest};
ghost use Rattle.crash_disk.specs.Stops.{IsSameBut, StopsLeave};
ghost use Rattle.std.specs.declared.option.Option.TheVariants.{Some};
ghost use Rattle.journal_text.specs.Records.{IsInOrder, record_bytes};
ghost use Rattle.switch_journal.specs.Commits.{paths_of_ready};
ghost use Rattle.switch_journal.specs.Journal.{StandsFor, put_of, removal_of, work_with};
ghost use Rattle.switch_journal.specs.Steps.{CanCommit, IsAround, IsReady, Step, files_after, with_one_more};

use crate::commits::{Ready, commit, make_ready};
use crate::journal::Journal;
use crash_disk::{Disk, Write};
use journal_text::{Placed, RECORD_LIMIT, Rec, encode};
use opam_names::{Items, OutOfMemory, RelPath};
use outside_io::Failed;
use std::alloc::Global;

// No record has this number or a greater one.
pub(crate) const NUMBER_LIMIT: u64 = 9_223_372_036_854_775_808;

impl Journal {
    /// Makes the record ready for its commit under the next number. Where it removes a package, `takes` are the paths that this
    /// package owns, in byte order. The record's parts stand in order, and it is not too long.
    pub fn ready(
        &self,
        alloc: Global,
        entry: Rec,
        takes: Items<RelPath>,
    ) -> Result<Ready, OutOfMemory>
        requires ordered { IsInOrder entry }
        requires short { length (record_bytes entry) ≤ RECORD_LIMIT }
        ensures { IfOk result (IsReady self.now.next entry (work_with entry takes)) }
    {
        let bytes = encode(alloc, &entry)?;
        let work = work_writes(alloc, entry, takes)?;
        make_ready(alloc, self.next, bytes, work)
    }

    /// Commits a record that was made ready for the next number. After a failure the journal has to be opened again.
    pub fn commit<D: Disk>(&mut self, disk: &mut D, ready: &Ready) -> Result<(), Failed>
        ensures cause { Fails D.Disk disk.old disk.new result }
        ensures touches { Touches D.Disk (paths_of_ready ready.now) disk.old disk.new }
        ensures numbers { OnOk result (self.exit.now ≡ with_one_more self.entry.now) }
        // Other files stay as they were, whenever the machine stops.
        ensures foreign { (tree : Tree) → D.told disk.old ≡ Some (at_rest tree)
            → StopsLeave D.Disk (IsSameBut (paths_of_ready ready.now) tree) disk.old disk.new }
        // Whenever the machine stops, an opening makes of the disk what was there before, or what the record makes of it.
        ensures crash { (step : Step) → CanCommit self.entry.now step ready.now (D.told disk.old)
            → StopsLeave D.Disk (IsAround step) disk.old disk.new }
        ensures done { OnOk result ((step : Step)
            → CanCommit self.entry.now step ready.now (D.told disk.old)
            → StandsFor self.exit.now step.after (files_after step) (D.told disk.new)) }
    {
        commit(disk, ready)?;
        self.next = (self.next + 1).min(NUMBER_LIMIT);
        Ok(())
    }
}

// A record's work, with these paths if it takes any away.
pub(crate) fn work_writes(
    alloc: Global,
    entry: Rec,
    takes: Items<RelPath>,
) -> Result<Items<Write>, OutOfMemory>
    ensures { IfOk result (λ work. work ≡ work_with entry takes) }
{
    match entry {
        Rec::Install { files, .. } => puts(alloc, files),
        Rec::PutBack { files, .. } => puts(alloc, files),
        Rec::Remove { .. } => removals(alloc, takes),
        Rec::Begin { .. } => Ok(Items::new(alloc)),
        Rec::End => Ok(Items::new(alloc)),
    }
}

fn puts(alloc: Global, files: Items<Placed>) -> Result<Items<Write>, OutOfMemory>
    ensures { IfOk result (λ writes. writes ≡ map put_of files) }
{
    let mut writes = Items::new(alloc);
    for file in files.into_vec() {
        let Placed { path, exec, bytes } = file;
        writes.push(Write::Put { path, bytes, exec })?;
    }
    Ok(writes)
}

fn removals(alloc: Global, takes: Items<RelPath>) -> Result<Items<Write>, OutOfMemory>
    ensures { IfOk result (λ writes. writes ≡ map removal_of takes) }
{
    let mut writes = Items::new(alloc);
    for path in takes.into_vec() {
        writes.push(Write::Remove { path })?;
    }
    Ok(writes)
}
