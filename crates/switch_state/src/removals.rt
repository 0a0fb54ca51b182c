// A removal is prepared: what it takes away, and what it keeps.
#![tactic(auto, using(crash_disk::proofs::Effects::read_steps))]

ghost use Rattle.std.specs.Prelude.{◌≡◌, ◌≤◌, ◌∷◌, ◌++◌, ℕ, List, [], IfNone, IfOk, IfSome, is_some, length, min, nat_le};
ghost use Rattle.std.specs.List.{find, flat_map};
ghost use Rattle.std.specs.Option.{option_copied, option_map};
ghost use Rattle.std.specs.declared.option.Option.TheVariants.{None, Some};
ghost use Rattle.opam_names.specs.declared.limits.TheConstants.{NAME_LIMIT, VERSION_LIMIT};
ghost use Rattle.crash_disk.specs.Disks.{State};
ghost use Rattle.crash_disk.specs.Effects.{FailsReading, OnlyReads};
ghost use Rattle.journal_text.specs.Parts.{paths_of, placed_bytes};
ghost use Rattle.journal_text.specs.Records.{IsInOrder, record_bytes};
ghost use Rattle.journal_text.specs.declared.record.Rec.TheVariants.{Remove};
ghost use Rattle.journal_text.specs.declared.record.TheConstants.{RECORD_LIMIT};
ghost use Rattle.switch_journal.specs.Journal.{work_with};
ghost use Rattle.switch_journal.specs.Steps.{IsReady};
ghost use Rattle.switch_journal.specs.declared.request.Done.TheVariants as done;
ghost use Rattle.switch_state.specs.Actions.{CanFollow, Removes};
ghost use Rattle.switch_state.specs.Gathering.{AreTooMuch, IsAt, IsGathered, IsKeepable, IsPart, IsReadOf};
ghost use Rattle.switch_state.specs.Keeps as keeps;
ghost use Rattle.switch_state.specs.Keeps.{IsRemovalPrepared, few_files, is_member_of, kept_from, kept_if_short};
ghost use Rattle.switch_state.specs.Prepares.{IsAsBefore};
ghost use Rattle.switch_state.specs.State.{request_in};
ghost use Rattle.switch_state.specs.WellFormed.{IsWellFormed};
ghost use Rattle.switch_state.specs.declared.prepared.Change.TheVariants.{Goes};

use crate::ending::is_entry_name;
use crate::prepared::{Change, Prepared};
use crate::request::OpenRequest;
use crate::switch::Switch;
use crash_disk::calls::read;
use crash_disk::{Disk, DiskFault, DiskRead};
use journal_text::{KeptFiles, Placed, RECORD_LIMIT, Rec};
use opam_names::{Items, Name, OutOfMemory, Pkg, RelPath};
use opam_package::Member;
use std::alloc::Global;
use switch_journal::Done;

/// The files that a removal keeps have together no more bytes.
pub const KEPT_LIMIT: usize = 268_435_456;

/// What stands at a path of a package.
#[derive(Drop)]
pub(crate) enum Standing {
    Absent,
    /// It is longer than the limit.
    TooLong,
    File(Placed),
}

impl Switch {
    /// Prepares the next removal of the open request, which keeps what is needed to put the package back, if the request wants a
    /// package of this name and it is not too much. The state stays as it is.
    pub fn prepare_remove<D: Disk>(
        &mut self,
        disk: &mut D,
        pkg: &Pkg,
    ) -> Result<Prepared, DiskFault>
        requires follows { CanFollow self.old.head.next (Removes pkg.now None) self.old.state }
        requires formed { IsWellFormed self.old.state }
        ensures cause { FailsReading D.Disk disk.old disk.new result }
        ensures reads { OnlyReads D.Disk disk.old disk.new }
        ensures before { IsAsBefore self.old self.new }
        ensures prepared { IfOk result (IsRemovalPrepared pkg.now (D.told disk.old) self.new) }
    {
        self.make_room(0, 0)?;
        let takes = self.owners.paths_of(pkg)?;
        let kept = self.kept_of(disk, pkg, takes.as_slice())?;
        is_bare_removal_short(pkg);
        Ok(self.removal_with(pkg, kept, takes)?)
    }

    // What the removal keeps of the package, which owns these paths.
    fn kept_of<D: Disk>(
        &self,
        disk: &mut D,
        pkg: &Pkg,
        paths: &[RelPath],
    ) -> Result<Option<KeptFiles>, DiskFault>
        ensures cause { FailsReading D.Disk disk.old disk.new result }
        ensures reads { OnlyReads D.Disk disk.old disk.new }
        ensures part { IfOk result (λ kept.
            IfSome kept (IsKeepable self.now.state.members pkg.now paths.now)) }
        ensures told { (s : State) → D.told disk.old ≡ Some s → IfOk result (λ kept.
            kept ≡ kept_from self.now.state pkg.now (few_files s.files paths.now)) }
    {
        if !wants(&self.request, &pkg.name) {
            return Ok(None);
        }
        match member_of(self.members.as_slice(), pkg) {
            None => Ok(None),
            Some(member) => match standing_files(disk, self.alloc, paths)? {
                None => Ok(None),
                Some(files) => Ok(keep_if_short(self.alloc, pkg, member, files)?),
            },
        }
    }

    // A removal with what it keeps and the paths that it takes away.
    fn removal_with(
        &self,
        pkg: &Pkg,
        kept: Option<KeptFiles>,
        takes: Items<RelPath>,
    ) -> Result<Prepared, OutOfMemory>
        requires ordered { IsInOrder (Remove pkg.now kept) }
        requires short { length (record_bytes (Remove pkg.now kept)) ≤ RECORD_LIMIT }
        ensures change { IfOk result (λ prepared. prepared.change ≡
            Goes pkg.now (done.Removed pkg.now self.now.head.next (is_some kept))) }
        ensures ready { IfOk result (λ prepared. IsReady self.now.head.next (Remove pkg.now kept)
            (work_with (Remove pkg.now kept) takes) prepared.ready) }
    {
        let what = Done::Removed {
            pkg: pkg.copy(self.alloc)?,
            number: self.journal.next_number(),
            kept: kept.is_some(),
        };
        let change = Change::Goes {
            pkg: pkg.copy(self.alloc)?,
            what,
        };
        let entry = Rec::Remove {
            pkg: pkg.copy(self.alloc)?,
            kept,
        };
        let ready = self.journal.ready(self.alloc, entry, takes)?;
        Ok(Prepared { ready, change })
    }
}

// Whether the open request wants a package of this name.
fn wants(request: &Option<OpenRequest>, name: &Name) -> bool
    ensures { result ≡ keeps.wants name.now (option_map request_in request.now) }
{
    match request {
        None => false,
        Some(request) => is_entry_name(request.target.as_slice(), name),
    }
}

// The first member that is this very package.
fn member_of<'a>(members: &'a [Member], pkg: &Pkg) -> Option<&'a Member>
    ensures { option_copied result ≡ find (is_member_of pkg.now) members.now }
{
    for member in members {
        if is_member_of(member, pkg) {
            return Some(member);
        }
    }
    None
}

// Whether the member is this very package.
pub(crate) fn is_member_of(member: &Member, pkg: &Pkg) -> bool
    ensures { result ≡ is_member_of pkg.now member.now }
{
    member.package.pkg.name == pkg.name && member.package.pkg.version == pkg.version
}

// The files that stand at these paths, if they are not too much.
fn standing_files<D: Disk>(
    disk: &mut D,
    alloc: Global,
    paths: &[RelPath],
) -> Result<Option<Items<Placed>>, DiskFault>
    ensures cause { FailsReading D.Disk disk.old disk.new result }
    ensures reads { OnlyReads D.Disk disk.old disk.new }
    ensures part { IfOk result (λ found.
        IfSome found (λ files. IsPart (paths_of files) paths.now)) }
    ensures told { (s : State) → D.told disk.old ≡ Some s
        → IfOk result (λ found. found ≡ few_files s.files paths.now) }
{
    let mut files = Items::new(alloc);
    let mut left = KEPT_LIMIT;
    for path in paths {
        match gather(disk, alloc, path, left, &mut files)? {
            None => return Ok(None),
            Some(rest) => left = rest,
        }
    }
    Ok(Some(files))
}

// Adds what stands at a path, if it has at most `left` bytes: how many are left then.
fn gather<D: Disk>(
    disk: &mut D,
    alloc: Global,
    path: &RelPath,
    left: usize,
    files: &mut Items<Placed>,
) -> Result<Option<usize>, DiskFault>
    ensures cause { FailsReading D.Disk disk.old disk.new result }
    ensures reads { OnlyReads D.Disk disk.old disk.new }
    ensures goes { (paths : List (List ℕ)) → IsGathered (D.told disk.old) paths files.old left
        → IfOk result (λ rest. IfSome rest
        (IsGathered (D.told disk.old) (paths ++ path.now ∷ []) files.new)) }
    ensures much { (paths : List (List ℕ)) → IsGathered (D.told disk.old) paths files.old left
        → IfOk result (λ rest. IfNone rest (AreTooMuch (D.told disk.old) paths path.now)) }
{
    match standing_file(disk, alloc, path, left)? {
        Standing::Absent => Ok(Some(left)),
        Standing::TooLong => Ok(None),
        Standing::File(file) => {
            let rest = left - file.bytes.len();
            files.push(file)?;
            Ok(Some(rest))
        }
    }
}

// What stands at a path, if it has at most `limit` bytes.
fn standing_file<D: Disk>(
    disk: &mut D,
    alloc: Global,
    path: &RelPath,
    limit: usize,
) -> Result<Standing, DiskFault>
    ensures cause { FailsReading D.Disk disk.old disk.new result }
    ensures reads { OnlyReads D.Disk disk.old disk.new }
    ensures part { IfOk result (IsAt path.now limit) }
    ensures told { (s : State) → D.told disk.old ≡ Some s
        → IfOk result (IsReadOf (keeps.standing_file s.files path.now) limit) }
{
    match read(disk, alloc, path, limit as u64)? {
        DiskRead::Absent => Ok(Standing::Absent),
        DiskRead::TooLong => Ok(Standing::TooLong),
        DiskRead::File { bytes, exec } => {
            if bytes.len() > limit {
                return Ok(Standing::TooLong);
            }
            let path = path.copy(alloc)?;
            Ok(Standing::File(Placed { path, exec, bytes }))
        }
    }
}

// The opam text of a member and these files, if the record with them is not too long.
fn keep_if_short(
    alloc: Global,
    pkg: &Pkg,
    member: &Member,
    files: Items<Placed>,
) -> Result<Option<KeptFiles>, OutOfMemory>
    ensures { IfOk result (λ kept. kept ≡
        kept_if_short pkg.now (record { opam = member.now.opam; files = files })) }
{
    if !is_short(pkg, member.opam.as_slice(), files.as_slice()) {
        return Ok(None);
    }
    let opam = Items::from_slice(alloc, member.opam.as_slice())?;
    Ok(Some(KeptFiles { opam, files }))
}

// Whether the record of a removal that keeps this is not too long.
fn is_short(pkg: &Pkg, opam: &[u8], files: &[Placed]) -> bool
    ensures { result ≡ nat_le (length (record_bytes (Remove pkg.now
        (Some (record { opam = opam.now; files = files.now }))))) RECORD_LIMIT }
{
    let names = pkg.name.as_str().len() + pkg.version.as_str().len();
    let contents = files_len(files).saturating_add(opam.len());
    // The format, the kind, whether something is kept, two short lengths, two long ones.
    contents.saturating_add(names + 22) <= RECORD_LIMIT
}

// The bytes that these files take in a record.
fn files_len(files: &[Placed]) -> usize
    ensures { result ≡ min (length (flat_map placed_bytes files.now)) usize.MAX }
{
    let mut len: usize = 0;
    for file in files {
        len = len.saturating_add(file_len(file));
    }
    len
}

// The bytes that this file takes in a record.
fn file_len(file: &Placed) -> usize
    ensures { result ≡ min (length (placed_bytes file.now)) usize.MAX }
{
    // Whether it is executable, a short length, and a long one.
    file.path
        .as_str()
        .len()
        .saturating_add(file.bytes.len())
        .saturating_add(7)
}

// A package alone is never too long for a record.
fn is_bare_removal_short(pkg: &Pkg)
    ensures { length (record_bytes (Remove pkg.now None)) ≤ RECORD_LIMIT }
{
    let _name = pkg.name.as_str();
    let _version = pkg.version.as_str();
}
