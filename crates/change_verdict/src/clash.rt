// Which file of a package cannot stand, and what is in its way.
#![tactic(auto, using(crash_disk::proofs::Effects::read_steps))]

ghost use Rattle.std.specs.Prelude.{◌≡◌, ◌<◌, ◌≤◌, [], false, IfNone, IfOk, length, slice_index_or, take};
ghost use Rattle.std.specs.List.{list_any};
ghost use Rattle.std.specs.declared.option.Option.TheVariants.{None, Some};
ghost use Rattle.journal_text.specs.Parts.{is_own, paths_of};
ghost use Rattle.owner_map.specs.Clashes.{IsClash, NoneClash};
ghost use Rattle.owner_map.specs.Owning as owning;
ghost use Rattle.crash_disk.specs.Disks.{State};
ghost use Rattle.crash_disk.specs.Effects.{FailsReading, OnlyReads};
ghost use Rattle.std.specs.Option.{option_map};
ghost use Rattle.change_verdict.specs.Clash.{first_clash_of, least_met, met_reason, with_own};
ghost use Rattle.change_verdict.specs.Near.{first_foreign_of};

use crate::Reason;
use crate::foreign::meets_file;
use crash_disk::{Disk, DiskFault};
use journal_text::Placed;
use opam_names::{Items, OutOfMemory, Pkg, RelPath};
use owner_map::{Clash, Other, Owners};
use std::alloc::Global;

/// The first of a package's files in whose way something stands, as the reason why it cannot come: an owned path, one of its own
/// files before it, or a file that nobody owns. Owners are looked up by halves, and the disk is looked at for the files before the
/// first that owners bar.
pub fn first_clash<D: Disk>(
    alloc: Global,
    disk: &mut D,
    owners: &Owners,
    pkg: &Pkg,
    files: &[Placed],
) -> Result<Option<Reason>, DiskFault>
    requires free { list_any is_own (paths_of files.now) ≡ false }
    ensures cause { FailsReading D.Disk disk.old disk.new result }
    ensures reads { OnlyReads D.Disk disk.old disk.new }
    ensures told { (s : State) → D.told disk.old ≡ Some s → IfOk result (λ found.
        found ≡ first_clash_of s.files owners.now.owned pkg.now (paths_of files.now)) }
    ensures none { IfOk result (λ found. IfNone found
        (NoneClash (owning.paths_of owners.now.owned) (paths_of files.now) (length files.now))) }
{
    let paths = paths_of(alloc, files)?;
    match owners.clash(paths.as_slice())? {
        None => first_foreign(alloc, disk, paths.as_slice()),
        Some(clash) => {
            let (before, _) = paths.as_slice().split_at(clash.index);
            match first_foreign(alloc, disk, before)? {
                Some(reason) => Ok(Some(reason)),
                None => Ok(Some(clash_reason(alloc, owners, pkg, paths.as_slice(), clash)?)),
            }
        }
    }
}

fn paths_of(alloc: Global, files: &[Placed]) -> Result<Items<RelPath>, OutOfMemory>
    ensures { IfOk result (λ paths. paths ≡ paths_of files.now) }
{
    let mut paths = Items::new(alloc);
    for file in files {
        paths.push(file.path.copy(alloc)?)?;
    }
    Ok(paths)
}

// The first of the paths that meets a file of the disk.
fn first_foreign<D: Disk>(
    alloc: Global,
    disk: &mut D,
    paths: &[RelPath],
) -> Result<Option<Reason>, DiskFault>
    requires { list_any is_own paths.now ≡ false }
    ensures cause { FailsReading D.Disk disk.old disk.new result }
    ensures reads { OnlyReads D.Disk disk.old disk.new }
    ensures told { (s : State) → D.told disk.old ≡ Some s
        → IfOk result (λ found. found ≡ first_foreign_of s.files paths.now) }
{
    for path in paths {
        if meets_file(alloc, disk, path)? {
            return Ok(Some(Reason::Foreign(path.copy(alloc)?)));
        }
    }
    Ok(None)
}

// The reason why a path that meets an owned one, or one before it, cannot come.
fn clash_reason(
    alloc: Global,
    owners: &Owners,
    pkg: &Pkg,
    paths: &[RelPath],
    clash: Clash,
) -> Result<Reason, OutOfMemory>
    requires { IsClash (owning.paths_of owners.now.owned) paths.now clash }
    ensures { IfOk result (λ reason. Some reason ≡ option_map
        (met_reason (slice_index_or paths.now clash.index []))
        (least_met (with_own owners.now.owned pkg.now (take clash.index paths.now))
        (slice_index_or paths.now clash.index []))) }
{
    let path = &paths[clash.index];
    match clash.other {
        Other::Earlier(place) => met_reason(alloc, path, &paths[place], pkg),
        Other::Owned(place) => {
            let (other, _) = owners.at(place);
            match owners.owner(other) {
                Some(owner) => met_reason(alloc, path, other, owner),
                None => unreachable!(),
            }
        }
    }
}

// The path is owned by this package, or clashes with another of its paths.
fn met_reason(
    alloc: Global,
    path: &RelPath,
    other: &RelPath,
    owner: &Pkg,
) -> Result<Reason, OutOfMemory>
    ensures { IfOk result (λ reason.
        reason ≡ met_reason path.now (owning.owned_by other.now owner.now)) }
{
    if other == path {
        return Ok(Reason::Owned(path.copy(alloc)?, owner.copy(alloc)?));
    }
    Ok(Reason::Meets(path.copy(alloc)?, other.copy(alloc)?, owner.copy(alloc)?))
}
