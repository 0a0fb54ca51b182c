// Whether a package is installed, once its needs are and its job has ended.
ghost use Rattle.std.specs.Prelude.{◌≡◌, ◌+◌, IfOk, OnOk, length, nat_le, not};
ghost use Rattle.std.specs.declared.option.Option.TheVariants.{Some};
ghost use Rattle.crash_disk.specs.Disks.{State};
ghost use Rattle.crash_disk.specs.Effects.{FailsReading, OnlyReads};
ghost use Rattle.outside_io.specs.Shops.{Told};
ghost use Rattle.change_verdict.specs.Verdicts as verdicts;
ghost use Rattle.change_verdict.specs.Verdicts.{AreBrought, IfFound, IfPlaces, IsVerdictOf};
ghost use Rattle.change_verdict.specs.declared.verdict.Sources.TheVariants.{Found};
ghost use Rattle.journal_text.specs.Parts.{paths_of};
ghost use Rattle.owner_map.specs.Clashes.{NoneClash};
ghost use Rattle.owner_map.specs.Owning as owning;

use crate::clash::first_clash;
use crate::sources::sources_of;
use crate::{Reason, Sources, Verdict};
use crash_disk::{Disk, DiskFault};
use journal_text::Placed;
use opam_names::{Items, OutOfMemory, Pkg};
use outside_io::{Fate, Job, Workshop};
use owner_map::Owners;
use std::alloc::Global;
use switch_journal::OWNED_LIMIT;

/// What is decided of the package of a job that came to this fate, over the files of the workshop and of the disk, and the owners of
/// its paths.
pub fn verdict_of_job<W: Workshop, D: Disk>(
    alloc: Global,
    shop: &W,
    disk: &mut D,
    owners: &Owners,
    job: &Job,
    fate: Fate,
) -> Result<Verdict, DiskFault>
    ensures cause { FailsReading D.Disk disk.old disk.new result }
    ensures reads { OnlyReads D.Disk disk.old disk.new }
    ensures told { (told : Told) (s : State)
        → W.told shop.now ≡ Some told → D.told disk.old ≡ Some s
        → IfOk result (IsVerdictOf (told.files job.now) s.files owners.now.owned job.now.pkg fate) }
    ensures placed { IfOk result (IfPlaces owners.now.owned) }
{
    let sources = sources_of(alloc, shop, job, fate)?;
    install_verdict(alloc, disk, owners, &job.pkg, sources)
}

/// What is decided of a package whose build brings this.
pub fn install_verdict<D: Disk>(
    alloc: Global,
    disk: &mut D,
    owners: &Owners,
    pkg: &Pkg,
    sources: Sources,
) -> Result<Verdict, DiskFault>
    requires { IfFound sources }
    ensures cause { FailsReading D.Disk disk.old disk.new result }
    ensures reads { OnlyReads D.Disk disk.old disk.new }
    ensures told { (s : State) → D.told disk.old ≡ Some s → IfOk result (λ verdict.
        verdict ≡ verdicts.install_verdict s.files owners.now.owned pkg.now sources) }
    ensures placed { IfOk result (IfPlaces owners.now.owned) }
{
    match sources {
        Sources::Refused(reason) => Ok(Verdict::Fails(reason)),
        Sources::Found(files) => files_verdict(alloc, disk, owners, pkg, files),
    }
}

// Where nothing stands in the way of any of the files, and there is room for their paths, they are placed in byte order.
fn files_verdict<D: Disk>(
    alloc: Global,
    disk: &mut D,
    owners: &Owners,
    pkg: &Pkg,
    files: Items<Placed>,
) -> Result<Verdict, DiskFault>
    requires { AreBrought files }
    ensures cause { FailsReading D.Disk disk.old disk.new result }
    ensures reads { OnlyReads D.Disk disk.old disk.new }
    ensures told { (s : State) → D.told disk.old ≡ Some s → IfOk result (λ verdict.
        verdict ≡ verdicts.install_verdict s.files owners.now.owned pkg.now (Found files)) }
    ensures placed { IfOk result (IfPlaces owners.now.owned) }
{
    match first_clash(alloc, disk, owners, pkg, files.as_slice())? {
        Some(reason) => Ok(Verdict::Fails(reason)),
        None => Ok(unless_full(owners, files)?),
    }
}

fn unless_full(owners: &Owners, files: Items<Placed>) -> Result<Verdict, OutOfMemory>
    requires brought { AreBrought files }
    requires none { NoneClash (owning.paths_of owners.now.owned) (paths_of files) (length files) }
    ensures value { IfOk result (λ verdict.
        verdict ≡ verdicts.unless_full owners.now.owned files) }
    ensures placed { IfOk result (IfPlaces owners.now.owned) }
{
    if would_be_full(owners, files.len()) {
        return Ok(Verdict::Fails(Reason::SwitchFull));
    }
    Ok(Verdict::Places(in_path_order(files)?))
}

/// Whether the switch would own more paths than it may, with so many more.
pub fn would_be_full(owners: &Owners, more: usize) -> bool
    ensures { result ≡ not (nat_le (length owners.now.owned + more) OWNED_LIMIT) }
{
    more > OWNED_LIMIT || owners.len() > OWNED_LIMIT - more
}

fn in_path_order(files: Items<Placed>) -> Result<Items<Placed>, OutOfMemory>
    ensures { IfOk result (λ order. order ≡ verdicts.in_path_order files) }
{
    let mut order = files.into_vec();
    sort(&mut order)?;
    Ok(Items::from_vec(order))
}

fn sort(files: &mut Vec<Placed>) -> Result<(), OutOfMemory>
    ensures { OnOk result (files.new.items ≡ verdicts.in_path_order files.old.items) }
{
    files.sort_by(|one, other| one.path.cmp(&other.path))?;
    Ok(())
}
