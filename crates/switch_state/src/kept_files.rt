// What a removal has kept, read back from its record.
#![tactic(auto, using(crash_disk::proofs::Effects::read_steps))]

ghost use Rattle.std.specs.Prelude.{◌≡◌, ◌≢◌, ℕ, false, IfOk, IfSome, IsSome};
ghost use Rattle.std.specs.Option.{option_copied, option_map};
ghost use Rattle.std.specs.declared.option.Option.TheVariants.{Some};
ghost use Rattle.opam_package.specs.declared.fault.PackageFault.TheVariants.{Memory};
ghost use Rattle.crash_disk.specs.Effects.{FailsReading, OnlyReads};
ghost use Rattle.switch_state.specs.OpamTexts as texts;
ghost use Rattle.switch_state.specs.OpamTexts.{IsFoundKept, IsIfAccepted, IsKeptBy, IsSomeKept, SaysAccepted, TellsKept, removed_by};
ghost use Rattle.switch_state.specs.State.{request_in};

use crate::request::OpenRequest;
use crate::switch::Switch;
use crash_disk::calls::read;
use crash_disk::{Disk, DiskFault, DiskRead};
use journal_text::{KeptFiles, RECORD_LIMIT, Rec, decode, one_record_for_bytes};
use opam_filter::Vars;
use opam_names::{Items, OutOfMemory, Pkg};
use opam_package::{OPAM_LIMIT, PackageFault, read_package};
use std::alloc::Global;
use switch_journal::{Done, record_path_of};
use syntax_trees::one_tree_for_bytes;

impl Switch {
    /// What was kept of a package that the open request removed; None exactly where its record is gone, is too long, or spells no
    /// removal of it that keeps files with an opam text that is accepted.
    pub fn kept<D: Disk>(&self, disk: &mut D, pkg: &Pkg) -> Result<Option<KeptFiles>, DiskFault>
        requires { IsSome (removed_by pkg.now self.now.state.request) }
        ensures cause { FailsReading D.Disk disk.old disk.new result }
        ensures reads { OnlyReads D.Disk disk.old disk.new }
        ensures valid { IfOk result (λ found. IfSome found (IsSomeKept pkg.now)) }
        ensures kept { (number : ℕ) → removed_by pkg.now self.now.state.request ≡ Some number
            → TellsKept pkg.now number (D.told disk.old) result }
    {
        match removal_number(&self.request, pkg) {
            None => Ok(None),
            Some(number) => kept_in_record(disk, self.alloc, pkg, number),
        }
    }
}

// The number of the record by which the open request removed the package.
fn removal_number(request: &Option<OpenRequest>, pkg: &Pkg) -> Option<u64>
    ensures { result ≡ removed_by pkg.now (option_map request_in request.now) }
{
    match request {
        None => None,
        Some(request) => number_among(request.done.as_slice(), pkg),
    }
}

fn number_among(done: &[Done], pkg: &Pkg) -> Option<u64>
    ensures { result ≡ texts.removal_number pkg.now done.now }
{
    for what in done {
        match what {
            Done::Removed {
                pkg: gone,
                number,
                ..
            } => {
                if gone.name == pkg.name && gone.version == pkg.version {
                    return Some(*number);
                }
            }
            Done::Installed(_) => {}
            Done::PutBack(_) => {}
        }
    }
    None
}

// What the record with this number keeps of the package.
#[tactic(auto, using(crash_disk::proofs::Effects::read_steps, crate::proofs::Accepted::some_kept))]
fn kept_in_record<D: Disk>(
    disk: &mut D,
    alloc: Global,
    pkg: &Pkg,
    number: u64,
) -> Result<Option<KeptFiles>, DiskFault>
    ensures cause { FailsReading D.Disk disk.old disk.new result }
    ensures reads { OnlyReads D.Disk disk.old disk.new }
    ensures valid { IfOk result (λ found. IfSome found (IsSomeKept pkg.now)) }
    ensures kept { TellsKept pkg.now number (D.told disk.old) result }
{
    let path = record_path_of(alloc, number)?;
    match read(disk, alloc, &path, RECORD_LIMIT as u64)? {
        DiskRead::Absent => Ok(None),
        DiskRead::TooLong => Ok(None),
        DiskRead::File { bytes, .. } => Ok(kept_in(alloc, pkg, bytes.as_slice())?),
    }
}

// What the bytes of a record keep of the package.
fn kept_in(alloc: Global, pkg: &Pkg, bytes: &[u8]) -> Result<Option<KeptFiles>, OutOfMemory>
    ensures { IfOk result (IsFoundKept pkg.now (Some bytes.now)) }
{
    one_record_for_bytes();
    match decode(alloc, bytes)? {
        None => Ok(None),
        Some(entry) => kept_by(alloc, pkg, entry),
    }
}

// What a record keeps of the package.
fn kept_by(alloc: Global, pkg: &Pkg, entry: Rec) -> Result<Option<KeptFiles>, OutOfMemory>
    ensures { IfOk result (IsKeptBy pkg.now entry) }
{
    match entry {
        Rec::Remove { pkg: gone, kept } => match kept {
            None => Ok(None),
            Some(kept) => if_accepted(alloc, pkg, &gone, kept),
        },
        Rec::Install { .. } => Ok(None),
        Rec::PutBack { .. } => Ok(None),
        Rec::Begin { .. } => Ok(None),
        Rec::End => Ok(None),
    }
}

// What was kept of the package `gone`, if it is this one and its opam text is accepted.
fn if_accepted(
    alloc: Global,
    pkg: &Pkg,
    gone: &Pkg,
    kept: KeptFiles,
) -> Result<Option<KeptFiles>, OutOfMemory>
    ensures { IfOk result (IsIfAccepted pkg.now gone.now kept) }
{
    if !(gone.name == pkg.name && gone.version == pkg.version) {
        return Ok(None);
    }
    if is_accepted(alloc, pkg, kept.opam.as_slice())? {
        Ok(Some(kept))
    } else {
        Ok(None)
    }
}

// Whether an opam text of the package is accepted.
fn is_accepted(alloc: Global, pkg: &Pkg, opam: &[u8]) -> Result<bool, OutOfMemory>
    ensures { IfOk result (SaysAccepted pkg.now opam.now) }
{
    one_tree_for_bytes();
    if opam.len() > OPAM_LIMIT {
        return Ok(false);
    }
    match read_package(alloc, opam, pkg, &Vars::empty(alloc)) {
        Ok(_) => Ok(true),
        Err(fault) => refused(fault),
    }
}

// A text with a fault is not accepted; want of memory is no fault of it.
fn refused(fault: PackageFault) -> Result<bool, OutOfMemory>
    ensures { IfOk result (λ is. (is ≡ false) × (fault ≢ Memory)) }
{
    match fault {
        PackageFault::Memory => Err(OutOfMemory),
        _ => Ok(false),
    }
}
