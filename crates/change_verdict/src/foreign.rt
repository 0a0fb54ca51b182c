// Whether a file of the disk stands where a new one is to stand, above it or below it.
#![tactic(auto, using(crash_disk::proofs::Effects::read_steps))]

ghost use Rattle.std.specs.Prelude.{◌≡◌, ◌<◌, false, IfOk, length, slice_index, take};
ghost use Rattle.std.specs.declared.option.Option.TheVariants.{Some};
ghost use Rattle.journal_text.specs.Parts.{is_own};
ghost use Rattle.crash_disk.specs.Disks.{State};
ghost use Rattle.crash_disk.specs.Effects.{FailsReading, OnlyReads};
ghost use Rattle.change_verdict.specs.Near.{has_file, has_file_above, is_file_there, looks_near, meets_outside};

use crash_disk::{Disk, DiskFault, Look, calls};
use opam_names::{OutOfMemory, ReadFault, RelPath};
use std::alloc::Global;

/// Whether a file stands at the path, above it or below it. Each folder above it is looked at once.
pub(crate) fn meets_file<D: Disk>(
    alloc: Global,
    disk: &mut D,
    path: &RelPath,
) -> Result<bool, DiskFault>
    requires { is_own path.now ≡ false }
    ensures cause { FailsReading D.Disk disk.old disk.new result }
    ensures reads { OnlyReads D.Disk disk.old disk.new }
    ensures told { (s : State) → D.told disk.old ≡ Some s
        → IfOk result (λ near. near ≡ meets_outside s.files path.now) }
{
    // The text of a path says that it is one.
    let _text = path.as_str();
    if is_file_above(alloc, disk, path)? {
        return Ok(true);
    }
    match calls::look(disk, path) {
        Ok(look) => Ok(looks_near(look)),
        Err(_) => Err(DiskFault::Failed),
    }
}

fn looks_near(look: Look) -> bool
    ensures { result ≡ looks_near look }
{
    match look {
        Look::Absent => false,
        Look::File => true,
        Look::Folder => true,
    }
}

// Whether a file stands where the path has a folder.
fn is_file_above<D: Disk>(alloc: Global, disk: &mut D, path: &RelPath) -> Result<bool, DiskFault>
    ensures cause { FailsReading D.Disk disk.old disk.new result }
    ensures reads { OnlyReads D.Disk disk.old disk.new }
    ensures told { (s : State) → D.told disk.old ≡ Some s
        → IfOk result (λ found. found ≡ has_file_above s.files path.now (length path.now)) }
{
    for at in 0..path.as_str().len() {
        if is_file_at(alloc, disk, path, at)? {
            return Ok(true);
        }
    }
    Ok(false)
}

// Whether a slash stands here, and a file where the folder before it is.
fn is_file_at<D: Disk>(
    alloc: Global,
    disk: &mut D,
    path: &RelPath,
    at: usize,
) -> Result<bool, DiskFault>
    requires { at < length path.now }
    ensures cause { FailsReading D.Disk disk.old disk.new result }
    ensures reads { OnlyReads D.Disk disk.old disk.new }
    ensures told { (s : State) → D.told disk.old ≡ Some s
        → IfOk result (λ found. found ≡ is_file_there s.files path.now at) }
{
    if path.as_str().as_bytes()[at] != b'/' {
        return Ok(false);
    }
    is_file(alloc, disk, path, at)
}

// Whether a file stands at the folder that ends here.
fn is_file<D: Disk>(
    alloc: Global,
    disk: &mut D,
    path: &RelPath,
    at: usize,
) -> Result<bool, DiskFault>
    requires within { at < length path.now }
    requires slash { slice_index path.now at ≡ 47 }
    ensures cause { FailsReading D.Disk disk.old disk.new result }
    ensures reads { OnlyReads D.Disk disk.old disk.new }
    ensures told { (s : State) → D.told disk.old ≡ Some s
        → IfOk result (λ found. found ≡ has_file s.files (take at path.now)) }
{
    let folder = folder_of(alloc, path, at)?;
    match calls::look(disk, &folder) {
        Ok(look) => Ok(look == Look::File),
        Err(_) => Err(DiskFault::Failed),
    }
}

// The folder of a path that ends before the slash here.
fn folder_of(alloc: Global, path: &RelPath, at: usize) -> Result<RelPath, OutOfMemory>
    requires within { at < length path.now }
    requires slash { slice_index path.now at ≡ 47 }
    ensures { IfOk result (λ folder. folder ≡ take at path.now) }
{
    let (front, _) = path.as_str().as_bytes().split_at(at);
    match RelPath::read(alloc, front) {
        Ok(folder) => Ok(folder),
        Err(ReadFault::Memory) => Err(OutOfMemory),
        Err(ReadFault::Bad { .. }) => unreachable!(),
    }
}
