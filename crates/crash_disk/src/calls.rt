//! The calls of a disk once more, each with what it does in the words over a whole disk: code above calls these, so that
//! its contracts and proofs see the words alone.
#![tactic(auto, using(crate::proofs::Effects::call_steps))]

ghost use Rattle.std.specs.Prelude.{[], ◌∷◌, OnOk};
ghost use Rattle.crash_disk.specs.Disks.{Looks, Reads};
ghost use Rattle.crash_disk.specs.Effects.{Becomes, Fails, FailsReading, Leaves, OnlyReads, Touches, unchanged, with_put, without};

use crate::{Disk, DiskFault, DiskRead, Look};
use opam_names::RelPath;
use outside_io::Failed;
use std::alloc::Global;

/// What stands at a path.
pub fn look<D: Disk>(disk: &mut D, path: &RelPath) -> Result<Look, Failed>
    ensures cause { Fails D.Disk disk.old disk.new result }
    ensures reads { OnlyReads D.Disk disk.old disk.new }
    ensures look { Looks (D.told disk.old) path.now result }
{
    disk.look(path)
}

/// The file at a path, if it has at most `limit` bytes.
pub fn read<D: Disk>(
    disk: &mut D,
    alloc: Global,
    path: &RelPath,
    limit: u64,
) -> Result<DiskRead, DiskFault>
    ensures cause { FailsReading D.Disk disk.old disk.new result }
    ensures reads { OnlyReads D.Disk disk.old disk.new }
    ensures read { Reads (D.told disk.old) path.now limit result }
{
    disk.read(alloc, path, limit)
}

/// Leaves this file at the path. It is durable from the next sync on.
pub fn put<D: Disk>(disk: &mut D, path: &RelPath, bytes: &[u8], exec: bool) -> Result<(), Failed>
    ensures cause { Fails D.Disk disk.old disk.new result }
    ensures touches { Touches D.Disk (path.now ∷ []) disk.old disk.new }
    ensures done { OnOk result
        (Becomes D.Disk (with_put path.now bytes.now exec) disk.old disk.new) }
{
    disk.put(path, bytes, exec)
}

/// Leaves no file at the path. It is durable from the next sync on.
pub fn remove<D: Disk>(disk: &mut D, path: &RelPath) -> Result<(), Failed>
    ensures cause { Fails D.Disk disk.old disk.new result }
    ensures touches { Touches D.Disk (path.now ∷ []) disk.old disk.new }
    ensures done { OnOk result (Becomes D.Disk (without path.now) disk.old disk.new) }
{
    disk.remove(path)
}

/// Makes all that was put and removed durable.
pub fn sync<D: Disk>(disk: &mut D) -> Result<(), Failed>
    ensures cause { Fails D.Disk disk.old disk.new result }
    ensures touches { Touches D.Disk [] disk.old disk.new }
    ensures done { OnOk result (Leaves D.Disk unchanged disk.old disk.new) }
{
    disk.sync()
}
