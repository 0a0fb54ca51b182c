// Files put and removed in turn, and made durable.
#![tactic(auto, using(crate::proofs::Effects::write_steps))]

ghost use Rattle.std.specs.Prelude.{[], ◌∷◌, OnOk};
ghost use Rattle.crash_disk.specs.Effects.{Becomes, Fails, Leaves, Touches};
ghost use Rattle.crash_disk.specs.Writes.{path_of, paths_of, with_write, with_writes};

use crate::Disk;
use crate::calls::{put, remove, sync};
use opam_names::{Items, RelPath};
use outside_io::Failed;

/// A file to be put, or to be removed.
#[derive(Drop)]
pub enum Write {
    Put {
        path: RelPath,
        bytes: Items<u8>,
        exec: bool,
    },
    Remove {
        path: RelPath,
    },
}

/// Does all of it in this order and makes it durable. It gives up at the first failure.
pub fn write_all<D: Disk>(disk: &mut D, writes: &[Write]) -> Result<(), Failed>
    ensures cause { Fails D.Disk disk.old disk.new result }
    ensures touches { Touches D.Disk (paths_of writes.now) disk.old disk.new }
    ensures done { OnOk result (Leaves D.Disk (with_writes writes.now) disk.old disk.new) }
{
    write_each(disk, writes)?;
    sync(disk)
}

#[tactic(auto, using(crate::proofs::Writes::batch_steps))]
fn write_each<D: Disk>(disk: &mut D, writes: &[Write]) -> Result<(), Failed>
    ensures cause { Fails D.Disk disk.old disk.new result }
    ensures touches { Touches D.Disk (paths_of writes.now) disk.old disk.new }
    ensures done { OnOk result (Becomes D.Disk (with_writes writes.now) disk.old disk.new) }
{
    for write in writes {
        write_one(disk, write)?;
    }
    Ok(())
}

fn write_one<D: Disk>(disk: &mut D, write: &Write) -> Result<(), Failed>
    ensures cause { Fails D.Disk disk.old disk.new result }
    ensures touches { Touches D.Disk (path_of write.now ∷ []) disk.old disk.new }
    ensures done { OnOk result (Becomes D.Disk (with_write write.now) disk.old disk.new) }
{
    match write {
        Write::Put { path, bytes, exec } => put(disk, path, bytes.as_slice(), *exec),
        Write::Remove { path } => remove(disk, path),
    }
}
