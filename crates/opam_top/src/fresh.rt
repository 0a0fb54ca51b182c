// Whether a disk has no journal yet.
#![tactic(auto, using(crate::proofs::Passed::time_steps))]

ghost use Rattle.std.specs.Prelude.{◌≤◌, ◌≡◌, ◌&&◌, Some, IfOk, not};
ghost use Rattle.outside_io.specs.Counts.{Rose};
ghost use Rattle.crash_disk.specs.Disks.{State, Counted};
ghost use Rattle.opam_top.specs.Pasts.{Passes};
ghost use Rattle.opam_top.specs.Journals.{looks_empty, stands};

use crash_disk::{Disk, Look};
use opam_names::RelPath;
use outside_io::Failed;

// Whether nothing stands at either path, nor below it.
pub fn are_absent<D: Disk>(disk: &mut D, one: &RelPath, other: &RelPath) -> Result<bool, Failed>
    ensures cause { Counted (D.faults disk.old) (D.faults disk.new) result }
    ensures held { D.held disk.new ≡ D.held disk.old }
    ensures same { D.told disk.new ≡ D.told disk.old }
    ensures time { Passes (D.moment disk.old) (D.moment disk.new) (D.past disk.old) (D.past disk.new) }
    ensures told { (s : State) → D.told disk.old ≡ Some s → IfOk result (λ absent. absent ≡ (not (stands s.files one.now) && not (stands s.files other.now))) }
{
    let none = is_absent(disk, one)?;
    let nothing = is_absent(disk, other)?;
    Ok(none && nothing)
}

// Whether nothing stands at the path, nor below it.
pub fn is_absent<D: Disk>(disk: &mut D, path: &RelPath) -> Result<bool, Failed>
    ensures cause { Counted (D.faults disk.old) (D.faults disk.new) result }
    ensures held { D.held disk.new ≡ D.held disk.old }
    ensures same { D.told disk.new ≡ D.told disk.old }
    ensures time { Passes (D.moment disk.old) (D.moment disk.new) (D.past disk.old) (D.past disk.new) }
    ensures told { (s : State) → D.told disk.old ≡ Some s → IfOk result (λ absent. absent ≡ not (stands s.files path.now)) }
{
    match disk.look(path) {
        Ok(look) => Ok(is_nothing(look)),
        Err(failed) => Err(failed),
    }
}

fn is_nothing(look: Look) -> bool
    ensures { result ≡ looks_empty look }
{
    match look {
        Look::Absent => true,
        Look::File => false,
        Look::Folder => false,
    }
}
