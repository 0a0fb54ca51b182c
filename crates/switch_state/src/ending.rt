// The end of a request.
ghost use Rattle.std.specs.Prelude.{◌≡◌, filter, IsErrOf, IsSome, OnOk};
ghost use Rattle.std.specs.declared.option.Option.TheVariants.{None, Some};
ghost use Rattle.crash_disk.specs.Disks.{Tree};
ghost use Rattle.crash_disk.specs.Effects.{FailsReading, at_rest};
ghost use Rattle.crash_disk.specs.Stops.{StopsLeave};
ghost use Rattle.crash_disk.specs.declared.disk.DiskFault.TheVariants.{Memory};
ghost use Rattle.switch_journal.specs.Journal.{AgreeOutside};
ghost use Rattle.switch_journal.specs.Steps.{with_one_more};
ghost use Rattle.switch_state.specs.Ends.{IsAroundEnd, TouchesInside, is_called, is_entry_name, state_ended};
ghost use Rattle.switch_state.specs.Prepares.{CanAct};
ghost use Rattle.switch_state.specs.State.{SwitchStands};

use crate::switch::Switch;
use crash_disk::{Disk, DiskFault};
use journal_text::Rec;
use opam_names::{Items, Name};
use opam_package::Member;
use std::mem;

impl Switch {
    /// Ends the open request. After a failure the switch has to be opened again.
    pub fn end<D: Disk>(&mut self, disk: &mut D) -> Result<(), DiskFault>
        requires { IsSome self.old.state.request }
        ensures cause { FailsReading D.Disk disk.old disk.new result }
        // Where memory is wanting, all is as before.
        ensures memory { IsErrOf result Memory → (self.new ≡ self.old) × (disk.new ≡ disk.old) }
        ensures head { OnOk result (self.new.head ≡ with_one_more self.old.head) }
        ensures state { OnOk result (self.new.state ≡ state_ended self.old.state) }
        ensures commits { OnOk result (self.new.commits ≡ self.old.commits) }
        ensures inside { TouchesInside D.Disk disk.old disk.new }
        // The switch's own files stay as they are, whenever the machine stops.
        ensures files { (tree : Tree) → D.told disk.old ≡ Some (at_rest tree)
            → StopsLeave D.Disk (AgreeOutside tree) disk.old disk.new }
        // Whenever the machine stops, an opening makes of the disk the state before the end or the one after it.
        ensures crash { (files : Tree) → CanAct self.old files (D.told disk.old)
            → StopsLeave D.Disk (IsAroundEnd self.old.state files) disk.old disk.new }
        ensures done { OnOk result ((files : Tree) → CanAct self.old files (D.told disk.old)
            → SwitchStands (with_one_more self.old.head) (state_ended self.old.state) files
            (D.told disk.new)) }
    {
        let ready = self
            .journal
            .ready(self.alloc, Rec::End, Items::new(self.alloc))?;
        match self.journal.commit(disk, &ready) {
            Ok(()) => {}
            Err(_) => return Err(DiskFault::Failed),
        }
        self.close();
        Ok(())
    }

    // No request is open then. Takes no memory.
    fn close(&mut self)
        ensures head { self.new.head ≡ self.old.head }
        ensures state { self.new.state ≡ state_ended self.old.state }
        ensures commits { self.new.commits ≡ self.old.commits }
    {
        let roots = mem::replace(&mut self.roots, Items::new(self.alloc));
        self.roots = installed_names(self.members.as_slice(), roots);
        self.request = None;
    }
}

// Those of the names that are installed.
fn installed_names(members: &[Member], names: Items<Name>) -> Items<Name>
    ensures { result ≡ filter (is_entry_name members.now) names }
{
    let mut rest = names.into_vec();
    rest.retain(|name| is_entry_name(members, name));
    Items::from_vec(rest)
}

// Whether a member has the name.
pub(crate) fn is_entry_name(members: &[Member], name: &Name) -> bool
    ensures { result ≡ is_entry_name members.now name.now }
{
    for member in members {
        if is_called(member, name) {
            return true;
        }
    }
    false
}

fn is_called(member: &Member, name: &Name) -> bool
    ensures { result ≡ is_called name.now member.now }
{
    *name == member.package.pkg.name
}
