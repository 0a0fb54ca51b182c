// A switch, and the commit of an action.
ghost use Rattle.std.specs.Prelude.{◌≡◌, ◌+◌, ◌^◌, ◌-◌, min, IfOk, OnOk};
ghost use Rattle.std.specs.Option.{option_copied, option_map};
ghost use Rattle.std.specs.declared.option.Option.TheVariants.{Some};
ghost use Rattle.crash_disk.specs.Disks.{Tree};
ghost use Rattle.crash_disk.specs.Effects.{Fails, Touches, at_rest};
ghost use Rattle.crash_disk.specs.Stops.{IsSameBut, StopsLeave};
ghost use Rattle.switch_journal.specs.Commits.{paths_of_ready};
ghost use Rattle.switch_journal.specs.Steps.{with_one_more};
ghost use Rattle.switch_state.specs.Actions.{Action, own_files_after, state_after};
ghost use Rattle.switch_state.specs.Prepares.{CanAct, CanTake, IsAroundAction, IsPrepared, state_changed};
ghost use Rattle.switch_state.specs.State.{SwitchStands, request_in};

use crate::prepared::{Change, Prepared, Receipt};
use crate::request::OpenRequest;
use crate::taking::{drop_member, note, own_all};
use crash_disk::Disk;
use opam_names::{Buffer, Items, Name};
use opam_package::Member;
use outside_io::Failed;
use owner_map::Owners;
use std::alloc::Global;
use std::marker::Model;
use switch_journal::Journal;

/// The state of a switch, as its journal has it: what is installed, whose each path is, what was asked for and the request that
/// is open; and the room for the next action.
#[derive(Drop)]
pub struct Switch {
    pub(crate) journal: Journal,
    pub(crate) members: Buffer<Member>,
    pub(crate) owners: Owners,
    pub(crate) roots: Items<Name>,
    pub(crate) request: Option<OpenRequest>,
    pub(crate) commits: u32,
    pub(crate) alloc: Global,
}

impl Model for Switch {
    ghost use Rattle.opam_filter.specs.contracts.filter.Filter as filter;
    ghost use Rattle.opam_filter.specs.contracts.formula.Reduced as reduced;
    ghost use Rattle.std.specs.Coded.{codes};
    ghost use Rattle.std.specs.Option.{option_map};
    ghost use Rattle.switch_state.specs.State.{Now, done_room, request_in};

    ghost Value = { Now };

    ghost coded = { Prim.hlevel (codes, filter.the_row.coded, reduced.the_row.coded) };

    ghost view = { λ s. record {
      head = s.journal;
      state = record {
        members = s.members.items;
        owned = s.owners.owned;
        roots = s.roots;
        request = option_map request_in s.request;
      };
      commits = s.commits;
      room = record {
        entries = s.members.room;
        paths = s.owners.spare;
        done = done_room s.request;
      };
    } };
}

impl Switch {
    /// What is installed, in the order of installation.
    pub fn installed(&self) -> &[Member]
        ensures { result.now ≡ self.now.state.members }
    {
        self.members.as_slice()
    }

    /// Whose each path is.
    pub fn owners(&self) -> &Owners
        ensures owned { result.now.owned ≡ self.now.state.owned }
        ensures spare { result.now.spare ≡ self.now.room.paths }
    {
        &self.owners
    }

    /// What was asked for.
    pub fn roots(&self) -> &[Name]
        ensures { result.now ≡ self.now.state.roots }
    {
        self.roots.as_slice()
    }

    /// The request that is open; None exactly where none is.
    pub fn request(&self) -> Option<&OpenRequest>
        ensures { option_map request_in (option_copied result) ≡ self.now.state.request }
    {
        self.request.as_ref()
    }

    /// Commits an action that was prepared for the switch as it is. Takes no memory. After a failure the switch has to be opened
    /// again.
    pub fn commit<D: Disk>(&mut self, disk: &mut D, prepared: Prepared) -> Result<Receipt, Failed>
        requires { CanTake prepared.change self.old }
        ensures cause { Fails D.Disk disk.old disk.new result }
        ensures touches { Touches D.Disk (paths_of_ready prepared.ready) disk.old disk.new }
        ensures head { OnOk result (self.new.head ≡ with_one_more self.old.head) }
        ensures state { OnOk result
            (self.new.state ≡ state_changed prepared.change self.old.state) }
        ensures index { IfOk result (λ receipt. receipt.index ≡ self.old.commits) }
        ensures commits { OnOk result
            (self.new.commits ≡ min (self.old.commits + 1) (2 ^ 32 - 1)) }
        ensures moment { IfOk result (λ receipt. receipt.moment ≡ D.moment disk.new) }
        // Other files stay as they were, whenever the machine stops.
        ensures foreign { (tree : Tree) → D.told disk.old ≡ Some (at_rest tree)
            → StopsLeave D.Disk (IsSameBut (paths_of_ready prepared.ready) tree) disk.old disk.new }
        // Whenever the machine stops, an opening makes of the disk the state before the action or the one after it.
        ensures crash { (action : Action) (files : Tree)
            → IsPrepared action self.old prepared
            → CanAct self.old files (D.told disk.old)
            → StopsLeave D.Disk (IsAroundAction action self.old files) disk.old disk.new }
        ensures done { OnOk result ((action : Action) (files : Tree)
            → IsPrepared action self.old prepared
            → CanAct self.old files (D.told disk.old)
            → SwitchStands (with_one_more self.old.head)
            (state_after self.old.head.next action self.old.state)
            (own_files_after action self.old.state files) (D.told disk.new)) }
    {
        self.journal.commit(disk, &prepared.ready)?;
        self.take(prepared.change);
        let index = self.commits;
        self.commits = index.saturating_add(1);
        Ok(Receipt {
            index,
            moment: disk.clock(),
        })
    }

    // The change in memory. Takes none.
    fn take(&mut self, change: Change)
        requires { CanTake change self.old }
        ensures head { self.new.head ≡ self.old.head }
        ensures state { self.new.state ≡ state_changed change self.old.state }
        ensures commits { self.new.commits ≡ self.old.commits }
    {
        match change {
            Change::Comes {
                member,
                owned,
                what,
            } => {
                self.members.push(member);
                own_all(&mut self.owners, owned);
                note(&mut self.request, what);
            }
            Change::Goes { pkg, what } => {
                drop_member(&mut self.members, self.alloc, &pkg);
                self.owners.drop_owner(&pkg);
                note(&mut self.request, what);
            }
        }
    }
}
