// A request begins.
ghost use Rattle.std.specs.Prelude.{◌≡◌, ◌≤◌, IfOk, IsErrOf, IsFalse, OnOk, length, true, [], ◌∷◌, ◌++◌};
ghost use Rattle.std.specs.declared.option.Option.TheVariants.{None, Some};
ghost use Rattle.crash_disk.specs.Disks.{Tree};
ghost use Rattle.crash_disk.specs.Effects.{FailsReading, at_rest};
ghost use Rattle.crash_disk.specs.Stops.{StopsLeave};
ghost use Rattle.crash_disk.specs.declared.disk.DiskFault.TheVariants.{Memory};
ghost use Rattle.journal_text.specs.Records.{IsInOrder, record_bytes};
ghost use Rattle.journal_text.specs.declared.record.TheConstants.{RECORD_LIMIT};
ghost use Rattle.switch_journal.specs.Journal.{AgreeOutside, is_due};
ghost use Rattle.switch_journal.specs.Reading.{is_small};
ghost use Rattle.switch_journal.specs.Steps.{IsReady, with_one_more};
ghost use Rattle.switch_state.specs.Begins as begins;
ghost use Rattle.switch_state.specs.Begins.{AreEntries, BeginFits, CanBegin, CanOpen, IsAroundBegin, IsAroundClose, IsAroundNext, IsStillNext, IsStillThere, asking_for, begin_by, begin_record, begun_from, head_closed, head_slotted, request_begun, state_begun, state_closed, with_request};
ghost use Rattle.switch_state.specs.Ends.{TouchesInside};
ghost use Rattle.switch_state.specs.Prepares.{CanAct};
ghost use Rattle.switch_state.specs.State.{Recovers, SwitchStands, contents_in, request_in};
ghost use Rattle.switch_state.specs.WellFormed.{IsWellFormed};

use crate::request::OpenRequest;
use crate::slots::entries_of;
use crate::switch::Switch;
use crash_disk::{Disk, DiskFault};
use journal_text::Rec;
use opam_names::{Buffer, Items, Name, OutOfMemory, Pkg};
use opam_package::{Member, Target};
use std::alloc::Global;
use switch_journal::{Ready, record_path_of};

// A request that is to be open, and its record.
#[derive(Drop)]
struct Opening {
    roots: Items<Name>,
    request: OpenRequest,
    ready: Ready,
}

impl Switch {
    /// Opens a request for a target that removes the entries at these places. An earlier request is ended first, and a slot is
    /// written where one is due. After a failure the switch has to be opened again.
    pub fn begin<D: Disk>(
        &mut self,
        disk: &mut D,
        target: &Target,
        removals: &[u32],
    ) -> Result<(), DiskFault>
        requires entries { AreEntries self.old.state.members removals.now }
        requires formed { IsWellFormed self.old.state }
        requires begins { CanBegin (asking_for target.now removals.now self.old.state) self.old }
        ensures cause { FailsReading D.Disk disk.old disk.new result }
        // Where memory is wanting, an earlier request may be ended and a slot written, and no more.
        ensures memory { IsErrOf result Memory
            → IsStillThere self.old self.new (D.told disk.old) (D.told disk.new) }
        ensures head { OnOk result (self.new.head ≡
            with_one_more (head_slotted (head_closed self.old.state self.old.head))) }
        ensures state { OnOk result (self.new.state ≡
            begun_from (asking_for target.now removals.now self.old.state) self.old) }
        ensures commits { OnOk result (self.new.commits ≡ self.old.commits) }
        // The switch's own files stay as they are, whenever the machine stops.
        ensures files { (tree : Tree) → D.told disk.old ≡ Some (at_rest tree)
            → StopsLeave D.Disk (AgreeOutside tree) disk.old disk.new }
        // Whenever the machine stops, an opening makes of the disk the state before, the one with an earlier request ended, or the
        // one with the request begun.
        ensures crash { (files : Tree) → CanOpen self.old files (D.told disk.old)
            → StopsLeave D.Disk
            (IsAroundBegin (asking_for target.now removals.now self.old.state) self.old files)
            disk.old disk.new }
        ensures done { OnOk result ((files : Tree) → CanOpen self.old files (D.told disk.old)
            → SwitchStands (with_one_more (head_slotted (head_closed self.old.state self.old.head)))
            (begun_from (asking_for target.now removals.now self.old.state) self.old)
            files (D.told disk.new)) }
    {
        self.end_earlier(disk)?;
        self.begin_next(disk, target, removals)
    }

    // Ends an earlier request, where one is open.
    fn end_earlier<D: Disk>(&mut self, disk: &mut D) -> Result<(), DiskFault>
        ensures cause { FailsReading D.Disk disk.old disk.new result }
        ensures memory { IsErrOf result Memory → (self.new ≡ self.old) × (disk.new ≡ disk.old) }
        ensures inside { TouchesInside D.Disk disk.old disk.new }
        ensures head { OnOk result (self.new.head ≡ head_closed self.old.state self.old.head) }
        ensures state { OnOk result (self.new.state ≡ state_closed self.old.state) }
        ensures commits { OnOk result (self.new.commits ≡ self.old.commits) }
        ensures crash { (files : Tree) → CanAct self.old files (D.told disk.old)
            → StopsLeave D.Disk (IsAroundClose self.old.state files) disk.old disk.new }
        ensures done { OnOk result ((files : Tree) → CanAct self.old files (D.told disk.old)
            → SwitchStands (head_closed self.old.state self.old.head) (state_closed self.old.state)
            files (D.told disk.new)) }
    {
        if self.request.is_some() {
            self.end(disk)
        } else {
            Ok(())
        }
    }

    // The same where no request is open.
    fn begin_next<D: Disk>(
        &mut self,
        disk: &mut D,
        target: &Target,
        removals: &[u32],
    ) -> Result<(), DiskFault>
        requires free { self.old.state.request ≡ None }
        requires entries { AreEntries self.old.state.members removals.now }
        requires formed { IsWellFormed self.old.state }
        requires begins { BeginFits self.old.head.next
            (asking_for target.now removals.now self.old.state) self.old.state }
        ensures cause { FailsReading D.Disk disk.old disk.new result }
        ensures memory { IsErrOf result Memory → IsStillNext self.old self.new
            (D.told disk.old) (D.told disk.new) }
        ensures inside { TouchesInside D.Disk disk.old disk.new }
        ensures head { OnOk result
            (self.new.head ≡ with_one_more (head_slotted self.old.head)) }
        ensures state { OnOk result (self.new.state ≡ state_begun self.old.head.next
            (asking_for target.now removals.now self.old.state) self.old.state) }
        ensures commits { OnOk result (self.new.commits ≡ self.old.commits) }
        ensures crash { (files : Tree) → CanAct self.old files (D.told disk.old)
            → StopsLeave D.Disk (IsAroundNext
            (asking_for target.now removals.now self.old.state) self.old files)
            disk.old disk.new }
        ensures done { OnOk result ((files : Tree) → CanAct self.old files (D.told disk.old)
            → SwitchStands (with_one_more (head_slotted self.old.head))
            (state_begun self.old.head.next
            (asking_for target.now removals.now self.old.state) self.old.state)
            files (D.told disk.new)) }
    {
        self.write_due_slot(disk)?;
        self.open_request(disk, target, removals)
    }

    // Writes a slot where one is due.
    fn write_due_slot<D: Disk>(&mut self, disk: &mut D) -> Result<(), DiskFault>
        requires free { self.old.state.request ≡ None }
        requires formed { IsWellFormed self.old.state }
        requires small { is_small (contents_in self.old.state) ≡ true }
        ensures cause { FailsReading D.Disk disk.old disk.new result }
        ensures memory { IsErrOf result Memory → (self.new ≡ self.old) × (disk.new ≡ disk.old) }
        ensures inside { TouchesInside D.Disk disk.old disk.new }
        ensures head { OnOk result (self.new.head ≡ head_slotted self.old.head) }
        ensures state { self.new.state ≡ self.old.state }
        ensures commits { self.new.commits ≡ self.old.commits }
        ensures crash { (files : Tree) → CanAct self.old files (D.told disk.old)
            → StopsLeave D.Disk (Recovers self.old.state files) disk.old disk.new }
        ensures done { OnOk result ((files : Tree) → CanAct self.old files (D.told disk.old)
            → SwitchStands (head_slotted self.old.head) self.old.state files (D.told disk.new)) }
    {
        if self.journal.due() {
            self.write_new_slot(disk)
        } else {
            Ok(())
        }
    }

    // Writes a slot, which is due.
    fn write_new_slot<D: Disk>(&mut self, disk: &mut D) -> Result<(), DiskFault>
        requires free { self.old.state.request ≡ None }
        requires formed { IsWellFormed self.old.state }
        requires small { is_small (contents_in self.old.state) ≡ true }
        requires due { is_due self.old.head ≡ true }
        ensures cause { FailsReading D.Disk disk.old disk.new result }
        ensures memory { IsErrOf result Memory → (self.new ≡ self.old) × (disk.new ≡ disk.old) }
        ensures inside { TouchesInside D.Disk disk.old disk.new }
        ensures head { OnOk result (self.new.head ≡ head_slotted self.old.head) }
        ensures state { self.new.state ≡ self.old.state }
        ensures commits { self.new.commits ≡ self.old.commits }
        ensures crash { (files : Tree) → CanAct self.old files (D.told disk.old)
            → StopsLeave D.Disk (Recovers self.old.state files) disk.old disk.new }
        ensures done { OnOk result ((files : Tree) → CanAct self.old files (D.told disk.old)
            → SwitchStands (head_slotted self.old.head) self.old.state files (D.told disk.new)) }
    {
        let slot = self.ready_slot()?;
        match self.journal.write_slot(disk, &slot) {
            Ok(()) => Ok(()),
            Err(_) => Err(DiskFault::Failed),
        }
    }

    // Commits the record that begins the request.
    fn open_request<D: Disk>(
        &mut self,
        disk: &mut D,
        target: &Target,
        removals: &[u32],
    ) -> Result<(), DiskFault>
        requires begins { BeginFits self.old.head.next
            (asking_for target.now removals.now self.old.state) self.old.state }
        requires due { IsFalse (is_due self.old.head) }
        ensures cause { FailsReading D.Disk disk.old disk.new result }
        ensures memory { IsErrOf result Memory → (self.new ≡ self.old) × (disk.new ≡ disk.old) }
        ensures inside { TouchesInside D.Disk disk.old disk.new }
        ensures head { OnOk result (self.new.head ≡ with_one_more self.old.head) }
        ensures state { OnOk result (self.new.state ≡ state_begun self.old.head.next
            (asking_for target.now removals.now self.old.state) self.old.state) }
        ensures commits { OnOk result (self.new.commits ≡ self.old.commits) }
        ensures crash { (files : Tree) → CanAct self.old files (D.told disk.old)
            → StopsLeave D.Disk (IsAroundNext
            (asking_for target.now removals.now self.old.state) self.old files)
            disk.old disk.new }
        ensures done { OnOk result ((files : Tree) → CanAct self.old files (D.told disk.old)
            → SwitchStands (with_one_more self.old.head)
            (state_begun self.old.head.next
            (asking_for target.now removals.now self.old.state) self.old.state)
            files (D.told disk.new)) }
    {
        let opening = self.ready_opening(target, removals)?;
        match self.journal.commit(disk, &opening.ready) {
            Ok(()) => {}
            Err(_) => return Err(DiskFault::Failed),
        }
        self.ask(opening);
        Ok(())
    }

    // The request is open then. Takes no memory.
    fn ask(&mut self, opening: Opening)
        ensures head { self.new.head ≡ self.old.head }
        ensures state { self.new.state ≡ with_request opening.roots
            (request_in opening.request) self.old.state }
        ensures commits { self.new.commits ≡ self.old.commits }
    {
        let Opening { roots, request, .. } = opening;
        self.roots = roots;
        self.request = Some(request);
    }

    // All that the request needs, but for its commit.
    fn ready_opening(&self, target: &Target, removals: &[u32]) -> Result<Opening, OutOfMemory>
        requires { BeginFits self.now.head.next
            (asking_for target.now removals.now self.now.state) self.now.state }
        ensures roots { IfOk result (λ opening. opening.roots ≡ target.now.roots) }
        ensures request { IfOk result (λ opening.
            request_in opening.request ≡ request_begun self.now.head.next
            (asking_for target.now removals.now self.now.state)) }
        ensures ready { IfOk result (λ opening. IsReady self.now.head.next
            (begin_record (asking_for target.now removals.now self.now.state)) []
            opening.ready) }
    {
        let request = self.request_for(target, removals)?;
        let roots = copy_names(self.alloc, target.roots.as_slice())?;
        let ready = self.ready_begin(&roots, &request)?;
        Ok(Opening {
            roots,
            request,
            ready,
        })
    }

    // The request as it begins, by the record that comes next.
    fn request_for(&self, target: &Target, removals: &[u32]) -> Result<OpenRequest, OutOfMemory>
        ensures { IfOk result (λ request. request_in request ≡ request_begun self.now.head.next
            (asking_for target.now removals.now self.now.state)) }
    {
        Ok(OpenRequest {
            from: record_path_of(self.alloc, self.journal.next_number())?,
            target: copy_members(self.alloc, target.members.as_slice())?,
            removals: pkgs_at(self.alloc, self.members.as_slice(), removals)?,
            done: Buffer::new(self.alloc),
        })
    }

    // The record that begins it.
    fn ready_begin(&self, roots: &Items<Name>, request: &OpenRequest) -> Result<Ready, OutOfMemory>
        requires ordered { IsInOrder (begin_by roots.now request.now) }
        requires short { length (record_bytes (begin_by roots.now request.now)) ≤ RECORD_LIMIT }
        ensures { IfOk result (IsReady self.now.head.next (begin_by roots.now request.now) []) }
    {
        let entry = Rec::Begin {
            roots: copy_names(self.alloc, roots.as_slice())?,
            target: entries_of(self.alloc, request.target.as_slice())?,
            removals: copy_pkgs(self.alloc, request.removals.as_slice())?,
        };
        self.journal
            .ready(self.alloc, entry, Items::new(self.alloc))
    }
}

fn copy_names(alloc: Global, names: &[Name]) -> Result<Items<Name>, OutOfMemory>
    ensures { IfOk result (λ copies. copies ≡ names.now) }
{
    let mut copies = Items::new(alloc);
    for name in names {
        copies.push(name.copy(alloc)?)?;
    }
    Ok(copies)
}

fn copy_pkgs(alloc: Global, pkgs: &[Pkg]) -> Result<Items<Pkg>, OutOfMemory>
    ensures { IfOk result (λ copies. copies ≡ pkgs.now) }
{
    let mut copies = Items::new(alloc);
    for pkg in pkgs {
        copies.push(pkg.copy(alloc)?)?;
    }
    Ok(copies)
}

fn copy_members(alloc: Global, members: &[Member]) -> Result<Items<Member>, OutOfMemory>
    ensures { IfOk result (λ copies. copies ≡ members.now) }
{
    let mut copies = Items::new(alloc);
    for member in members {
        copies.push(member.copy(alloc)?)?;
    }
    Ok(copies)
}

// The packages of the entries at these places.
fn pkgs_at(alloc: Global, members: &[Member], places: &[u32]) -> Result<Items<Pkg>, OutOfMemory>
    ensures { IfOk result (λ pkgs. pkgs ≡ begins.pkgs_at members.now places.now) }
{
    let mut pkgs = Items::new(alloc);
    for place in places {
        push_pkg(alloc, members, *place as usize, &mut pkgs)?;
    }
    Ok(pkgs)
}

// Adds the package of the entry at this place.
fn push_pkg(
    alloc: Global,
    members: &[Member],
    place: usize,
    pkgs: &mut Items<Pkg>,
) -> Result<(), OutOfMemory>
    ensures { OnOk result (pkgs.new ≡ pkgs.old ++ begins.pkgs_at members.now (place ∷ [])) }
{
    if place < members.len() {
        pkgs.push(members[place].package.pkg.copy(alloc)?)
    } else {
        Ok(())
    }
}
