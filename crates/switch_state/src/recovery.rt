// The opening of a switch: the journal is opened, and each opam text of what it says is read.
#![tactic(auto)]

ghost use Rattle.std.specs.Prelude.{◌≡◌, ◌≢◌, IfOk};
ghost use Rattle.std.specs.declared.option.Option.TheVariants.{None, Some};
ghost use Rattle.opam_names.specs.ByteOrders.{in_order_by};
ghost use Rattle.journal_text.specs.Parts.{own_name};
ghost use Rattle.crash_disk.specs.Disks.{State};
ghost use Rattle.crash_disk.specs.Stops.{StopsLeave};
ghost use Rattle.opam_package.specs.declared.fault.PackageFault.TheVariants as faults;
ghost use Rattle.switch_journal.specs.Formed.{IsFormed};
ghost use Rattle.switch_journal.specs.Opening.{IsWhileOpening, TouchesLast};
ghost use Rattle.switch_state.specs.Recovery as recovery;
ghost use Rattle.switch_state.specs.Recovery.{AreAllRead, AreMembersRead, FailsRecovery, IsMadeOf, IsReadOf, IsRequestRead, IsTargetRead, OpensSwitch, TellsDamage};
ghost use Rattle.switch_state.specs.WellFormed.{IsWellFormed};

use crate::fault::SwitchFault;
use crate::request::OpenRequest;
use crate::switch::Switch;
use crash_disk::Disk;
use journal_text::Entry;
use opam_filter::Vars;
use opam_names::{Buffer, Items, Name, OutOfMemory, RelPath};
use opam_package::{Member, OPAM_LIMIT, PackageFault, read_package};
use std::alloc::Global;
use switch_journal::{
    Journal, Kept, Open, OpenFault, Standing, readings_are_determined, what_is_read_is_said,
};
use syntax_trees::one_tree_for_bytes;

// The members of opam texts, or where the first comes from that is not accepted.
#[derive(Drop)]
pub(crate) enum MembersRead {
    Refused { from: RelPath },
    Whole(Items<Member>),
}

// The same of what a request is to install.
#[derive(Drop)]
pub(crate) enum RequestRead {
    Refused { from: RelPath },
    Whole(Option<OpenRequest>),
}

impl Switch {
    /// Opens the switch of a disk: its journal is opened, and the packages of its entries, and of what the open request is to
    /// install, are read from their opam texts by the variables of the run. After a fault it may be called again.
    pub fn recover<D: Disk>(
        disk: &mut D,
        alloc: Global,
        globals: &Vars,
    ) -> Result<Switch, SwitchFault>
        ensures cause { FailsRecovery D.Disk disk.old disk.new result }
        // Nothing changes but at the paths of the last counted record.
        ensures touches { TouchesLast D.Disk disk.old disk.new }
        // The switch stands for the disk, with the last record's work done, and its state is what the journal says.
        ensures stands { (s : State) → D.told disk.old ≡ Some s
            → IfOk result (λ now. OpensSwitch now s.files (D.told disk.new)) }
        ensures formed { IfOk result (λ now. IsWellFormed now.state) }
        ensures members { IfOk result (λ now. AreMembersRead globals.now now.state) }
        ensures commits { IfOk result (λ now. now.commits ≡ 0) }
        ensures damaged { (s : State) → D.told disk.old ≡ Some s → TellsDamage result s.files }
        // Whenever the machine stops, an opening makes the same of the disk.
        ensures crash { (s : State) → D.told disk.old ≡ Some s
            → StopsLeave D.Disk (IsWhileOpening s) disk.old disk.new }
    {
        what_is_read_is_said();
        readings_are_determined();
        match Journal::recover(disk, alloc) {
            Err(fault) => Err(told_fault(fault)),
            Ok((journal, kept)) => switch_of(alloc, globals, journal, kept),
        }
    }
}

fn told_fault(fault: OpenFault) -> SwitchFault
    ensures { result ≡ recovery.told_fault fault }
{
    match fault {
        OpenFault::DiskFailed => SwitchFault::DiskFailed,
        OpenFault::NotAJournal { path } => SwitchFault::Damaged { path },
        OpenFault::Memory => SwitchFault::Memory,
    }
}

// The switch of a journal that says so much.
fn switch_of(
    alloc: Global,
    globals: &Vars,
    journal: Journal,
    kept: Kept,
) -> Result<Switch, SwitchFault>
    requires { IsFormed kept }
    ensures { IsMadeOf globals.now journal kept result }
{
    let (standing, owners, roots, request) = kept.into_parts();
    match read_members(alloc, globals, standing) {
        Err(OutOfMemory) => Err(SwitchFault::Memory),
        Ok(MembersRead::Refused { from }) => Err(SwitchFault::Damaged { path: from }),
        Ok(MembersRead::Whole(members)) => match read_request(alloc, globals, request) {
            Err(OutOfMemory) => Err(SwitchFault::Memory),
            Ok(RequestRead::Refused { from }) => Err(SwitchFault::Damaged { path: from }),
            Ok(RequestRead::Whole(request)) => match in_order(roots) {
                Err(OutOfMemory) => Err(SwitchFault::Memory),
                Ok(roots) => {
                    owners.stand_apart();
                    Ok(Switch {
                        journal,
                        members: Buffer::from_items(members),
                        owners,
                        roots,
                        request,
                        commits: 0,
                        alloc,
                    })
                }
            },
        },
    }
}

fn in_order(roots: Items<Name>) -> Result<Items<Name>, OutOfMemory>
    ensures { IfOk result (λ names. names ≡ in_order_by own_name roots) }
{
    let mut roots = roots;
    roots.sort_by_bytes()?;
    Ok(roots)
}

// The members of what is installed.
fn read_members(
    alloc: Global,
    globals: &Vars,
    standing: Items<Standing>,
) -> Result<MembersRead, OutOfMemory>
    ensures { IfOk result (AreAllRead globals.now standing) }
{
    let mut members = Items::new(alloc);
    for one in standing.into_vec() {
        let Standing { entry, from } = one;
        match read_member(alloc, globals, entry)? {
            None => return Ok(MembersRead::Refused { from }),
            Some(member) => members.push(member)?,
        }
    }
    Ok(MembersRead::Whole(members))
}

fn read_request(
    alloc: Global,
    globals: &Vars,
    request: Option<Open>,
) -> Result<RequestRead, OutOfMemory>
    ensures { IfOk result (IsRequestRead globals.now request) }
{
    match request {
        None => Ok(RequestRead::Whole(None)),
        Some(request) => read_open(alloc, globals, request),
    }
}

// The open request with its target read.
fn read_open(alloc: Global, globals: &Vars, request: Open) -> Result<RequestRead, OutOfMemory>
    ensures { IfOk result (IsRequestRead globals.now (Some request)) }
{
    let Open {
        from,
        target,
        removals,
        done,
    } = request;
    match read_target(alloc, globals, &from, target)? {
        None => Ok(RequestRead::Refused { from }),
        Some(target) => Ok(RequestRead::Whole(Some(OpenRequest {
            from,
            target,
            removals,
            done: Buffer::from_items(done),
        }))),
    }
}

// The members of a target that comes from one record; None where an opam text of it is not accepted.
fn read_target(
    alloc: Global,
    globals: &Vars,
    from: &RelPath,
    target: Items<Entry>,
) -> Result<Option<Items<Member>>, OutOfMemory>
    ensures { IfOk result (IsTargetRead globals.now from.now target) }
{
    let mut members = Items::new(alloc);
    for entry in target.into_vec() {
        match read_member(alloc, globals, entry)? {
            None => return Ok(None),
            Some(member) => members.push(member)?,
        }
    }
    Ok(Some(members))
}

// The member of an opam text; None exactly where the text is too long or is refused.
fn read_member(alloc: Global, globals: &Vars, entry: Entry) -> Result<Option<Member>, OutOfMemory>
    ensures { IfOk result (IsReadOf globals.now entry) }
{
    one_tree_for_bytes();
    let Entry { pkg, opam } = entry;
    if opam.len() > OPAM_LIMIT {
        return Ok(None);
    }
    match read_package(alloc, opam.as_slice(), &pkg, globals) {
        Ok(package) => Ok(Some(Member { package, opam })),
        Err(fault) => refuse(fault),
    }
}

// A text with a fault gives no member; want of memory is no fault of it.
fn refuse(fault: PackageFault) -> Result<Option<Member>, OutOfMemory>
    ensures { IfOk result (λ read. (read ≡ None) × (fault ≢ faults.Memory)) }
{
    match fault {
        PackageFault::Memory => Err(OutOfMemory),
        _ => Ok(None),
    }
}
