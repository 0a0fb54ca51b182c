// A question is asked over the devices of a run, and answered.
ghost use Rattle.std.specs.Prelude.{◌≡◌, ◌≢◌, [], IsFalse, IsTrue};
ghost use Rattle.std.specs.FinMap.{get};
ghost use Rattle.std.specs.declared.option.Option.TheVariants.{Some};
ghost use Rattle.outside_io.specs.Counts.{Files};
ghost use Rattle.outside_io.specs.HostEffects.{OnlyReadsHost};
ghost use Rattle.crash_disk.specs.Disks.{State};
ghost use Rattle.crash_disk.specs.Stops.{StopsLeave};
ghost use Rattle.switch_journal.specs.Opening.{IsWhileOpening, TouchesLast};
ghost use Rattle.run_answers.specs.Opening.{OnlyClaims};
ghost use Rattle.run_answers.specs.Statuses.{Blames, BlamesOutput, SaysLocked};
ghost use Rattle.opam_queries.specs.Asking.{AfterOpening, Asks, IsAnswered, ListsAfter, ListsOpening, Replies, ShowsOpening, TellsReply, opens_switch};
ghost use Rattle.opam_queries.specs.Replies.{IsShown, asked_entry};

use crate::asking::told_answer;
use crate::linting::lint_file;
use crate::showing::show;
use action_report::list_text;
use command_words::{Query, Shown};
use crash_disk::Disk;
use opam_names::{Items, OutOfMemory};
use outside_io::{Host, Sink};
use package_vars::Facts;
use run_answers::{Answer, Ended, Opened, Status, Stop, answer_with, open_switch};
use std::alloc::Global;

/// Answers a question. Nothing of the switch is changed, but that its opening may do the work of its last record once more; `lint`
/// does not look at the switch.
pub fn opam_query<H: Host, D: Disk, O: Sink, E: Sink>(
    alloc: Global,
    query: &Query,
    facts: &Facts,
    host: &mut H,
    disk: &mut D,
    out: &mut O,
    err: &mut E,
) -> Ended
    // The status of a device's fault, and of a switch that is locked, comes just where that was counted.
    ensures host { Blames Status.HostFailed (H.faults host.old) (H.faults host.new) result.status }
    ensures disk { Blames Status.DiskFailed (D.faults disk.old) (D.faults disk.new) result.status }
    ensures held { Blames Status.Locked (D.held disk.old) (D.held disk.new) result.status }
    ensures out { BlamesOutput (O.faults out.old) (O.faults out.new) result.status }
    ensures taken { IsTrue (opens_switch query.now) → SaysLocked (D.taken disk.old)
        (D.faults disk.old) (D.faults disk.new) result.status }
    ensures reads { OnlyReadsHost H.Host host.old host.new }
    // What becomes of the disk: nothing where the switch is not opened, or is locked.
    ensures idle { IsFalse (opens_switch query.now) → disk.new ≡ disk.old }
    ensures locked { result.status ≡ Status.Locked → OnlyClaims D.Disk disk.old disk.new }
    ensures touches { result.status ≢ Status.Locked → TouchesLast D.Disk disk.old disk.new }
    ensures crash { (s : State) → D.told disk.old ≡ Some s
        → StopsLeave D.Disk (IsWhileOpening s) disk.old disk.new }
    // What is answered, with which status, and what is said of it.
    ensures answered { IsAnswered O.Sink E.Sink
        (TellsReply query.now facts.now (H.files host.old) (D.told disk.old) (D.told disk.new))
        result.status out.old out.new err.old err.new }
    ensures heard { result.heard ≡ [] }
    ensures receipts { result.receipts ≡ [] }
{
    let answer = ask(alloc, query, facts, host, disk);
    Ended {
        status: answer_with(answer, out, err),
        heard: Items::new(alloc),
        receipts: Items::new(alloc),
    }
}

fn ask<H: Host, D: Disk>(
    alloc: Global,
    query: &Query,
    facts: &Facts,
    host: &mut H,
    disk: &mut D,
) -> Result<Answer, Stop>
    ensures { Asks H.Host D.Disk (Replies query.now facts.now) (opens_switch query.now)
        host.old host.new disk.old disk.new result }
{
    match query {
        Query::List => list(alloc, facts, disk),
        Query::Show { repo, what } => show_in(alloc, repo.as_str(), what, facts, host, disk),
        Query::Lint { file } => lint_file(host, alloc, file.as_str()),
    }
}

// What is installed.
fn list<D: Disk>(alloc: Global, facts: &Facts, disk: &mut D) -> Result<Answer, Stop>
    ensures { ListsOpening D.Disk facts.now disk.old disk.new result }
{
    let opening = open_switch(disk, alloc, facts);
    list_after(alloc, opening)
}

fn list_after(alloc: Global, opening: Result<Opened, Stop>) -> Result<Answer, Stop>
    ensures { ListsAfter opening result }
{
    match opening {
        Ok(opened) => match list_text(alloc, opened.switch.installed()) {
            Ok(text) => Ok(told_answer(text)),
            Err(OutOfMemory) => Err(Stop::Memory),
        },
        Err(stop) => Err(stop),
    }
}

// One package, of the switch or of the repository in this folder.
fn show_in<H: Host, D: Disk>(
    alloc: Global,
    repo: &str,
    what: &Shown,
    facts: &Facts,
    host: &mut H,
    disk: &mut D,
) -> Result<Answer, Stop>
    ensures { ShowsOpening H.Host D.Disk facts.now repo.now what.now host.old host.new
        disk.old disk.new result }
{
    let opening = open_switch(disk, alloc, facts);
    show_after(host, alloc, repo, what, opening)
}

fn show_after<H: Host>(
    host: &mut H,
    alloc: Global,
    repo: &str,
    what: &Shown,
    opening: Result<Opened, Stop>,
) -> Result<Answer, Stop>
    ensures { AfterOpening H.Host (λ opened files. IsShown files opened.globals repo.now
        opened.switch.state what.now (asked_entry what.now opened.switch.state.members))
        opening host.old host.new result }
{
    match opening {
        Ok(opened) => show(host, alloc, repo, what, &opened),
        Err(stop) => Err(stop),
    }
}
