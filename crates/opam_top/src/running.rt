// The top call.
#![tactic(auto, using(crate::proofs::Passed::time_steps))]

ghost use Rattle.std.specs.Prelude.{◌≡◌, ◌≢◌, ◌<◌, ◌≤◌, true, false, [], Some, Err, IfErr, OnOk, OnErr, IsTrue, codes, count_by, length, map, string_bytes};
ghost use Rattle.std.specs.Arc.{arc_value};
ghost use Rattle.std.specs.List.{list_all};
ghost use Rattle.opam_top.specs.Reports.{is_installed, summary};
ghost use Rattle.outside_io.specs.Shops.{Told};
ghost use Rattle.outside_io.specs.Counts.{Rose, Quiet, last_count};
ghost use Rattle.outside_io.specs.Sinks.{Got, GotPrefix};
ghost use Rattle.opam_top.specs.Pasts.{Passes};
ghost use Rattle.opam_top.specs.Answers.{Outside, IsOutside, IsHalted, IsRunOf, LeftBy, after_output_fault, goes_through, out_at_end, run, run_of};
ghost use Rattle.opam_top.specs.Changes.{AreDated, AreReceipts, IsPartOf, Says, Stands, Tracks};
ghost use Rattle.opam_top.specs.Holdings.{KeepsOthers};
ghost use Rattle.opam_top.specs.Fronts.{is_short};
ghost use Rattle.opam_top.specs.Journals.{is_fresh};
ghost use Rattle.opam_top.specs.Outcomes.{outcome};
ghost use Rattle.opam_top.specs.Refusals.{Causes};
ghost use Rattle.opam_top.specs.Switches.{empty_switch};
ghost use Rattle.opam_top.specs.declared.stops.Refusal.{Refusal};
ghost use Rattle.crash_disk.specs.Disks.{State};

use crate::change::{Progress, install_members};
use crate::decision::Decision;
use crate::ending::conclude;
use crate::facts::Facts;
use crate::front::members_to_install;
use crate::member::Member;
use crate::request::{Request, read_request};
use crate::status::{Ended, Status};
use crate::stops::Stop;
use crate::telling::say;
use crate::totals::summary;
use child_pool::SerialCrew;
use crash_disk::Disk;
use opam_names::{Items, OutOfMemory};
use outside_io::{Host, Sink, Teller, Workshop};
use std::alloc::Global;
use std::sync::{Arc, Wait};
use std::thread::Threads;

/// Does what the words of a command line ask for. `words` leaves out the program's name.
pub fn opam_run<
    Rt: Threads + Wait + Clone + Send + Sync + Drop + 'static,
    H: Host,
    W: Workshop + Send + Sync + Drop + 'static,
    D: Disk,
    O: Sink,
    E: Sink,
>(
    rt: &Rt,
    alloc: Global,
    words: &[String],
    facts: &Facts,
    host: &mut H,
    shop: &Arc<W>,
    disk: &mut D,
    out: &mut O,
    err: &mut E,
) -> Ended
    // A device's status comes only where its count rose. Where the host's or the disk's rose no other comes but for want of
    // memory, and where the output's rose the run is not done.
    ensures host_failed { result.status ≡ Status.HostFailed → Rose (H.faults host.old) (H.faults host.new) }
    ensures disk_failed { result.status ≡ Status.DiskFailed → Rose (D.faults disk.old) (D.faults disk.new) }
    ensures out_failed { result.status ≡ Status.OutFailed → Rose (O.faults out.old) (O.faults out.new) }
    ensures host_rose { H.faults host.old < H.faults host.new → result.status ≢ Status.Memory → result.status ≡ Status.HostFailed }
    ensures disk_rose { D.faults disk.old < D.faults disk.new → result.status ≢ Status.Memory → result.status ≡ Status.DiskFailed }
    ensures out_rose { O.faults out.old < O.faults out.new → result.status ≢ Status.Done }

    // Where neither the host's nor the disk's count rose and memory was not wanting, the run is the one that the definition
    // gives. Where the output failed, that is its status if all else is done, and the output has got the beginning.
    ensures status { (outside : Outside) → IsOutside outside (H.files host.old) (D.told disk.old) (W.told (arc_value shop.now)) →
        Quiet (H.faults host.old) (H.faults host.new) → Quiet (D.faults disk.old) (D.faults disk.new) → Quiet (O.faults out.old) (O.faults out.new) →
        result.status ≢ Status.Memory → result.status ≡ (run (map string_bytes words.now) outside).status }
    ensures out_status { (outside : Outside) → IsOutside outside (H.files host.old) (D.told disk.old) (W.told (arc_value shop.now)) →
        Quiet (H.faults host.old) (H.faults host.new) → Quiet (D.faults disk.old) (D.faults disk.new) → O.faults out.old < O.faults out.new →
        result.status ≢ Status.Memory → result.status ≡ after_output_fault (run (map string_bytes words.now) outside).status }
    ensures out { (outside : Outside) → IsOutside outside (H.files host.old) (D.told disk.old) (W.told (arc_value shop.now)) →
        Quiet (H.faults host.old) (H.faults host.new) → Quiet (D.faults disk.old) (D.faults disk.new) → Quiet (O.faults out.old) (O.faults out.new) →
        result.status ≢ Status.Memory → Got (O.written out.old) (O.written out.new) (run (map string_bytes words.now) outside).out }
    ensures out_part { (outside : Outside) → IsOutside outside (H.files host.old) (D.told disk.old) (W.told (arc_value shop.now)) →
        Quiet (H.faults host.old) (H.faults host.new) → Quiet (D.faults disk.old) (D.faults disk.new) →
        result.status ≢ Status.Memory → GotPrefix (O.written out.old) (O.written out.new) (run (map string_bytes words.now) outside).out }
    ensures err { (outside : Outside) → IsOutside outside (H.files host.old) (D.told disk.old) (W.told (arc_value shop.now)) →
        Quiet (H.faults host.old) (H.faults host.new) → Quiet (D.faults disk.old) (D.faults disk.new) → result.status ≢ Status.OutFailed → Quiet (E.faults err.old) (E.faults err.new) →
        result.status ≢ Status.Memory → Got (E.written err.old) (E.written err.new) (run (map string_bytes words.now) outside).err }
    ensures heard { (outside : Outside) → IsOutside outside (H.files host.old) (D.told disk.old) (W.told (arc_value shop.now)) →
        Quiet (H.faults host.old) (H.faults host.new) → Quiet (D.faults disk.old) (D.faults disk.new) →
        result.status ≢ Status.Memory → result.heard ≡ (run (map string_bytes words.now) outside).change.heard }
    ensures receipts { (outside : Outside) → IsOutside outside (H.files host.old) (D.told disk.old) (W.told (arc_value shop.now)) →
        Quiet (H.faults host.old) (H.faults host.new) → Quiet (D.faults disk.old) (D.faults disk.new) →
        result.status ≢ Status.Memory → length result.receipts ≡ length (run (map string_bytes words.now) outside).change.records }
    ensures left { (outside : Outside) → IsOutside outside (H.files host.old) (D.told disk.old) (W.told (arc_value shop.now)) →
        Quiet (H.faults host.old) (H.faults host.new) → Quiet (D.faults disk.old) (D.faults disk.new) →
        result.status ≢ Status.Memory → (new : State) × (D.told disk.new ≡ Some new) × LeftBy (run (map string_bytes words.now) outside) outside.disk.files new.files }

    // Where the disk failed in the middle, the first of its decisions are reported and no summary, the jobs of these at least
    // are heard, and the receipts are those of what was committed.
    ensures halted { (outside : Outside) → IsOutside outside (H.files host.old) (D.told disk.old) (W.told (arc_value shop.now)) →
        result.status ≡ Status.DiskFailed → IsHalted (run (map string_bytes words.now) outside).change result (O.faults out.old) (O.faults out.new) (O.written out.old) (O.written out.new) }

    // Whatever happens, no file outside the journal that stood there is written or removed, and the receipts are counted
    // from 0, with moments that never fall.
    ensures kept { (s : State) → D.told disk.old ≡ Some s → (new : State) × (D.told disk.new ≡ Some new) × KeepsOthers s.files new.files }
    ensures counted { AreReceipts (D.moment disk.old) (D.moment disk.new) result.receipts }

    // Each receipt is of a moment at which its record and those before it were durable and the next gate was absent, as long
    // as the clock has not come to its end.
    ensures dated { (outside : Outside) → IsOutside outside (H.files host.old) (D.told disk.old) (W.told (arc_value shop.now)) → D.moment disk.new < last_count →
        AreDated (D.past disk.new) (run (map string_bytes words.now) outside).change.records result.receipts }

    // Where a device failed, that is said.
    ensures host_said { result.status ≡ Status.HostFailed → Quiet (E.faults err.old) (E.faults err.new) → Got (E.written err.old) (E.written err.new) (codes "host fault\n") }
    ensures disk_said { result.status ≡ Status.DiskFailed → Quiet (E.faults err.old) (E.faults err.new) → Got (E.written err.old) (E.written err.new) (codes "disk fault\n") }
    ensures out_said { result.status ≡ Status.OutFailed → Quiet (E.faults err.old) (E.faults err.new) → Got (E.written err.old) (E.written err.new) (codes "output fault\n") }
    // A fault of the host comes before the change: the output got nothing, and the disk is as it was.
    ensures host_silent { result.status ≡ Status.HostFailed → GotPrefix (O.written out.old) (O.written out.new) [] }
    ensures host_idle { result.status ≡ Status.HostFailed → D.told disk.new ≡ D.told disk.old }
{
    let mut progress = Progress::new(alloc);
    let ran = run_words(alloc, words, host, &**shop, disk, out, &mut progress);
    let status = conclude(&ran.end, progress.decisions.as_slice(), ran.broken, err);
    let Progress {
        heard,
        receipts,
        ..
    } = progress;
    Ended {
        status,
        heard: Items::from_vec(heard),
        receipts: Items::from_vec(receipts),
    }
}

// How a run came to its end, and whether the output has failed.
#[derive(Drop)]
struct Ran {
    end: Result<(), Stop>,
    broken: bool,
}

fn run_words<H: Host, W: Workshop, D: Disk, O: Sink>(
    alloc: Global,
    words: &[String],
    host: &mut H,
    shop: &W,
    disk: &mut D,
    out: &mut O,
    progress: &mut Progress,
) -> Ran
    requires undecided { progress.old.decisions.items ≡ [] }
    requires unheard { progress.old.heard.items ≡ [] }
    requires uncommitted { progress.old.receipts.items ≡ [] }
    requires unowned { progress.old.owners.items ≡ [] }
    ensures host { Causes Stop.Host (H.faults host.old) (H.faults host.new) result.end }
    ensures disk { Causes Stop.Disk (D.faults disk.old) (D.faults disk.new) result.end }
    ensures kept { (s : State) → D.told disk.old ≡ Some s → (new : State) × (D.told disk.new ≡ Some new) × KeepsOthers s.files new.files }
    ensures receipts { AreReceipts (D.moment disk.old) (D.moment disk.new) progress.new.receipts.items }
    ensures committed { length progress.new.receipts.items ≡ count_by is_installed progress.new.decisions.items }
    ensures said { Says false result.broken (O.faults out.old) (O.faults out.new) (O.written out.old) (O.written out.new) (out_at_end result.end progress.new.decisions.items) }
    ensures idle { result.end ≡ Err Stop.Host → D.told disk.new ≡ D.told disk.old }
    ensures silent { result.end ≡ Err Stop.Host → progress.new.decisions.items ≡ [] }
    ensures run { (outside : Outside) → IsOutside outside (H.files host.old) (D.told disk.old) (W.told shop.now) → IsTrue (goes_through result.end) →
        IsRunOf (run (map string_bytes words.now) outside) outside.disk.files result.end progress.new (D.told disk.new) }
    ensures halted { (outside : Outside) → IsOutside outside (H.files host.old) (D.told disk.old) (W.told shop.now) → result.end ≡ Err Stop.Disk →
        IsPartOf progress.new (run (map string_bytes words.now) outside).change }
    ensures dated { (outside : Outside) → IsOutside outside (H.files host.old) (D.told disk.old) (W.told shop.now) → D.moment disk.new < last_count →
        AreDated (D.past disk.new) (run (map string_bytes words.now) outside).change.records progress.new.receipts.items }
{
    let mut teller = Teller::new(out);
    let end = change_by_words(alloc, words, host, shop, disk, &mut teller, progress);
    Ran {
        end,
        broken: teller.broken(),
    }
}

fn change_by_words<H: Host, W: Workshop, D: Disk, O: Sink>(
    alloc: Global,
    words: &[String],
    host: &mut H,
    shop: &W,
    disk: &mut D,
    out: &mut Teller<O>,
    progress: &mut Progress,
) -> Result<(), Stop>
    requires undecided { progress.old.decisions.items ≡ [] }
    requires unheard { progress.old.heard.items ≡ [] }
    requires uncommitted { progress.old.receipts.items ≡ [] }
    requires unowned { progress.old.owners.items ≡ [] }
    ensures sink { out.new.sink.ghost_name ≡ out.old.sink.ghost_name }
    ensures host { Causes Stop.Host (H.faults host.old) (H.faults host.new) result }
    ensures disk { Causes Stop.Disk (D.faults disk.old) (D.faults disk.new) result }
    ensures kept { (s : State) → D.told disk.old ≡ Some s → (new : State) × (D.told disk.new ≡ Some new) × KeepsOthers s.files new.files }
    ensures receipts { AreReceipts (D.moment disk.old) (D.moment disk.new) progress.new.receipts.items }
    ensures committed { length progress.new.receipts.items ≡ count_by is_installed progress.new.decisions.items }
    ensures said { Says out.old.stopped out.new.stopped (O.faults out.old.sink.now) (O.faults out.new.sink.now) (O.written out.old.sink.now) (O.written out.new.sink.now) (out_at_end result progress.new.decisions.items) }
    ensures idle { result ≡ Err Stop.Host → D.told disk.new ≡ D.told disk.old }
    ensures silent { result ≡ Err Stop.Host → progress.new.decisions.items ≡ [] }
    ensures run { (outside : Outside) → IsOutside outside (H.files host.old) (D.told disk.old) (W.told shop.now) → IsTrue (goes_through result) →
        IsRunOf (run (map string_bytes words.now) outside) outside.disk.files result progress.new (D.told disk.new) }
    ensures halted { (outside : Outside) → IsOutside outside (H.files host.old) (D.told disk.old) (W.told shop.now) → result ≡ Err Stop.Disk →
        IsPartOf progress.new (run (map string_bytes words.now) outside).change }
    ensures dated { (outside : Outside) → IsOutside outside (H.files host.old) (D.told disk.old) (W.told shop.now) → D.moment disk.new < last_count →
        AreDated (D.past disk.new) (run (map string_bytes words.now) outside).change.records progress.new.receipts.items }
{
    match read_request(alloc, words) {
        Ok(request) => change_by_request(alloc, &request, host, shop, disk, out, progress),
        Err(stop) => Err(stop),
    }
}

fn change_by_request<H: Host, W: Workshop, D: Disk, O: Sink>(
    alloc: Global,
    request: &Request,
    host: &mut H,
    shop: &W,
    disk: &mut D,
    out: &mut Teller<O>,
    progress: &mut Progress,
) -> Result<(), Stop>
    requires jobs { 0 < request.now.jobs }
    requires undecided { progress.old.decisions.items ≡ [] }
    requires unheard { progress.old.heard.items ≡ [] }
    requires uncommitted { progress.old.receipts.items ≡ [] }
    requires unowned { progress.old.owners.items ≡ [] }
    ensures sink { out.new.sink.ghost_name ≡ out.old.sink.ghost_name }
    ensures host { Causes Stop.Host (H.faults host.old) (H.faults host.new) result }
    ensures disk { Causes Stop.Disk (D.faults disk.old) (D.faults disk.new) result }
    ensures kept { (s : State) → D.told disk.old ≡ Some s → (new : State) × (D.told disk.new ≡ Some new) × KeepsOthers s.files new.files }
    ensures receipts { AreReceipts (D.moment disk.old) (D.moment disk.new) progress.new.receipts.items }
    ensures committed { length progress.new.receipts.items ≡ count_by is_installed progress.new.decisions.items }
    ensures said { Says out.old.stopped out.new.stopped (O.faults out.old.sink.now) (O.faults out.new.sink.now) (O.written out.old.sink.now) (O.written out.new.sink.now) (out_at_end result progress.new.decisions.items) }
    ensures idle { result ≡ Err Stop.Host → D.told disk.new ≡ D.told disk.old }
    ensures silent { result ≡ Err Stop.Host → progress.new.decisions.items ≡ [] }
    ensures run { (outside : Outside) → IsOutside outside (H.files host.old) (D.told disk.old) (W.told shop.now) → IsTrue (goes_through result) →
        IsRunOf (run_of request.now outside) outside.disk.files result progress.new (D.told disk.new) }
    ensures halted { (outside : Outside) → IsOutside outside (H.files host.old) (D.told disk.old) (W.told shop.now) → result ≡ Err Stop.Disk →
        IsPartOf progress.new (run_of request.now outside).change }
    ensures dated { (outside : Outside) → IsOutside outside (H.files host.old) (D.told disk.old) (W.told shop.now) → D.moment disk.new < last_count →
        AreDated (D.past disk.new) (run_of request.now outside).change.records progress.new.receipts.items }
{
    match members_to_install(alloc, request, host, disk) {
        Ok(members) => {
            install_and_sum_up(
                alloc,
                request.jobs,
                shop,
                disk,
                out,
                progress,
                members.as_slice(),
            )
        }
        Err(stop) => Err(stop),
    }
}

// Installs packages, and ends the report with its summary.
fn install_and_sum_up<W: Workshop, D: Disk, O: Sink>(
    alloc: Global,
    jobs: u32,
    shop: &W,
    disk: &mut D,
    out: &mut Teller<O>,
    progress: &mut Progress,
    members: &[Member],
) -> Result<(), Stop>
    requires jobs { 0 < jobs }
    requires few { length members.now ≤ 64 }
    requires short { IsTrue (list_all is_short members.now) }
    requires undecided { progress.old.decisions.items ≡ [] }
    requires unheard { progress.old.heard.items ≡ [] }
    requires uncommitted { progress.old.receipts.items ≡ [] }
    requires unowned { progress.old.owners.items ≡ [] }
    ensures sink { out.new.sink.ghost_name ≡ out.old.sink.ghost_name }
    ensures cause { Causes Stop.Disk (D.faults disk.old) (D.faults disk.new) result }
    ensures host { result ≢ Err Stop.Host }
    ensures refusal { (refusal : Refusal) → result ≢ Err (Stop.Refused refusal) }
    ensures kept { (s : State) → D.told disk.old ≡ Some s → (new : State) × (D.told disk.new ≡ Some new) × KeepsOthers s.files new.files }
    ensures time { Passes (D.moment disk.old) (D.moment disk.new) (D.past disk.old) (D.past disk.new) }
    ensures receipts { AreReceipts (D.moment disk.old) (D.moment disk.new) progress.new.receipts.items }
    ensures committed { length progress.new.receipts.items ≡ count_by is_installed progress.new.decisions.items }
    ensures said { Says out.old.stopped out.new.stopped (O.faults out.old.sink.now) (O.faults out.new.sink.now) (O.written out.old.sink.now) (O.written out.new.sink.now) (out_at_end result progress.new.decisions.items) }
    ensures done { (told : Told) (s : State) → W.told shop.now ≡ Some told → D.told disk.old ≡ Some s → is_fresh s.files ≡ true →
        OnOk result (Tracks progress.new (outcome told (empty_switch s.files) members.now)) }
    ensures left { (told : Told) (s : State) → W.told shop.now ≡ Some told → D.told disk.old ≡ Some s → is_fresh s.files ≡ true →
        OnOk result (Stands (D.told disk.new) (outcome told (empty_switch s.files) members.now) s.files) }
    ensures heard { (told : Told) (s : State) → W.told shop.now ≡ Some told → D.told disk.old ≡ Some s → is_fresh s.files ≡ true →
        OnOk result (progress.new.heard.items ≡ (outcome told (empty_switch s.files) members.now).heard) }
    ensures halted { (told : Told) (s : State) → W.told shop.now ≡ Some told → D.told disk.old ≡ Some s → is_fresh s.files ≡ true →
        result ≡ Err Stop.Disk → IsPartOf progress.new (outcome told (empty_switch s.files) members.now) }
    ensures dated { (told : Told) (s : State) → W.told shop.now ≡ Some told → D.told disk.old ≡ Some s → is_fresh s.files ≡ true → D.moment disk.new < last_count →
        AreDated (D.past disk.new) (outcome told (empty_switch s.files) members.now).records progress.new.receipts.items }
{
    let mut crew = SerialCrew::new(alloc, shop, jobs);
    match install_members(alloc, shop, &mut crew, disk, out, progress, members) {
        Ok(()) => sum_up(alloc, out, progress.decisions.as_slice()),
        Err(stop) => Err(stop),
    }
}

fn sum_up<O: Sink>(alloc: Global, out: &mut Teller<O>, decisions: &[Decision]) -> Result<(), Stop>
    ensures sink { out.new.sink.ghost_name ≡ out.old.sink.ghost_name }
    ensures memory { IfErr result (λ stop. stop ≡ Stop.Memory) }
    ensures said { OnOk result (Says out.old.stopped out.new.stopped (O.faults out.old.sink.now) (O.faults out.new.sink.now) (O.written out.old.sink.now) (O.written out.new.sink.now) (summary decisions.now)) }
    ensures unsaid { OnErr result (Says out.old.stopped out.new.stopped (O.faults out.old.sink.now) (O.faults out.new.sink.now) (O.written out.old.sink.now) (O.written out.new.sink.now) []) }
{
    match summary(alloc, decisions) {
        Ok(text) => {
            say(out, text.as_slice());
            Ok(())
        }
        Err(OutOfMemory) => Err(Stop::Memory),
    }
}
