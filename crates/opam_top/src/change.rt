// A change: its packages one after another.
#![tactic(auto, using(crate::proofs::Passed::time_steps))]

ghost use Rattle.std.specs.Prelude.{◌≡◌, ◌≢◌, ◌<◌, ◌≤◌, ◌-◌, ◌+◌, ◌^◌, ◌++◌, [], ◌∷◌, ℕ, List, Some, Ok, Err, IfOk, IfErr, IsTrue, OnOk, OnErr, length, count_by, true, vec_len, vec_capacity};
ghost use Rattle.std.specs.List.{list_all, flat_map};
ghost use Rattle.opam_top.specs.Reports.{line_of, is_installed};
ghost use Rattle.opam_top.specs.declared.decision.Decision.{Decision};
ghost use Rattle.child_pool.specs.Crews.{IsFresh, TellsFate};
ghost use Rattle.outside_io.specs.Shops.{Told, fate_of};
ghost use Rattle.crash_disk.specs.Disks.{State, Tree};
ghost use Rattle.outside_io.specs.Counts.{last_count};
ghost use Rattle.opam_top.specs.Pasts.{Passes};
ghost use Rattle.opam_top.specs.Changes.{AreDated, AreReceipts, HeardOrNot, IsPartOf, IsRegular, Says, Stands, Tracks};
ghost use Rattle.opam_top.specs.Fronts.{is_short};
ghost use Rattle.opam_top.specs.Holdings.{KeepsOthers};
ghost use Rattle.opam_top.specs.Commits.{paths_differ, ready_with};
ghost use Rattle.opam_top.specs.Installs.{is_vacant, job_of};
ghost use Rattle.opam_top.specs.Journals.{is_fresh};
ghost use Rattle.opam_top.specs.Owners.{is_unowned, owned_by, owners_of};
ghost use Rattle.opam_top.specs.Placements.{is_in_bin};
ghost use Rattle.opam_top.specs.Records.{FilesFit, record_bytes};
ghost use Rattle.opam_top.specs.Outcomes.{Outcome, decided, outcome, undecided, with_member};
ghost use Rattle.opam_top.specs.Refusals.{Causes};
ghost use Rattle.opam_top.specs.Switches.{empty_switch};
ghost use Rattle.opam_top.specs.declared.member.Member.{Member};
ghost use Rattle.opam_top.specs.declared.records.Rec.TheVariants.{Install};
ghost use Rattle.opam_top.specs.declared.stops.Refusal.{Refusal};

use crate::Receipt;
use crate::commit::{Encoded, commit, make_ready};
use crate::deciding::files_to_place;
use crate::decision::{Decision, Reason};
use crate::jobs::{fate_by, make_job};
use crate::lines::line_of;
use crate::member::Member;
use crate::owners::own_files;
use crate::records::Placed;
use crate::stops::Stop;
use crate::telling::say;
use child_pool::Crew;
use crash_disk::Disk;
use opam_names::{Items, OutOfMemory, Pkg, RelPath};
use outside_io::{Fate, Job, Sink, Teller, Workshop};
use std::alloc::Global;

// How far a change has come: what was decided and reported of each package, each job that was taken in with its fate, a
// receipt for each commit, and who owns which path.
#[derive(Drop)]
pub struct Progress {
    pub decisions: Vec<Decision>,
    pub heard: Vec<(Pkg, Fate)>,
    pub receipts: Vec<Receipt>,
    pub owners: Vec<(RelPath, Pkg)>,
}

impl Progress {
    pub fn new(alloc: Global) -> Progress
        ensures decisions { result.decisions.items ≡ [] }
        ensures heard { result.heard.items ≡ [] }
        ensures receipts { result.receipts.items ≡ [] }
        ensures owners { result.owners.items ≡ [] }
    {
        Progress {
            decisions: Vec::new(alloc),
            heard: Vec::new(alloc),
            receipts: Vec::new(alloc),
            owners: Vec::new(alloc),
        }
    }

    // Makes the room for one more decision and its receipt, so that they can be noted without memory.
    fn make_room(&mut self) -> Result<(), OutOfMemory>
        ensures decisions { self.new.decisions.items ≡ self.old.decisions.items }
        ensures heard { self.new.heard ≡ self.old.heard }
        ensures receipts { self.new.receipts.items ≡ self.old.receipts.items }
        ensures owners { self.new.owners ≡ self.old.owners }
        ensures decision_fits { OnOk result (vec_len self.new.decisions < vec_capacity self.new.decisions) }
        ensures receipt_fits { OnOk result (vec_len self.new.receipts < vec_capacity self.new.receipts) }
    {
        self.decisions.reserve(1)?;
        self.receipts.reserve(1)?;
        Ok(())
    }

    // The moment is the disk's clock after the last sync of the commit.
    fn note_commit(&mut self, decision: Decision, moment: u64)
        requires decision_fits { vec_len self.old.decisions < vec_capacity self.old.decisions }
        requires receipt_fits { vec_len self.old.receipts < vec_capacity self.old.receipts }
        requires few { length self.old.receipts.items < 2 ^ 32 - 1 }
        ensures decisions { self.new.decisions.items ≡ self.old.decisions.items ++ decision ∷ [] }
        ensures receipts { self.new.receipts.items ≡ self.old.receipts.items ++ record { index = length self.old.receipts.items; moment = moment } ∷ [] }
        ensures heard { self.new.heard ≡ self.old.heard }
        ensures owners { self.new.owners ≡ self.old.owners }
    {
        let index = self.receipts.len() as u32;
        self.decisions.push_reserved(decision);
        self.receipts.push_reserved(Receipt { index, moment });
    }
}

// Installs packages, one after another. A disk fault or want of memory ends it.
pub fn install_members<W: Workshop, C: Crew, D: Disk, O: Sink>(
    alloc: Global,
    shop: &W,
    crew: &mut C,
    disk: &mut D,
    out: &mut Teller<O>,
    progress: &mut Progress,
    members: &[Member],
) -> Result<(), Stop>
    requires fit { C.fit crew.old }
    requires idle { C.running crew.old ≡ [] }
    requires size { 0 < C.size crew.old }
    requires fresh { C.events crew.old ≡ [] }
    requires shop { C.told crew.old ≡ W.told shop.now }
    requires few { length members.now ≤ 64 }
    requires short { IsTrue (list_all is_short members.now) }
    requires undecided { progress.old.decisions.items ≡ [] }
    requires unheard { progress.old.heard.items ≡ [] }
    requires uncommitted { progress.old.receipts.items ≡ [] }
    requires unowned { progress.old.owners.items ≡ [] }
    ensures sink { out.new.sink.ghost_name ≡ out.old.sink.ghost_name }
    ensures cause { Causes Stop.Disk (D.faults disk.old) (D.faults disk.new) result }
    ensures host { result ≢ Err Stop.Host }
    ensures refusal { (refusal : Refusal) → result ≢ Err (Stop.Refused refusal) }
    ensures kept { (s : State) → D.told disk.old ≡ Some s → (new : State) × (D.told disk.new ≡ Some new) × KeepsOthers s.files new.files }
    ensures time { Passes (D.moment disk.old) (D.moment disk.new) (D.past disk.old) (D.past disk.new) }
    ensures receipts { AreReceipts (D.moment disk.old) (D.moment disk.new) progress.new.receipts.items }
    ensures committed { length progress.new.receipts.items ≡ count_by is_installed progress.new.decisions.items }
    ensures said { Says out.old.stopped out.new.stopped (O.faults out.old.sink.now) (O.faults out.new.sink.now) (O.written out.old.sink.now) (O.written out.new.sink.now) (flat_map line_of progress.new.decisions.items) }
    ensures done { (told : Told) (s : State) → W.told shop.now ≡ Some told → D.told disk.old ≡ Some s → is_fresh s.files ≡ true →
        OnOk result (Tracks progress.new (outcome told (empty_switch s.files) members.now)) }
    ensures left { (told : Told) (s : State) → W.told shop.now ≡ Some told → D.told disk.old ≡ Some s → is_fresh s.files ≡ true →
        OnOk result (Stands (D.told disk.new) (outcome told (empty_switch s.files) members.now) s.files) }
    ensures heard { (told : Told) (s : State) → W.told shop.now ≡ Some told → D.told disk.old ≡ Some s → is_fresh s.files ≡ true →
        OnOk result (progress.new.heard.items ≡ (outcome told (empty_switch s.files) members.now).heard) }
    ensures halted { (told : Told) (s : State) → W.told shop.now ≡ Some told → D.told disk.old ≡ Some s → is_fresh s.files ≡ true →
        OnErr result (IsPartOf progress.new (outcome told (empty_switch s.files) members.now)) }
    ensures dated { (told : Told) (s : State) → W.told shop.now ≡ Some told → D.told disk.old ≡ Some s → is_fresh s.files ≡ true → D.moment disk.new < last_count →
        AreDated (D.past disk.new) (outcome told (empty_switch s.files) members.now).records progress.new.receipts.items }
{
    for (id, member) in members.iter().enumerate() {
        install_member(alloc, shop, crew, disk, out, progress, id as u32, member)?;
    }
    Ok(())
}

// Has a package built, decides what comes of it, and reports that.
fn install_member<W: Workshop, C: Crew, D: Disk, O: Sink>(
    alloc: Global,
    shop: &W,
    crew: &mut C,
    disk: &mut D,
    out: &mut Teller<O>,
    progress: &mut Progress,
    id: u32,
    member: &Member,
) -> Result<(), Stop>
    requires fit { C.fit crew.old }
    requires idle { C.running crew.old ≡ [] }
    requires size { 0 < C.size crew.old }
    requires fresh { (k : ℕ) → id ≤ k → IsFresh k (C.events crew.old) }
    requires shop { C.told crew.old ≡ W.told shop.now }
    requires short { IsTrue (is_short member.now) }
    requires regular { IsRegular progress.old }
    requires few { length progress.old.receipts.items < 2 ^ 32 - 1 }
    ensures fit { C.fit crew.new }
    ensures idle { C.running crew.new ≡ [] }
    ensures size { C.size crew.new ≡ C.size crew.old }
    ensures fresh { (k : ℕ) → id < k → IsFresh k (C.events crew.new) }
    ensures shop { C.told crew.new ≡ C.told crew.old }
    ensures sink { out.new.sink.ghost_name ≡ out.old.sink.ghost_name }
    ensures cause { Causes Stop.Disk (D.faults disk.old) (D.faults disk.new) result }
    ensures host { result ≢ Err Stop.Host }
    ensures refusal { (refusal : Refusal) → result ≢ Err (Stop.Refused refusal) }
    ensures kept { (s : State) → D.told disk.old ≡ Some s → (new : State) × (D.told disk.new ≡ Some new) × KeepsOthers s.files new.files }
    ensures time { Passes (D.moment disk.old) (D.moment disk.new) (D.past disk.old) (D.past disk.new) }
    ensures regular { OnOk result (IsRegular progress.new) }
    ensures receipts { (from : ℕ) → AreReceipts from (D.moment disk.old) progress.old.receipts.items → AreReceipts from (D.moment disk.new) progress.new.receipts.items }
    ensures said { OnOk result ((d : Decision) × (progress.new.decisions.items ≡ progress.old.decisions.items ++ d ∷ []) × Says out.old.stopped out.new.stopped (O.faults out.old.sink.now) (O.faults out.new.sink.now) (O.written out.old.sink.now) (O.written out.new.sink.now) (line_of d)) }
    ensures undecided { OnErr result (progress.new.decisions.items ≡ progress.old.decisions.items) }
    ensures uncommitted { OnErr result (progress.new.receipts.items ≡ progress.old.receipts.items) }
    ensures unsaid { OnErr result (Says out.old.stopped out.new.stopped (O.faults out.old.sink.now) (O.faults out.new.sink.now) (O.written out.old.sink.now) (O.written out.new.sink.now) []) }
    ensures heard { (told : Told) → W.told shop.now ≡ Some told → OnOk result (progress.new.heard.items ≡ progress.old.heard.items ++ (member.now.pkg, fate_of told (job_of member.now)) ∷ []) }
    ensures heard_or_not { (told : Told) → W.told shop.now ≡ Some told → OnErr result (HeardOrNot (member.now.pkg, fate_of told (job_of member.now)) progress.old.heard.items progress.new.heard.items) }
    ensures done { (told : Told) (o : Outcome) (start : Tree) → W.told shop.now ≡ Some told → Tracks progress.old o → Stands (D.told disk.old) o start →
        OnOk result (Tracks progress.new (with_member told o member.now)) }
    ensures left { (told : Told) (o : Outcome) (start : Tree) → W.told shop.now ≡ Some told → Tracks progress.old o → Stands (D.told disk.old) o start →
        OnOk result (Stands (D.told disk.new) (with_member told o member.now) start) }
    ensures dated { (told : Told) (o : Outcome) (start : Tree) (from : ℕ) → W.told shop.now ≡ Some told → Tracks progress.old o → Stands (D.told disk.old) o start → AreReceipts from (D.moment disk.old) progress.old.receipts.items → D.moment disk.new < last_count → AreDated (D.past disk.old) o.records progress.old.receipts.items →
        OnOk result (AreDated (D.past disk.new) (with_member told o member.now).records progress.new.receipts.items) }
    ensures still_dated { (o : Outcome) (from : ℕ) → AreReceipts from (D.moment disk.old) progress.old.receipts.items → D.moment disk.new < last_count → AreDated (D.past disk.old) o.records progress.old.receipts.items →
        OnErr result (AreDated (D.past disk.new) o.records progress.new.receipts.items) }
{
    match hear(alloc, crew, progress, id, member) {
        Ok(built) => decide_member(alloc, shop, disk, out, progress, member, &built),
        Err(OutOfMemory) => Err(Stop::Memory),
    }
}

// A job that was taken in, with its fate.
#[derive(Drop)]
struct Built {
    job: Job,
    fate: Fate,
}

// Has the crew build the job of a package. The room is made first, so that no fate that was taken in is lost.
fn hear<C: Crew>(
    alloc: Global,
    crew: &mut C,
    progress: &mut Progress,
    id: u32,
    member: &Member,
) -> Result<Built, OutOfMemory>
    requires fit { C.fit crew.old }
    requires idle { C.running crew.old ≡ [] }
    requires size { 0 < C.size crew.old }
    requires fresh { (k : ℕ) → id ≤ k → IsFresh k (C.events crew.old) }
    requires short { IsTrue (is_short member.now) }
    ensures fit { C.fit crew.new }
    ensures idle { C.running crew.new ≡ [] }
    ensures size { C.size crew.new ≡ C.size crew.old }
    ensures fresh { (k : ℕ) → id < k → IsFresh k (C.events crew.new) }
    ensures shop { C.told crew.new ≡ C.told crew.old }
    ensures decisions { progress.new.decisions ≡ progress.old.decisions }
    ensures receipts { progress.new.receipts ≡ progress.old.receipts }
    ensures owners { progress.new.owners ≡ progress.old.owners }
    ensures job { IfOk result (λ built. built.job ≡ job_of member.now) }
    ensures fate { IfOk result (λ built. TellsFate (C.told crew.old) (job_of member.now) built.fate) }
    ensures heard { IfOk result (λ built. progress.new.heard.items ≡ progress.old.heard.items ++ (member.now.pkg, built.fate) ∷ []) }
    ensures unheard { OnErr result (progress.new.heard.items ≡ progress.old.heard.items) }
{
    progress.heard.reserve(1)?;
    let pkg = member.pkg.copy(alloc)?;
    let job = make_job(alloc, member)?;
    let fate = fate_by(alloc, crew, id, job.copy(alloc)?)?;
    progress.heard.push_reserved((pkg, fate));
    Ok(Built { job, fate })
}

// Decides what comes of a package whose job was taken in, and reports that.
fn decide_member<W: Workshop, D: Disk, O: Sink>(
    alloc: Global,
    shop: &W,
    disk: &mut D,
    out: &mut Teller<O>,
    progress: &mut Progress,
    member: &Member,
    built: &Built,
) -> Result<(), Stop>
    requires short { IsTrue (is_short member.now) }
    requires regular { IsRegular progress.old }
    requires few { length progress.old.receipts.items < 2 ^ 32 - 1 }
    ensures sink { out.new.sink.ghost_name ≡ out.old.sink.ghost_name }
    ensures cause { Causes Stop.Disk (D.faults disk.old) (D.faults disk.new) result }
    ensures host { result ≢ Err Stop.Host }
    ensures refusal { (refusal : Refusal) → result ≢ Err (Stop.Refused refusal) }
    ensures kept { (s : State) → D.told disk.old ≡ Some s → (new : State) × (D.told disk.new ≡ Some new) × KeepsOthers s.files new.files }
    ensures time { Passes (D.moment disk.old) (D.moment disk.new) (D.past disk.old) (D.past disk.new) }
    ensures regular { OnOk result (IsRegular progress.new) }
    ensures receipts { (from : ℕ) → AreReceipts from (D.moment disk.old) progress.old.receipts.items → AreReceipts from (D.moment disk.new) progress.new.receipts.items }
    ensures said { OnOk result ((d : Decision) × (progress.new.decisions.items ≡ progress.old.decisions.items ++ d ∷ []) × Says out.old.stopped out.new.stopped (O.faults out.old.sink.now) (O.faults out.new.sink.now) (O.written out.old.sink.now) (O.written out.new.sink.now) (line_of d)) }
    ensures undecided { OnErr result (progress.new.decisions.items ≡ progress.old.decisions.items) }
    ensures uncommitted { OnErr result (progress.new.receipts.items ≡ progress.old.receipts.items) }
    ensures unsaid { OnErr result (Says out.old.stopped out.new.stopped (O.faults out.old.sink.now) (O.faults out.new.sink.now) (O.written out.old.sink.now) (O.written out.new.sink.now) []) }
    ensures heard { progress.new.heard ≡ progress.old.heard }
    ensures done { (told : Told) (o : Outcome) (start : Tree) → W.told shop.now ≡ Some told → built.now.job ≡ job_of member.now → built.now.fate ≡ fate_of told (job_of member.now) → Tracks progress.old o → Stands (D.told disk.old) o start →
        OnOk result (Tracks progress.new (with_member told o member.now)) }
    ensures left { (told : Told) (o : Outcome) (start : Tree) → W.told shop.now ≡ Some told → built.now.job ≡ job_of member.now → built.now.fate ≡ fate_of told (job_of member.now) → Tracks progress.old o → Stands (D.told disk.old) o start →
        OnOk result (Stands (D.told disk.new) (with_member told o member.now) start) }
    ensures dated { (told : Told) (o : Outcome) (start : Tree) (from : ℕ) → W.told shop.now ≡ Some told → built.now.job ≡ job_of member.now → built.now.fate ≡ fate_of told (job_of member.now) → Tracks progress.old o → Stands (D.told disk.old) o start → AreReceipts from (D.moment disk.old) progress.old.receipts.items → D.moment disk.new < last_count → AreDated (D.past disk.old) o.records progress.old.receipts.items →
        OnOk result (AreDated (D.past disk.new) (with_member told o member.now).records progress.new.receipts.items) }
    ensures still_dated { (o : Outcome) (from : ℕ) → AreReceipts from (D.moment disk.old) progress.old.receipts.items → D.moment disk.new < last_count → AreDated (D.past disk.old) o.records progress.old.receipts.items →
        OnErr result (AreDated (D.past disk.new) o.records progress.new.receipts.items) }
{
    match files_to_place(
        alloc,
        shop,
        disk,
        progress.owners.as_slice(),
        &built.job,
        built.fate,
    ) {
        Ok(Ok(files)) => install_files(alloc, disk, out, progress, member, files),
        Ok(Err(reason)) => fail(alloc, out, progress, &member.pkg, reason),
        Err(stop) => Err(stop),
    }
}

// Commits the install of a package with its files, and then reports it.
fn install_files<D: Disk, O: Sink>(
    alloc: Global,
    disk: &mut D,
    out: &mut Teller<O>,
    progress: &mut Progress,
    member: &Member,
    files: Items<Placed>,
) -> Result<(), Stop>
    requires short { IsTrue (is_short member.now) }
    requires regular { IsRegular progress.old }
    requires few { length progress.old.receipts.items < 2 ^ 32 - 1 }
    requires fit { FilesFit files }
    requires paths { IsTrue (list_all is_in_bin files) }
    requires unowned { IsTrue (list_all (is_unowned (owners_of progress.old.owners.items)) files) }
    requires apart { IsTrue (paths_differ files) }
    requires vacant { (s : State) → D.told disk.old ≡ Some s → IsTrue (list_all (is_vacant s.files) files) }
    ensures sink { out.new.sink.ghost_name ≡ out.old.sink.ghost_name }
    ensures cause { Causes Stop.Disk (D.faults disk.old) (D.faults disk.new) result }
    ensures host { result ≢ Err Stop.Host }
    ensures refusal { (refusal : Refusal) → result ≢ Err (Stop.Refused refusal) }
    ensures kept { (s : State) → D.told disk.old ≡ Some s → (new : State) × (D.told disk.new ≡ Some new) × KeepsOthers s.files new.files }
    ensures time { Passes (D.moment disk.old) (D.moment disk.new) (D.past disk.old) (D.past disk.new) }
    ensures regular { OnOk result (IsRegular progress.new) }
    ensures receipts { (from : ℕ) → AreReceipts from (D.moment disk.old) progress.old.receipts.items → AreReceipts from (D.moment disk.new) progress.new.receipts.items }
    ensures decided { OnOk result (progress.new.decisions.items ≡ progress.old.decisions.items ++ Decision.Installed member.now.pkg ∷ []) }
    ensures said { OnOk result (Says out.old.stopped out.new.stopped (O.faults out.old.sink.now) (O.faults out.new.sink.now) (O.written out.old.sink.now) (O.written out.new.sink.now) (line_of (Decision.Installed member.now.pkg))) }
    ensures undecided { OnErr result (progress.new.decisions.items ≡ progress.old.decisions.items) }
    ensures uncommitted { OnErr result (progress.new.receipts.items ≡ progress.old.receipts.items) }
    ensures unsaid { OnErr result (Says out.old.stopped out.new.stopped (O.faults out.old.sink.now) (O.faults out.new.sink.now) (O.written out.old.sink.now) (O.written out.new.sink.now) []) }
    ensures heard { progress.new.heard ≡ progress.old.heard }
    ensures done { (o : Outcome) (start : Tree) (fate : Fate) → Tracks progress.old o → Stands (D.told disk.old) o start →
        OnOk result (Tracks progress.new (decided o member.now fate (Ok files))) }
    ensures left { (o : Outcome) (start : Tree) (fate : Fate) → Tracks progress.old o → Stands (D.told disk.old) o start →
        OnOk result (Stands (D.told disk.new) (decided o member.now fate (Ok files)) start) }
    ensures dated { (o : Outcome) (start : Tree) (from : ℕ) → Tracks progress.old o → Stands (D.told disk.old) o start → AreReceipts from (D.moment disk.old) progress.old.receipts.items → D.moment disk.new < last_count → AreDated (D.past disk.old) o.records progress.old.receipts.items →
        OnOk result (AreDated (D.past disk.new) (o.records ++ Install member.now.pkg member.now.opam files ∷ []) progress.new.receipts.items) }
    ensures still_dated { (o : Outcome) (from : ℕ) → AreReceipts from (D.moment disk.old) progress.old.receipts.items → D.moment disk.new < last_count → AreDated (D.past disk.old) o.records progress.old.receipts.items →
        OnErr result (AreDated (D.past disk.new) o.records progress.new.receipts.items) }
{
    let Ok(prepared) = prepare(alloc, progress, member, files) else {
        return Err(Stop::Memory);
    };
    match commit(disk, &prepared.ready) {
        Ok(()) => {
            say(out, prepared.line.as_slice());
            progress.note_commit(prepared.decision, disk.clock());
            Ok(())
        }
        Err(_) => Err(Stop::Disk),
    }
}

// An install that can be committed and reported without memory.
#[derive(Drop)]
struct Prepared {
    ready: Encoded,
    decision: Decision,
    line: Vec<u8>,
}

fn prepare(
    alloc: Global,
    progress: &mut Progress,
    member: &Member,
    files: Items<Placed>,
) -> Result<Prepared, OutOfMemory>
    requires short { IsTrue (is_short member.now) }
    requires few { length progress.old.receipts.items < 2 ^ 32 - 1 }
    requires fit { FilesFit files }
    ensures decisions { progress.new.decisions.items ≡ progress.old.decisions.items }
    ensures receipts { progress.new.receipts.items ≡ progress.old.receipts.items }
    ensures heard { progress.new.heard ≡ progress.old.heard }
    ensures owners { OnOk result (progress.new.owners.items ≡ progress.old.owners.items ++ owned_by member.now.pkg files) }
    ensures decision_fits { OnOk result (vec_len progress.new.decisions < vec_capacity progress.new.decisions) }
    ensures receipt_fits { OnOk result (vec_len progress.new.receipts < vec_capacity progress.new.receipts) }
    ensures ready { IfOk result (λ prepared. prepared.ready ≡ ready_with (length progress.old.receipts.items + 1) (record_bytes (Install member.now.pkg member.now.opam files)) files) }
    ensures decision { IfOk result (λ prepared. prepared.decision ≡ Decision.Installed member.now.pkg) }
    ensures line { IfOk result (λ prepared. prepared.line.items ≡ line_of (Decision.Installed member.now.pkg)) }
{
    progress.make_room()?;
    own_files(alloc, &mut progress.owners, &member.pkg, files.as_slice())?;
    let decision = Decision::Installed(member.pkg.copy(alloc)?);
    let line = line_of(alloc, &decision)?;
    let number = progress.receipts.len() as u64 + 1;
    let ready = make_ready(alloc, number, &member.pkg, member.opam.as_slice(), files)?;
    Ok(Prepared {
        ready,
        decision,
        line,
    })
}

// Reports that a package has failed. It leaves the disk alone.
fn fail<O: Sink>(
    alloc: Global,
    out: &mut Teller<O>,
    progress: &mut Progress,
    pkg: &Pkg,
    reason: Reason,
) -> Result<(), Stop>
    ensures sink { out.new.sink.ghost_name ≡ out.old.sink.ghost_name }
    ensures memory { IfErr result (λ stop. stop ≡ Stop.Memory) }
    ensures receipts { progress.new.receipts.items ≡ progress.old.receipts.items }
    ensures owners { progress.new.owners ≡ progress.old.owners }
    ensures heard { progress.new.heard ≡ progress.old.heard }
    ensures decided { OnOk result (progress.new.decisions.items ≡ progress.old.decisions.items ++ Decision.Failed pkg.now reason ∷ []) }
    ensures said { OnOk result (Says out.old.stopped out.new.stopped (O.faults out.old.sink.now) (O.faults out.new.sink.now) (O.written out.old.sink.now) (O.written out.new.sink.now) (line_of (Decision.Failed pkg.now reason))) }
    ensures undecided { OnErr result (progress.new.decisions.items ≡ progress.old.decisions.items) }
    ensures unsaid { OnErr result (Says out.old.stopped out.new.stopped (O.faults out.old.sink.now) (O.faults out.new.sink.now) (O.written out.old.sink.now) (O.written out.new.sink.now) []) }
{
    progress.make_room()?;
    let decision = Decision::Failed(pkg.copy(alloc)?, reason);
    let line = line_of(alloc, &decision)?;
    progress.decisions.push_reserved(decision);
    say(out, line.as_slice());
    Ok(())
}
