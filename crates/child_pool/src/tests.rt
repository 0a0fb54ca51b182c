// Crews at work: that jobs overlap, and that each step is taken once and in order. No clause can say either.
ghost use Rattle.std.specs.Prelude.{◌≡◌, ◌<◌, ◌≤◌, ◌+◌, ◌-◌, ◌^◌, [], ℕ, IfOk, OnOk, length};
ghost use Rattle.std.specs.declared.option.Option.TheVariants.{None};
ghost use Rattle.outside_io.specs.Shops.{IsEndingOf};
ghost use Rattle.child_pool.specs.Crews.{IsFresh};

use crate::crew::Crew;
use crate::ends::drain;
use crate::order::OrderCrew;
use crate::pool::PoolCrew;
use crate::serial::SerialCrew;
use crate::threads::{Child, PoolParts};
use opam_names::{Items, Name, OutOfMemory, Pkg, ReadFault, RelPath, Version};
use outside_io::{Ending, Fate, Job, Seen, Workshop};
use std::alloc::Global;
use std::sync::atomic::{AtomicU64, Ordering};
use std::sync::{Arc, Wait};
use std::test::Fail;
use std::thread::Threads;

const COMMANDS: u32 = 3;

// The job of this number, which its package's version tells.
fn make_job(alloc: Global, id: u32) -> Result<Job, ReadFault>
    ensures { IfOk result (λ job. length job.commands ≡ 3) }
{
    let mut commands = Items::new(alloc);
    commands.push(Items::new(alloc))?;
    commands.push(Items::new(alloc))?;
    commands.push(Items::new(alloc))?;
    Ok(Job {
        pkg: Pkg {
            name: Name::read(alloc, b"job")?,
            version: read_version(alloc, id)?,
        },
        source: None,
        commands,
        env: Items::new(alloc),
    })
}

fn read_version(alloc: Global, id: u32) -> Result<Version, ReadFault> {
    let Ok(text) = format!(in alloc; "{id}") else {
        return Err(ReadFault::Memory);
    };
    if text.len() > 120 {
        return Err(ReadFault::Memory);
    }
    Version::read(alloc, text.as_str().as_bytes())
}

fn number_of(job: &Job) -> u32 {
    match job.pkg.version.as_str().parse::<u32>() {
        Ok(id) => id,
        Err(_) => 0,
    }
}

// How a step ends, as if at random. Only a command is killed, and only step 0 prepares.
fn drawn(id: u32, step: u32) -> Ending
    ensures { IsEndingOf step result }
{
    let draw = id
        .wrapping_mul(2_654_435_761)
        .wrapping_add(step.wrapping_mul(40_503))
        / 8
        % 12;
    if draw > 2 {
        return Ending::Exit(0);
    }
    if step == 0 {
        return Ending::NotPrepared;
    }
    match draw {
        0 => Ending::Exit(3),
        1 => Ending::Killed,
        _ => Ending::NotStarted,
    }
}

fn drawn_fate(id: u32) -> Fate {
    for step in 0..COMMANDS + 1 {
        let ending = drawn(id, step);
        if ending != Ending::Exit(0) {
            return Fate::Stopped { step, ending };
        }
    }
    Fate::Built
}

// A shop that counts how often each step of each job is taken, and the steps that are taken out of order. Its steps end
// well, or as they are drawn.
#[derive(Drop)]
struct Counting {
    draws: bool,
    steps: Vec<AtomicU64>,
    disorder: AtomicU64,
}

impl Counting {
    fn new(alloc: Global, count: u32, draws: bool) -> Result<Counting, OutOfMemory> {
        let mut steps = Vec::new(alloc);
        for _ in 0..count {
            for _ in 0..COMMANDS + 1 {
                steps.push(AtomicU64::new(0))?;
            }
        }
        Ok(Counting {
            draws,
            steps,
            disorder: AtomicU64::new(0),
        })
    }

    fn times(&self, id: u32, step: u32) -> u64 {
        let place = u64::from(id) * 4 + u64::from(step);
        match self.steps.get(place as usize) {
            Some(times) => times.load(Ordering::SeqCst),
            None => 0,
        }
    }

    fn count(&self, id: u32, step: u32) {
        if step > 0 && self.times(id, step - 1) != 1 {
            self.disorder.fetch_add(1, Ordering::SeqCst);
        }
        let place = u64::from(id) * 4 + u64::from(step);
        if let Some(times) = self.steps.get(place as usize) {
            times.fetch_add(1, Ordering::SeqCst);
        }
    }

    // Each step of a job up to its last was taken once, and none after it.
    fn is_counted(&self, id: u32, fate: Fate) -> bool {
        let last = match fate {
            Fate::Built => COMMANDS,
            Fate::Stopped { step, ending: _ } => step,
        };
        for step in 0..COMMANDS + 1 {
            let times = if step > last { 0 } else { 1 };
            if self.times(id, step) != times {
                return false;
            }
        }
        true
    }
}

impl Workshop for Counting {
    ghost told = { λ _. None };

    fn build_step(&self, _alloc: Global, job: &Job, step: u32) -> Result<Ending, OutOfMemory> {
        let id = number_of(job);
        self.count(id, step);
        if self.draws {
            return Ok(drawn(id, step));
        }
        Ok(Ending::Exit(0))
    }

    fn read(
        &self,
        _alloc: Global,
        _job: &Job,
        _path: &RelPath,
        _limit: u64,
    ) -> Result<Seen, OutOfMemory> {
        Ok(Seen::Absent)
    }
}

// A shop in which the command of job 0 waits until that of another has begun, for so many turns.
#[derive(Drop)]
struct Meeting {
    turns: u64,
    others: AtomicU64,
}

impl Meeting {
    fn new(turns: u64) -> Meeting {
        Meeting {
            turns,
            others: AtomicU64::new(0),
        }
    }

    fn waits(&self) -> Ending
        ensures { (step : ℕ) → 0 < step → IsEndingOf step result }
    {
        for _ in 0..self.turns {
            if self.others.load(Ordering::SeqCst) > 0 {
                return Ending::Exit(0);
            }
            std::thread::yield_now();
        }
        Ending::Exit(9)
    }
}

impl Workshop for Meeting {
    ghost told = { λ _. None };

    fn build_step(&self, _alloc: Global, job: &Job, step: u32) -> Result<Ending, OutOfMemory> {
        if step != 1 {
            return Ok(Ending::Exit(0));
        }
        if number_of(job) == 0 {
            return Ok(self.waits());
        }
        self.others.fetch_add(1, Ordering::SeqCst);
        Ok(Ending::Exit(0))
    }

    fn read(
        &self,
        _alloc: Global,
        _job: &Job,
        _path: &RelPath,
        _limit: u64,
    ) -> Result<Seen, OutOfMemory> {
        Ok(Seen::Absent)
    }
}

// Takes an end where there is no room.
fn make_room<C: Crew>(
    alloc: Global,
    crew: &mut C,
    taken: &mut Vec<(u32, Fate)>,
) -> Result<(), OutOfMemory>
    requires fit { C.fit crew.old }
    requires size { 0 < C.size crew.old }
    requires few { length (C.running crew.old) ≤ C.size crew.old }
    ensures fit { C.fit crew.new }
    ensures size { C.size crew.new ≡ C.size crew.old }
    ensures room { OnOk result (length (C.running crew.new) < C.size crew.new) }
    ensures fresh { (k : ℕ) → IsFresh k (C.events crew.old) → IsFresh k (C.events crew.new) }
{
    if crew.room() {
        return Ok(());
    }
    let answer = crew.take_end(alloc)?;
    taken.push(answer)?;
    Ok(())
}

// Starts the job of this number, when there is room for it.
fn put_in<C: Crew>(
    alloc: Global,
    crew: &mut C,
    taken: &mut Vec<(u32, Fate)>,
    id: u32,
) -> Result<(), ReadFault>
    requires fit { C.fit crew.old }
    requires size { 0 < C.size crew.old }
    requires few { length (C.running crew.old) ≤ C.size crew.old }
    requires fresh { (k : ℕ) → id ≤ k → IsFresh k (C.events crew.old) }
    ensures fit { C.fit crew.new }
    ensures size { C.size crew.new ≡ C.size crew.old }
    ensures few { OnOk result (length (C.running crew.new) ≤ C.size crew.new) }
    ensures fresh { OnOk result ((k : ℕ) → id < k → IsFresh k (C.events crew.new)) }
{
    let job = make_job(alloc, id)?;
    make_room(alloc, crew, taken)?;
    crew.start(alloc, id, job)?;
    Ok(())
}

// Has so many jobs built.
fn work<C: Crew>(alloc: Global, crew: &mut C, count: u32) -> Result<Vec<(u32, Fate)>, ReadFault>
    requires fit { C.fit crew.old }
    requires idle { C.running crew.old ≡ [] }
    requires size { 0 < C.size crew.old }
    requires fresh { C.events crew.old ≡ [] }
{
    let mut taken = Vec::new(alloc);
    for id in 0..count {
        put_in(alloc, crew, &mut taken, id)?;
    }
    if taken.reserve(crew.workers() as usize).is_err() {
        return Err(ReadFault::Memory);
    }
    drain(alloc, crew, &mut taken);
    Ok(taken)
}

fn work_in_threads<
    R: Threads + Wait + Clone + Send + Sync + Drop + 'static,
    W: Workshop + Send + Sync + Drop + 'static,
>(
    rt: &R,
    alloc: Global,
    shop: &Arc<W>,
    workers: u32,
    count: u32,
) -> Result<Vec<(u32, Fate)>, ReadFault>
    requires some { 0 < workers }
    requires few { workers ≤ 64 }
{
    let parts = PoolParts::new(rt, alloc, shop)?;
    let begin = |place: u32, id: u32, job: Job| -> Result<Child<W>, OutOfMemory>
        requires { length job.commands < 2 ^ 32 - 1 }
    { parts.start(alloc, place, id, job) };
    let mut crew = PoolCrew::new(alloc, parts.share()?, workers, begin);
    work(alloc, &mut crew, count)
}

// Each job is there once, with the fate that its steps come to, and each of its steps was taken once and in order.
fn is_all(alloc: Global, shop: &Counting, taken: &[(u32, Fate)], count: u32) -> Result<bool, Fail> {
    let mut seen = Vec::new(alloc);
    for _ in 0..count {
        seen.push(false)?;
    }
    for (id, fate) in taken {
        let wanted = if shop.draws {
            drawn_fate(*id)
        } else {
            Fate::Built
        };
        let is_new = match seen.get_mut(*id as usize) {
            Some(is_seen) => !std::mem::replace(is_seen, true),
            None => false,
        };
        if !is_new || *fate != wanted || !shop.is_counted(*id, wanted) {
            return Ok(false);
        }
    }
    Ok(taken.len() == count as usize && shop.disorder.load(Ordering::SeqCst) == 0)
}

#[test]
fn jobs_overlap(rt: HostRuntime) -> Result<(), Fail> {
    let alloc = rt.alloc();
    let shop = Arc::new(alloc, Meeting::new(u64::MAX))?;
    let taken = work_in_threads(&rt, alloc, &shop, 2, 2)?;
    assert_eq!(rt; taken.len(), 2);
    for (_, fate) in &taken {
        assert_eq!(rt; *fate, Fate::Built);
    }
    let alone = Meeting::new(1000);
    let taken = work(alloc, &mut SerialCrew::new(alloc, &alone, 2), 2)?;
    let stopped = Fate::Stopped {
        step: 1,
        ending: Ending::Exit(9),
    };
    assert_eq!(rt;
        taken.as_slice(),
        [(0, stopped), (1, Fate::Built)].as_slice()
    );
    let picks = [1, 0].to_vec(alloc)?;
    let other = Meeting::new(1000);
    let taken = work(alloc, &mut OrderCrew::new(alloc, &other, 2, picks), 2)?;
    assert_eq!(rt;
        taken.as_slice(),
        [(1, Fate::Built), (0, Fate::Built)].as_slice()
    );
    Ok(())
}

#[test]
fn each_step_is_taken_once(rt: HostRuntime) -> Result<(), Fail> {
    let alloc = rt.alloc();
    for workers in [1, 2, 7, 64] {
        for draws in [false, true] {
            let shop = Arc::new(alloc, Counting::new(alloc, 64, draws)?)?;
            let taken = work_in_threads(&rt, alloc, &shop, workers, 64)?;
            assert!(rt; is_all(alloc, &shop, taken.as_slice(), 64)?, "{workers}");
        }
    }
    Ok(())
}

#[test]
fn a_thousand_jobs_are_built(rt: HostRuntime) -> Result<(), Fail> {
    let alloc = rt.alloc();
    for _ in 0..2 {
        let shop = Arc::new(alloc, Counting::new(alloc, 1000, true)?)?;
        let taken = work_in_threads(&rt, alloc, &shop, 64, 1000)?;
        assert!(rt; is_all(alloc, &shop, taken.as_slice(), 1000)?);
    }
    Ok(())
}
