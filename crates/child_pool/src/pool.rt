// The crew of threads.
ghost use Rattle.std.specs.Prelude.{◌≡◌, ◌<◌, ◌≤◌, ◌+◌, ◌-◌, ◌^◌, ◌++◌, [], ◌∷◌, ℕ, OnOk, IfOk, length, vec_len, vec_capacity, remove, slice_get, Some};
ghost use Rattle.std.specs.Arc.{arc_value};
ghost use Rattle.child_pool.specs.Pools.{IsFit, jobs_of};

use crate::crew::{Crew, Event};
use crate::hints::Hints;
use crate::threads::PoolParts;
use opam_names::OutOfMemory;
use outside_io::{Fate, Job, Workshop};
use std::alloc::Global;
use std::sync::{Arc, Wait};
use std::thread::Threads;

/// A job that runs, of whatever kind.
pub trait Work {
    ghost use Rattle.std.specs.declared.option.Option.{Option};
    ghost use Rattle.outside_io.specs.Shops.{Told};
    ghost use Rattle.outside_io.specs.declared.workshop.Job.{Job};
    ghost use Rattle.child_pool.specs.Crews.{TellsFate};

    /// The number by which it was started.
    ghost number: { Self → ℕ };

    /// The job itself.
    ghost job: { Self → Job };

    /// What the shop tells in which it is built.
    ghost told: { Self → Option Told };

    /// The number by which it was started.
    fn id(&self) -> u32
        ensures { result ≡ number self.now };

    /// Its place among the jobs that run, at which its hint stands.
    fn place(&self) -> u32;

    /// Its fate, when it has ended.
    fn end<R: Threads>(self, rt: &R, alloc: Global) -> Result<Fate, OutOfMemory>
        ensures { IfOk result (λ fate. TellsFate (told self) (job self) fate) };
}

/// A crew with a thread for each running job, which `begin` starts.
#[derive(Drop)]
pub struct PoolCrew<
    R: Threads + Wait + Drop,
    W: Workshop + Drop,
    X: Work + Drop,
    S: Fn(u32, u32, Job) -> Result<X, OutOfMemory> + Drop,
> {
    rt: R,
    shop: Arc<W>,
    hints: Arc<Hints>,
    begin: S,
    workers: u32,
    children: Vec<X>,
    events: Vec<Event>,
    ghost spare: { vec_len events + vec_len children ≤ vec_capacity events },
}

impl<
    R: Threads + Wait + Drop,
    W: Workshop + Drop,
    X: Work + Drop,
    S: Fn(u32, u32, Job) -> Result<X, OutOfMemory> + Drop,
> PoolCrew<R, W, X, S> {
    /// A crew of 1 to 64 that runs nothing yet. `begin` starts a job with these parts, by its place and its number.
    pub fn new(
        alloc: Global,
        parts: PoolParts<R, W>,
        workers: u32,
        begin: S,
    ) -> PoolCrew<R, W, X, S>
        requires some { 0 < workers }
        requires few { workers ≤ 64 }
        ensures size { ⟦<PoolCrew<R, W, X, S> as Crew>⟧.size result ≡ workers }
        ensures running { ⟦<PoolCrew<R, W, X, S> as Crew>⟧.running result ≡ [] }
        ensures events { ⟦<PoolCrew<R, W, X, S> as Crew>⟧.events result ≡ [] }
        ensures told { ⟦<PoolCrew<R, W, X, S> as Crew>⟧.told result ≡ W.told (arc_value parts.shop) }
        ensures begin { result.begin ≡ begin }
        ensures children { result.children.items ≡ [] }
    {
        let PoolParts { rt, shop, hints } = parts;
        PoolCrew {
            rt,
            shop,
            hints,
            begin,
            workers,
            children: Vec::new(alloc),
            events: Vec::new(alloc),
        }
    }

    // Makes the room for one more job, its start and its end.
    fn make_room(&mut self) -> Result<(), OutOfMemory>
        ensures workers { self.new.workers ≡ self.old.workers }
        ensures shop { self.new.shop ≡ self.old.shop }
        ensures begin { self.new.begin ≡ self.old.begin }
        ensures children { self.new.children.items ≡ self.old.children.items }
        ensures events { self.new.events.items ≡ self.old.events.items }
        ensures spare { OnOk result
            (vec_len self.new.events + vec_len self.new.children + 2 ≤ vec_capacity self.new.events) }
        ensures room { OnOk result (vec_len self.new.children < vec_capacity self.new.children) }
    {
        if self.events.reserve(self.children.len() + 2).is_err() {
            return Err(OutOfMemory);
        }
        if self.children.reserve(1).is_err() {
            return Err(OutOfMemory);
        }
        Ok(())
    }

    fn add(&mut self, id: u32, child: X)
        requires spare { vec_len self.old.events + vec_len self.old.children + 2 ≤ vec_capacity self.old.events }
        requires room { vec_len self.old.children < vec_capacity self.old.children }
        ensures workers { self.new.workers ≡ self.old.workers }
        ensures shop { self.new.shop ≡ self.old.shop }
        ensures begin { self.new.begin ≡ self.old.begin }
        ensures children { self.new.children.items ≡ self.old.children.items ++ child ∷ [] }
        ensures events { self.new.events.items ≡ self.old.events.items ++ Event.Start id ∷ [] }
    {
        self.events.push_reserved(Event::Start(id));
        self.children.push_reserved(child);
    }

    // A place that no running job has. There is one, since fewer than 64 run.
    fn free_place(&self) -> u32 {
        for place in 0..64 {
            if !self.children.iter().any(|child| child.place() == place) {
                return place;
            }
        }
        0
    }

    // Where the job stands that a hint names, or the oldest.
    fn find_ended(&self) -> usize
        requires { 0 < vec_len self.now.children }
        ensures { result < vec_len self.now.children }
    {
        let place = self.hints.next(&self.rt);
        match self
            .children
            .iter()
            .position(|child| child.place() == place)
        {
            Some(at) => at,
            None => 0,
        }
    }

    // The job that stands there, which no longer runs.
    fn take(&mut self, at: usize) -> X
        requires { at < vec_len self.old.children }
        ensures workers { self.new.workers ≡ self.old.workers }
        ensures shop { self.new.shop ≡ self.old.shop }
        ensures begin { self.new.begin ≡ self.old.begin }
        ensures child { slice_get self.old.children.items at ≡ Some result }
        ensures children { self.new.children.items ≡ remove self.old.children.items at }
        ensures events { self.new.events.items ≡ self.old.events.items ++ Event.End (X.number result) ∷ [] }
    {
        let child = self.children.remove(at);
        self.events.push_reserved(Event::End(child.id()));
        child
    }
}

impl<
    R: Threads + Wait + Drop,
    W: Workshop + Drop,
    X: Work + Drop,
    S: Fn(u32, u32, Job) -> Result<X, OutOfMemory> + Drop,
> Crew for PoolCrew<R, W, X, S> {
    ghost size = { λ c. c.workers };

    ghost running = { λ c. jobs_of X.number X.job c.children.items };

    ghost events = { λ c. c.events.items };

    ghost told = { λ c. W.told (arc_value c.shop) };

    ghost fit = { λ c. IsFit X.number X.job X.told (W.told (arc_value c.shop))
        (S.pre c.begin) (S.post c.begin) c.children.items };

    fn workers(&self) -> u32 {
        self.workers
    }

    fn room(&self) -> bool {
        self.children.len() < self.workers as usize
    }

    fn idle(&self) -> bool {
        self.children.is_empty()
    }

    fn start(&mut self, _alloc: Global, id: u32, job: Job) -> Result<(), OutOfMemory> {
        self.make_room()?;
        let place = self.free_place();
        let child = (self.begin)(place, id, job)?;
        self.add(id, child);
        Ok(())
    }

    /// Waits until some job has ended, and takes it.
    fn take_end(&mut self, alloc: Global) -> Result<(u32, Fate), OutOfMemory> {
        let at = self.find_ended();
        let child = self.take(at);
        let id = child.id();
        match child.end(&self.rt, alloc) {
            Ok(fate) => Ok((id, fate)),
            Err(_) => Err(OutOfMemory),
        }
    }
}
