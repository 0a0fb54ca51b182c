// The crew that builds a job when its end is asked for.
ghost use Rattle.std.specs.Prelude.{◌≡◌, ◌≢◌, ◌<◌, ◌≤◌, ◌+◌, ◌-◌, ◌^◌, ◌++◌, [], ◌∷◌, All, OnOk, length, vec_len, vec_capacity, remove, slice_get, Some};
ghost use Rattle.child_pool.specs.Crews.{TakesAt, TakesOne};

use crate::crew::{Crew, Event};
use crate::steps::build;
use opam_names::OutOfMemory;
use outside_io::{Fate, Job, Workshop};
use std::alloc::Global;

/// It keeps the jobs that it is given: each `take_end` builds the oldest one, and returns when that has ended.
#[derive(Drop)]
pub struct SerialCrew<'a, W: Workshop> {
    shop: &'a W,
    workers: u32,
    jobs: Vec<(u32, Job)>,
    events: Vec<Event>,
    ghost short: { All (λ p. length p.1.commands < 2 ^ 32 - 1) jobs.items },
    ghost spare: { vec_len events + vec_len jobs ≤ vec_capacity events },
}

impl<'a, W: Workshop> SerialCrew<'a, W> {
    /// A crew that runs nothing yet, and builds in this shop.
    pub fn new(alloc: Global, shop: &'a W, workers: u32) -> SerialCrew<'a, W>
        requires { 0 < workers }
        ensures size { ⟦<SerialCrew<'a, W> as Crew>⟧.size result ≡ workers }
        ensures running { ⟦<SerialCrew<'a, W> as Crew>⟧.running result ≡ [] }
        ensures events { ⟦<SerialCrew<'a, W> as Crew>⟧.events result ≡ [] }
        ensures told { ⟦<SerialCrew<'a, W> as Crew>⟧.told result ≡ W.told shop.now }
    {
        SerialCrew {
            shop,
            workers,
            jobs: Vec::new(alloc),
            events: Vec::new(alloc),
        }
    }

    // Makes the room for one more job, its start and its end.
    fn make_room(&mut self) -> Result<(), OutOfMemory>
        ensures workers { self.new.workers ≡ self.old.workers }
        ensures shop { self.new.shop.now ≡ self.old.shop.now }
        ensures jobs { self.new.jobs.items ≡ self.old.jobs.items }
        ensures events { self.new.events.items ≡ self.old.events.items }
        ensures room { OnOk result (vec_len self.new.jobs < vec_capacity self.new.jobs) }
        ensures spare { OnOk result (vec_len self.new.events + vec_len self.new.jobs + 2 ≤ vec_capacity self.new.events) }
    {
        if self.events.reserve(self.jobs.len() + 2).is_err() {
            return Err(OutOfMemory);
        }
        if self.jobs.reserve(1).is_err() {
            return Err(OutOfMemory);
        }
        Ok(())
    }

    fn add(&mut self, id: u32, job: Job)
        requires room { vec_len self.old.jobs < vec_capacity self.old.jobs }
        requires spare { vec_len self.old.events + vec_len self.old.jobs + 2 ≤ vec_capacity self.old.events }
        requires short { length job.commands < 2 ^ 32 - 1 }
        ensures workers { self.new.workers ≡ self.old.workers }
        ensures shop { self.new.shop.now ≡ self.old.shop.now }
        ensures jobs { self.new.jobs.items ≡ self.old.jobs.items ++ (id, job) ∷ [] }
        ensures events { self.new.events.items ≡ self.old.events.items ++ Event.Start id ∷ [] }
    {
        self.events.push_reserved(Event::Start(id));
        self.jobs.push_reserved((id, job));
    }

    // The oldest job, which no longer runs.
    fn take_oldest(&mut self) -> (u32, Job)
        requires { 0 < vec_len self.old.jobs }
        ensures workers { self.new.workers ≡ self.old.workers }
        ensures shop { self.new.shop.now ≡ self.old.shop.now }
        ensures job { slice_get self.old.jobs.items 0 ≡ Some result }
        ensures short { length result.1.commands < 2 ^ 32 - 1 }
        ensures jobs { self.new.jobs.items ≡ remove self.old.jobs.items 0 }
        ensures events { self.new.events.items ≡ self.old.events.items ++ Event.End result.0 ∷ [] }
    {
        let (id, job) = self.jobs.remove(0);
        self.events.push_reserved(Event::End(id));
        (id, job)
    }
}

impl<'a, W: Workshop> Crew for SerialCrew<'a, W> {
    ghost size = { λ c. c.workers };

    ghost running = { λ c. c.jobs.items };

    ghost events = { λ c. c.events.items };

    ghost told = { λ c. W.told c.shop.now };

    ghost fit = { λ c. Unit {0} };

    fn workers(&self) -> u32 {
        self.workers
    }

    fn room(&self) -> bool {
        self.jobs.len() < self.workers as usize
    }

    fn idle(&self) -> bool {
        self.jobs.is_empty()
    }

    fn start(&mut self, _alloc: Global, id: u32, job: Job) -> Result<(), OutOfMemory> {
        self.make_room()?;
        self.add(id, job);
        Ok(())
    }

    /// Takes the oldest job, and answers its told fate. That it is built only now is in no clause.
    fn take_end(&mut self, alloc: Global) -> Result<(u32, Fate), OutOfMemory>
        requires busy { ⟦<SerialCrew<'a, W> as Crew>⟧.running self.old ≢ [] }
        ensures size { let crew = ⟦<SerialCrew<'a, W> as Crew>⟧ in crew.size self.new ≡ crew.size self.old }
        ensures told { let crew = ⟦<SerialCrew<'a, W> as Crew>⟧ in crew.told self.new ≡ crew.told self.old }
        ensures takes { let crew = ⟦<SerialCrew<'a, W> as Crew>⟧ in
            TakesOne (crew.told self.old) (crew.running self.old) (crew.running self.new) (crew.events self.old) (crew.events self.new) result }
        ensures oldest { let crew = ⟦<SerialCrew<'a, W> as Crew>⟧ in
            TakesAt 0 (crew.told self.old) (crew.running self.old) (crew.running self.new) (crew.events self.old) (crew.events self.new) result }
    {
        let (id, job) = self.take_oldest();
        let fate = build(alloc, self.shop, &job)?;
        Ok((id, fate))
    }
}
