// A crew for tests, which builds a job when its end is asked for, in an order that is handed in.
ghost use Rattle.std.specs.Prelude.{◌≡◌, ◌≢◌, ◌<◌, ◌≤◌, ◌+◌, ◌-◌, ◌^◌, ◌++◌, [], ◌∷◌, All, OnOk, drop, length, vec_len, vec_capacity, remove, slice_get, Some};
ghost use Rattle.child_pool.specs.Crews.{TakesAt, TakesOne};
ghost use Rattle.child_pool.specs.Orders.{next_place};

use crate::crew::{Crew, Event};
use crate::steps::build;
use opam_names::OutOfMemory;
use outside_io::{Fate, Job, Workshop};
use std::alloc::Global;

/// It keeps the jobs that it is given. Each `take_end` takes the next of the picks, as long as there are any, and builds
/// the job at that place modulo their number, in the order of the starts; past the picks it is the oldest.
#[derive(Drop)]
pub struct OrderCrew<'a, W: Workshop> {
    pub picks: Vec<u32>,
    shop: &'a W,
    workers: u32,
    jobs: Vec<(u32, Job)>,
    events: Vec<Event>,
    ghost short: { All (λ p. length p.1.commands < 2 ^ 32 - 1) jobs.items },
    ghost spare: { vec_len events + vec_len jobs ≤ vec_capacity events },
}

impl<'a, W: Workshop> OrderCrew<'a, W> {
    /// A crew that runs nothing yet, and builds in this shop.
    pub fn new(alloc: Global, shop: &'a W, workers: u32, picks: Vec<u32>) -> OrderCrew<'a, W>
        requires { 0 < workers }
        ensures size { ⟦<OrderCrew<'a, W> as Crew>⟧.size result ≡ workers }
        ensures running { ⟦<OrderCrew<'a, W> as Crew>⟧.running result ≡ [] }
        ensures events { ⟦<OrderCrew<'a, W> as Crew>⟧.events result ≡ [] }
        ensures told { ⟦<OrderCrew<'a, W> as Crew>⟧.told result ≡ W.told shop.now }
        ensures picks { result.picks ≡ picks }
    {
        OrderCrew {
            picks,
            shop,
            workers,
            jobs: Vec::new(alloc),
            events: Vec::new(alloc),
        }
    }

    // Makes the room for one more job, its start and its end.
    fn make_room(&mut self) -> Result<(), OutOfMemory>
        ensures picks { self.new.picks ≡ self.old.picks }
        ensures workers { self.new.workers ≡ self.old.workers }
        ensures shop { self.new.shop.now ≡ self.old.shop.now }
        ensures jobs { self.new.jobs.items ≡ self.old.jobs.items }
        ensures events { self.new.events.items ≡ self.old.events.items }
        ensures room { OnOk result (vec_len self.new.jobs < vec_capacity self.new.jobs) }
        ensures spare { OnOk result
            (vec_len self.new.events + vec_len self.new.jobs + 2 ≤ vec_capacity self.new.events) }
    {
        if self.events.reserve(self.jobs.len() + 2).is_err() {
            return Err(OutOfMemory);
        }
        if self.jobs.reserve(1).is_err() {
            return Err(OutOfMemory);
        }
        Ok(())
    }

    fn add(&mut self, id: u32, job: Job)
        requires room { vec_len self.old.jobs < vec_capacity self.old.jobs }
        requires spare { vec_len self.old.events + vec_len self.old.jobs + 2 ≤ vec_capacity self.old.events }
        requires short { length job.commands < 2 ^ 32 - 1 }
        ensures picks { self.new.picks ≡ self.old.picks }
        ensures workers { self.new.workers ≡ self.old.workers }
        ensures shop { self.new.shop.now ≡ self.old.shop.now }
        ensures jobs { self.new.jobs.items ≡ self.old.jobs.items ++ (id, job) ∷ [] }
        ensures events { self.new.events.items ≡ self.old.events.items ++ Event.Start id ∷ [] }
    {
        self.events.push_reserved(Event::Start(id));
        self.jobs.push_reserved((id, job));
    }

    // The job that stands there, which no longer runs.
    fn take(&mut self, at: usize) -> (u32, Job)
        requires { at < vec_len self.old.jobs }
        ensures picks { self.new.picks ≡ self.old.picks }
        ensures workers { self.new.workers ≡ self.old.workers }
        ensures shop { self.new.shop.now ≡ self.old.shop.now }
        ensures job { slice_get self.old.jobs.items at ≡ Some result }
        ensures short { length result.1.commands < 2 ^ 32 - 1 }
        ensures jobs { self.new.jobs.items ≡ remove self.old.jobs.items at }
        ensures events { self.new.events.items ≡ self.old.events.items ++ Event.End result.0 ∷ [] }
    {
        let (id, job) = self.jobs.remove(at);
        self.events.push_reserved(Event::End(id));
        (id, job)
    }
}

// The place of the job that is taken next, of so many.
fn next_pick(picks: &mut Vec<u32>, count: usize) -> usize
    requires { 0 < count }
    ensures place { result ≡ next_place picks.old.items count }
    ensures within { result < count }
    ensures picks { picks.new.items ≡ drop 1 picks.old.items }
{
    if picks.is_empty() {
        return 0;
    }
    let pick = picks.remove(0);
    pick as usize % count
}

impl<'a, W: Workshop> Crew for OrderCrew<'a, W> {
    ghost size = { λ c. c.workers };

    ghost running = { λ c. c.jobs.items };

    ghost events = { λ c. c.events.items };

    ghost told = { λ c. W.told c.shop.now };

    ghost fit = { λ c. Unit {0} };

    fn workers(&self) -> u32 {
        self.workers
    }

    fn room(&self) -> bool {
        self.jobs.len() < self.workers as usize
    }

    fn idle(&self) -> bool {
        self.jobs.is_empty()
    }

    fn start(&mut self, _alloc: Global, id: u32, job: Job) -> Result<(), OutOfMemory> {
        self.make_room()?;
        self.add(id, job);
        Ok(())
    }

    /// Builds the job that is picked.
    fn take_end(&mut self, alloc: Global) -> Result<(u32, Fate), OutOfMemory>
        requires busy { ⟦<OrderCrew<'a, W> as Crew>⟧.running self.old ≢ [] }
        ensures size { let crew = ⟦<OrderCrew<'a, W> as Crew>⟧ in crew.size self.new ≡ crew.size self.old }
        ensures told { let crew = ⟦<OrderCrew<'a, W> as Crew>⟧ in crew.told self.new ≡ crew.told self.old }
        ensures takes { let crew = ⟦<OrderCrew<'a, W> as Crew>⟧ in
            TakesOne (crew.told self.old) (crew.running self.old) (crew.running self.new)
            (crew.events self.old) (crew.events self.new) result }
        ensures picked { let crew = ⟦<OrderCrew<'a, W> as Crew>⟧ in
            TakesAt (next_place self.old.picks.items (length (crew.running self.old)))
            (crew.told self.old) (crew.running self.old) (crew.running self.new)
            (crew.events self.old) (crew.events self.new) result }
        ensures picks { self.new.picks.items ≡ drop 1 self.old.picks.items }
    {
        let at = next_pick(&mut self.picks, self.jobs.len());
        let (id, job) = self.take(at);
        let fate = build(alloc, self.shop, &job)?;
        Ok((id, fate))
    }
}
