// Which jobs may start, and whose turn it is.
ghost use Rattle.std.specs.Prelude.{◌≡◌, ◌<◌, ◌+◌, ◌^◌, IfOk, Some};
ghost use Rattle.change_floor.specs.Floors as floors;
ghost use Rattle.change_floor.specs.Floors.{IsDecidable, floor_begun, fate_in, is_running, progress_of, with_decision, with_job};
ghost use Rattle.change_floor.specs.FloorLaws.{EachOnce};
ghost use Rattle.change_floor.specs.declared.progress.Progress.TheVariants.{Ended, Running};

use crate::copies::{all_waiting, copy_plan};
use crate::index::{Index, index_of};
use crate::needs::{counts_of, next_lacks};
use crate::queue::{Queue, queue_of};
use crate::ready::{first_ready, take_ready};
use crate::rows::{Rows, dependents_of};
use crate::settling::settle;
use crate::{Progress, Turn};
use action_graph::Plan;
use opam_names::{Items, OutOfMemory};
use outside_io::Fate;
use std::alloc::Global;
use std::marker::Model;

/// A change while its jobs run: it says which job may be started next and whose turn it is to be decided, and is told of
/// each start, end and decision. After `new` no call takes memory. A call takes time in the logarithm of the plan, but
/// for `decided`, which looks once at each install that needs the one decided, and once at each need of the next one.
#[derive(Drop)]
pub struct Floor {
    plan: Plan,
    workers: u32,
    // Of each action that is decided whether it was done. There is room for all of them.
    decided: Vec<bool>,
    jobs: Items<Progress>,
    busy: u32,
    // What the next install lacks, once the removals are done.
    lacks: Option<u32>,
    index: Index,
    dependents: Rows,
    queue: Queue,
}

impl Model for Floor {
    ghost use Rattle.change_floor.specs.Floors.{FloorState};
    ghost use Rattle.change_floor.specs.Keeping.{FloorKeeps};

    ghost Value = { FloorState };

    ghost view = { λ floor. record {
      plan = floor.plan;
      workers = floor.workers;
      decided = floor.decided.items;
      jobs = floor.jobs;
    } };

    ghost invariant = { λ floor. FloorKeeps floor.plan floor.decided floor.jobs floor.busy floor.lacks
        floor.index floor.dependents floor.queue };
}

fn install_turn(id: u32, lacks: Option<u32>, job: Progress) -> Turn
    ensures { result ≡ floors.install_turn id lacks (fate_in job) }
{
    match (lacks, job) {
        (Some(need), _) => Turn::Abort { id, need },
        (None, Progress::Ended(fate)) => Turn::Decide { id, fate },
        (None, _) => Turn::Wait,
    }
}

fn is_running(job: Progress) -> bool
    ensures { result ≡ floors.is_running job }
{
    match job {
        Progress::Running => true,
        Progress::Waiting | Progress::Ended(_) => false,
    }
}

impl Floor {
    /// Of a plan in which no member stands twice among the installs. A need that is no install counts as installed,
    /// unless it is missing.
    pub fn new(alloc: Global, plan: &Plan, workers: u32) -> Result<Floor, OutOfMemory>
        requires some { 0 < workers }
        requires once { EachOnce plan.now.installs }
        ensures { IfOk result (λ floor. floor ≡ floor_begun plan.now workers) }
    {
        let count = plan.installs.as_slice().len();
        let decided = Vec::with_capacity(alloc, plan.removals.as_slice().len() + count)?;
        let index = index_of(alloc, plan)?;
        let dependents = dependents_of(alloc, plan, &index)?;
        let left = counts_of(alloc, plan, &index, decided.as_slice())?;
        let lacks = next_lacks(plan, &index, decided.as_slice());
        Ok(Floor {
            plan: copy_plan(alloc, plan)?,
            workers,
            decided,
            jobs: all_waiting(alloc, count)?,
            busy: 0,
            lacks,
            index,
            dependents,
            queue: queue_of(alloc, left)?,
        })
    }

    /// The first install that was not started and has all its needs installed; none where removals are left, or as many
    /// jobs run as there are workers, or there is no such install.
    pub fn next_start(&self) -> Option<u32>
        ensures { result ≡ floors.next_start self.now }
    {
        if self.decided.len() < self.plan.removals.len() {
            return None;
        }
        if self.busy >= self.workers {
            return None;
        }
        match first_ready(&self.queue.ready) {
            None => None,
            Some(place) => Some(self.plan.installs.as_slice()[place].member),
        }
    }

    /// The job of the install that may be started next was started.
    pub fn started(&mut self, id: u32)
        requires { floors.next_start self.old ≡ Some id }
        ensures { self.new ≡ with_job self.old id Running }
    {
        match first_ready(&self.queue.ready) {
            None => unreachable!(),
            Some(place) => {
                take_ready(&mut self.queue.ready, place);
                self.jobs.set(place, Progress::Running);
                self.busy += 1;
            }
        }
    }

    /// Whether the job of this member was started and has not ended.
    pub fn runs(&self, id: u32) -> bool
        ensures { result ≡ is_running (progress_of self.now id) }
    {
        match self.index.place(id) {
            None => false,
            Some(place) => is_running(self.jobs.as_slice()[place]),
        }
    }

    /// A job that runs has ended. Its fate is kept until its turn.
    pub fn ended(&mut self, id: u32, fate: Fate)
        requires { progress_of self.old id ≡ Running }
        ensures { self.new ≡ with_job self.old id (Ended fate) }
    {
        match self.index.place(id) {
            None => unreachable!(),
            Some(place) => {
                self.jobs.set(place, Progress::Ended(fate));
                self.busy -= 1;
            }
        }
    }

    /// The next action: a removal, or an install that is aborted, or one whose job has ended. `Wait` is the answer just
    /// where it is an install that lacks no need and whose job has not ended, `Done` where none is left.
    pub fn turn(&self) -> Turn
        ensures { result ≡ floors.next_turn self.now }
    {
        let count = self.decided.len();
        if count < self.plan.removals.len() {
            return Turn::Remove(self.plan.removals.as_slice()[count]);
        }
        let place = count - self.plan.removals.len();
        if place >= self.plan.installs.len() {
            return Turn::Done;
        }
        let installs = self.plan.installs.as_slice();
        install_turn(
            installs[place].member,
            self.lacks,
            self.jobs.as_slice()[place],
        )
    }

    /// The next action was decided: a removal or an install was done, or it was not.
    pub fn decided(&mut self, good: bool)
        requires { IsDecidable (floors.next_turn self.old) }
        ensures { self.new ≡ with_decision self.old good }
    {
        settle(
            &mut self.queue,
            &self.plan,
            &self.dependents,
            self.decided.as_slice(),
            good,
        );
        self.decided.push_reserved(good);
        self.lacks = next_lacks(&self.plan, &self.index, self.decided.as_slice());
    }
}
