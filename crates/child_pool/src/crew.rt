// Who builds the jobs of a change.
ghost use Rattle.std.specs.Prelude.{◌≡◌, ◌<◌, ◌-◌, ◌^◌, ◌++◌, [], ◌∷◌, ◌↔◌, ◌≢◌, ℕ, List, IsTrue, OnOk, OnErr, length};
ghost use Rattle.std.specs.declared.option.Option.{Option};

use opam_names::OutOfMemory;
use outside_io::{Fate, Job};
use std::alloc::Global;

/// The job of this number was started, or was taken out of those that run.
#[derive(Clone, Copy, Debug, PartialEq, Eq)]
pub enum Event {
    Start(u32),
    End(u32),
}

/// Builds jobs, of which some run at a time. Each has a number, by which it is known from its start to its end.
pub trait Crew {
    ghost use Rattle.outside_io.specs.Shops.{Told};
    ghost use Rattle.child_pool.specs.Crews.{IsFresh, Running, TakesOne};
    ghost use Rattle.child_pool.specs.declared.crew.Event.{Event};

    /// How many jobs it runs at a time.
    ghost size: { Self → ℕ };

    /// The jobs that run, in the order of their starts.
    ghost running: { Self → Running };

    /// All starts and ends so far.
    ghost events: { Self → List Event };

    /// What the shop tells in which they are built.
    ghost told: { Self → Option Told };

    /// What its parts promise: whoever makes a crew shows it, and each call keeps it.
    ghost fit: { Self → Type 0 };

    /// How many jobs it runs at a time.
    fn workers(&self) -> u32
        ensures { result ≡ size self.now };

    /// Whether a further job may be started.
    fn room(&self) -> bool
        ensures { IsTrue result ↔ (length (running self.now) < size self.now) };

    /// Whether no job runs.
    fn idle(&self) -> bool
        ensures { IsTrue result ↔ (running self.now ≡ []) };

    /// Starts a job by a number that no other was started by. Where memory is refused it is not started.
    fn start(&mut self, alloc: Global, id: u32, job: Job) -> Result<(), OutOfMemory>
        requires fit { fit self.old }
        requires room { length (running self.old) < size self.old }
        requires fresh { IsFresh id (events self.old) }
        requires steps { length job.commands < 2 ^ 32 - 1 }
        ensures fit { fit self.new }
        ensures size { size self.new ≡ size self.old }
        ensures told { told self.new ≡ told self.old }
        ensures runs { OnOk result (running self.new ≡ running self.old ++ (id, job) ∷ []) }
        ensures started { OnOk result (events self.new ≡ events self.old ++ Event.Start id ∷ []) }
        ensures same { OnErr result (running self.new ≡ running self.old) }
        ensures none_started { OnErr result (events self.new ≡ events self.old) };

    /// Takes one of the running jobs, when it has ended: its number and its fate. Where memory is refused the job is
    /// taken all the same, and its fate is not known.
    fn take_end(&mut self, alloc: Global) -> Result<(u32, Fate), OutOfMemory>
        requires fit { fit self.old }
        requires busy { running self.old ≢ [] }
        ensures fit { fit self.new }
        ensures size { size self.new ≡ size self.old }
        ensures told { told self.new ≡ told self.old }
        ensures takes { TakesOne (told self.old) (running self.old) (running self.new) (events self.old) (events self.new) result };
}
