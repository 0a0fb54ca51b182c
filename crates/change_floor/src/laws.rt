// Laws, each proved as a clause of a function that does nothing.
ghost use Rattle.change_floor.specs.FloorLaws.{AbortedNeverStart, AbortsNameTheLeast, EventsAreCalls, FirstStartIsAllowed, JobsSeeTheirViews, NeverStuck, ScheduleDoesNotDecide, StartsAreSingle, WorkersSuffice};

/// Whatever the order in which jobs start and end, the decisions are those of one fold over the plan.
pub fn schedule_does_not_decide()
    ensures { ScheduleDoesNotDecide }
{}

/// Never more jobs run than there are workers.
pub fn workers_suffice()
    ensures { WorkersSuffice }
{}

/// No job is started twice.
pub fn starts_are_single()
    ensures { StartsAreSingle }
{}

/// An install that is aborted is never started.
pub fn aborted_never_start()
    ensures { AbortedNeverStart }
{}

/// An abort names the least need that is not installed.
pub fn aborts_name_the_least()
    ensures { AbortsNameTheLeast }
{}

/// A job that was started has its whole view installed.
pub fn jobs_see_their_views()
    ensures { JobsSeeTheirViews }
{}

/// As long as something is left, something may come.
pub fn never_stuck()
    ensures { NeverStuck }
{}

/// The first install that may start is allowed to, and where there is none, none is.
pub fn first_start_is_allowed()
    ensures { FirstStartIsAllowed }
{}

/// What an event makes of a floor is what the call of its name says.
pub fn events_are_calls()
    ensures { EventsAreCalls }
{}
