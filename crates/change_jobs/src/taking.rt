// Ends are taken in and heard.
ghost use Rattle.std.specs.Prelude.{◌≡◌, ◌≢◌, ◌+◌, [], None, OnErr, OnOk, length};
ghost use Rattle.change_floor.specs.Floors.{next_start, next_turn};
ghost use Rattle.change_floor.specs.declared.turn.Turn.TheVariants.{Wait};
ghost use Rattle.change_jobs.specs.Abreast.{AreAbreast, StayAbreast};
ghost use Rattle.change_jobs.specs.Courses.{EndsOne, crew_of};
ghost use Rattle.change_jobs.specs.Hearing.{LateGoesOn, SomeAreLate};
ghost use Rattle.change_jobs.specs.Stops.{CourseGoesOn, CourseIsOver};

use crate::Jobs;
use child_pool::Crew;
use opam_names::OutOfMemory;
use std::alloc::Global;

/// Takes in one of the jobs that run, when it has ended: the floor knows its fate then, and it is heard. It is called
/// where no action can be decided and no job may be started. Where memory is refused for the fate, the change is over:
/// then all jobs that run are taken in.
pub fn take_one<C: Crew>(alloc: Global, jobs: &mut Jobs, crew: &mut C) -> Result<(), OutOfMemory>
    requires fit { C.fit crew.old }
    requires abreast { AreAbreast jobs.old (crew_of C.Crew crew.old) }
    requires waits { next_turn jobs.old.floor ≡ Wait }
    requires full { next_start jobs.old.floor ≡ None }
    ensures fit { C.fit crew.new }
    ensures told { C.told crew.new ≡ C.told crew.old }
    ensures ended { OnOk result (EndsOne jobs.old.floor jobs.new.floor) }
    ensures abreast { OnOk result
        (StayAbreast jobs.old jobs.new (crew_of C.Crew crew.old) (crew_of C.Crew crew.new)) }
    ensures course { OnOk result
        (CourseGoesOn jobs.old jobs.new (crew_of C.Crew crew.old) (crew_of C.Crew crew.new)) }
    ensures same { OnErr result (jobs.new.floor ≡ jobs.old.floor) }
    ensures idle { OnErr result (C.running crew.new ≡ []) }
    ensures over { OnErr result (CourseIsOver jobs.old jobs.new
        (crew_of C.Crew crew.old) (crew_of C.Crew crew.new) result) }
{
    match crew.take_end(alloc) {
        Ok((id, fate)) => {
            jobs.floor.ended(id, fate);
            jobs.hear(id, fate);
            Ok(())
        }
        Err(OutOfMemory) => {
            let _ = take_rest(alloc, jobs, crew);
            Err(OutOfMemory)
        }
    }
}

/// Takes in and hears all that runs, when a change is over before all is decided: no action is decided and no job is
/// started any more. The answer says whether all their fates are known.
pub fn take_all<C: Crew>(alloc: Global, jobs: &mut Jobs, crew: &mut C) -> Result<(), OutOfMemory>
    requires fit { C.fit crew.old }
    requires abreast { AreAbreast jobs.old (crew_of C.Crew crew.old) }
    ensures fit { C.fit crew.new }
    ensures told { C.told crew.new ≡ C.told crew.old }
    ensures same { jobs.new.floor ≡ jobs.old.floor }
    ensures idle { C.running crew.new ≡ [] }
    ensures over { CourseIsOver jobs.old jobs.new
        (crew_of C.Crew crew.old) (crew_of C.Crew crew.new) result }
{
    take_rest(alloc, jobs, crew)
}

// Takes in all that runs, of ends of which the floor is not told any more.
fn take_rest<C: Crew>(alloc: Global, jobs: &mut Jobs, crew: &mut C) -> Result<(), OutOfMemory>
    requires fit { C.fit crew.old }
    requires late { SomeAreLate jobs.old (crew_of C.Crew crew.old) }
    ensures fit { C.fit crew.new }
    ensures told { C.told crew.new ≡ C.told crew.old }
    ensures same { jobs.new.floor ≡ jobs.old.floor }
    ensures idle { C.running crew.new ≡ [] }
    ensures late { LateGoesOn jobs.old jobs.new (crew_of C.Crew crew.old) (crew_of C.Crew crew.new) result }
{
    let mut answer = Ok(());
    while !crew.idle() {
        if take_late(alloc, jobs, crew).is_err() {
            answer = Err(OutOfMemory);
        }
    }
    answer
}

// Takes in one of the jobs that run, and hears of it, unless memory is refused for its fate.
fn take_late<C: Crew>(alloc: Global, jobs: &mut Jobs, crew: &mut C) -> Result<(), OutOfMemory>
    requires fit { C.fit crew.old }
    requires busy { C.running crew.old ≢ [] }
    requires late { SomeAreLate jobs.old (crew_of C.Crew crew.old) }
    ensures fit { C.fit crew.new }
    ensures told { C.told crew.new ≡ C.told crew.old }
    ensures same { jobs.new.floor ≡ jobs.old.floor }
    ensures fewer { length (C.running crew.new) + 1 ≡ length (C.running crew.old) }
    ensures some { SomeAreLate jobs.new (crew_of C.Crew crew.new) }
    ensures late { LateGoesOn jobs.old jobs.new (crew_of C.Crew crew.old) (crew_of C.Crew crew.new) result }
{
    match crew.take_end(alloc) {
        Ok((id, fate)) => {
            jobs.hear(id, fate);
            Ok(())
        }
        Err(OutOfMemory) => Err(OutOfMemory),
    }
}
