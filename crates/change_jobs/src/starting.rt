// A job is started.
ghost use Rattle.std.specs.Prelude.{◌≡◌, ◌<◌, ◌^◌, List, IfOk, OnErr, OnOk, is_some, length};
ghost use Rattle.opam_names.specs.ByteOrders.{RisesBy};
ghost use Rattle.action_graph.specs.Leaving.{name_of};
ghost use Rattle.change_floor.specs.Decisions.{Decision, Rule};
ghost use Rattle.change_floor.specs.Floors.{next_start, next_turn};
ghost use Rattle.change_floor.specs.declared.turn.Turn.TheVariants.{Wait};
ghost use Rattle.change_jobs.specs.Abreast.{IsAbreast};
ghost use Rattle.change_jobs.specs.Courses.{IsCourse, crew_of, floor_started};
ghost use Rattle.change_jobs.specs.PackageJobs.{AreShort};

use crate::Jobs;
use crate::package_jobs::job_of;
use child_pool::Crew;
use opam_names::OutOfMemory;
use opam_package::Target;
use package_vars::Facts;
use std::alloc::Global;

/// Starts the first job that may be started, and answers whether there was one. Where memory is refused none was started.
pub fn start_next<C: Crew>(
    alloc: Global,
    target: &Target,
    facts: &Facts,
    jobs: &mut Jobs,
    crew: &mut C,
) -> Result<bool, OutOfMemory>
    requires small { length target.now.members < 2 ^ 32 }
    requires rises { RisesBy name_of target.now.members }
    requires short { AreShort target.now.members }
    requires fit { C.fit crew.old }
    requires abreast { IsAbreast target.now.members facts.now jobs.old (crew_of C.Crew crew.old) }
    requires waits { next_turn jobs.old.floor ≡ Wait }
    ensures fit { C.fit crew.new }
    ensures told { C.told crew.new ≡ C.told crew.old }
    ensures answer { IfOk result (λ some. some ≡ is_some (next_start jobs.old.floor)) }
    ensures floor { OnOk result (jobs.new.floor ≡ floor_started jobs.old.floor) }
    ensures same { OnErr result (jobs.new.floor ≡ jobs.old.floor) }
    ensures heard { jobs.new.heard ≡ jobs.old.heard }
    ensures abreast { IsAbreast target.now.members facts.now jobs.new (crew_of C.Crew crew.new) }
    ensures course { (rule : Rule) (decisions : List Decision)
        → IsCourse target.now.members facts.now rule decisions jobs.old (crew_of C.Crew crew.old)
        → IsCourse target.now.members facts.now rule decisions jobs.new (crew_of C.Crew crew.new) }
{
    match jobs.floor.next_start() {
        None => Ok(false),
        Some(id) => {
            let job = job_of(alloc, target, id, facts)?;
            crew.start(alloc, id, job)?;
            jobs.floor.started(id);
            Ok(true)
        }
    }
}
