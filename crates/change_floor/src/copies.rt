// A floor keeps a plan of its own.
ghost use Rattle.std.specs.Prelude.{◌≡◌, length, replicate, IfOk};
ghost use Rattle.change_floor.specs.declared.progress.Progress.TheVariants.{Waiting};

use crate::Progress;
use action_graph::{Plan, Step};
use opam_names::{Items, OutOfMemory};
use std::alloc::Global;

fn copy_steps(alloc: Global, steps: &[Step]) -> Result<Items<Step>, OutOfMemory>
    ensures { IfOk result (λ copy. copy ≡ steps.now) }
{
    let mut copy = Items::new(alloc);
    for step in steps {
        copy.push(Step {
            member: step.member,
            needs: Items::from_slice(alloc, step.needs.as_slice())?,
        })?;
    }
    Ok(copy)
}

pub(crate) fn copy_plan(alloc: Global, plan: &Plan) -> Result<Plan, OutOfMemory>
    ensures { IfOk result (λ copy. copy ≡ plan.now) }
{
    Ok(Plan {
        removals: Items::from_slice(alloc, plan.removals.as_slice())?,
        installs: copy_steps(alloc, plan.installs.as_slice())?,
        missing: Items::from_slice(alloc, plan.missing.as_slice())?,
    })
}

// No job was started yet.
pub(crate) fn all_waiting(alloc: Global, count: usize) -> Result<Items<Progress>, OutOfMemory>
    ensures { IfOk result (λ jobs. jobs ≡ replicate count Waiting) }
{
    let mut jobs = Items::new(alloc);
    for _place in 0..count {
        jobs.push(Progress::Waiting)?;
    }
    Ok(jobs)
}
