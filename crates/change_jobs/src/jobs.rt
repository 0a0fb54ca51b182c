// The jobs of a change, as it begins.
ghost use Rattle.std.specs.Prelude.{◌≡◌, ◌<◌, ◌+◌, [], IfOk, None, slice_set};
ghost use Rattle.package_vars.specs.declared.facts.Facts.{Facts};
ghost use Rattle.change_floor.specs.Decisions.{Rule};
ghost use Rattle.change_floor.specs.Floors.{floor_begun};
ghost use Rattle.change_jobs.specs.Abreast.{IsAbreast, IsPlanOf, all_names};
ghost use Rattle.change_jobs.specs.Courses.{IsCourse, crew_of};
ghost use Rattle.change_jobs.specs.Hearing.{HasName, HearsName};

use action_graph::Plan;
use change_floor::Floor;
use child_pool::Crew;
use opam_names::{Buffer, OutOfMemory, Pkg};
use opam_package::{Member, Target};
use outside_io::Fate;
use std::alloc::Global;

/// A job that was taken in: its package, and how it has ended.
#[derive(Drop)]
pub struct Heard {
    pub pkg: Pkg,
    pub fate: Fate,
}

/// The jobs of a change: which of them may run, and those that were heard.
#[derive(Drop)]
pub struct Jobs {
    pub floor: Floor,
    /// For each member of the target its package, until its job is heard.
    pub names: Vec<Option<Pkg>>,
    /// In the order in which they were taken in. There is room for all that are still to come.
    pub heard: Buffer<Heard>,
}

/// The jobs of a plan before any of them was started, for a crew that has started none. All the room is made that hearing
/// of them takes.
pub fn begin_jobs<C: Crew>(
    alloc: Global,
    target: &Target,
    plan: &Plan,
    crew: &C,
) -> Result<Jobs, OutOfMemory>
    requires plan { IsPlanOf target.now.members plan.now }
    requires some { 0 < C.size crew.now }
    requires idle { C.running crew.now ≡ [] }
    requires unused { C.events crew.now ≡ [] }
    ensures floor { IfOk result (λ jobs. jobs.floor ≡ floor_begun plan.now (C.size crew.now)) }
    ensures heard { IfOk result (λ jobs. jobs.heard.items ≡ []) }
    ensures abreast { (facts : Facts) → IfOk result (λ jobs.
        IsAbreast target.now.members facts jobs (crew_of C.Crew crew.now)) }
    ensures course { (facts : Facts) (rule : Rule) → IfOk result (λ jobs.
        IsCourse target.now.members facts rule [] jobs (crew_of C.Crew crew.now)) }
{
    let mut heard = Buffer::new(alloc);
    heard.reserve(plan.installs.len())?;
    Ok(Jobs {
        floor: Floor::new(alloc, plan, crew.workers())?,
        names: names_of(alloc, target.members.as_slice())?,
        heard,
    })
}

// The package of each member.
fn names_of(alloc: Global, members: &[Member]) -> Result<Vec<Option<Pkg>>, OutOfMemory>
    ensures { IfOk result (λ names. names.items ≡ all_names members.now) }
{
    let mut names = Vec::new(alloc);
    for member in members {
        names.push(Some(member.package.pkg.copy(alloc)?))?;
    }
    Ok(names)
}

impl Jobs {
    // Notes how the job of a member has ended, whose package was not heard yet.
    pub(crate) fn hear(&mut self, id: u32, fate: Fate)
        requires room { 0 < self.old.heard.room }
        requires named { HasName self.old.names.items id }
        ensures floor { self.new.floor ≡ self.old.floor }
        ensures room { self.new.heard.room + 1 ≡ self.old.heard.room }
        ensures names { self.new.names.items ≡ slice_set self.old.names.items id None }
        ensures heard { HearsName self.old.names.items id fate self.old.heard.items self.new.heard.items }
    {
        match self.names[id as usize].take() {
            None => unreachable!(),
            Some(pkg) => self.heard.push(Heard { pkg, fate }),
        }
    }
}
