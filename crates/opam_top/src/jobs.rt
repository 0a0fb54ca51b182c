// The jobs of packages, and their fates.
ghost use Rattle.std.specs.Prelude.{◌≡◌, ◌≢◌, ◌<◌, ◌≤◌, ◌-◌, ◌^◌, ◌++◌, [], ◌∷◌, ℕ, IfOk, OnOk, filter, length};
ghost use Rattle.child_pool.specs.Crews.{IsFresh, TellsFate};
ghost use Rattle.opam_top.specs.Installs.{has_words, job_of};

use crate::member::Member;
use child_pool::Crew;
use opam_names::{Items, OutOfMemory, Text};
use outside_io::{Fate, Job};
use std::alloc::Global;

// The job of a package.
pub fn make_job(alloc: Global, member: &Member) -> Result<Job, OutOfMemory>
    ensures { IfOk result (λ job. job ≡ job_of member.now) }
{
    Ok(Job {
        pkg: member.pkg.copy(alloc)?,
        source: None,
        commands: commands_with_words(alloc, member.commands.as_slice())?,
        env: Items::new(alloc),
    })
}

fn commands_with_words(
    alloc: Global,
    commands: &[Items<Text>],
) -> Result<Items<Items<Text>>, OutOfMemory>
    ensures { IfOk result (λ kept. kept ≡ filter has_words commands.now) }
{
    let mut kept = Items::new(alloc);
    for command in commands {
        if !command.is_empty() {
            kept.push(copy_of_words(alloc, command.as_slice())?)?;
        }
    }
    Ok(kept)
}

fn copy_of_words(alloc: Global, words: &[Text]) -> Result<Items<Text>, OutOfMemory>
    ensures { IfOk result (λ copy. copy ≡ words.now) }
{
    let mut copy = Items::new(alloc);
    for word in words {
        copy.push(word.copy(alloc)?)?;
    }
    Ok(copy)
}

// Has an idle crew build a job, and takes in its end.
pub fn fate_by<C: Crew>(alloc: Global, crew: &mut C, id: u32, job: Job) -> Result<Fate, OutOfMemory>
    requires fit { C.fit crew.old }
    requires idle { C.running crew.old ≡ [] }
    requires size { 0 < C.size crew.old }
    requires fresh { (k : ℕ) → id ≤ k → IsFresh k (C.events crew.old) }
    requires steps { length job.commands < 2 ^ 32 - 1 }
    ensures fit { C.fit crew.new }
    ensures idle { C.running crew.new ≡ [] }
    ensures size { C.size crew.new ≡ C.size crew.old }
    ensures fresh { (k : ℕ) → id < k → IsFresh k (C.events crew.new) }
    ensures shop { C.told crew.new ≡ C.told crew.old }
    ensures told { IfOk result (TellsFate (C.told crew.old) job) }
{
    crew.start(alloc, id, job)?;
    let (_, fate) = crew.take_end(alloc)?;
    Ok(fate)
}
