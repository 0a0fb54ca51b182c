// Where packages are built.
ghost use Rattle.std.specs.Prelude.{◌≡◌, ◌≤◌, IfOk, length};
ghost use Rattle.std.specs.declared.option.Option.{Option};
ghost use Rattle.outside_io.specs.Fates.{FatesAreLeast};

use opam_names::{Items, OutOfMemory, Pkg, RelPath, Text};
use std::alloc::Global;

/// What is to be done for a package: its source folder, its commands, each a list of words, and their environment, a
/// list of names and values.
#[derive(Drop)]
pub struct Job {
    pub pkg: Pkg,
    pub source: Option<Text>,
    pub commands: Items<Items<Text>>,
    pub env: Items<(Text, Text)>,
}

impl Job {
    /// The same job, in memory of its own.
    pub fn copy(&self, alloc: Global) -> Result<Job, OutOfMemory>
        ensures { IfOk result (λ job. job ≡ self.now) }
    {
        Ok(Job {
            pkg: self.pkg.copy(alloc)?,
            source: copy_source(alloc, &self.source)?,
            commands: copy_commands(alloc, self.commands.as_slice())?,
            env: copy_env(alloc, self.env.as_slice())?,
        })
    }
}

fn copy_source(alloc: Global, source: &Option<Text>) -> Result<Option<Text>, OutOfMemory>
    ensures { IfOk result (λ copy. copy ≡ source.now) }
{
    match source {
        None => Ok(None),
        Some(folder) => Ok(Some(folder.copy(alloc)?)),
    }
}

fn copy_commands(alloc: Global, commands: &[Items<Text>]) -> Result<Items<Items<Text>>, OutOfMemory>
    ensures { IfOk result (λ copy. copy ≡ commands.now) }
{
    let mut copies = Items::new(alloc);
    for words in commands {
        copies.push(copy_words(alloc, words.as_slice())?)?;
    }
    Ok(copies)
}

fn copy_words(alloc: Global, words: &[Text]) -> Result<Items<Text>, OutOfMemory>
    ensures { IfOk result (λ copy. copy ≡ words.now) }
{
    let mut copies = Items::new(alloc);
    for word in words {
        copies.push(word.copy(alloc)?)?;
    }
    Ok(copies)
}

fn copy_env(alloc: Global, env: &[(Text, Text)]) -> Result<Items<(Text, Text)>, OutOfMemory>
    ensures { IfOk result (λ copy. copy ≡ env.now) }
{
    let mut copies = Items::new(alloc);
    for (name, value) in env {
        copies.push((name.copy(alloc)?, value.copy(alloc)?))?;
    }
    Ok(copies)
}

/// How a step of a job ended.
#[derive(Clone, Copy, Debug, PartialEq, Eq)]
pub enum Ending {
    Exit(u8),
    Killed,
    NotStarted,
    NotPrepared,
}

/// How a job ended: at the first step that did not end in `Exit(0)`, or built.
#[derive(Clone, Copy, Debug, PartialEq, Eq)]
pub enum Fate {
    Stopped { step: u32, ending: Ending },
    Built,
}

/// What stands in a build folder, read up to a limit in bytes.
#[derive(Drop)]
pub enum Seen {
    Absent,
    Bytes(Items<u8>),
    TooLong,
    Unreadable,
}

/// Prepares build folders and runs commands in them. What happens there is no fault of the workshop's: it is the
/// ending itself.
pub trait Workshop {
    ghost use Rattle.outside_io.specs.Shops.{Told, IsEndingOf, StepTells, ReadTells};

    /// What it tells of each job.
    ghost told: { Self → Option Told };

    /// Step 0 prepares the build folder: it copies the source, or makes an empty folder. The steps after it are the
    /// commands.
    fn build_step(&self, alloc: Global, job: &Job, step: u32) -> Result<Ending, OutOfMemory>
        requires { step ≤ length job.now.commands }
        ensures kind { IfOk result (λ ending. IsEndingOf step ending) }
        ensures told { StepTells (told self.now) job.now step result };

    /// The file at a path of the build folder, if it has at most `limit` bytes.
    fn read(
        &self,
        alloc: Global,
        job: &Job,
        path: &RelPath,
        limit: u64,
    ) -> Result<Seen, OutOfMemory>
        ensures told { ReadTells (told self.now) job.now path.now limit result };
}

/// A job stops at its first step that does not end in `Exit(0)`, and is built where each step does.
pub fn fates_are_least()
    ensures { FatesAreLeast }
{}
