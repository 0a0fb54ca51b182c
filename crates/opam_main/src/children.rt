// Build folders of the machine, and commands in them, as a workshop.
ghost use Rattle.std.specs.Prelude.{◌≡◌, ◌<◌, ℕ, pos, IfOk, codes, true};
ghost use Rattle.std.specs.Process.{clears_env, command_args, command_dir, command_program, exit_code};
ghost use Rattle.std.specs.declared.option.Option.TheVariants.{None, Some};
ghost use Rattle.outside_io.specs.Shops.{IsEndingOf};
ghost use Rattle.opam_main.specs.Commands.{sh_args};

use crate::fault::FileError;
use crate::files::{Content, read_file};
use crate::folders::{make_way, path_below, remove_all};
use crate::source::open_source;
use opam_names::{Items, OutOfMemory, Pkg, RelPath, Text};
use outside_io::{Ending, Job, Seen, Workshop};
use std::alloc::{AllocError, Global};
use std::process::{Command, ExitStatus, Processes, Stdio};
use std::rt::Files;
use std::{fs, io};

// What `sh` does with the words of a command: all that it prints goes to `opam.log` in the build folder.
const SCRIPT: &str = "exec \"$@\" >opam.log 2>&1";

/// The build folders of a switch. It tells nothing of what comes of a job.
///
/// A build folder is `.opam-switch/build/NAME.VERSION` below the switch. Each command of a job runs in it, with the
/// job's environment alone and nothing to read.
#[derive(Drop)]
pub struct ChildShop<R: Files + Processes> {
    rt: R,
    root: String,
}

impl<R: Files + Processes + Alloc + Clone + Drop> ChildShop<R> {
    /// Over the folder of a switch.
    pub fn new(rt: R, root: String) -> ChildShop<R> {
        ChildShop { rt, root }
    }

    fn build_folder(&self, alloc: Global, pkg: &Pkg) -> Result<String, FileError> {
        let mut folder = String::from_str(alloc, self.root.as_str())?;
        folder.push_str("/.opam-switch/build/")?;
        folder.push_str(pkg.print(alloc)?.as_str())?;
        Ok(folder)
    }

    // Makes the build folder anew, with a copy of the source, and without what an earlier run has left there.
    fn prepare(&self, alloc: Global, job: &Job) -> Result<(), FileError> {
        let folder = self.build_folder(alloc, &job.pkg)?;
        let (root, folder) = (self.root.as_str(), folder.as_str());
        make_way(&self.rt, alloc, root, folder, &mut Vec::new(alloc))?;
        let source = match &job.source {
            Some(path) => Some(open_source(&self.rt, alloc, path.as_str(), root, folder)?),
            None => None,
        };
        remove_all(&self.rt, alloc, folder)?;
        fs::create_dir(&self.rt, folder)?;
        match source {
            Some(source) => source.copy_to(&self.rt, alloc, folder),
            None => Ok(()),
        }
    }

    // Only a command that was started and whose end is known has a status.
    fn run(&self, alloc: Global, job: &Job, words: &[Text]) -> Result<Ending, FileError>
        ensures { IfOk result (λ ending. (step : ℕ) → 0 < step → IsEndingOf step ending) }
    {
        let folder = self.build_folder(alloc, &job.pkg)?;
        let mut command = command_in(alloc, folder.as_str(), words)?;
        for (name, value) in job.env.as_slice() {
            command.env(name.as_str(), value.as_str())?;
        }
        command.stdin(Stdio::null());
        command.stdout(Stdio::null());
        command.stderr(Stdio::null());
        let mut child = command.spawn(&self.rt)?;
        match child.wait() {
            Ok(status) => Ok(ending_of(status)),
            Err(_) => Ok(Ending::Killed),
        }
    }

    fn read_built(
        &self,
        alloc: Global,
        pkg: &Pkg,
        path: &RelPath,
        limit: u64,
    ) -> Result<Content, FileError> {
        let folder = self.build_folder(alloc, pkg)?;
        let full = path_below(alloc, folder.as_str(), path.as_str())?;
        read_file(&self.rt, alloc, full.as_str(), limit)
    }
}

// A command of these words in a folder, with an empty environment.
fn command_in(alloc: Global, folder: &str, words: &[Text]) -> Result<Command, AllocError>
    ensures program { IfOk result (λ command. command_program command ≡ codes "sh") }
    ensures args { IfOk result (λ command. command_args command ≡ sh_args words.now) }
    ensures env { IfOk result (λ command. clears_env command ≡ true) }
    ensures folder { IfOk result (λ command. command_dir command ≡ Some folder.now) }
{
    let mut command = Command::new(alloc, "sh")?;
    command.env_clear();
    command.current_dir(folder)?;
    command.arg("-c")?;
    command.arg(SCRIPT)?;
    command.arg("sh")?;
    for word in words {
        command.arg(word.as_str())?;
    }
    Ok(command)
}

// How a command ended: by its status, or by a signal.
fn ending_of(status: ExitStatus) -> Ending
    ensures exit { (code : ℕ) → exit_code status ≡ Some (pos code) → result ≡ Ending.Exit code }
    ensures killed { exit_code status ≡ None → result ≡ Ending.Killed }
    ensures kind { (step : ℕ) → 0 < step → IsEndingOf step result }
{
    match status.code() {
        Some(code) => Ending::Exit(code as u8),
        None => Ending::Killed,
    }
}

impl<R: Files + Processes + Alloc + Clone + Drop> Workshop for ChildShop<R> {
    ghost told = { λ _. None };

    fn build_step(&self, alloc: Global, job: &Job, step: u32) -> Result<Ending, OutOfMemory> {
        if step == 0 {
            return match self.prepare(alloc, job) {
                Ok(()) => Ok(Ending::Exit(0)),
                Err(error) => ending_or_memory(&error, Ending::NotPrepared),
            };
        }
        let Some(words) = job.commands.get(step as usize - 1) else {
            return Ok(Ending::NotStarted);
        };
        match self.run(alloc, job, words.as_slice()) {
            Ok(ending) => Ok(ending),
            Err(error) => ending_or_memory(&error, Ending::NotStarted),
        }
    }

    fn read(
        &self,
        alloc: Global,
        job: &Job,
        path: &RelPath,
        limit: u64,
    ) -> Result<Seen, OutOfMemory> {
        match self.read_built(alloc, &job.pkg, path, limit) {
            Ok(Content::Absent) => Ok(Seen::Absent),
            Ok(Content::TooLong) => Ok(Seen::TooLong),
            Ok(Content::Bytes(bytes)) => Ok(Seen::Bytes(Items::from_vec(bytes))),
            Err(error) => {
                if error.is_memory() {
                    return Err(OutOfMemory);
                }
                Ok(Seen::Unreadable)
            }
        }
    }
}

fn ending_or_memory(error: &FileError, ending: Ending) -> Result<Ending, OutOfMemory>
    ensures { IfOk result (λ given. given ≡ ending) }
{
    if error.is_memory() {
        return Err(OutOfMemory);
    }
    Ok(ending)
}
