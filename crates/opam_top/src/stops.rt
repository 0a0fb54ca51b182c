// Early ends of a run.
ghost use Rattle.std.specs.Prelude.{◌≡◌, ◌++◌, [], ◌∷◌, IfOk, codes, string_bytes};
ghost use Rattle.std.specs.List.{flat_map};
ghost use Rattle.command_words.specs.Texts.{fault_text};
ghost use Rattle.opam_top.specs.declared.stops.Stop.TheVariants.{Memory};
ghost use Rattle.opam_top.specs.Refusals.{IsStopFor, bad_words, not_built, not_found, not_in_repository, status_of, unknown_line};

use crate::Status;
use command_words::WordFault;
use opam_names::{Items, OutOfMemory, Pkg};
use std::alloc::{AllocError, Global};

/// Why a run is refused.
#[derive(Clone, Copy, Debug, PartialEq, Eq)]
pub enum Cause {
    Words,
    NotFound,
    NotBuilt,
}

impl Cause {
    pub fn status(self) -> Status
        ensures { result ≡ status_of self }
    {
        match self {
            Cause::Words => Status::Words,
            Cause::NotFound => Status::NotFound,
            Cause::NotBuilt => Status::NotBuilt,
        }
    }
}

/// A refused run: why, and what is said of it on standard error.
#[derive(Drop)]
pub struct Refusal {
    pub cause: Cause,
    pub err: Items<u8>,
}

/// Why a run ends early: a device failed, memory was refused, or the run is refused.
#[derive(Drop)]
pub enum Stop {
    Host,
    Disk,
    Memory,
    Refused(Refusal),
}

impl From<OutOfMemory> for Stop {
    ghost from_gives = { λ _ e. e ≡ Memory };

    fn from(_: OutOfMemory) -> Self {
        Stop::Memory
    }
}

impl From<AllocError> for Stop {
    ghost from_gives = { λ _ e. e ≡ Memory };

    fn from(_: AllocError) -> Self {
        Stop::Memory
    }
}

// The refusal of what is not built.
pub fn stop_not_built(alloc: Global) -> Stop
    ensures { IsStopFor not_built result }
{
    stop_with(alloc, Cause::NotBuilt, b"not built yet\n")
}

// The refusal of words that are no command.
pub fn stop_for_words(alloc: Global, fault: &WordFault) -> Stop
    ensures { IsStopFor (bad_words fault.now) result }
{
    match line_of_fault(alloc, fault) {
        Ok(text) => stop_with(alloc, Cause::Words, text.as_bytes()),
        Err(OutOfMemory) => Stop::Memory,
    }
}

fn line_of_fault(alloc: Global, fault: &WordFault) -> Result<String, OutOfMemory>
    ensures { IfOk result (λ text. string_bytes text ≡ fault_text fault.now ++ 10 ∷ []) }
{
    let mut text = fault.text(alloc)?;
    text.push_str("\n")?;
    Ok(text)
}

// The refusal of a file that is absent.
pub fn stop_not_found(alloc: Global, path: &str) -> Stop
    ensures { IsStopFor (not_found path.now) result }
{
    match text_of_absent(alloc, path) {
        Ok(text) => stop_with(alloc, Cause::NotFound, text.as_bytes()),
        Err(OutOfMemory) => Stop::Memory,
    }
}

// The refusal of packages that have no opam file.
pub fn stop_not_in_repository(alloc: Global, pkgs: &[Pkg]) -> Stop
    ensures { IsStopFor (not_in_repository pkgs.now) result }
{
    match text_of_unknown(alloc, pkgs) {
        Ok(text) => stop_with(alloc, Cause::NotFound, text.as_bytes()),
        Err(OutOfMemory) => Stop::Memory,
    }
}

fn text_of_unknown(alloc: Global, pkgs: &[Pkg]) -> Result<String, OutOfMemory>
    ensures { IfOk result (λ text. string_bytes text ≡ flat_map unknown_line pkgs.now) }
{
    let mut text = String::new(alloc);
    for pkg in pkgs {
        let line = line_of_unknown(alloc, pkg)?;
        text.push_str(line.as_str())?;
    }
    Ok(text)
}

fn line_of_unknown(alloc: Global, pkg: &Pkg) -> Result<String, OutOfMemory>
    ensures { IfOk result (λ text. string_bytes text ≡ unknown_line pkg.now) }
{
    let mut text = pkg.print(alloc)?;
    text.push_str(": not in the repository\n")?;
    Ok(text)
}

fn text_of_absent(alloc: Global, path: &str) -> Result<String, OutOfMemory>
    ensures { IfOk result (λ text. string_bytes text ≡ path.now ++ codes ": not found\n") }
{
    let mut text = String::from_str(alloc, path)?;
    text.push_str(": not found\n")?;
    Ok(text)
}

fn stop_with(alloc: Global, cause: Cause, err: &[u8]) -> Stop
    ensures { IsStopFor (record { cause = cause; err = err.now }) result }
{
    match Items::from_slice(alloc, err) {
        Ok(err) => Stop::Refused(Refusal { cause, err }),
        Err(OutOfMemory) => Stop::Memory,
    }
}
