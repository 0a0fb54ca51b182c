// What is refused before anything is done, as the stop of a run.
ghost use Rattle.std.specs.Prelude.{◌≡◌, IfOk};
ghost use Rattle.command_words.specs.Texts.{fault_text};
ghost use Rattle.run_answers.specs.Stops as stops;
ghost use Rattle.run_answers.specs.Stops.{IsStopFor};

use crate::{Cause, Stop};
use change_front::{Kind, Refusal, refusal_text};
use command_words::WordFault;
use opam_names::{Items, OutOfMemory};
use std::alloc::Global;

/// The stop of a run whose files, names or packages are refused.
pub fn stop_of_refusal(alloc: Global, refusal: &Refusal) -> Stop
    ensures { IsStopFor (stops.refusal_stop refusal.now) result }
{
    match refusal_text(alloc, refusal) {
        Ok(text) => Stop::Refused {
            cause: cause_of_kind(refusal.kind()),
            text: Items::from_vec(text),
        },
        Err(OutOfMemory) => Stop::Memory,
    }
}

fn cause_of_kind(kind: Kind) -> Cause
    ensures { result ≡ stops.cause_of_kind kind }
{
    match kind {
        Kind::Missing => Cause::NotFound,
        Kind::NoSolution => Cause::NoSolution,
        Kind::BadFile => Cause::BadFile,
    }
}

/// The stop of a run whose words are no command.
pub fn stop_of_words(alloc: Global, fault: &WordFault) -> Stop
    ensures { IsStopFor (stops.words_stop fault.now) result }
{
    match fault {
        WordFault::Memory => Stop::Memory,
        _ => match bad_words(alloc, fault) {
            Ok(stop) => stop,
            Err(OutOfMemory) => Stop::Memory,
        },
    }
}

fn bad_words(alloc: Global, fault: &WordFault) -> Result<Stop, OutOfMemory>
    ensures { IfOk result (λ stop. stop ≡ stops.bad_words (fault_text fault.now)) }
{
    let text = fault.text(alloc)?;
    let line = format!(in alloc; "{text}\n")?;
    Ok(Stop::Refused {
        cause: Cause::Words,
        text: Items::from_vec(line.into_bytes()),
    })
}
