// How a job ended, in words.
use crate::fault::Fault;
use crate::show::plain;
use outside_io::{Ending, Fate};
use std::alloc::Global;

/// An ending in words.
pub fn show_ending(alloc: Global, ending: Ending) -> Result<String, Fault> {
    match ending {
        Ending::Exit(code) => Ok(format!(in alloc; "exit {code}")?),
        Ending::Killed => plain(alloc, "killed"),
        Ending::NotStarted => plain(alloc, "not started"),
        Ending::NotPrepared => plain(alloc, "not prepared"),
    }
}

/// A fate in words.
pub fn show_fate(alloc: Global, fate: Fate) -> Result<String, Fault> {
    match fate {
        Fate::Built => plain(alloc, "built"),
        Fate::Stopped { step, ending } => {
            let ending = show_ending(alloc, ending)?;
            Ok(format!(in alloc; "stopped at step {step} by {ending}")?)
        }
    }
}
