// Why a package failed, in words.
ghost use Rattle.std.specs.Prelude.{◌≡◌, IfOk, string_bytes};
ghost use Rattle.action_report.specs.Reports.{command_text, install_fault_text, meets_text, owned_text, reason_text, step_text};

use crate::install_faults::{install_place, install_text};
use change_verdict::Reason;
use install_sections::InstallFault;
use opam_names::{OutOfMemory, Pkg};
use outside_io::Ending;
use std::alloc::Global;

/// Why the package of this name failed.
pub(crate) fn reason_text(alloc: Global, name: &str, reason: &Reason) -> Result<String, OutOfMemory>
    ensures { IfOk result (λ text. string_bytes text ≡ reason_text name.now reason.now) }
{
    match reason {
        Reason::Step(step, ending) => step_text(alloc, *step, *ending),
        Reason::InstallUnreadable => Ok(format!(in alloc; "cannot read {name}.install")?),
        Reason::InstallTooLong => Ok(format!(in alloc; "{name}.install is too long")?),
        Reason::InstallRefused(fault) => install_fault_text(alloc, name, *fault),
        Reason::Missing(path) => Ok(format!(in alloc; "{} is missing", path.as_str())?),
        Reason::Unreadable(path) => Ok(format!(in alloc; "cannot read {}", path.as_str())?),
        Reason::FilesTooLong => Ok(String::from_str(alloc, "files are too long")?),
        Reason::Owned(path, owner) => owned_text(alloc, path.as_str(), owner),
        Reason::Meets(path, other, owner) => {
            meets_text(alloc, path.as_str(), other.as_str(), owner)
        }
        Reason::Foreign(path) => Ok(format!(in alloc; "{} meets a foreign file", path.as_str())?),
        Reason::SwitchFull => Ok(String::from_str(alloc, "the switch holds too many files")?),
    }
}

// What is wrong with the install file.
fn install_fault_text(alloc: Global, name: &str, fault: InstallFault) -> Result<String, OutOfMemory>
    ensures { IfOk result (λ text. string_bytes text ≡ install_fault_text name.now fault) }
{
    let at = install_place(fault);
    let what = install_text(fault);
    Ok(format!(in alloc; "{name}.install: byte {at}: {what}")?)
}

// Who owns the path that was to be placed.
fn owned_text(alloc: Global, path: &str, owner: &Pkg) -> Result<String, OutOfMemory>
    ensures { IfOk result (λ text. string_bytes text ≡ owned_text path.now owner.now) }
{
    let owner = owner.print(alloc)?;
    Ok(format!(in alloc; "{path} is owned by {owner}")?)
}

// Who owns the path above or below the one that was to be placed.
fn meets_text(alloc: Global, path: &str, other: &str, owner: &Pkg) -> Result<String, OutOfMemory>
    ensures { IfOk result (λ text. string_bytes text ≡ meets_text path.now other.now owner.now) }
{
    let owner = owner.print(alloc)?;
    Ok(format!(in alloc; "{path} clashes with {other} of {owner}")?)
}

// How a step of a job ended.
fn step_text(alloc: Global, step: u32, ending: Ending) -> Result<String, OutOfMemory>
    ensures { IfOk result (λ text. string_bytes text ≡ step_text step ending) }
{
    if step == 0 {
        return Ok(String::from_str(alloc, "preparation failed")?);
    }
    command_text(alloc, step, ending)
}

// How a command ended.
fn command_text(alloc: Global, step: u32, ending: Ending) -> Result<String, OutOfMemory>
    ensures { IfOk result (λ text. string_bytes text ≡ command_text step ending) }
{
    let text = match ending {
        Ending::Exit(status) => format!(in alloc; "command {step} exited with {status}")?,
        Ending::Killed => format!(in alloc; "command {step} was killed")?,
        Ending::NotStarted => format!(in alloc; "command {step} was not started")?,
        Ending::NotPrepared => String::from_str(alloc, "preparation failed")?,
    };
    Ok(text)
}
