// Why a package failed, in words.
ghost use Rattle.std.specs.Prelude.{◌≡◌, ◌++◌, IfOk, codes, decimal, string_bytes};
ghost use Rattle.opam_names.specs.Packages.{pkg_text};
ghost use Rattle.opam_top.specs.Reports.{command_text, reason_text, step_text};

use crate::decision::Reason;
use opam_names::{OutOfMemory, Pkg};
use outside_io::Ending;
use std::alloc::Global;

/// Why the package of this name failed.
pub(crate) fn reason_text(alloc: Global, name: &str, reason: &Reason) -> Result<String, OutOfMemory>
    ensures { IfOk result (λ text. string_bytes text ≡ reason_text name.now reason.now) }
{
    match reason {
        Reason::Step(step, ending) => step_text(alloc, *step, *ending),
        Reason::InstallUnreadable => Ok(format!(in alloc; "cannot read {name}.install")?),
        Reason::InstallTooLong => Ok(format!(in alloc; "{name}.install is too long")?),
        Reason::InstallNotBuilt => Ok(format!(in alloc; "{name}.install is not built yet")?),
        Reason::Missing(path) => Ok(format!(in alloc; "{} is missing", path.as_str())?),
        Reason::Unreadable(path) => Ok(format!(in alloc; "cannot read {}", path.as_str())?),
        Reason::FilesTooLong => Ok(String::from_str(alloc, "files are too long")?),
        Reason::Owned(path, owner) => owned_text(alloc, path.as_str(), owner),
        Reason::Foreign(path) => Ok(format!(in alloc; "{} meets a foreign file", path.as_str())?),
        Reason::SwitchFull => Ok(String::from_str(alloc, "the switch holds too many files")?),
    }
}

// Who owns the path that was to be placed.
fn owned_text(alloc: Global, path: &str, owner: &Pkg) -> Result<String, OutOfMemory>
    ensures { IfOk result (λ text. string_bytes text ≡ path.now ++ (codes " is owned by " ++ pkg_text owner.now)) }
{
    let owner = owner.print(alloc)?;
    Ok(format!(in alloc; "{path} is owned by {owner}")?)
}

// How a step of a job ended.
fn step_text(alloc: Global, step: u32, ending: Ending) -> Result<String, OutOfMemory>
    ensures { IfOk result (λ text. string_bytes text ≡ step_text step ending) }
{
    if step == 0 {
        return Ok(String::from_str(alloc, "preparation failed")?);
    }
    command_text(alloc, step, ending)
}

// How a command ended.
fn command_text(alloc: Global, step: u32, ending: Ending) -> Result<String, OutOfMemory>
    ensures { IfOk result (λ text. string_bytes text ≡ command_text step ending) }
{
    let text = match ending {
        Ending::Exit(status) => format!(in alloc; "command {step} exited with {status}")?,
        Ending::Killed => format!(in alloc; "command {step} was killed")?,
        Ending::NotStarted => format!(in alloc; "command {step} was not started")?,
        Ending::NotPrepared => String::from_str(alloc, "preparation failed")?,
    };
    Ok(text)
}
