// Why a package is not put back, in words.
ghost use Rattle.std.specs.Prelude.{◌≡◌, IfOk, string_bytes};
ghost use Rattle.action_report.specs.Reports.{class_text, conflict_text, late_text, why_text};

use crate::reasons::reason_text;
use back_verdict::Why;
use opam_names::{OutOfMemory, Pkg};
use std::alloc::Global;

/// Why the package of this name is not put back.
pub(crate) fn why_text(alloc: Global, name: &str, why: &Why) -> Result<String, OutOfMemory>
    ensures { IfOk result (λ text. string_bytes text ≡ why_text name.now why.now) }
{
    match why {
        Why::NotKept => Ok(String::from_str(alloc, "its files were not kept")?),
        Why::Unmet => Ok(String::from_str(alloc, "its dependencies are not met")?),
        Why::Conflict(other) => conflict_text(alloc, other),
        Why::Class(class, other) => class_text(alloc, class.as_str(), other),
        Why::Late(other) => late_text(alloc, other),
        Why::Full => Ok(String::from_str(alloc, "the switch is full")?),
        Why::Clash(reason) => reason_text(alloc, name, reason),
    }
}

fn conflict_text(alloc: Global, other: &Pkg) -> Result<String, OutOfMemory>
    ensures { IfOk result (λ text. string_bytes text ≡ conflict_text other.now) }
{
    let other = other.print(alloc)?;
    Ok(format!(in alloc; "conflicts with {other}")?)
}

fn class_text(alloc: Global, class: &str, other: &Pkg) -> Result<String, OutOfMemory>
    ensures { IfOk result (λ text. string_bytes text ≡ class_text class.now other.now) }
{
    let other = other.print(alloc)?;
    Ok(format!(in alloc; "shares class {class} with {other}")?)
}

fn late_text(alloc: Global, other: &Pkg) -> Result<String, OutOfMemory>
    ensures { IfOk result (λ text. string_bytes text ≡ late_text other.now) }
{
    let other = other.print(alloc)?;
    Ok(format!(in alloc; "{other} needs it earlier")?)
}
