// A line of the report.
ghost use Rattle.std.specs.Prelude.{◌≡◌, ◌++◌, IfOk, codes, string_bytes};
ghost use Rattle.opam_names.specs.Packages.{pkg_text};
ghost use Rattle.action_report.specs.Reports.{line_of, reason_text, why_text};

use crate::Decision;
use crate::causes::why_text;
use crate::reasons::reason_text;
use back_verdict::Why;
use change_verdict::Reason;
use opam_names::{OutOfMemory, Pkg};
use std::alloc::Global;

/// The line of a decision, with its newline.
pub fn line_of(alloc: Global, decision: &Decision) -> Result<Vec<u8>, OutOfMemory>
    ensures { IfOk result (λ line. line.items ≡ line_of decision.now) }
{
    Ok(line_text(alloc, decision)?.into_bytes())
}

fn line_text(alloc: Global, decision: &Decision) -> Result<String, OutOfMemory>
    ensures { IfOk result (λ text. string_bytes text ≡ line_of decision.now) }
{
    match decision {
        Decision::Installed(pkg) => installed_text(alloc, pkg),
        Decision::Removed(pkg) => removed_text(alloc, pkg),
        Decision::Failed(pkg, reason) => failed_text(alloc, pkg, reason),
        Decision::Aborted(pkg, need) => aborted_text(alloc, pkg, need),
        Decision::PutBack(pkg) => back_text(alloc, pkg),
        Decision::NotPutBack(pkg, why) => away_text(alloc, pkg, why),
    }
}

fn installed_text(alloc: Global, pkg: &Pkg) -> Result<String, OutOfMemory>
    ensures { IfOk result (λ text. string_bytes text
        ≡ codes "installed " ++ pkg_text pkg.now ++ codes "\n") }
{
    let pkg = pkg.print(alloc)?;
    Ok(format!(in alloc; "installed {pkg}\n")?)
}

fn removed_text(alloc: Global, pkg: &Pkg) -> Result<String, OutOfMemory>
    ensures { IfOk result (λ text. string_bytes text
        ≡ codes "removed " ++ pkg_text pkg.now ++ codes "\n") }
{
    let pkg = pkg.print(alloc)?;
    Ok(format!(in alloc; "removed {pkg}\n")?)
}

fn failed_text(alloc: Global, pkg: &Pkg, reason: &Reason) -> Result<String, OutOfMemory>
    ensures { IfOk result (λ text. string_bytes text ≡ codes "failed " ++ pkg_text pkg.now
        ++ codes ": " ++ reason_text pkg.now.name reason.now ++ codes "\n") }
{
    let reason = reason_text(alloc, pkg.name.as_str(), reason)?;
    let pkg = pkg.print(alloc)?;
    Ok(format!(in alloc; "failed {pkg}: {reason}\n")?)
}

fn aborted_text(alloc: Global, pkg: &Pkg, need: &Pkg) -> Result<String, OutOfMemory>
    ensures { IfOk result (λ text. string_bytes text ≡ codes "aborted " ++ pkg_text pkg.now
        ++ codes ": " ++ pkg_text need.now ++ codes "\n") }
{
    let pkg = pkg.print(alloc)?;
    let need = need.print(alloc)?;
    Ok(format!(in alloc; "aborted {pkg}: {need}\n")?)
}

fn back_text(alloc: Global, pkg: &Pkg) -> Result<String, OutOfMemory>
    ensures { IfOk result (λ text. string_bytes text
        ≡ codes "put back " ++ pkg_text pkg.now ++ codes "\n") }
{
    let pkg = pkg.print(alloc)?;
    Ok(format!(in alloc; "put back {pkg}\n")?)
}

fn away_text(alloc: Global, pkg: &Pkg, why: &Why) -> Result<String, OutOfMemory>
    ensures { IfOk result (λ text. string_bytes text ≡ codes "not put back " ++ pkg_text pkg.now
        ++ codes ": " ++ why_text pkg.now.name why.now ++ codes "\n") }
{
    let why = why_text(alloc, pkg.name.as_str(), why)?;
    let pkg = pkg.print(alloc)?;
    Ok(format!(in alloc; "not put back {pkg}: {why}\n")?)
}
