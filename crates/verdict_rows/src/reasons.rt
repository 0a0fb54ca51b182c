// Reasons in words.
use change_verdict::Reason;
use install_sections::InstallFault;
use opam_names::{Pkg, RelPath};
use row_script::fates::show_ending;
use row_script::fault::Fault;
use row_script::show::plain;
use std::alloc::Global;

/// A reason in words.
pub fn reason_text(alloc: Global, reason: &Reason) -> Result<String, Fault> {
    match reason {
        Reason::Step(step, ending) => {
            let ending = show_ending(alloc, *ending)?;
            Ok(format!(in alloc; "step {step}: {ending}")?)
        }
        Reason::InstallUnreadable => plain(alloc, "install file is unreadable"),
        Reason::InstallTooLong => plain(alloc, "install file is too long"),
        Reason::InstallRefused(fault) => install_text(alloc, *fault),
        Reason::Missing(path) => path_text(alloc, "missing", path),
        Reason::Unreadable(path) => path_text(alloc, "unreadable", path),
        Reason::FilesTooLong => plain(alloc, "files are too long"),
        other => clash_text(alloc, other),
    }
}

fn clash_text(alloc: Global, reason: &Reason) -> Result<String, Fault> {
    match reason {
        Reason::Owned(path, owner) => owned_text(alloc, path, owner),
        Reason::Meets(path, other, owner) => meets_text(alloc, path, other, owner),
        Reason::Foreign(path) => path_text(alloc, "meets a foreign file:", path),
        _ => plain(alloc, "switch is full"),
    }
}

fn path_text(alloc: Global, what: &str, path: &RelPath) -> Result<String, Fault> {
    let path = path.as_str();
    Ok(format!(in alloc; "{what} {path}")?)
}

fn owned_text(alloc: Global, path: &RelPath, owner: &Pkg) -> Result<String, Fault> {
    let path = path.as_str();
    let owner = owner.print(alloc)?;
    Ok(format!(in alloc; "{path} is owned by {owner}")?)
}

fn meets_text(
    alloc: Global,
    path: &RelPath,
    other: &RelPath,
    owner: &Pkg,
) -> Result<String, Fault> {
    let path = path.as_str();
    let other = other.as_str();
    let owner = owner.print(alloc)?;
    Ok(format!(in alloc; "{path} clashes with {other} of {owner}")?)
}

fn install_text(alloc: Global, fault: InstallFault) -> Result<String, Fault> {
    match fault {
        InstallFault::Syntax(_) => plain(alloc, "install file: syntax"),
        InstallFault::UnknownSection { span } => at(alloc, "unknown section", span.start),
        InstallFault::Misc { span } => at(alloc, "misc", span.start),
        InstallFault::NotAnItem { span } => at(alloc, "not an item", span.start),
        InstallFault::Unsafe { span } => at(alloc, "unsafe path", span.start),
        InstallFault::TooMany { span } => at(alloc, "too many", span.start),
        InstallFault::Memory => Err(Fault::Memory),
    }
}

fn at(alloc: Global, what: &str, start: u32) -> Result<String, Fault> {
    Ok(format!(in alloc; "install file: {what} at {start}")?)
}
