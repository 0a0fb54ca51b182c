// How what a change comes to is shown.
use action_graph::{PlanFault, Step};
use lock_check::{Violation, What, Who};
use opam_names::{Name, Pkg};
use opam_package::{Member, Target};
use row_script::fault::Fault;

pub fn push_pkg(text: &mut String, pkg: &Pkg) -> Result<(), Fault> {
    text.push_str(pkg.name.as_str())?;
    text.push_str(".")?;
    Ok(text.push_str(pkg.version.as_str())?)
}

/// Packages between blanks, `-` where there is none.
pub fn push_pkgs(text: &mut String, pkgs: &[Pkg]) -> Result<(), Fault> {
    if pkgs.is_empty() {
        text.push_str("-")?;
    }
    for at in 0..pkgs.len() {
        text.push_str(if at == 0 { "" } else { " " })?;
        push_pkg(text, &pkgs[at])?;
    }
    Ok(())
}

fn push_names(text: &mut String, names: &[Name]) -> Result<(), Fault> {
    if names.is_empty() {
        text.push_str("-")?;
    }
    for at in 0..names.len() {
        text.push_str(if at == 0 { "" } else { " " })?;
        text.push_str(names[at].as_str())?;
    }
    Ok(())
}

fn is_fresh(fresh: &[Name], name: &Name) -> bool {
    for other in fresh {
        if *other == *name {
            return true;
        }
    }
    false
}

// Members, with a star those whose text came from the repository.
fn push_members(text: &mut String, members: &[Member], fresh: &[Name]) -> Result<(), Fault> {
    if members.is_empty() {
        text.push_str("-")?;
    }
    for at in 0..members.len() {
        let pkg = &members[at].package.pkg;
        text.push_str(if at == 0 { "" } else { " " })?;
        push_pkg(text, pkg)?;
        text.push_str(if is_fresh(fresh, &pkg.name) { "*" } else { "" })?;
    }
    Ok(())
}

pub fn push_target(text: &mut String, target: &Target) -> Result<(), Fault> {
    text.push_str("\n  target ")?;
    push_members(text, target.members.as_slice(), target.fresh.as_slice())?;
    text.push_str("; again ")?;
    push_names(text, target.redo.as_slice())?;
    text.push_str("; roots ")?;
    push_names(text, target.roots.as_slice())
}

pub fn push_against(text: &mut String, told: &[Violation]) -> Result<(), Fault> {
    text.push_str("\n  against ")?;
    if told.is_empty() {
        text.push_str("-")?;
    }
    for at in 0..told.len() {
        text.push_str(if at == 0 { "" } else { "; " })?;
        push_who(text, &told[at].who)?;
        push_what(text, &told[at].what)?;
    }
    Ok(())
}

fn push_who(text: &mut String, who: &Who) -> Result<(), Fault> {
    match who {
        Who::Name(name) => Ok(text.push_str(name.as_str())?),
        Who::Pkg(pkg) => push_pkg(text, pkg),
    }
}

fn push_what(text: &mut String, what: &What) -> Result<(), Fault> {
    match what {
        What::Unknown => Ok(text.push_str(": unknown")?),
        What::NotInstalled => Ok(text.push_str(": not installed")?),
        What::Unavailable => Ok(text.push_str(": unavailable")?),
        What::Unmet(item) => Ok(write!(text, ": unmet {item}")?),
        What::Conflict(other) => push_other(text, ": conflict ", "", other),
        What::Class(class, other) => push_other(text, ": class ", class.as_str(), other),
        What::Refused(field) => {
            text.push_str(": refused ")?;
            Ok(text.push_str(field.as_str())?)
        }
    }
}

fn push_other(text: &mut String, what: &str, class: &str, other: &Pkg) -> Result<(), Fault> {
    text.push_str(what)?;
    text.push_str(class)?;
    text.push_str(if class.is_empty() { "" } else { " " })?;
    push_pkg(text, other)
}

/// The entries that leave, in the order in which they do.
pub fn push_removals(text: &mut String, installed: &[Member], places: &[u32]) -> Result<(), Fault> {
    for at in 0..places.len() {
        text.push_str(if at == 0 { "-" } else { " -" })?;
        push_at(text, installed, places[at])?;
    }
    Ok(())
}

fn push_at(text: &mut String, members: &[Member], place: u32) -> Result<(), Fault> {
    match members.get(place as usize) {
        None => Err(Fault::Line("a place is none of a member")),
        Some(member) => push_pkg(text, &member.package.pkg),
    }
}

/// The installs, each with the names that it needs.
pub fn push_installs(text: &mut String, members: &[Member], steps: &[Step]) -> Result<(), Fault> {
    if steps.is_empty() {
        text.push_str("-")?;
    }
    for at in 0..steps.len() {
        text.push_str(if at == 0 { "+" } else { " +" })?;
        push_at(text, members, steps[at].member)?;
        push_needs(text, members, steps[at].needs.as_slice())?;
    }
    Ok(())
}

fn push_needs(text: &mut String, members: &[Member], needs: &[u32]) -> Result<(), Fault> {
    text.push_str("(")?;
    for at in 0..needs.len() {
        text.push_str(if at == 0 { "" } else { "," })?;
        push_name_at(text, members, needs[at])?;
    }
    Ok(text.push_str(")")?)
}

fn push_name_at(text: &mut String, members: &[Member], place: u32) -> Result<(), Fault> {
    match members.get(place as usize) {
        None => Err(Fault::Line("a place is none of a member")),
        Some(member) => Ok(text.push_str(member.package.pkg.name.as_str())?),
    }
}

/// Why there is no order.
pub fn push_cycle(text: &mut String, fault: PlanFault) -> Result<(), Fault> {
    match fault {
        PlanFault::Cycle { names } => {
            text.push_str("cycle ")?;
            push_names(text, names.as_slice())
        }
        PlanFault::Memory => Err(Fault::Memory),
    }
}
