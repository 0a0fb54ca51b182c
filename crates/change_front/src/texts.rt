// What is said of refusals.
ghost use Rattle.std.specs.Prelude.{◌≡◌, ◌++◌, IfOk, OnOk, string_bytes};
ghost use Rattle.std.specs.List.{flat_map};
ghost use Rattle.opam_lint.specs.Linted.{syntax_place};
ghost use Rattle.change_front.specs.RefusalTexts as texts;

use crate::Refusal;
use lock_check::{LockFault, Violation, What, Who};
use opam_lint::fault_text;
use opam_names::{Name, OutOfMemory, Pkg};
use opam_package::{PackageFault, fault_start};
use std::alloc::Global;
use syntax_trees::SyntaxFault;

fn syntax_place(fault: SyntaxFault) -> u32
    ensures { result ≡ syntax_place fault }
{
    match fault {
        SyntaxFault::Ended { at }
        | SyntaxFault::Stray { at }
        | SyntaxFault::Deep { at }
        | SyntaxFault::Doubled { at } => at,
        SyntaxFault::Memory => 0,
    }
}

fn package_place(fault: PackageFault) -> u32
    ensures { result ≡ texts.package_place fault }
{
    match fault {
        PackageFault::Syntax(fault) => syntax_place(fault),
        _ => fault_start(fault),
    }
}

fn lock_place(fault: LockFault) -> u32
    ensures { result ≡ texts.lock_place fault }
{
    match fault {
        LockFault::Syntax(fault) => package_place(PackageFault::Syntax(fault)),
        LockFault::Filter(fault) => package_place(PackageFault::Filter(fault)),
        LockFault::Unbound { span } | LockFault::Twice { span } => span.start,
        LockFault::Memory => 0,
    }
}

fn lock_text(fault: LockFault) -> &'static str
    ensures { result.now ≡ texts.lock_text fault }
{
    match fault {
        LockFault::Syntax(fault) => fault_text(PackageFault::Syntax(fault)),
        LockFault::Filter(fault) => fault_text(PackageFault::Filter(fault)),
        LockFault::Unbound { .. } => "not bound to a version",
        LockFault::Twice { .. } => "bound twice",
        LockFault::Memory => "",
    }
}

fn who_text(alloc: Global, who: &Who) -> Result<String, OutOfMemory>
    ensures { IfOk result (λ text. string_bytes text ≡ texts.who_text who.now) }
{
    match who {
        Who::Name(name) => Ok(String::from_str(alloc, name.as_str())?),
        Who::Pkg(pkg) => pkg.print(alloc),
    }
}

fn unknown_text(who: &Who) -> &'static str
    ensures { result.now ≡ texts.unknown_text who.now }
{
    match who {
        Who::Name(_) => "not bound by the lock",
        Who::Pkg(_) => "not in the repository",
    }
}

fn conflict_text(alloc: Global, pkg: &Pkg) -> Result<String, OutOfMemory>
    ensures { IfOk result (λ text. string_bytes text ≡ texts.conflict_text pkg.now) }
{
    let full = pkg.print(alloc)?;
    Ok(format!(in alloc; "conflicts with {full}")?)
}

fn class_text(alloc: Global, class: &str, pkg: &Pkg) -> Result<String, OutOfMemory>
    ensures { IfOk result (λ text. string_bytes text ≡ texts.class_text class.now pkg.now) }
{
    let full = pkg.print(alloc)?;
    Ok(format!(in alloc; "shares class {class} with {full}")?)
}

fn what_text(alloc: Global, who: &Who, what: &What) -> Result<String, OutOfMemory>
    ensures { IfOk result (λ text. string_bytes text ≡ texts.what_text who.now what.now) }
{
    match what {
        What::Unknown => Ok(String::from_str(alloc, unknown_text(who))?),
        What::NotInstalled => Ok(String::from_str(alloc, "not installed")?),
        What::Unavailable => Ok(String::from_str(alloc, "not available")?),
        What::Unmet(number) => unmet_text(alloc, *number),
        What::Conflict(pkg) => conflict_text(alloc, pkg),
        What::Class(class, pkg) => class_text(alloc, class.as_str(), pkg),
        What::Refused(field) => field_text(alloc, field.as_str()),
    }
}

fn unmet_text(alloc: Global, number: u32) -> Result<String, OutOfMemory>
    ensures { IfOk result (λ text. string_bytes text ≡ texts.unmet_text number) }
{
    Ok(format!(in alloc; "item {number} of depends is not met")?)
}

fn field_text(alloc: Global, field: &str) -> Result<String, OutOfMemory>
    ensures { IfOk result (λ text. string_bytes text ≡ texts.field_text field.now) }
{
    Ok(format!(in alloc; "field {field} is refused")?)
}

fn violation_line(alloc: Global, violation: &Violation) -> Result<String, OutOfMemory>
    ensures { IfOk result (λ text. string_bytes text ≡ texts.violation_line violation.now) }
{
    let who = who_text(alloc, &violation.who)?;
    let what = what_text(alloc, &violation.who, &violation.what)?;
    Ok(format!(in alloc; "{who}: {what}\n")?)
}

fn add_line(alloc: Global, text: &mut Vec<u8>, violation: &Violation) -> Result<(), OutOfMemory>
    ensures { OnOk result (text.new.items ≡ text.old.items ++ texts.violation_line violation.now) }
{
    let line = violation_line(alloc, violation)?;
    text.extend_from_slice(line.as_bytes())?;
    Ok(())
}

fn violations_text(alloc: Global, violations: &[Violation]) -> Result<Vec<u8>, OutOfMemory>
    ensures { IfOk result (λ text. text.items ≡ flat_map texts.violation_line violations.now) }
{
    let mut text = Vec::new(alloc);
    for violation in violations {
        add_line(alloc, &mut text, violation)?;
    }
    Ok(text)
}

fn add_name(text: &mut Vec<u8>, name: &Name) -> Result<(), OutOfMemory>
    ensures { OnOk result (text.new.items ≡ text.old.items ++ texts.spaced name.now) }
{
    text.extend_from_slice(b" ")?;
    text.extend_from_slice(name.as_str().as_bytes())?;
    Ok(())
}

fn add_names(text: &mut Vec<u8>, names: &[Name]) -> Result<(), OutOfMemory>
    ensures { OnOk result (text.new.items ≡ text.old.items ++ flat_map texts.spaced names.now) }
{
    for name in names {
        add_name(text, name)?;
    }
    Ok(())
}

fn cycle_text(alloc: Global, names: &[Name]) -> Result<Vec<u8>, OutOfMemory>
    ensures { IfOk result (λ text. text.items ≡ texts.cycle_text names.now) }
{
    let mut text = Vec::from_slice(alloc, b"cycle:")?;
    add_names(&mut text, names)?;
    text.extend_from_slice(b"\n")?;
    Ok(text)
}

fn fault_line(alloc: Global, path: &str, at: u32, said: &str) -> Result<Vec<u8>, OutOfMemory>
    ensures { IfOk result (λ text. text.items ≡ texts.fault_line path.now at said.now) }
{
    Ok(format!(in alloc; "{path}: byte {at}: {said}\n")?.into_bytes())
}

fn path_line(alloc: Global, path: &str, said: &str) -> Result<Vec<u8>, OutOfMemory>
    ensures { IfOk result (λ text. text.items ≡ texts.path_line path.now said.now) }
{
    Ok(format!(in alloc; "{path}: {said}\n")?.into_bytes())
}

/// What is said of a refusal: a line for each violation, and one for any other refusal.
pub fn refusal_text(alloc: Global, refusal: &Refusal) -> Result<Vec<u8>, OutOfMemory>
    ensures { IfOk result (λ text. text.items ≡ texts.refusal_text refusal.now) }
{
    match refusal {
        Refusal::NotFound(path) => path_line(alloc, path.as_str(), "not found"),
        Refusal::TooLong(path) => path_line(alloc, path.as_str(), "too long"),
        Refusal::BadLock(path, fault) => {
            let (at, said) = (lock_place(*fault), lock_text(*fault));
            fault_line(alloc, path.as_str(), at, said)
        }
        Refusal::BadOpam(path, fault) => {
            let (at, said) = (package_place(*fault), fault_text(*fault));
            fault_line(alloc, path.as_str(), at, said)
        }
        Refusal::TooManyPackages => Ok(Vec::from_slice(alloc, b"too many packages\n")?),
        Refusal::TextsTooLong => Ok(Vec::from_slice(alloc, b"opam texts are too long\n")?),
        Refusal::Violations(violations) => violations_text(alloc, violations.as_slice()),
        Refusal::Cycle(names) => cycle_text(alloc, names.as_slice()),
    }
}
