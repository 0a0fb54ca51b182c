// What is found in a file, code by code.
ghost use Rattle.std.specs.List.{flat_map};
ghost use Rattle.std.specs.Prelude.{[], ◌≡◌, ◌∷◌, ◌++◌, IfOk, OnOk, codes, drop, if◌then◌else◌};
ghost use Rattle.opam_names.specs.ByteOrders.{in_order_by};
ghost use Rattle.syntax_trees.specs.Trees.{contents_of, items_of};
ghost use Rattle.opam_package.specs.FieldFaults.{faults_of_file};
ghost use Rattle.opam_package.specs.Fields as fields;
ghost use Rattle.opam_package.specs.Fields.{listed};
ghost use Rattle.opam_package.specs.PackageFaults.{first_fault};
ghost use Rattle.opam_lint.specs.EmptyCommands.{empty_commands};
ghost use Rattle.opam_lint.specs.Findings as found;

use crate::empty_commands::add_inside;
use crate::known_fields::is_known;
use crate::naming::told_package;
use crate::{Finding, Problem};
use opam_names::OutOfMemory;
use opam_package::{fault_start, field_of, file_fault, is_refused, section_fault};
use std::alloc::Global;
use syntax_trees::{File, Item, Span};

// Adds a finding where there is something to find.
fn add_if(
    holds: bool,
    code: u8,
    at: u32,
    problem: Problem,
    findings: &mut Vec<Finding>,
) -> Result<(), OutOfMemory>
    ensures { OnOk result (findings.new.items
        ≡ findings.old.items ++ (if holds then found.finding code at problem ∷ [] else [])) }
{
    if holds {
        findings.push(Finding { code, at, problem })?;
    }
    Ok(())
}

// The first fault of the file.
fn add_fault(alloc: Global, file: &File, findings: &mut Vec<Finding>) -> Result<(), OutOfMemory>
    ensures { OnOk result (findings.new.items ≡ findings.old.items ++ found.fault_findings
        (first_fault (faults_of_file (found.told_package (items_of file.now)) file.now))) }
{
    let pkg = told_package(alloc, file)?;
    match file_fault(alloc, &pkg, file)? {
        None => Ok(()),
        Some(fault) => add_if(true, 3, fault_start(fault), Problem::Fault(fault), findings),
    }
}

// A field that is missing.
fn add_missing(
    file: &File,
    name: &str,
    code: u8,
    problem: Problem,
    findings: &mut Vec<Finding>,
) -> Result<(), OutOfMemory>
    ensures { OnOk result (findings.new.items ≡ findings.old.items
        ++ found.missing_findings name.now code problem (items_of file.now)) }
{
    add_if(field_of(file, name).is_none(), code, 0, problem, findings)
}

// An item that is not done, unless it has a fault of its own.
fn is_refused_item(name: &str, item: &Item) -> bool
    ensures { result ≡ found.is_refused_item name.now (contents_of item.now) }
{
    match item {
        Item::Field(_) => is_refused(name, item),
        Item::Section(section) => {
            is_refused(name, item) && section_fault(name, section).is_none()
        }
    }
}

fn is_unknown_item(name: &str, item: &Item) -> bool
    ensures { result ≡ found.is_unknown_item name.now (contents_of item.now) }
{
    match item {
        Item::Field(_) => !is_known(name),
        Item::Section(_) => false,
    }
}

// What is found of an item that begins at this place.
fn add_item(
    name: &str,
    item: &Item,
    at: u32,
    findings: &mut Vec<Finding>,
) -> Result<(), OutOfMemory>
    ensures { OnOk result (findings.new.items ≡ findings.old.items
        ++ found.item_findings name.now (contents_of item.now) at) }
{
    add_if(
        is_refused_item(name, item),
        5,
        at,
        Problem::Refused,
        findings,
    )?;
    add_if(
        is_unknown_item(name, item),
        21,
        at,
        Problem::Unknown,
        findings,
    )
}

// Where the first of several items begins.
fn first_start(places: &[Span]) -> u32
    ensures { result ≡ found.first_start places.now }
{
    match places {
        [span, ..] => span.start,
        [] => 0,
    }
}

fn later_places(places: &[Span]) -> &[Span]
    ensures { result.now ≡ drop 1 places.now }
{
    match places {
        [_, more @ ..] => more,
        [] => places,
    }
}

// What is found of all items, each at its own place.
fn add_items(file: &File, findings: &mut Vec<Finding>) -> Result<(), OutOfMemory>
    ensures { OnOk result (findings.new.items ≡ findings.old.items
        ++ found.items_findings (items_of file.now) file.now.places) }
{
    let mut places = file.places.as_slice();
    for (key, item) in &file.items {
        add_item(key.name.as_str(), item, first_start(places), findings)?;
        places = later_places(places);
    }
    Ok(())
}

// The empty lists among the commands.
fn add_commands(file: &File, findings: &mut Vec<Finding>) -> Result<(), OutOfMemory>
    ensures { OnOk result (findings.new.items ≡ findings.old.items
        ++ listed empty_commands (fields.field_of (codes "build") (items_of file.now))) }
{
    match field_of(file, "build") {
        None => Ok(()),
        Some(node) => add_inside(node, findings),
    }
}

fn find_all(alloc: Global, file: &File) -> Result<Vec<Finding>, OutOfMemory>
    ensures { IfOk result (λ all. all.items
        ≡ found.all_findings (items_of file.now) file.now.places) }
{
    let mut findings = Vec::new(alloc);
    add_fault(alloc, file, &mut findings)?;
    add_missing(file, "opam-version", 4, Problem::NoFormat, &mut findings)?;
    add_items(file, &mut findings)?;
    add_missing(file, "synopsis", 22, Problem::NoSynopsis, &mut findings)?;
    add_missing(file, "maintainer", 23, Problem::NoMaintainer, &mut findings)?;
    add_commands(file, &mut findings)?;
    Ok(findings)
}

// By place, then code.
fn sort(findings: &mut Vec<Finding>) -> Result<(), OutOfMemory>
    ensures { OnOk result (findings.new.items ≡ in_order_by found.finding_key findings.old.items) }
{
    findings.sort_by(|one, other| one.at.cmp(&other.at).then(one.code.cmp(&other.code)))?;
    Ok(())
}

/// All that is found in a file, by place, then code.
pub(crate) fn lint_file(alloc: Global, file: &File) -> Result<Vec<Finding>, OutOfMemory>
    ensures { IfOk result (λ all. all.items
        ≡ found.file_findings (items_of file.now) file.now.places) }
{
    let mut findings = find_all(alloc, file)?;
    sort(&mut findings)?;
    Ok(findings)
}
