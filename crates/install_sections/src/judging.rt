// What comes of all items of an install file, section by section.
ghost use Rattle.std.specs.Prelude.{◌≡◌, IfOk, OnOk, drop, map};
ghost use Rattle.install_sections.specs.InstallFaults as faults;
ghost use Rattle.install_sections.specs.Judgements.{after, told_verdicts, unread, with_verdict};
ghost use Rattle.install_sections.specs.Placements as placements;
ghost use Rattle.install_sections.specs.Placements.{field_verdicts, file_verdicts, item_verdicts, misc_verdicts};
ghost use Rattle.install_sections.specs.Verdicts as verdicts;
ghost use Rattle.install_sections.specs.Views as views;

use crate::verdicts::verdict;
use crate::views::{list_in, values_of};
use crate::{InstallFault, Placement, Section, Verdict};
use opam_names::{Items, Name, OutOfMemory};
use std::alloc::Global;
use syntax_trees::{File, Item, Key, Node, Span};

/// What is known after some items: the files of those that are placed, and the first fault.
#[derive(Drop)]
pub struct Judgement {
    pub placements: Items<Placement>,
    pub fault: Option<InstallFault>,
}

fn fault_start(fault: InstallFault) -> u32
    ensures { result ≡ faults.fault_start fault }
{
    match fault {
        InstallFault::UnknownSection { span }
        | InstallFault::Misc { span }
        | InstallFault::NotAnItem { span }
        | InstallFault::Unsafe { span }
        | InstallFault::TooMany { span } => span.start,
        InstallFault::Syntax(_) | InstallFault::Memory => 0,
    }
}

/// Of two faults the one that begins further left, or else the first.
pub(crate) fn sooner(one: Option<InstallFault>, other: Option<InstallFault>) -> Option<InstallFault>
    ensures { result ≡ faults.sooner one other }
{
    match (one, other) {
        (None, _) => other,
        (Some(_), None) => one,
        (Some(first), Some(second)) => {
            if fault_start(second) < fault_start(first) {
                other
            } else {
                one
            }
        }
    }
}

// One item more.
fn note(all: &mut Judgement, verdict: Verdict) -> Result<(), OutOfMemory>
    ensures { OnOk result (all.new ≡ with_verdict all.old verdict) }
{
    match verdict {
        Verdict::Places(placement) => all.placements.push(placement),
        Verdict::Fails(fault) => {
            all.fault = sooner(all.fault, Some(fault));
            Ok(())
        }
    }
}

// The items of a section.
fn judge_nodes(
    alloc: Global,
    section: Section,
    name: &Name,
    nodes: &[Node],
    all: &mut Judgement,
) -> Result<(), OutOfMemory>
    ensures { OnOk result (all.new ≡ after all.old (item_verdicts section name.now nodes.now)) }
{
    for node in nodes {
        note(all, verdict(alloc, section, name, node)?)?;
    }
    Ok(())
}

// Of files that belong nowhere below the prefix only an empty list is accepted.
fn judge_misc(value: &Node, at: Span, all: &mut Judgement) -> Result<(), OutOfMemory>
    ensures { OnOk result (all.new ≡ after all.old (misc_verdicts (views.list_in value.now) at)) }
{
    match list_in(value) {
        Some([]) => Ok(()),
        _ => note(all, Verdict::Fails(InstallFault::Misc { span: at })),
    }
}

fn judge_field(
    alloc: Global,
    name: &Name,
    key: &str,
    value: &Node,
    at: Span,
    all: &mut Judgement,
) -> Result<(), OutOfMemory>
    ensures { OnOk result (all.new ≡ after all.old (field_verdicts name.now key.now value.now at)) }
{
    if key == "misc" {
        return judge_misc(value, at, all);
    }
    match Section::named(key) {
        None => note(
            all,
            Verdict::Fails(InstallFault::UnknownSection { span: at }),
        ),
        Some(section) => judge_nodes(alloc, section, name, values_of(value), all),
    }
}

fn judge_item(
    alloc: Global,
    name: &Name,
    key: &Key,
    item: &Item,
    at: Span,
    all: &mut Judgement,
) -> Result<(), OutOfMemory>
    ensures { OnOk result (all.new ≡ after all.old (told_verdicts name.now key.now item.now at)) }
{
    match item {
        Item::Field(value) => judge_field(alloc, name, key.name.as_str(), value, at, all),
        Item::Section(_) => note(
            all,
            Verdict::Fails(InstallFault::UnknownSection { span: at }),
        ),
    }
}

// Where the first of several items stands.
fn first_place(places: &[Span]) -> Span
    ensures { result ≡ placements.first_place places.now }
{
    match places {
        [place, ..] => *place,
        [] => Span { start: 0, end: 0 },
    }
}

fn later_places(places: &[Span]) -> &[Span]
    ensures { result.now ≡ drop 1 places.now }
{
    match places {
        [_, more @ ..] => more,
        [] => places,
    }
}

/// What is known after all items.
pub(crate) fn judge_file(alloc: Global, name: &Name, file: &File) -> Result<Judgement, OutOfMemory>
    ensures { IfOk result (λ all. all ≡ after unread (file_verdicts name.now file.now)) }
{
    let mut judgement = Judgement {
        placements: Items::new(alloc),
        fault: None,
    };
    let mut places = file.places.as_slice();
    for (key, item) in &file.items {
        judge_item(alloc, name, key, item, first_place(places), &mut judgement)?;
        places = later_places(places);
    }
    Ok(judgement)
}
