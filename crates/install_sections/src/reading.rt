// Install files: what they place, and what is wrong with them.
ghost use Rattle.std.specs.Prelude.{[], ◌≡◌, ◌≤◌, ◌∷◌, IfErr, IfOk, OnOk, length};
ghost use Rattle.std.specs.declared.option.Option.TheVariants.{None};
ghost use Rattle.syntax_trees.specs.Trees.{contents_of, items_of};
ghost use Rattle.install_sections.specs.InstallFaults.{IsFirstOf, first_fault};
ghost use Rattle.install_sections.specs.Placements as placements;
ghost use Rattle.install_sections.specs.Placements.{excess_faults, faults_in, items_in, placements_in};
ghost use Rattle.install_sections.specs.Readings.{IsInstallText, IsRefusedInstall, told_install_syntax};

use crate::judging::{judge_file, sooner};
use crate::limits::ITEM_LIMIT;
use crate::views::values_of;
use crate::{InstallFault, Placement, Section};
use opam_names::{Items, Name};
use opam_syntax::read_file;
use std::alloc::Global;
use syntax_trees::{FILE_LIMIT, File, Item, Node, SyntaxFault};

// The values of a field that is a section.
fn entry_items<'a>(field: &str, item: &'a Item) -> &'a [Node]
    ensures { result.now ≡ placements.entry_items field.now (contents_of item.now) }
{
    match item {
        Item::Field(value) if Section::named(field).is_some() => values_of(value),
        _ => &[],
    }
}

// The one item more than there may be.
#[tactic(auto, using(crate::proofs::Excess::room_left))]
fn excess_fault(file: &File) -> Option<InstallFault>
    ensures { result ≡ first_fault (excess_faults (items_in (items_of file.now))) }
{
    let mut room = ITEM_LIMIT;
    for (key, item) in &file.items {
        let nodes = entry_items(key.name.as_str(), item);
        if let Some(node) = nodes.get(room) {
            return Some(InstallFault::TooMany { span: node.span });
        }
        room -= nodes.len();
    }
    None
}

/// The files that an install file of the package of this name places, in the order of the file (opam manual, package
/// definitions: `.install` files). Where several things are wrong, the one that begins first is told, and of those that
/// begin at one byte the one that stands first in the list of all of them.
pub fn placements_of(
    alloc: Global,
    file: &File,
    name: &Name,
) -> Result<Items<Placement>, InstallFault>
    ensures ok { IfOk result (λ all. all ≡ placements_in name.now file.now) }
    ensures sound { OnOk result (first_fault (faults_in name.now file.now) ≡ None) }
    ensures err { IfErr result (λ fault. IsFirstOf (faults_in name.now file.now) fault) }
{
    let judgement = judge_file(alloc, name, file)?;
    match sooner(judgement.fault, excess_fault(file)) {
        Some(fault) => Err(fault),
        None => Ok(judgement.placements),
    }
}

/// The files that the text of an install file places, for the package of this name. `Syntax` comes exactly where the bytes are the
/// text of no file.
pub fn read_install(
    alloc: Global,
    bytes: &[u8],
    name: &Name,
) -> Result<Items<Placement>, InstallFault>
    requires { length bytes.now ≤ FILE_LIMIT }
    ensures ok { IfOk result (IsInstallText bytes.now name.now) }
    ensures err { IfErr result (IsRefusedInstall bytes.now name.now) }
{
    match read_file(alloc, bytes) {
        Ok(file) => placements_of(alloc, &file, name),
        Err(fault) => Err(told_syntax(fault)),
    }
}

fn told_syntax(fault: SyntaxFault) -> InstallFault
    ensures { result ≡ told_install_syntax fault }
{
    match fault {
        SyntaxFault::Memory => InstallFault::Memory,
        _ => InstallFault::Syntax(fault),
    }
}
