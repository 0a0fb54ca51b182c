// What is wrong with an opam file.
ghost use Rattle.std.specs.Prelude.{◌≡◌, IfOk};
ghost use Rattle.opam_package.specs.FieldFaults as faults;
ghost use Rattle.opam_package.specs.Forms as forms;
ghost use Rattle.opam_package.specs.PackageFaults.{first_fault};
ghost use Rattle.opam_package.specs.Readings.{entry_faults};

use crate::PackageFault;
use crate::command_faults::commands_fault;
use crate::fields::inner_field;
use crate::forms::{
    formulas_fault, inner_filter_fault, inner_formula_fault, text_fault, texts_fault,
};
use crate::relatives::substs_fault;
use crate::sooner::sooner;
use crate::update_faults::updates_fault;
use crate::views::text_in;
use indexmap::IndexMap;
use opam_names::{OutOfMemory, Pkg};
use std::alloc::Global;
use syntax_trees::{File, Item, Node, Word};

// The bytes of a text; none of another value.
fn text_of(node: &Node) -> &[u8]
    ensures { result.now ≡ forms.text_of node.now }
{
    match text_in(node) {
        Some(bytes) => bytes,
        None => &[],
    }
}

// The version of the format begins with `2.`.
#[tactic(auto, using(crate::proofs::FirstFaults::first_of_both))]
fn format_fault(node: &Node) -> Option<PackageFault>
    ensures { result ≡ first_fault (faults.format_faults node.now) }
{
    sooner(text_fault(node), old_fault(node))
}

fn old_fault(node: &Node) -> Option<PackageFault>
    ensures { result ≡ first_fault (faults.old_faults node.now) }
{
    if text_of(node).starts_with(b"2.") {
        None
    } else {
        Some(PackageFault::OpamVersion { span: node.span })
    }
}

// A name or a version is that of the package.
#[tactic(auto, using(crate::proofs::FirstFaults::first_of_both))]
fn same_fault(node: &Node, text: &str) -> Option<PackageFault>
    ensures { result ≡ first_fault (faults.same_faults text.now node.now) }
{
    sooner(text_fault(node), other_fault(node, text))
}

fn other_fault(node: &Node, text: &str) -> Option<PackageFault>
    ensures { result ≡ first_fault (faults.other_faults text.now node.now) }
{
    if text_of(node) == text.as_bytes() {
        None
    } else {
        Some(PackageFault::Mismatch { span: node.span })
    }
}

fn field_fault(
    alloc: Global,
    pkg: &Pkg,
    name: &str,
    node: &Node,
) -> Result<Option<PackageFault>, OutOfMemory>
    ensures { IfOk result (λ f. f ≡ first_fault (faults.field_faults pkg.now name.now node.now)) }
{
    match name {
        "opam-version" => Ok(format_fault(node)),
        "name" => Ok(same_fault(node, pkg.name.as_str())),
        "version" => Ok(same_fault(node, pkg.version.as_str())),
        "synopsis" => Ok(text_fault(node)),
        "depends" => Ok(formulas_fault(node)),
        "depopts" => Ok(inner_formula_fault(node)),
        "conflicts" => Ok(inner_formula_fault(node)),
        "conflict-class" => Ok(texts_fault(node)),
        "available" => Ok(inner_filter_fault(node)),
        "build" => Ok(commands_fault(node)),
        "setenv" => Ok(updates_fault(node)),
        "build-env" => Ok(updates_fault(node)),
        "substs" => substs_fault(alloc, node),
        _ => Ok(None),
    }
}

/// The first fault of a section, of which `src` in `url` alone is read.
pub fn section_fault(name: &str, section: &IndexMap<Word, Node>) -> Option<PackageFault>
    ensures { result ≡ first_fault (faults.section_faults name.now section.now.entries) }
{
    if name != "url" {
        return None;
    }
    match inner_field(section, "src") {
        None => None,
        Some(node) => text_fault(node),
    }
}

fn item_fault(
    alloc: Global,
    pkg: &Pkg,
    name: &str,
    item: &Item,
) -> Result<Option<PackageFault>, OutOfMemory>
    ensures { IfOk result (λ f. f ≡ first_fault (entry_faults pkg.now name.now item.now)) }
{
    match item {
        Item::Field(node) => field_fault(alloc, pkg, name, node),
        Item::Section(section) => Ok(section_fault(name, section)),
    }
}

/// The first fault of a file that is to be that of a package.
#[tactic(auto, using(crate::proofs::FirstFaults::first_then))]
pub fn file_fault(
    alloc: Global,
    pkg: &Pkg,
    file: &File,
) -> Result<Option<PackageFault>, OutOfMemory>
    ensures { IfOk result (λ fault. fault ≡ first_fault (faults.faults_of_file pkg.now file.now)) }
{
    let mut first = None;
    for (key, item) in &file.items {
        first = sooner(first, item_fault(alloc, pkg, key.name.as_str(), item)?);
    }
    Ok(first)
}
