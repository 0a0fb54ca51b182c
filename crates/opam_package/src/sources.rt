// Where the sources of a package are, and what it is refused for.
ghost use Rattle.std.specs.Option.{option_copied};
ghost use Rattle.std.specs.List.{list_any};
ghost use Rattle.std.specs.Prelude.{◌≡◌, IfOk, OnOk, bytes_eq};
ghost use Rattle.syntax_trees.specs.Trees.{contents_of, items_of};
ghost use Rattle.opam_package.specs.Packages as packages;
ghost use Rattle.opam_package.specs.Views.{list_in};

use crate::fields::inner_field;
use crate::forms::text_of_bytes;
use crate::views::{list_in, text_in};
use indexmap::IndexMap;
use opam_names::{Items, OutOfMemory, Text};
use std::alloc::Global;
use syntax_trees::{File, Item, Node, Word};

// A path from the root, as it is or behind `file://`.
fn source_path(bytes: &[u8]) -> Option<&[u8]>
    ensures { option_copied result ≡ packages.source_path bytes.now }
{
    if bytes.starts_with(b"/") {
        Some(bytes)
    } else if bytes.starts_with(b"file:///") {
        Some(&bytes[7..])
    } else {
        None
    }
}

// The sources that a section `url` gives.
fn url_source(section: &IndexMap<Word, Node>) -> Option<&str>
    ensures { option_copied result ≡ packages.url_source section.now.entries }
{
    match inner_field(section, "src") {
        None => None,
        Some(node) => match text_in(node) {
            None => None,
            Some(bytes) => match source_path(bytes) {
                None => None,
                Some(path) => text_of_bytes(path),
            },
        },
    }
}

// The sources that the first section `url` gives that gives any.
fn first_source(file: &File) -> Option<&str>
    ensures { option_copied result ≡ packages.source_of (items_of file.now) }
{
    for (key, item) in &file.items {
        if let Item::Section(section) = item {
            if key.name.as_str() == "url" {
                if let Some(source) = url_source(section) {
                    return Some(source);
                }
            }
        }
    }
    None
}

/// The path of the sources.
pub(crate) fn source_of(alloc: Global, file: &File) -> Result<Option<Text>, OutOfMemory>
    ensures { IfOk result (λ source. source ≡ packages.source_of (items_of file.now)) }
{
    match first_source(file) {
        None => Ok(None),
        Some(path) => Ok(Some(Text::from_str(alloc, path)?)),
    }
}

fn is_empty_list(node: &Node) -> bool
    ensures { result ≡ packages.is_empty_list (list_in node.now) }
{
    match list_in(node) {
        Some([]) => true,
        _ => false,
    }
}

fn is_refused_field(name: &str, node: &Node) -> bool
    ensures { result ≡ packages.is_refused_field name.now node.now }
{
    match name {
        "install" | "remove" | "patches" => !is_empty_list(node),
        "extra-files" | "substs" => true,
        _ => false,
    }
}

fn is_refused_section(name: &str, section: &IndexMap<Word, Node>) -> bool
    ensures { result ≡ packages.is_refused_section name.now section.now.entries }
{
    match name {
        "url" => url_source(section).is_none(),
        "extra-source" => true,
        _ => false,
    }
}

/// Whether an item of this name keeps its package from being installed.
pub fn is_refused(name: &str, item: &Item) -> bool
    ensures { result ≡ packages.is_refused name.now (contents_of item.now) }
{
    match item {
        Item::Field(node) => is_refused_field(name, node),
        Item::Section(section) => is_refused_section(name, section),
    }
}

fn contains(names: &[Text], name: &str) -> bool
    ensures { result ≡ list_any (bytes_eq name.now) names.now }
{
    names.iter().any(|other| other.as_str() == name)
}

fn add_once(alloc: Global, names: &mut Items<Text>, name: &str) -> Result<(), OutOfMemory>
    ensures { OnOk result (names.new ≡ packages.with_once names.old name.now) }
{
    if contains(names.as_slice(), name) {
        return Ok(());
    }
    names.push(Text::from_str(alloc, name)?)
}

/// The names of the items for which a package is refused, in the order of the file, each once.
pub(crate) fn refused_names(alloc: Global, file: &File) -> Result<Items<Text>, OutOfMemory>
    ensures { IfOk result (λ names. names ≡ packages.refused_names (items_of file.now)) }
{
    let mut names = Items::new(alloc);
    for (key, item) in &file.items {
        if is_refused(key.name.as_str(), item) {
            add_once(alloc, &mut names, key.name.as_str())?;
        }
    }
    Ok(names)
}
