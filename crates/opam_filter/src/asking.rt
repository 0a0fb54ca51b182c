// The names of packages with which the variables of a filter or of a text are looked up.
ghost use Rattle.std.specs.Prelude.{◌≡◌, [], ◌∷◌, filter, IfOk, map, OnOk};
ghost use Rattle.std.specs.List.{flat_map};
ghost use Rattle.opam_names.specs.Names.{is_name};
ghost use Rattle.opam_filter.specs.Asked.{asked, asked_in, names_in, names_in_text, names_of_scope, scope_names};
ghost use Rattle.opam_filter.specs.NameSets.{with_names};

use crate::Filter;
use crate::parts::{are_joined, scope_parts};
use crate::texts::{asked_for, first_hole};
use opam_names::{Items, NAME_LIMIT, Name, OutOfMemory, ReadFault};
use std::alloc::Global;
use std::collections::BTreeSet;
use syntax_trees::Var;

/// The names of packages with which the variables of a filter are looked up, in the order of their bytes, each once.
pub fn asked(alloc: Global, filter: &Filter) -> Result<Items<Name>, OutOfMemory>
    ensures { IfOk result (λ names. names ≡ asked filter.now) }
{
    let mut names = BTreeSet::new(alloc);
    ask(alloc, filter, &mut names)?;
    Ok(Items::from_vec(names.into_iter().collect(alloc)?))
}

/// The same of the variables in a text.
pub fn asked_in(alloc: Global, text: &str) -> Result<Items<Name>, OutOfMemory>
    ensures { IfOk result (λ names. names ≡ asked_in text.now) }
{
    let mut names = BTreeSet::new(alloc);
    ask_in_text(alloc, text, &mut names)?;
    Ok(Items::from_vec(names.into_iter().collect(alloc)?))
}

// Adds the names of a filter.
#[cycle(walk)]
fn ask(alloc: Global, filter: &Filter, names: &mut BTreeSet<Name>) -> Result<(), OutOfMemory>
    ensures { OnOk result (names.new.keys ≡ with_names names.old.keys (names_in filter.now)) }
{
    match filter {
        Filter::Flag(_) => Ok(()),
        Filter::Text(text) => ask_in_text(alloc, text.as_str(), names),
        Filter::Var(variable) => ask_variable(alloc, variable, names),
        Filter::Rel(_, left, right) => {
            ask(alloc, left.get(), names)?;
            ask(alloc, right.get(), names)
        }
        Filter::Not(part) | Filter::Defined(part) => ask(alloc, part.get(), names),
        Filter::And(parts) | Filter::Or(parts) => ask_all(alloc, parts.as_slice(), names),
    }
}

#[cycle(walk)]
fn ask_all(alloc: Global, parts: &[Filter], names: &mut BTreeSet<Name>) -> Result<(), OutOfMemory>
    ensures { OnOk result (names.new.keys ≡ with_names names.old.keys
        (flat_map (λ found. found) (map names_in parts.now))) }
{
    for part in parts {
        ask(alloc, part, names)?;
    }
    Ok(())
}

fn ask_in_text(alloc: Global, text: &str, names: &mut BTreeSet<Name>) -> Result<(), OutOfMemory>
    ensures { OnOk result (names.new.keys ≡ with_names names.old.keys (names_in_text text.now)) }
{
    let mut rest = text;
    while let Some(hole) = first_hole(rest) {
        ask_variable(alloc, &asked_for(alloc, hole.inside)?, names)?;
        rest = hole.after;
    }
    Ok(())
}

fn ask_variable(
    alloc: Global,
    variable: &Var,
    names: &mut BTreeSet<Name>,
) -> Result<(), OutOfMemory>
    ensures { OnOk result (names.new.keys ≡ with_names names.old.keys
        (names_of_scope variable.now.scope)) }
{
    match &variable.scope {
        None => Ok(()),
        Some(scope) => ask_scope(alloc, scope.as_str(), names),
    }
}

// Of several parts each is looked up alone, any other scope as it stands.
fn ask_scope(alloc: Global, scope: &str, names: &mut BTreeSet<Name>) -> Result<(), OutOfMemory>
    ensures { OnOk result (names.new.keys ≡ with_names names.old.keys (scope_names scope.now)) }
{
    let parts = scope_parts(alloc, scope)?;
    if are_joined(parts.as_slice()) {
        add_names(alloc, parts.as_slice(), names)
    } else {
        add_name(alloc, scope, names)
    }
}

fn add_names(alloc: Global, parts: &[&str], names: &mut BTreeSet<Name>) -> Result<(), OutOfMemory>
    ensures { OnOk result (names.new.keys ≡ with_names names.old.keys
        (filter is_name (map (λ part. part.now) parts.now))) }
{
    for part in parts {
        add_name(alloc, part, names)?;
    }
    Ok(())
}

// Adds the text where it is a name.
fn add_name(alloc: Global, text: &str, names: &mut BTreeSet<Name>) -> Result<(), OutOfMemory>
    ensures { OnOk result (names.new.keys ≡ with_names names.old.keys
        (filter is_name (text.now ∷ []))) }
{
    if text.len() > NAME_LIMIT {
        return Ok(());
    }
    match Name::read(alloc, text.as_bytes()) {
        Ok(name) => {
            names.insert(name)?;
            Ok(())
        }
        Err(ReadFault::Bad { .. }) => Ok(()),
        Err(ReadFault::Memory) => Err(OutOfMemory),
    }
}
