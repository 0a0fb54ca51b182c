// The filters, braces and formulas of nodes that have no fault.
ghost use Rattle.std.specs.Prelude.{◌≡◌, IfOk, IsTrue, map};
ghost use Rattle.opam_names.specs.Names.{is_name};
ghost use Rattle.opam_filter.specs.Faults.{judged, is_text, of_braces, of_filters, of_formulas};
ghost use Rattle.opam_filter.specs.Trees.{read};

use crate::copies::copy_variable;
use crate::{Braces, Filter, Formula};
use opam_names::{Name, OutOfMemory, ReadFault, Text};
use sqlite_items::{Boxed, Items};
use std::alloc::Global;
use syntax_trees::{Node, Value};

fn build_text(alloc: Global, bytes: &[u8]) -> Result<Text, OutOfMemory>
    requires { IsTrue (is_text bytes.now) }
    ensures { IfOk result (λ text. text ≡ bytes.now) }
{
    let Ok(text) = str::from_utf8(bytes) else {
        unreachable!()
    };
    Text::from_str(alloc, text)
}

fn build_name(alloc: Global, bytes: &[u8]) -> Result<Name, OutOfMemory>
    requires { IsTrue (is_name bytes.now) }
    ensures { IfOk result (λ name. name ≡ bytes.now) }
{
    match Name::read(alloc, bytes) {
        Ok(name) => Ok(name),
        Err(ReadFault::Memory) => Err(OutOfMemory),
        Err(ReadFault::Bad { .. }) => unreachable!(),
    }
}

#[cycle(build_filter)]
pub(crate) fn build_filter(alloc: Global, node: &Node) -> Result<Filter, OutOfMemory>
    requires { (judged node.now).filter ≡ None }
    ensures { IfOk result (λ filter. filter ≡ (read node.now).filter) }
{
    match &node.value {
        Value::Flag(flag) => Ok(Filter::Flag(*flag)),
        Value::Text(bytes) => Ok(Filter::Text(build_text(alloc, bytes.as_slice())?)),
        Value::Ident(variable) => Ok(Filter::Var(copy_variable(alloc, variable)?)),
        Value::Group(nodes) => match nodes.as_slice() {
            [only] => build_filter(alloc, only),
            _ => unreachable!(),
        },
        Value::Not(part) => Ok(Filter::Not(build_boxed(alloc, part.get())?)),
        Value::Defined(part) => Ok(Filter::Defined(build_boxed(alloc, part.get())?)),
        Value::Rel(op, left, right) => {
            let left = build_boxed(alloc, left.get())?;
            Ok(Filter::Rel(*op, left, build_boxed(alloc, right.get())?))
        }
        Value::And(nodes) => Ok(Filter::And(build_filters(alloc, nodes.as_slice())?)),
        Value::Or(nodes) => Ok(Filter::Or(build_filters(alloc, nodes.as_slice())?)),
        _ => unreachable!(),
    }
}

#[cycle(build_filter)]
fn build_boxed(alloc: Global, node: &Node) -> Result<Boxed<Filter>, OutOfMemory>
    requires { (judged node.now).filter ≡ None }
    ensures { IfOk result (λ filter. filter ≡ (read node.now).filter) }
{
    Ok(Boxed::new(alloc, build_filter(alloc, node)?)?)
}

#[cycle(build_filter)]
fn build_filters(alloc: Global, nodes: &[Node]) -> Result<Items<Filter>, OutOfMemory>
    requires { of_filters (map judged nodes.now) ≡ None }
    ensures { IfOk result (λ filters. filters ≡
        map (λ node. node.filter) (map read nodes.now)) }
{
    let mut filters = Items::new(alloc);
    for node in nodes {
        filters.push(build_filter(alloc, node)?)?;
    }
    Ok(filters)
}

#[cycle(build_braces)]
fn build_braces(alloc: Global, node: &Node) -> Result<Braces, OutOfMemory>
    requires { (judged node.now).braces ≡ None }
    ensures { IfOk result (λ braces. braces ≡ (read node.now).braces) }
{
    match &node.value {
        Value::PreRel(op, right) => Ok(Braces::Version(*op, build_filter(alloc, right.get())?)),
        Value::And(nodes) => Ok(Braces::And(build_all_braces(alloc, nodes.as_slice())?)),
        Value::Or(nodes) => Ok(Braces::Or(build_all_braces(alloc, nodes.as_slice())?)),
        Value::Group(nodes) => match nodes.as_slice() {
            [only] => build_braces(alloc, only),
            _ => unreachable!(),
        },
        _ => Ok(Braces::Filter(build_filter(alloc, node)?)),
    }
}

#[cycle(build_braces)]
fn build_all_braces(alloc: Global, nodes: &[Node]) -> Result<Items<Braces>, OutOfMemory>
    requires { of_braces (map judged nodes.now) ≡ None }
    ensures { IfOk result (λ braces. braces ≡ map (λ node. node.braces) (map read nodes.now)) }
{
    let mut braces = Items::new(alloc);
    for node in nodes {
        braces.push(build_braces(alloc, node)?)?;
    }
    Ok(braces)
}

// Of what stands before braces.
fn build_name_of(alloc: Global, node: &Node) -> Result<Name, OutOfMemory>
    requires { (judged node.now).name ≡ None }
    ensures { IfOk result (λ name. name ≡ (read node.now).name) }
{
    match &node.value {
        Value::Text(bytes) => build_name(alloc, bytes.as_slice()),
        _ => unreachable!(),
    }
}

#[cycle(build_formula)]
pub(crate) fn build_formula(alloc: Global, node: &Node) -> Result<Formula, OutOfMemory>
    requires { (judged node.now).formula ≡ None }
    ensures { IfOk result (λ formula. formula ≡ (read node.now).formula) }
{
    match &node.value {
        Value::Text(bytes) => {
            let name = build_name(alloc, bytes.as_slice())?;
            let braces = Braces::And(Items::new(alloc));
            Ok(Formula::Atom { name, braces })
        }
        Value::Braced(before, nodes) => {
            let name = build_name_of(alloc, before.get())?;
            let braces = Braces::And(build_all_braces(alloc, nodes.as_slice())?);
            Ok(Formula::Atom { name, braces })
        }
        Value::Group(nodes) => match nodes.as_slice() {
            [] => Ok(Formula::And(Items::new(alloc))),
            [only] => build_formula(alloc, only),
            several => Ok(Formula::And(build_formulas(alloc, several)?)),
        },
        Value::List(nodes) => Ok(Formula::And(build_formulas(alloc, nodes.as_slice())?)),
        Value::And(nodes) => Ok(Formula::And(build_formulas(alloc, nodes.as_slice())?)),
        Value::Or(nodes) => Ok(Formula::Or(build_formulas(alloc, nodes.as_slice())?)),
        _ => unreachable!(),
    }
}

#[cycle(build_formula)]
fn build_formulas(alloc: Global, nodes: &[Node]) -> Result<Items<Formula>, OutOfMemory>
    requires { of_formulas (map judged nodes.now) ≡ None }
    ensures { IfOk result (λ formulas. formulas ≡
        map (λ node. node.formula) (map read nodes.now)) }
{
    let mut formulas = Items::new(alloc);
    for node in nodes {
        formulas.push(build_formula(alloc, node)?)?;
    }
    Ok(formulas)
}
