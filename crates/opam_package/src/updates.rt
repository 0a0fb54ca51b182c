// Updates of the environment of nodes that have no fault.
ghost use Rattle.std.specs.Prelude.{[], ◌≡◌, IfOk, map};
ghost use Rattle.std.specs.List.{flat_map};
ghost use Rattle.opam_package.specs.Forms.{text_of};
ghost use Rattle.opam_package.specs.Updates as updates;
ghost use Rattle.opam_package.specs.Views.{variable_in};

use crate::EnvUpdate;
use crate::texts::build_text;
use crate::update_faults::begins_with_list;
use crate::views::{list_in, text_in, variable_in};
use opam_names::{Items, OutOfMemory, Text};
use std::alloc::Global;
use syntax_trees::{EnvOp, Node, Span, Value};

// The name on the left side.
fn build_target(alloc: Global, node: &Node) -> Result<Text, OutOfMemory>
    requires { updates.target_faults node.now ≡ [] }
    ensures { IfOk result (λ name. name ≡ updates.target_name (variable_in node.now)) }
{
    match variable_in(node) {
        None => unreachable!(),
        Some(variable) => Text::from_str(alloc, variable.name.as_str()),
    }
}

// The text on the right side.
fn build_given(alloc: Global, node: &Node, whole: Span) -> Result<Text, OutOfMemory>
    requires { updates.given_faults node.now whole ≡ [] }
    ensures { IfOk result (λ value. value ≡ text_of node.now) }
{
    match text_in(node) {
        None => unreachable!(),
        Some(_) => build_text(alloc, node),
    }
}

fn build_sides(
    alloc: Global,
    op: EnvOp,
    left: &Node,
    right: &Node,
    whole: Span,
) -> Result<EnvUpdate, OutOfMemory>
    requires { updates.sides_faults left.now right.now whole ≡ [] }
    ensures { IfOk result (λ update. update ≡ updates.update_with op left.now right.now) }
{
    Ok(EnvUpdate {
        name: build_target(alloc, left)?,
        op,
        value: build_given(alloc, right, whole)?,
    })
}

fn build_update(alloc: Global, node: &Node) -> Result<EnvUpdate, OutOfMemory>
    requires { updates.update_faults node.now ≡ [] }
    ensures { IfOk result (λ update. update ≡ updates.update_of node.now) }
{
    match &node.value {
        Value::Rel(_, left, right) => {
            build_sides(alloc, EnvOp::Set, left.get(), right.get(), node.span)
        }
        Value::Env(op, left, right) => {
            build_sides(alloc, *op, left.get(), right.get(), node.span)
        }
        _ => unreachable!(),
    }
}

fn build_update_list(alloc: Global, nodes: &[Node]) -> Result<Items<EnvUpdate>, OutOfMemory>
    requires { flat_map updates.update_faults nodes.now ≡ [] }
    ensures { IfOk result (λ all. all ≡ map updates.update_of nodes.now) }
{
    let mut all = Items::new(alloc);
    for node in nodes {
        all.push(build_update(alloc, node)?)?;
    }
    Ok(all)
}

// A list of one update.
fn build_lone(alloc: Global, node: &Node) -> Result<EnvUpdate, OutOfMemory>
    requires { updates.lone_faults node.now ≡ [] }
    ensures { IfOk result (λ update. update ≡ updates.lone_update node.now) }
{
    match list_in(node) {
        Some([only]) => build_update(alloc, only),
        _ => unreachable!(),
    }
}

fn build_lone_list(alloc: Global, nodes: &[Node]) -> Result<Items<EnvUpdate>, OutOfMemory>
    requires { flat_map updates.lone_faults nodes.now ≡ [] }
    ensures { IfOk result (λ all. all ≡ map updates.lone_update nodes.now) }
{
    let mut all = Items::new(alloc);
    for node in nodes {
        all.push(build_lone(alloc, node)?)?;
    }
    Ok(all)
}

fn build_listed(alloc: Global, nodes: &[Node]) -> Result<Items<EnvUpdate>, OutOfMemory>
    requires { updates.listed_faults nodes.now ≡ [] }
    ensures { IfOk result (λ all. all ≡ updates.listed_updates nodes.now) }
{
    if begins_with_list(nodes) {
        build_lone_list(alloc, nodes)
    } else {
        build_update_list(alloc, nodes)
    }
}

/// One update, or a list.
pub(crate) fn build_updates(alloc: Global, node: &Node) -> Result<Items<EnvUpdate>, OutOfMemory>
    requires { updates.updates_faults node.now ≡ [] }
    ensures { IfOk result (λ all. all ≡ updates.updates_of node.now) }
{
    match list_in(node) {
        Some(nodes) => build_listed(alloc, nodes),
        None => {
            let mut all = Items::new(alloc);
            all.push(build_update(alloc, node)?)?;
            Ok(all)
        }
    }
}
