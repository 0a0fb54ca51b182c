// What is wrong with updates of the environment.
ghost use Rattle.std.specs.Prelude.{◌≡◌};
ghost use Rattle.std.specs.List.{flat_map};
ghost use Rattle.opam_package.specs.Updates as updates;
ghost use Rattle.opam_package.specs.PackageFaults.{first_fault};

use crate::PackageFault;
use crate::forms::bytes_fault;
use crate::sooner::sooner;
use crate::views::{is_list, list_in, text_in, variable_in};
use opam_filter::RelOp;
use syntax_trees::{Node, Span, Value};

// On the left stands a variable without a scope.
fn target_fault(node: &Node) -> Option<PackageFault>
    ensures { result ≡ first_fault (updates.target_faults node.now) }
{
    match variable_in(node) {
        None => Some(PackageFault::WrongKind { span: node.span }),
        Some(variable) => match &variable.scope {
            None => None,
            Some(_) => Some(PackageFault::WrongKind { span: node.span }),
        },
    }
}

// Of the relations `=` alone is a sign of updates.
fn sign_fault(op: RelOp, span: Span) -> Option<PackageFault>
    ensures { result ≡ first_fault (updates.sign_faults op span) }
{
    match op {
        RelOp::Eq => None,
        _ => Some(PackageFault::EnvOperator { span }),
    }
}

// On the right stands a text; another value is told at the whole update.
fn given_fault(node: &Node, whole: Span) -> Option<PackageFault>
    ensures { result ≡ first_fault (updates.given_faults node.now whole) }
{
    match text_in(node) {
        None => Some(PackageFault::EnvOperator { span: whole }),
        Some(bytes) => bytes_fault(bytes, node.span),
    }
}

#[tactic(auto, using(crate::proofs::FirstFaults::first_of_lists))]
fn relation_fault(op: RelOp, left: &Node, right: &Node, span: Span) -> Option<PackageFault>
    ensures { result ≡ first_fault (updates.relation_faults op left.now right.now span) }
{
    let first = sooner(target_fault(left), sign_fault(op, span));
    sooner(first, given_fault(right, span))
}

#[tactic(auto, using(crate::proofs::FirstFaults::first_of_both))]
fn sides_fault(left: &Node, right: &Node, span: Span) -> Option<PackageFault>
    ensures { result ≡ first_fault (updates.sides_faults left.now right.now span) }
{
    sooner(target_fault(left), given_fault(right, span))
}

fn update_fault(node: &Node) -> Option<PackageFault>
    ensures { result ≡ first_fault (updates.update_faults node.now) }
{
    match &node.value {
        Value::Rel(op, left, right) => relation_fault(*op, left.get(), right.get(), node.span),
        Value::Env(_, left, right) => sides_fault(left.get(), right.get(), node.span),
        _ => Some(PackageFault::WrongKind { span: node.span }),
    }
}

#[tactic(auto, using(crate::proofs::FirstFaults::first_with_next))]
fn update_list_fault(nodes: &[Node]) -> Option<PackageFault>
    ensures { result ≡ first_fault (flat_map updates.update_faults nodes.now) }
{
    let mut first = None;
    for node in nodes {
        first = sooner(first, update_fault(node));
    }
    first
}

// A list of one update.
fn lone_fault(node: &Node) -> Option<PackageFault>
    ensures { result ≡ first_fault (updates.lone_faults node.now) }
{
    match list_in(node) {
        Some([only]) => update_fault(only),
        _ => Some(PackageFault::WrongKind { span: node.span }),
    }
}

#[tactic(auto, using(crate::proofs::FirstFaults::first_with_next))]
fn lone_list_fault(nodes: &[Node]) -> Option<PackageFault>
    ensures { result ≡ first_fault (flat_map updates.lone_faults nodes.now) }
{
    let mut first = None;
    for node in nodes {
        first = sooner(first, lone_fault(node));
    }
    first
}

/// Whether the first of several values is a list.
pub(crate) fn begins_with_list(nodes: &[Node]) -> bool
    ensures { result ≡ updates.begins_with_list nodes.now }
{
    match nodes {
        [] => false,
        [first, ..] => is_list(first),
    }
}

fn listed_fault(nodes: &[Node]) -> Option<PackageFault>
    ensures { result ≡ first_fault (updates.listed_faults nodes.now) }
{
    if begins_with_list(nodes) {
        lone_list_fault(nodes)
    } else {
        update_list_fault(nodes)
    }
}

/// One update, or a list.
pub(crate) fn updates_fault(node: &Node) -> Option<PackageFault>
    ensures { result ≡ first_fault (updates.updates_faults node.now) }
{
    match list_in(node) {
        None => update_fault(node),
        Some(nodes) => listed_fault(nodes),
    }
}
