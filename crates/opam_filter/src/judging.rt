// The first fault of a node, for each place in which it may stand.
ghost use Rattle.std.specs.Prelude.{◌≡◌, map};
ghost use Rattle.opam_filter.specs.Faults as faults;
ghost use Rattle.opam_filter.specs.Faults.{judged};

use crate::FilterFault;
use crate::earlier::earlier;
use crate::text_tests::is_text;
use opam_names::Name;
use syntax_trees::{Node, Span, Value};

fn no_filter(parts: Option<FilterFault>, span: Span) -> Option<FilterFault>
    ensures { result ≡ faults.no_filter parts span }
{
    earlier(parts, Some(FilterFault::NotAFilter { span }))
}

fn text_fault(bytes: &[u8], span: Span) -> Option<FilterFault>
    ensures { result ≡ faults.text_fault bytes.now span }
{
    if is_text(bytes) {
        None
    } else {
        Some(FilterFault::NotText { span })
    }
}

fn name_text_fault(bytes: &[u8], span: Span) -> Option<FilterFault>
    ensures { result ≡ faults.name_fault bytes.now span }
{
    if Name::is_name(bytes) {
        None
    } else {
        Some(FilterFault::BadName { span })
    }
}

/// The first fault of a node as a filter (opam manual, filters).
#[cycle(judge)]
pub fn filter_fault(node: &Node) -> Option<FilterFault>
    ensures { result ≡ (judged node.now).filter }
{
    match &node.value {
        Value::Flag(_) | Value::Ident(_) => None,
        Value::Int(_) => Some(FilterFault::NotAFilter { span: node.span }),
        Value::Text(bytes) => text_fault(bytes.as_slice(), node.span),
        Value::List(nodes) => no_filter(filters_fault(nodes.as_slice()), node.span),
        Value::Group(nodes) => match nodes.as_slice() {
            [] => Some(FilterFault::NotAFilter { span: node.span }),
            [only] => filter_fault(only),
            several => no_filter(filters_fault(several), node.span),
        },
        Value::Braced(before, nodes) => {
            let parts = earlier(filter_fault(before.get()), filters_fault(nodes.as_slice()));
            no_filter(parts, node.span)
        }
        Value::Not(part) | Value::Defined(part) => filter_fault(part.get()),
        Value::Rel(_, left, right) => earlier(side_fault(left.get()), side_fault(right.get())),
        Value::PreRel(_, right) => no_filter(filter_fault(right.get()), node.span),
        Value::And(nodes) | Value::Or(nodes) => filters_fault(nodes.as_slice()),
        Value::Env(_, left, right) => {
            let parts = earlier(filter_fault(left.get()), filter_fault(right.get()));
            no_filter(parts, node.span)
        }
    }
}

// Of a side of a relation.
#[cycle(judge)]
fn side_fault(node: &Node) -> Option<FilterFault>
    ensures { result ≡ (judged node.now).side }
{
    match &node.value {
        Value::Flag(_) | Value::Ident(_) => None,
        Value::Int(_) => Some(FilterFault::NotAFilter { span: node.span }),
        Value::Text(bytes) => text_fault(bytes.as_slice(), node.span),
        Value::List(nodes) | Value::Group(nodes) | Value::And(nodes) | Value::Or(nodes) => {
            no_filter(filters_fault(nodes.as_slice()), node.span)
        }
        Value::Braced(before, nodes) => {
            let parts = earlier(filter_fault(before.get()), filters_fault(nodes.as_slice()));
            no_filter(parts, node.span)
        }
        Value::Not(part) | Value::Defined(part) | Value::PreRel(_, part) => {
            no_filter(filter_fault(part.get()), node.span)
        }
        Value::Rel(_, left, right) => {
            let parts = earlier(side_fault(left.get()), side_fault(right.get()));
            no_filter(parts, node.span)
        }
        Value::Env(_, left, right) => {
            let parts = earlier(filter_fault(left.get()), filter_fault(right.get()));
            no_filter(parts, node.span)
        }
    }
}

#[cycle(judge)]
fn filters_fault(nodes: &[Node]) -> Option<FilterFault>
    ensures { result ≡ faults.of_filters (map judged nodes.now) }
{
    let mut first = None;
    for node in nodes {
        first = earlier(first, filter_fault(node));
    }
    first
}

// Whether it has a constraint on the version anywhere in it.
#[cycle(constrain)]
fn constrains(node: &Node) -> bool
    ensures { result ≡ (judged node.now).constrains }
{
    match &node.value {
        Value::Flag(_) | Value::Int(_) | Value::Text(_) | Value::Ident(_) => false,
        Value::List(nodes) | Value::Group(nodes) | Value::And(nodes) | Value::Or(nodes) => {
            some_constrains(nodes.as_slice())
        }
        Value::Braced(before, nodes) => {
            constrains(before.get()) || some_constrains(nodes.as_slice())
        }
        Value::Not(part) | Value::Defined(part) => constrains(part.get()),
        Value::PreRel(_, _) => true,
        Value::Rel(_, left, right) | Value::Env(_, left, right) => {
            constrains(left.get()) || constrains(right.get())
        }
    }
}

#[cycle(constrain)]
fn some_constrains(nodes: &[Node]) -> bool
    ensures { result ≡ faults.some_constrains (map judged nodes.now) }
{
    for node in nodes {
        if constrains(node) {
            return true;
        }
    }
    false
}

// Of the right side of a constraint on the version.
fn version_fault(node: &Node) -> Option<FilterFault>
    ensures { result ≡ (judged node.now).version }
{
    match &node.value {
        Value::Text(bytes) => text_fault(bytes.as_slice(), node.span),
        Value::Ident(_) => None,
        _ => Some(FilterFault::NotAFormula { span: node.span }),
    }
}

// Of a value in braces.
#[cycle(brace)]
fn braces_fault(node: &Node) -> Option<FilterFault>
    ensures { result ≡ (judged node.now).braces }
{
    match &node.value {
        Value::PreRel(_, right) => version_fault(right.get()),
        Value::And(nodes) | Value::Or(nodes) => all_braces_fault(nodes.as_slice()),
        Value::Group(nodes) => match nodes.as_slice() {
            [] => Some(FilterFault::NotAFilter { span: node.span }),
            [only] => braces_fault(only),
            several => no_filter(filters_fault(several), node.span),
        },
        Value::Not(part) | Value::Defined(part) => negation_fault(part.get(), node.span),
        _ => filter_fault(node),
    }
}

#[cycle(brace)]
fn all_braces_fault(nodes: &[Node]) -> Option<FilterFault>
    ensures { result ≡ faults.of_braces (map judged nodes.now) }
{
    let mut first = None;
    for node in nodes {
        first = earlier(first, braces_fault(node));
    }
    first
}

// Of what stands under `!` or `?` in braces.
#[cycle(brace)]
fn negation_fault(node: &Node, span: Span) -> Option<FilterFault>
    ensures { result ≡ faults.negation (judged node.now) span }
{
    let over = if constrains(node) {
        Some(FilterFault::NegatedVersion { span })
    } else {
        None
    };
    earlier(over, braces_fault(node))
}

// Of what stands before braces.
fn name_fault(node: &Node) -> Option<FilterFault>
    ensures { result ≡ (judged node.now).name }
{
    match &node.value {
        Value::Text(bytes) => name_text_fault(bytes.as_slice(), node.span),
        _ => Some(FilterFault::NotAFormula { span: node.span }),
    }
}

/// The first fault of a node as a formula (opam manual, package formulas).
#[cycle(formula)]
pub fn formula_fault(node: &Node) -> Option<FilterFault>
    ensures { result ≡ (judged node.now).formula }
{
    match &node.value {
        Value::Text(bytes) => name_text_fault(bytes.as_slice(), node.span),
        Value::Braced(before, nodes) => {
            earlier(name_fault(before.get()), all_braces_fault(nodes.as_slice()))
        }
        Value::List(nodes) | Value::Group(nodes) | Value::And(nodes) | Value::Or(nodes) => {
            formulas_fault(nodes.as_slice())
        }
        _ => Some(FilterFault::NotAFormula { span: node.span }),
    }
}

#[cycle(formula)]
fn formulas_fault(nodes: &[Node]) -> Option<FilterFault>
    ensures { result ≡ faults.of_formulas (map judged nodes.now) }
{
    let mut first = None;
    for node in nodes {
        first = earlier(first, formula_fault(node));
    }
    first
}
