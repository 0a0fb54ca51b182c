// What a value is, without looking into its parts.
ghost use Rattle.std.specs.Option.{option_copied};
ghost use Rattle.std.specs.Prelude.{◌≡◌};
ghost use Rattle.opam_package.specs.Views as views;

use std::slice;
use syntax_trees::{Node, Value, Var};

/// The bytes of a text.
pub(crate) fn text_in(node: &Node) -> Option<&[u8]>
    ensures { option_copied result ≡ views.text_in node.now }
{
    match &node.value {
        Value::Text(bytes) => Some(bytes.as_slice()),
        _ => None,
    }
}

pub(crate) fn variable_in(node: &Node) -> Option<&Var>
    ensures { option_copied result ≡ views.variable_in node.now }
{
    match &node.value {
        Value::Ident(variable) => Some(variable),
        _ => None,
    }
}

/// The values of a list.
pub(crate) fn list_in(node: &Node) -> Option<&[Node]>
    ensures { option_copied result ≡ views.list_in node.now }
{
    match &node.value {
        Value::List(nodes) => Some(nodes.as_slice()),
        _ => None,
    }
}

/// What stands in braces after a value.
pub(crate) fn braces_in(node: &Node) -> Option<&[Node]>
    ensures { option_copied result ≡ views.braces_in node.now }
{
    match &node.value {
        Value::Braced(_, nodes) => Some(nodes.as_slice()),
        _ => None,
    }
}

/// The value without its braces.
pub(crate) fn bare(node: &Node) -> &Node
    ensures { result.now ≡ views.bare node.now }
{
    match &node.value {
        Value::Braced(before, _) => before.get(),
        _ => node,
    }
}

pub(crate) fn is_list(node: &Node) -> bool
    ensures { result ≡ views.is_list node.now }
{
    list_in(node).is_some()
}

/// The values of a list, or the one value.
pub(crate) fn values_of(node: &Node) -> &[Node]
    ensures { result.now ≡ views.values_of node.now }
{
    match list_in(node) {
        Some(nodes) => nodes,
        None => slice::from_ref(node),
    }
}
