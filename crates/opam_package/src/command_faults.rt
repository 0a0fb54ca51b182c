// What is wrong with commands.
ghost use Rattle.std.specs.Option.{option_copied};
ghost use Rattle.std.specs.Prelude.{◌≡◌, slice_get};
ghost use Rattle.std.specs.List.{flat_map};
ghost use Rattle.opam_package.specs.Commands as commands;
ghost use Rattle.opam_package.specs.PackageFaults.{first_fault};

use crate::PackageFault;
use crate::forms::{bytes_fault, inner_filter_fault};
use crate::limits::COMMAND_LIMIT;
use crate::sooner::sooner;
use crate::views::{bare, braces_in, is_list, list_in, text_in, variable_in};
use std::slice;
use syntax_trees::{Node, Span};

// Braces hold one filter; a value need not have them.
fn braces_fault(braces: Option<&[Node]>, span: Span) -> Option<PackageFault>
    ensures { result ≡ first_fault (commands.braces_faults (option_copied braces.entry) span) }
{
    match braces {
        None => None,
        Some([only]) => inner_filter_fault(only),
        Some(_) => Some(PackageFault::WrongKind { span }),
    }
}

// A text or a variable.
fn word_fault(node: &Node) -> Option<PackageFault>
    ensures { result ≡ first_fault (commands.word_faults node.now) }
{
    match text_in(node) {
        Some(bytes) => bytes_fault(bytes, node.span),
        None => match variable_in(node) {
            Some(_) => None,
            None => Some(PackageFault::WrongKind { span: node.span }),
        },
    }
}

#[tactic(auto, using(crate::proofs::FirstFaults::first_of_both))]
fn arg_fault(node: &Node) -> Option<PackageFault>
    ensures { result ≡ first_fault (commands.arg_faults node.now) }
{
    let word = word_fault(bare(node));
    sooner(word, braces_fault(braces_in(node), node.span))
}

#[tactic(auto, using(crate::proofs::FirstFaults::first_with_next))]
fn arg_list_fault(nodes: &[Node]) -> Option<PackageFault>
    ensures { result ≡ first_fault (flat_map commands.arg_faults nodes.now) }
{
    let mut first = None;
    for node in nodes {
        first = sooner(first, arg_fault(node));
    }
    first
}

// A list of arguments.
fn args_fault(node: &Node) -> Option<PackageFault>
    ensures { result ≡ first_fault (commands.args_faults node.now) }
{
    match list_in(node) {
        Some(nodes) => arg_list_fault(nodes),
        None => Some(PackageFault::WrongKind { span: node.span }),
    }
}

#[tactic(auto, using(crate::proofs::FirstFaults::first_of_both))]
fn command_fault(node: &Node) -> Option<PackageFault>
    ensures { result ≡ first_fault (commands.command_faults node.now) }
{
    let args = args_fault(bare(node));
    sooner(args, braces_fault(braces_in(node), node.span))
}

#[tactic(auto, using(crate::proofs::FirstFaults::first_with_next))]
fn command_list_fault(nodes: &[Node]) -> Option<PackageFault>
    ensures { result ≡ first_fault (flat_map commands.command_faults nodes.now) }
{
    let mut first = None;
    for node in nodes {
        first = sooner(first, command_fault(node));
    }
    first
}

// Whether the first of several values is a list, perhaps with braces.
fn begins_with_command(nodes: &[Node]) -> bool
    ensures { result ≡ commands.begins_with_command nodes.now }
{
    match nodes {
        [] => false,
        [first, ..] => is_list(bare(first)),
    }
}

/// The commands in a list of them; the empty list has none, and any other value is one command.
pub(crate) fn command_nodes(node: &Node) -> &[Node]
    ensures { result.now ≡ commands.command_nodes node.now }
{
    match list_in(node) {
        None => slice::from_ref(node),
        Some([]) => &[],
        Some(nodes) => {
            if begins_with_command(nodes) {
                nodes
            } else {
                slice::from_ref(node)
            }
        }
    }
}

fn holds_commands(nodes: Option<&[Node]>) -> bool
    ensures { result ≡ commands.holds_commands (option_copied nodes.entry) }
{
    match nodes {
        None => false,
        Some(nodes) => begins_with_command(nodes),
    }
}

// A list of commands has no braces of its own.
fn own_braces_fault(node: &Node) -> Option<PackageFault>
    ensures { result ≡ first_fault (commands.own_braces_faults node.now) }
{
    if braces_in(node).is_some() && holds_commands(list_in(bare(node))) {
        Some(PackageFault::WrongKind { span: node.span })
    } else {
        None
    }
}

fn too_many_fault(nodes: &[Node]) -> Option<PackageFault>
    ensures { result ≡ first_fault (commands.too_many_faults (slice_get nodes.now COMMAND_LIMIT)) }
{
    match nodes.get(COMMAND_LIMIT) {
        None => None,
        Some(node) => Some(PackageFault::TooMany { span: node.span }),
    }
}

/// The commands of a package.
#[tactic(auto, using(crate::proofs::FirstFaults::first_of_lists))]
pub(crate) fn commands_fault(node: &Node) -> Option<PackageFault>
    ensures { result ≡ first_fault (commands.commands_faults node.now) }
{
    let nodes = command_nodes(node);
    let first = sooner(own_braces_fault(node), command_list_fault(nodes));
    sooner(first, too_many_fault(nodes))
}
