// Commands of nodes that have no fault.
ghost use Rattle.std.specs.Option.{option_copied};
ghost use Rattle.std.specs.Prelude.{[], ◌≡◌, IfOk, map};
ghost use Rattle.std.specs.List.{flat_map};
ghost use Rattle.opam_filter.specs.Trees.{read};
ghost use Rattle.opam_package.specs.Commands as commands;
ghost use Rattle.opam_package.specs.Forms.{filter_faults};

use crate::command_faults::command_nodes;
use crate::copies::copy_variable;
use crate::texts::build_text;
use crate::views::{bare, braces_in, list_in, variable_in};
use crate::{Arg, Command, Word};
use opam_filter::{Filter, FilterFault, read_filter};
use opam_names::{Items, OutOfMemory};
use std::alloc::Global;
use syntax_trees::{Node, Span};

/// The filter that a node is.
pub(crate) fn build_filter(alloc: Global, node: &Node) -> Result<Filter, OutOfMemory>
    requires { filter_faults node.now ≡ [] }
    ensures { IfOk result (λ filter. filter ≡ (read node.now).filter) }
{
    match read_filter(alloc, node) {
        Ok(filter) => Ok(filter),
        Err(FilterFault::Memory) => Err(OutOfMemory),
        Err(_) => unreachable!(),
    }
}

// The filter in braces, where a value has them.
fn build_braces(
    alloc: Global,
    braces: Option<&[Node]>,
    span: Span,
) -> Result<Option<Filter>, OutOfMemory>
    requires { commands.braces_faults (option_copied braces) span ≡ [] }
    ensures { IfOk result (λ filter. filter ≡ commands.braces_filter (option_copied braces.entry)) }
{
    match braces {
        None => Ok(None),
        Some([only]) => Ok(Some(build_filter(alloc, only)?)),
        Some(_) => unreachable!(),
    }
}

// A text or a variable.
fn build_word(alloc: Global, node: &Node) -> Result<Word, OutOfMemory>
    requires { commands.word_faults node.now ≡ [] }
    ensures { IfOk result (λ word. word ≡ commands.word_of node.now) }
{
    match variable_in(node) {
        Some(variable) => Ok(Word::Var(copy_variable(alloc, variable)?)),
        None => Ok(Word::Text(build_text(alloc, node)?)),
    }
}

fn build_arg(alloc: Global, node: &Node) -> Result<Arg, OutOfMemory>
    requires { commands.arg_faults node.now ≡ [] }
    ensures { IfOk result (λ arg. arg ≡ commands.arg_of node.now) }
{
    let word = build_word(alloc, bare(node))?;
    let filter = build_braces(alloc, braces_in(node), node.span)?;
    Ok(Arg { word, filter })
}

fn build_arg_list(alloc: Global, nodes: &[Node]) -> Result<Items<Arg>, OutOfMemory>
    requires { flat_map commands.arg_faults nodes.now ≡ [] }
    ensures { IfOk result (λ args. args ≡ map commands.arg_of nodes.now) }
{
    let mut args = Items::new(alloc);
    for node in nodes {
        args.push(build_arg(alloc, node)?)?;
    }
    Ok(args)
}

// A list of arguments.
fn build_args(alloc: Global, node: &Node) -> Result<Items<Arg>, OutOfMemory>
    requires { commands.args_faults node.now ≡ [] }
    ensures { IfOk result (λ args. args ≡ commands.args_of node.now) }
{
    match list_in(node) {
        Some(nodes) => build_arg_list(alloc, nodes),
        None => unreachable!(),
    }
}

fn build_command(alloc: Global, node: &Node) -> Result<Command, OutOfMemory>
    requires { commands.command_faults node.now ≡ [] }
    ensures { IfOk result (λ command. command ≡ commands.command_of node.now) }
{
    let args = build_args(alloc, bare(node))?;
    let filter = build_braces(alloc, braces_in(node), node.span)?;
    Ok(Command { args, filter })
}

fn build_command_list(alloc: Global, nodes: &[Node]) -> Result<Items<Command>, OutOfMemory>
    requires { flat_map commands.command_faults nodes.now ≡ [] }
    ensures { IfOk result (λ all. all ≡ map commands.command_of nodes.now) }
{
    let mut all = Items::new(alloc);
    for node in nodes {
        all.push(build_command(alloc, node)?)?;
    }
    Ok(all)
}

/// The commands of a package.
pub(crate) fn build_commands(alloc: Global, node: &Node) -> Result<Items<Command>, OutOfMemory>
    requires { commands.commands_faults node.now ≡ [] }
    ensures { IfOk result (λ all. all ≡ commands.commands_of node.now) }
{
    build_command_list(alloc, command_nodes(node))
}
