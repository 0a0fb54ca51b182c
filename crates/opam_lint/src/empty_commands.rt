// Lists without values among commands.
ghost use Rattle.std.specs.List.{flat_map};
ghost use Rattle.std.specs.Prelude.{◌≡◌, ◌++◌, OnOk};
ghost use Rattle.opam_package.specs.Views.{outside};
ghost use Rattle.opam_lint.specs.EmptyCommands as commands;

use crate::{Finding, Problem};
use opam_names::OutOfMemory;
use syntax_trees::{Node, Value};

// A list without values.
fn add_own(node: &Node, findings: &mut Vec<Finding>) -> Result<(), OutOfMemory>
    ensures { OnOk result (findings.new.items ≡ findings.old.items
        ++ commands.own_empty (outside node.now) node.now.span) }
{
    match &node.value {
        Value::List(nodes) if nodes.is_empty() => {
            findings.push(Finding {
                code: 24,
                at: node.span.start,
                problem: Problem::EmptyCommand,
            })?;
            Ok(())
        }
        _ => Ok(()),
    }
}

// Those in a value, itself among them.
#[cycle(empties)]
fn add_empties(node: &Node, findings: &mut Vec<Finding>) -> Result<(), OutOfMemory>
    ensures { OnOk result (findings.new.items ≡ findings.old.items ++ commands.empties node.now) }
{
    add_own(node, findings)?;
    add_inside(node, findings)
}

/// Adds those inside a value, itself aside.
#[cycle(empties)]
pub(crate) fn add_inside(node: &Node, findings: &mut Vec<Finding>) -> Result<(), OutOfMemory>
    ensures { OnOk result (findings.new.items
        ≡ findings.old.items ++ commands.empty_commands node.now) }
{
    match &node.value {
        Value::Flag(_) | Value::Int(_) | Value::Text(_) | Value::Ident(_) => Ok(()),
        Value::List(nodes) | Value::Group(nodes) | Value::And(nodes) | Value::Or(nodes) => {
            add_all(nodes.as_slice(), findings)
        }
        Value::Braced(before, nodes) => {
            add_empties(before.get(), findings)?;
            add_all(nodes.as_slice(), findings)
        }
        Value::Not(part) | Value::Defined(part) | Value::PreRel(_, part) => {
            add_empties(part.get(), findings)
        }
        Value::Rel(_, left, right) | Value::Env(_, left, right) => {
            add_empties(left.get(), findings)?;
            add_empties(right.get(), findings)
        }
    }
}

#[cycle(empties)]
fn add_all(nodes: &[Node], findings: &mut Vec<Finding>) -> Result<(), OutOfMemory>
    ensures { OnOk result (findings.new.items
        ≡ findings.old.items ++ flat_map commands.empties nodes.now) }
{
    for node in nodes {
        add_empties(node, findings)?;
    }
    Ok(())
}
