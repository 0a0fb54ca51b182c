// Filters and formulas of nodes.
ghost use Rattle.std.specs.Prelude.{◌≡◌, IfOk, IfErr, OnOk};
ghost use Rattle.opam_filter.specs.Faults.{IsFaultOf, judged};
ghost use Rattle.opam_filter.specs.Trees.{read};

use crate::building::{build_filter, build_formula};
use crate::judging::{filter_fault, formula_fault};
use crate::{Filter, FilterFault, Formula};
use std::alloc::Global;
use syntax_trees::Node;

/// The filter that a node is, or the first of its faults (opam manual, filters).
pub fn read_filter(alloc: Global, node: &Node) -> Result<Filter, FilterFault>
    ensures ok { IfOk result (λ filter. filter ≡ (read node.now).filter) }
    ensures sound { OnOk result ((judged node.now).filter ≡ None) }
    ensures err { IfErr result (λ fault. IsFaultOf (judged node.now).filter fault) }
{
    match filter_fault(node) {
        Some(fault) => Err(fault),
        None => Ok(build_filter(alloc, node)?),
    }
}

/// The formula that a node is, or the first of its faults (opam manual, package formulas).
pub fn read_formula(alloc: Global, node: &Node) -> Result<Formula, FilterFault>
    ensures ok { IfOk result (λ formula. formula ≡ (read node.now).formula) }
    ensures sound { OnOk result ((judged node.now).formula ≡ None) }
    ensures err { IfErr result (λ fault. IsFaultOf (judged node.now).formula fault) }
{
    match formula_fault(node) {
        Some(fault) => Err(fault),
        None => Ok(build_formula(alloc, node)?),
    }
}
