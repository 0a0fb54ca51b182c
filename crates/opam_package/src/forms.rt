// The forms of values that several fields have: texts, lists of them, filters, formulas.
ghost use Rattle.std.specs.Option.{option_copied};
ghost use Rattle.std.specs.Prelude.{◌≡◌};
ghost use Rattle.std.specs.List.{flat_map, list_all};
ghost use Rattle.opam_names.specs.Paths.{is_not_zero};
ghost use Rattle.opam_package.specs.Forms as forms;
ghost use Rattle.opam_package.specs.PackageFaults.{first_fault};

use crate::PackageFault;
use crate::sooner::{inner_fault, sooner};
use crate::views::{text_in, values_of};
use opam_filter::{filter_fault, formula_fault};
use syntax_trees::{Node, Span};

fn has_no_zero(bytes: &[u8]) -> bool
    ensures { result ≡ list_all is_not_zero bytes.now }
{
    bytes.iter().all(|byte| *byte != 0)
}

/// Bytes as a text.
pub(crate) fn text_of_bytes(bytes: &[u8]) -> Option<&str>
    ensures { option_copied result ≡ forms.text_of_bytes bytes.now }
{
    if !has_no_zero(bytes) {
        return None;
    }
    match str::from_utf8(bytes) {
        Ok(text) => Some(text),
        Err(_) => None,
    }
}

pub(crate) fn bytes_fault(bytes: &[u8], span: Span) -> Option<PackageFault>
    ensures { result ≡ first_fault (forms.bytes_faults bytes.now span) }
{
    match text_of_bytes(bytes) {
        Some(_) => None,
        None => Some(PackageFault::NotText { span }),
    }
}

pub(crate) fn text_fault(node: &Node) -> Option<PackageFault>
    ensures { result ≡ first_fault (forms.text_faults node.now) }
{
    match text_in(node) {
        Some(bytes) => bytes_fault(bytes, node.span),
        None => Some(PackageFault::WrongKind { span: node.span }),
    }
}

/// One text, or a list of texts.
#[tactic(auto, using(crate::proofs::FirstFaults::first_with_next))]
pub(crate) fn texts_fault(node: &Node) -> Option<PackageFault>
    ensures { result ≡ first_fault (forms.texts_faults node.now) }
{
    let values = values_of(node);
    let mut first = None;
    for value in values {
        first = sooner(first, text_fault(value));
    }
    first
}

/// The first fault of a filter.
pub(crate) fn inner_filter_fault(node: &Node) -> Option<PackageFault>
    ensures { result ≡ first_fault (forms.filter_faults node.now) }
{
    inner_fault(filter_fault(node))
}

/// The first fault of a formula.
pub(crate) fn inner_formula_fault(node: &Node) -> Option<PackageFault>
    ensures { result ≡ first_fault (forms.formula_faults node.now) }
{
    inner_fault(formula_fault(node))
}

/// One formula, or a list of them.
#[tactic(auto, using(crate::proofs::FirstFaults::first_with_next))]
pub(crate) fn formulas_fault(node: &Node) -> Option<PackageFault>
    ensures { result ≡ first_fault (forms.formulas_faults node.now) }
{
    let values = values_of(node);
    let mut first = None;
    for value in values {
        first = sooner(first, inner_formula_fault(value));
    }
    first
}
