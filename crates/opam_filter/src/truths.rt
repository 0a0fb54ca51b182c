// Truths of three values, and what a value is as a truth.
ghost use Rattle.std.specs.Prelude.{◌≡◌};
ghost use Rattle.opam_filter.specs.Truths.{both, either, is_related, is_yes, negated, related, truth_of, truth_of_flag, truth_of_text, value_of, word_of};

use crate::{RelOp, Truth, VarValue};
use opam_names::text_order;
use std::cmp::Ordering;

pub(crate) fn both(one: Truth, other: Truth) -> Truth
    ensures { result ≡ both one other }
{
    match (one, other) {
        (Truth::No, _) | (_, Truth::No) => Truth::No,
        (Truth::Yes, Truth::Yes) => Truth::Yes,
        _ => Truth::Undefined,
    }
}

pub(crate) fn either(one: Truth, other: Truth) -> Truth
    ensures { result ≡ either one other }
{
    match (one, other) {
        (Truth::Yes, _) | (_, Truth::Yes) => Truth::Yes,
        (Truth::No, Truth::No) => Truth::No,
        _ => Truth::Undefined,
    }
}

pub(crate) fn negated(truth: Truth) -> Truth
    ensures { result ≡ negated truth }
{
    match truth {
        Truth::Yes => Truth::No,
        Truth::No => Truth::Yes,
        Truth::Undefined => Truth::Undefined,
    }
}

pub(crate) fn is_yes(truth: Truth) -> bool
    ensures { result ≡ is_yes truth }
{
    matches!(truth, Truth::Yes)
}

pub(crate) fn truth_of_flag(flag: bool) -> Truth
    ensures { result ≡ truth_of_flag flag }
{
    if flag { Truth::Yes } else { Truth::No }
}

fn truth_of_text(text: &str) -> Truth
    ensures { result ≡ truth_of_text text.now }
{
    if text == "true" {
        Truth::Yes
    } else if text == "false" {
        Truth::No
    } else {
        Truth::Undefined
    }
}

// What a value is as a truth, where there is one.
pub(crate) fn known_truth(value: &VarValue) -> Truth
    ensures { result ≡ truth_of (Some value.now) }
{
    match value {
        VarValue::Flag(flag) => truth_of_flag(*flag),
        VarValue::Text(text) => truth_of_text(text.as_str()),
    }
}

pub(crate) fn truth_of(value: &Option<VarValue>) -> Truth
    ensures { result ≡ truth_of value.now }
{
    match value {
        Some(value) => known_truth(value),
        None => Truth::Undefined,
    }
}

pub(crate) fn value_of(truth: Truth) -> Option<VarValue>
    ensures { result ≡ value_of truth }
{
    match truth {
        Truth::Yes => Some(VarValue::Flag(true)),
        Truth::No => Some(VarValue::Flag(false)),
        Truth::Undefined => None,
    }
}

pub(crate) fn word_of(value: &VarValue) -> &str
    ensures { result.now ≡ word_of value.now }
{
    match value {
        VarValue::Flag(true) => "true",
        VarValue::Flag(false) => "false",
        VarValue::Text(text) => text.as_str(),
    }
}

pub(crate) fn is_related(op: RelOp, order: Ordering) -> bool
    ensures { result ≡ is_related op order }
{
    match op {
        RelOp::Eq => order == Ordering::Equal,
        RelOp::Ne => order != Ordering::Equal,
        RelOp::Lt => order == Ordering::Less,
        RelOp::Le => order != Ordering::Greater,
        RelOp::Gt => order == Ordering::Greater,
        RelOp::Ge => order != Ordering::Less,
    }
}

/// Where a side is undefined, so is the relation.
pub(crate) fn related(op: RelOp, left: &Option<VarValue>, right: &Option<VarValue>) -> Truth
    ensures { result ≡ related op left.now right.now }
{
    match (left, right) {
        (Some(left), Some(right)) => {
            truth_of_flag(is_related(op, text_order(word_of(left), word_of(right))))
        }
        _ => Truth::Undefined,
    }
}
