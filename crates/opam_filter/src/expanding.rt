// Texts with their variables replaced.
ghost use Rattle.std.specs.Prelude.{◌≡◌, IfOk, if◌then◌else◌, string_bytes};
ghost use Rattle.std.specs.List.{after_first, list_any};
ghost use Rattle.opam_filter.specs.Texts.{chosen, expanded, filled, is_question, shown};
ghost use Rattle.opam_filter.specs.Truths.{is_yes, truth_of};

use crate::scopes::value_at;
use crate::texts::{asked_for, first_hole};
use crate::truths::{is_yes, truth_of, word_of};
use crate::{VarValue, Vars};
use opam_names::OutOfMemory;
use std::alloc::Global;

/// A text with each interpolation replaced. What is written in place of one is not looked at again.
pub fn expand(alloc: Global, text: &str, vars: &Vars) -> Result<String, OutOfMemory>
    ensures { IfOk result (λ whole. string_bytes whole ≡ expanded vars.now text.now) }
{
    let mut whole = String::new(alloc);
    let mut rest = text;
    while let Some(hole) = first_hole(rest) {
        whole.push_str(hole.before)?;
        whole.push_str(filled(alloc, hole.inside, vars)?.as_str())?;
        rest = hole.after;
    }
    whole.push_str(rest)?;
    Ok(whole)
}

// What stands for an interpolation.
fn filled(alloc: Global, inside: &str, vars: &Vars) -> Result<String, OutOfMemory>
    ensures { IfOk result (λ written. string_bytes written ≡ filled vars.now inside.now) }
{
    let value = value_at(alloc, vars, &asked_for(alloc, inside)?)?;
    Ok(String::from_str(alloc, written(&value, inside))?)
}

// What stands for an interpolation whose variable has this value.
fn written<'a>(value: &'a Option<VarValue>, inside: &'a str) -> &'a str
    ensures { result.now ≡ (if list_any is_question inside.now
        then chosen (is_yes (truth_of value.now)) (after_first is_question inside.now)
        else shown value.now) }
{
    match inside.split_once('?') {
        Some((_, choice)) => chosen(is_yes(truth_of(value)), choice),
        None => shown(value),
    }
}

// An undefined value is the empty text.
fn shown(value: &Option<VarValue>) -> &str
    ensures { result.now ≡ shown value.now }
{
    match value {
        Some(value) => word_of(value),
        None => "",
    }
}

// The first text, or what stands after the first `:`.
fn chosen(first: bool, choice: &str) -> &str
    ensures { result.now ≡ chosen first choice.now }
{
    let (yes, no) = choice.split_once(':').unwrap_or((choice, ""));
    if first { yes } else { no }
}
