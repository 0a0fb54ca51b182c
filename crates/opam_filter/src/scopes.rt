// The value of a variable: its own, or that of the same variable of several packages.
ghost use Rattle.std.specs.FinMap as map;
ghost use Rattle.std.specs.Prelude.{◌≡◌, IfOk, map};
ghost use Rattle.opam_filter.specs.Scopes.{all_in, enable_value, joined_value, scoped, value_at};
ghost use Rattle.opam_filter.specs.Truths.{truth_of};

use crate::copies::{plain, word_of};
use crate::parts::{are_joined, scope_parts};
use crate::truths::{both, known_truth, value_of};
use crate::{Truth, VarValue, Vars};
use opam_names::{OutOfMemory, Text};
use std::alloc::Global;
use syntax_trees::Var;

/// What a variable is.
pub fn value_at(alloc: Global, vars: &Vars, variable: &Var) -> Result<Option<VarValue>, OutOfMemory>
    ensures { IfOk result (λ value. value ≡ value_at vars.now variable.now) }
{
    let Some(scope) = &variable.scope else {
        return own_value(alloc, vars, variable);
    };
    let parts = scope_parts(alloc, scope.as_str())?;
    if are_joined(&parts) {
        joined_value(alloc, vars, &parts, variable.name.as_str())
    } else {
        own_value(alloc, vars, variable)
    }
}

// What the map has at a variable.
fn own_value(alloc: Global, vars: &Vars, variable: &Var) -> Result<Option<VarValue>, OutOfMemory>
    ensures { IfOk result (λ value. value ≡ map.get vars.now variable.now) }
{
    match vars.value(variable) {
        Some(value) => Ok(Some(value.copy(alloc)?)),
        None => Ok(None),
    }
}

// `enable` says whether all of the packages are installed.
fn joined_value(
    alloc: Global,
    vars: &Vars,
    parts: &[&str],
    name: &str,
) -> Result<Option<VarValue>, OutOfMemory>
    ensures { IfOk result (λ value. value ≡
        joined_value vars.now (map (λ part. part.now) parts.now) name.now) }
{
    if name == "enable" {
        enable_value(alloc, all_in(alloc, vars, "installed", parts)?)
    } else {
        Ok(value_of(all_in(alloc, vars, name, parts)?))
    }
}

fn enable_value(alloc: Global, truth: Truth) -> Result<Option<VarValue>, OutOfMemory>
    ensures { IfOk result (λ value. value ≡ enable_value truth) }
{
    let word = match truth {
        Truth::Yes => "enable",
        Truth::No => "disable",
        Truth::Undefined => return Ok(None),
    };
    Ok(Some(VarValue::Text(Text::from_str(alloc, word)?)))
}

// The `&` of the variables of this name with each part alone as scope.
#[tactic(auto, using(crate::proofs::Joining::both_again, crate::proofs::Joining::both_yes))]
fn all_in(alloc: Global, vars: &Vars, name: &str, parts: &[&str]) -> Result<Truth, OutOfMemory>
    ensures { IfOk result (λ truth. truth ≡
        all_in vars.now name.now (map (λ part. part.now) parts.now)) }
{
    let mut variable = plain(alloc, name)?;
    let mut truth = Truth::Yes;
    for part in parts {
        truth = both(truth, truth_in(alloc, vars, part, &mut variable)?);
    }
    Ok(truth)
}

// Of the variable with this scope in place of its own.
fn truth_in(
    alloc: Global,
    vars: &Vars,
    scope: &str,
    variable: &mut Var,
) -> Result<Truth, OutOfMemory>
    ensures truth { IfOk result (λ truth. truth ≡
        truth_of (map.get vars.now (scoped scope.now variable.old.name))) }
    ensures name { variable.new.name ≡ variable.old.name }
{
    variable.scope = Some(word_of(alloc, scope)?);
    match vars.value(variable) {
        Some(value) => Ok(known_truth(value)),
        None => Ok(Truth::Undefined),
    }
}
