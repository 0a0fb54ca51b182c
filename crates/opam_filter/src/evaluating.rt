// The values of filters.
ghost use Rattle.std.specs.Prelude.{◌≡◌, IfOk, map};
ghost use Rattle.opam_filter.specs.Truths.{all_of, any_of, truth_of};
ghost use Rattle.opam_filter.specs.Values.{filter_truth, filter_value};

use crate::expanding::expand;
use crate::scopes::value_at;
use crate::truths::{both, either, negated, related, truth_of, value_of};
use crate::{Filter, Truth, VarValue, Vars};
use opam_names::{OutOfMemory, Text};
use std::alloc::Global;

/// What a filter is as a truth (opam manual, filters).
pub fn eval(alloc: Global, filter: &Filter, vars: &Vars) -> Result<Truth, OutOfMemory>
    ensures { IfOk result (λ truth. truth ≡ filter_truth vars.now filter.now) }
{
    Ok(truth_of(&filter_value(alloc, filter, vars)?))
}

/// The value of a filter; None where it is undefined.
#[cycle(values)]
pub(crate) fn filter_value(
    alloc: Global,
    filter: &Filter,
    vars: &Vars,
) -> Result<Option<VarValue>, OutOfMemory>
    ensures { IfOk result (λ value. value ≡ filter_value vars.now filter.now) }
{
    match filter {
        Filter::Flag(flag) => Ok(Some(VarValue::Flag(*flag))),
        Filter::Text(text) => {
            let whole = Text::from_string(expand(alloc, text.as_str(), vars)?);
            Ok(Some(VarValue::Text(whole)))
        }
        Filter::Var(variable) => value_at(alloc, vars, variable),
        Filter::Rel(op, left, right) => {
            let left = filter_value(alloc, left.get(), vars)?;
            let right = filter_value(alloc, right.get(), vars)?;
            Ok(value_of(related(*op, &left, &right)))
        }
        Filter::Not(part) => {
            let part = filter_value(alloc, part.get(), vars)?;
            Ok(value_of(negated(truth_of(&part))))
        }
        Filter::Defined(part) => {
            let part = filter_value(alloc, part.get(), vars)?;
            Ok(Some(VarValue::Flag(part.is_some())))
        }
        Filter::And(parts) => Ok(value_of(all_of(alloc, parts.as_slice(), vars)?)),
        Filter::Or(parts) => Ok(value_of(any_of(alloc, parts.as_slice(), vars)?)),
    }
}

#[cycle(values)]
#[tactic(auto, using(crate::proofs::Joining::both_again, crate::proofs::Joining::both_yes))]
fn all_of(alloc: Global, parts: &[Filter], vars: &Vars) -> Result<Truth, OutOfMemory>
    ensures { IfOk result (λ truth. truth ≡
        all_of (map truth_of (map (filter_value vars.now) parts.now))) }
{
    let mut truth = Truth::Yes;
    for part in parts {
        truth = both(truth, truth_of(&filter_value(alloc, part, vars)?));
    }
    Ok(truth)
}

#[cycle(values)]
#[tactic(auto, using(crate::proofs::Joining::either_again, crate::proofs::Joining::either_no))]
fn any_of(alloc: Global, parts: &[Filter], vars: &Vars) -> Result<Truth, OutOfMemory>
    ensures { IfOk result (λ truth. truth ≡
        any_of (map truth_of (map (filter_value vars.now) parts.now))) }
{
    let mut truth = Truth::No;
    for part in parts {
        truth = either(truth, truth_of(&filter_value(alloc, part, vars)?));
    }
    Ok(truth)
}
