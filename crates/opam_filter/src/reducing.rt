// What is left of a formula once its filters are answered.
ghost use Rattle.std.specs.Prelude.{◌≡◌, IfOk, filter, map};
ghost use Rattle.std.specs.Option.{option_copied, option_map};
ghost use Rattle.opam_filter.specs.Reductions.{counted, is_kept, is_left, is_met, layer_reduced, reduced, test_of, test_truth};
ghost use Rattle.opam_filter.specs.Truths.{all_of, any_of, word_of};
ghost use Rattle.opam_filter.specs.declared.formula.Formula.TheOpen.{Formula-F};
ghost use Rattle.opam_filter.specs.Values.{filter_value};

use crate::evaluating::{eval, filter_value};
use crate::truths::{both, either, is_related, is_yes, truth_of_flag, word_of};
use crate::{Braces, Filter, Formula, Reduced, RelOp, Test, Truth, Vars};
use opam_names::{Name, OutOfMemory, Text, text_order};
use sqlite_items::Items;
use std::alloc::Global;

/// What is left of a formula where variables have these values: each filter is answered, and the atoms whose braces are
/// not true, with every constraint on the version counted as true, are left out (opam manual, package formulas).
#[cycle(reduce)]
pub fn reduce(alloc: Global, formula: &Formula, vars: &Vars) -> Result<Reduced, OutOfMemory>
    ensures { IfOk result (λ left. left ≡ reduced vars.now formula.now) }
{
    match formula {
        Formula::Atom { name, braces } => reduce_atom(alloc, name, braces, vars),
        Formula::And(parts) => {
            let left = reduce_all(alloc, parts.as_slice(), vars)?;
            if left.is_empty() && !parts.is_empty() {
                return Ok(Reduced::Dropped);
            }
            Ok(Reduced::And(left))
        }
        Formula::Or(parts) => {
            let left = reduce_all(alloc, parts.as_slice(), vars)?;
            if left.is_empty() && !parts.is_empty() {
                return Ok(Reduced::Dropped);
            }
            Ok(Reduced::Or(left))
        }
    }
}

// The parts without those that are dropped.
#[cycle(reduce)]
fn reduce_all(alloc: Global, parts: &[Formula], vars: &Vars) -> Result<Items<Reduced>, OutOfMemory>
    ensures { IfOk result (λ left. left ≡ filter is_left (map (reduced vars.now) parts.now)) }
{
    let mut left = Items::new(alloc);
    for part in parts {
        let reduced = reduce(alloc, part, vars)?;
        if is_left(&reduced) {
            left.push(reduced)?;
        }
    }
    Ok(left)
}

fn is_left(reduced: &Reduced) -> bool
    ensures { result ≡ is_left reduced.now }
{
    !matches!(reduced, Reduced::Dropped)
}

fn reduce_atom(
    alloc: Global,
    name: &Name,
    braces: &Braces,
    vars: &Vars,
) -> Result<Reduced, OutOfMemory>
    ensures { IfOk result (λ left. left ≡
        layer_reduced vars.now (Formula-F.Atom name.now braces.now)) }
{
    let test = test_of(alloc, braces, vars)?;
    if !is_kept(&test) {
        return Ok(Reduced::Dropped);
    }
    Ok(Reduced::Atom {
        name: name.copy(alloc)?,
        test,
    })
}

// Braces with their filters and right sides answered.
#[cycle(braces)]
fn test_of(alloc: Global, braces: &Braces, vars: &Vars) -> Result<Test, OutOfMemory>
    ensures { IfOk result (λ test. test ≡ test_of vars.now braces.now) }
{
    match braces {
        Braces::Filter(filter) => Ok(Test::Known(eval(alloc, filter, vars)?)),
        Braces::Version(op, right) => Ok(Test::Version(*op, word_at(alloc, right, vars)?)),
        Braces::And(parts) => Ok(Test::And(tests_of(alloc, parts.as_slice(), vars)?)),
        Braces::Or(parts) => Ok(Test::Or(tests_of(alloc, parts.as_slice(), vars)?)),
    }
}

#[cycle(braces)]
fn tests_of(alloc: Global, parts: &[Braces], vars: &Vars) -> Result<Items<Test>, OutOfMemory>
    ensures { IfOk result (λ tests. tests ≡ map (test_of vars.now) parts.now) }
{
    let mut tests = Items::new(alloc);
    for part in parts {
        tests.push(test_of(alloc, part, vars)?)?;
    }
    Ok(tests)
}

// The value of a right side as a text.
fn word_at(alloc: Global, right: &Filter, vars: &Vars) -> Result<Option<Text>, OutOfMemory>
    ensures { IfOk result (λ word. word ≡ option_map word_of (filter_value vars.now right.now)) }
{
    match filter_value(alloc, right, vars)? {
        None => Ok(None),
        Some(value) => Ok(Some(Text::from_str(alloc, word_of(&value))?)),
    }
}

// The truth of a test at a version, or where each constraint counts as true.
#[cycle(truth)]
fn test_truth(test: &Test, version: Option<&str>) -> Truth
    ensures { result ≡ test_truth (counted (option_copied version.entry)) test.now }
{
    match test {
        Test::Known(truth) => *truth,
        Test::Version(op, right) => constraint_truth(*op, right, version),
        Test::And(parts) => all_of(parts.as_slice(), version),
        Test::Or(parts) => any_of(parts.as_slice(), version),
    }
}

#[cycle(truth)]
fn all_of(tests: &[Test], version: Option<&str>) -> Truth
    ensures { result ≡
        all_of (map (test_truth (counted (option_copied version.entry))) tests.now) }
{
    let mut truth = Truth::Yes;
    for test in tests {
        truth = both(truth, test_truth(test, version));
    }
    truth
}

#[cycle(truth)]
fn any_of(tests: &[Test], version: Option<&str>) -> Truth
    ensures { result ≡
        any_of (map (test_truth (counted (option_copied version.entry))) tests.now) }
{
    let mut truth = Truth::No;
    for test in tests {
        truth = either(truth, test_truth(test, version));
    }
    truth
}

// An undefined right side is met by no version.
fn constraint_truth(op: RelOp, right: &Option<Text>, version: Option<&str>) -> Truth
    ensures { result ≡ counted (option_copied version.entry) op right.now }
{
    let Some(version) = version else {
        return Truth::Yes;
    };
    match right {
        None => Truth::No,
        Some(right) => truth_of_flag(is_related(op, text_order(version, right.as_str()))),
    }
}

fn is_kept(test: &Test) -> bool
    ensures { result ≡ is_kept test.now }
{
    is_yes(test_truth(test, None))
}

/// Whether a version meets the test.
pub(crate) fn is_met(test: &Test, version: &str) -> bool
    ensures { result ≡ is_met test.now version.now }
{
    is_yes(test_truth(test, Some(version)))
}
