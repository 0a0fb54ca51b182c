// Copies of what is lent.
ghost use Rattle.std.specs.Prelude.{◌≡◌, IfOk, Some};
ghost use Rattle.opam_filter.specs.Scopes.{plain, scoped};

use crate::{Filter, Reduced, Test};
use opam_names::{OutOfMemory, Text};
use sqlite_items::{Boxed, Items};
use std::alloc::Global;
use syntax_trees::{Var, Word};

pub(crate) fn word_of(alloc: Global, text: &str) -> Result<Word, OutOfMemory>
    ensures { IfOk result (λ word. word ≡ text.now) }
{
    Ok(Word::from_string(String::from_str(alloc, text)?))
}

pub(crate) fn plain(alloc: Global, name: &str) -> Result<Var, OutOfMemory>
    ensures { IfOk result (λ variable. variable ≡ plain name.now) }
{
    Ok(Var {
        scope: None,
        name: word_of(alloc, name)?,
    })
}

pub(crate) fn scoped(alloc: Global, scope: &str, name: &str) -> Result<Var, OutOfMemory>
    ensures { IfOk result (λ variable. variable ≡ scoped scope.now name.now) }
{
    Ok(Var {
        scope: Some(word_of(alloc, scope)?),
        name: word_of(alloc, name)?,
    })
}

pub(crate) fn copy_variable(alloc: Global, variable: &Var) -> Result<Var, OutOfMemory>
    ensures { IfOk result (λ copy. copy ≡ variable.now) }
{
    match &variable.scope {
        None => plain(alloc, variable.name.as_str()),
        Some(scope) => scoped(alloc, scope.as_str(), variable.name.as_str()),
    }
}

impl Filter {
    #[cycle(copy_filter)]
    pub fn copy(&self, alloc: Global) -> Result<Filter, OutOfMemory>
        ensures { IfOk result (λ copy. copy ≡ self.now) }
    {
        match self {
            Filter::Flag(flag) => Ok(Filter::Flag(*flag)),
            Filter::Text(text) => Ok(Filter::Text(text.copy(alloc)?)),
            Filter::Var(variable) => Ok(Filter::Var(copy_variable(alloc, variable)?)),
            Filter::Rel(op, left, right) => Ok(Filter::Rel(
                *op,
                copy_boxed(alloc, left)?,
                copy_boxed(alloc, right)?,
            )),
            Filter::Not(part) => Ok(Filter::Not(copy_boxed(alloc, part)?)),
            Filter::Defined(part) => Ok(Filter::Defined(copy_boxed(alloc, part)?)),
            Filter::And(parts) => Ok(Filter::And(copy_filters(alloc, parts.as_slice())?)),
            Filter::Or(parts) => Ok(Filter::Or(copy_filters(alloc, parts.as_slice())?)),
        }
    }
}

#[cycle(copy_filter)]
fn copy_boxed(alloc: Global, filter: &Boxed<Filter>) -> Result<Boxed<Filter>, OutOfMemory>
    ensures { IfOk result (λ copy. copy ≡ filter.now) }
{
    Ok(Boxed::new(alloc, filter.get().copy(alloc)?)?)
}

#[cycle(copy_filter)]
fn copy_filters(alloc: Global, filters: &[Filter]) -> Result<Items<Filter>, OutOfMemory>
    ensures { IfOk result (λ copies. copies ≡ filters.now) }
{
    let mut copies = Items::new(alloc);
    for filter in filters {
        copies.push(filter.copy(alloc)?)?;
    }
    Ok(copies)
}

impl Reduced {
    #[cycle(copy_reduced)]
    pub fn copy(&self, alloc: Global) -> Result<Reduced, OutOfMemory>
        ensures { IfOk result (λ copy. copy ≡ self.now) }
    {
        match self {
            Reduced::Dropped => Ok(Reduced::Dropped),
            Reduced::And(parts) => Ok(Reduced::And(copy_all_reduced(alloc, parts.as_slice())?)),
            Reduced::Or(parts) => Ok(Reduced::Or(copy_all_reduced(alloc, parts.as_slice())?)),
            Reduced::Atom { name, test } => Ok(Reduced::Atom {
                name: name.copy(alloc)?,
                test: test.copy(alloc)?,
            }),
        }
    }
}

#[cycle(copy_reduced)]
fn copy_all_reduced(alloc: Global, all: &[Reduced]) -> Result<Items<Reduced>, OutOfMemory>
    ensures { IfOk result (λ copies. copies ≡ all.now) }
{
    let mut copies = Items::new(alloc);
    for reduced in all {
        copies.push(reduced.copy(alloc)?)?;
    }
    Ok(copies)
}

impl Test {
    #[cycle(copy_test)]
    fn copy(&self, alloc: Global) -> Result<Test, OutOfMemory>
        ensures { IfOk result (λ copy. copy ≡ self.now) }
    {
        match self {
            Test::Known(truth) => Ok(Test::Known(*truth)),
            Test::Version(op, right) => Ok(Test::Version(*op, copy_right(alloc, right)?)),
            Test::And(parts) => Ok(Test::And(copy_tests(alloc, parts.as_slice())?)),
            Test::Or(parts) => Ok(Test::Or(copy_tests(alloc, parts.as_slice())?)),
        }
    }
}

fn copy_right(alloc: Global, right: &Option<Text>) -> Result<Option<Text>, OutOfMemory>
    ensures { IfOk result (λ copy. copy ≡ right.now) }
{
    match right {
        None => Ok(None),
        Some(text) => Ok(Some(text.copy(alloc)?)),
    }
}

#[cycle(copy_test)]
fn copy_tests(alloc: Global, tests: &[Test]) -> Result<Items<Test>, OutOfMemory>
    ensures { IfOk result (λ copies. copies ≡ tests.now) }
{
    let mut copies = Items::new(alloc);
    for test in tests {
        copies.push(test.copy(alloc)?)?;
    }
    Ok(copies)
}
