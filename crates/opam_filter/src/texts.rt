// Texts with variables in them.
ghost use Rattle.std.specs.Prelude.{◌≡◌, ◌<◌, length, IfNone, IfOk, IfSome, MatchOption, None, Some};
ghost use Rattle.opam_filter.specs.Texts.{asked_for, closed, opened, parts_of, variable_of, with_hole, without_holes};

use crate::copies::{plain, scoped};
use opam_names::OutOfMemory;
use std::alloc::Global;
use syntax_trees::Var;

/// The first interpolation of a text, what stands before it and what follows it.
#[derive(Clone, Copy)]
pub(crate) struct Hole<'a> {
    pub before: &'a str,
    pub inside: &'a str,
    pub after: &'a str,
}

pub(crate) fn first_hole(text: &str) -> Option<Hole<'_>>
    ensures none { IfNone result (parts_of text.now ≡ without_holes text.now) }
    ensures some { IfSome result (λ hole. parts_of text.now ≡
        with_hole hole.before.now hole.inside.now (parts_of hole.after.now)) }
    ensures shorter { IfSome result (λ hole. length hole.after.now < length text.now) }
{
    let (before, rest) = opened(text)?;
    let (inside, after) = closed(rest)?;
    Some(Hole {
        before,
        inside,
        after,
    })
}

// What stands before the first `%{`, and what stands after it.
fn opened(text: &str) -> Option<(&str, &str)>
    ensures { MatchOption result (opened text.now ≡ None)
        (λ cut. opened text.now ≡ Some (record { before = cut.0.now; after = cut.1.now })) }
{
    text.split_once("%{")
}

// The same of `}%`.
fn closed(text: &str) -> Option<(&str, &str)>
    ensures { MatchOption result (closed text.now ≡ None)
        (λ cut. closed text.now ≡ Some (record { before = cut.0.now; after = cut.1.now })) }
{
    text.split_once("}%")
}

/// The variable of an interpolation.
pub(crate) fn asked_for(alloc: Global, inside: &str) -> Result<Var, OutOfMemory>
    ensures { IfOk result (λ variable. variable ≡ asked_for inside.now) }
{
    match inside.split_once('?') {
        Some((variable, _)) => variable_of(alloc, variable),
        None => variable_of(alloc, inside),
    }
}

fn variable_of(alloc: Global, text: &str) -> Result<Var, OutOfMemory>
    ensures { IfOk result (λ variable. variable ≡ variable_of text.now) }
{
    match text.split_once(':') {
        Some((scope, name)) => scoped(alloc, scope, name),
        None => plain(alloc, text),
    }
}
