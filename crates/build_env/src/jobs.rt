// The job of a package.
ghost use Rattle.std.specs.Prelude.{◌≡◌, IfOk};
ghost use Rattle.opam_filter.specs.Texts.{shown};
ghost use Rattle.opam_filter.specs.Truths.{is_yes};
ghost use Rattle.build_env.specs.Jobs as job;

use crate::Export;
use crate::environments::environment;
use crate::job_names::asked_by_own;
use crate::members::{by_name, vars_seen};
use opam_filter::{
    Filter, Truth, VarValue, Vars, asked_is_enough, eval, expand, names_rise, value_at,
};
use opam_names::{Items, OutOfMemory, Text};
use opam_package::{Arg, Command, Package, Word};
use outside_io::Job;
use package_vars::{Facts, View, scopes_are_enough};
use std::alloc::Global;

/// What is to be done for a package: its commands under its variables, and their environment. The exports are those of
/// the packages of the view, in its order.
pub fn job_for(
    alloc: Global,
    built: &Package,
    view: &View,
    exports: &[Export],
    facts: &Facts,
) -> Result<Job, OutOfMemory>
    ensures { IfOk result (λ made. made ≡ job.build_job built.now view.now exports.now facts.now) }
{
    asked_is_enough();
    scopes_are_enough();
    names_rise();
    let named = by_name(alloc, view.members.as_slice())?;
    let asked = asked_by_own(alloc, built)?;
    let vars = vars_seen(alloc, facts, &named, &built.pkg, asked.as_slice())?;
    Ok(Job {
        pkg: built.pkg.copy(alloc)?,
        source: copy_source(alloc, &built.source)?,
        commands: commands_of(alloc, &vars, built.commands.as_slice())?,
        env: environment(alloc, facts, &named, &vars, built, exports)?,
    })
}

fn copy_source(alloc: Global, source: &Option<Text>) -> Result<Option<Text>, OutOfMemory>
    ensures { IfOk result (λ copy. copy ≡ source.now) }
{
    match source {
        None => Ok(None),
        Some(folder) => Ok(Some(folder.copy(alloc)?)),
    }
}

// Without a filter, or where it is Yes.
fn is_taken(alloc: Global, vars: &Vars, filter: &Option<Filter>) -> Result<bool, OutOfMemory>
    ensures { IfOk result (λ is. is ≡ job.is_taken vars.now filter.now) }
{
    match filter {
        None => Ok(true),
        Some(filter) => Ok(is_yes(eval(alloc, filter, vars)?)),
    }
}

fn is_yes(truth: Truth) -> bool
    ensures { result ≡ is_yes truth }
{
    match truth {
        Truth::Yes => true,
        Truth::No | Truth::Undefined => false,
    }
}

fn shown(alloc: Global, value: Option<VarValue>) -> Result<Text, OutOfMemory>
    ensures { IfOk result (λ text. text ≡ shown value) }
{
    match value {
        None => Text::from_str(alloc, ""),
        Some(VarValue::Text(text)) => Ok(text),
        Some(VarValue::Flag(true)) => Text::from_str(alloc, "true"),
        Some(VarValue::Flag(false)) => Text::from_str(alloc, "false"),
    }
}

// A text is expanded; a variable gives its value, and nothing where it has none.
fn word_text(alloc: Global, vars: &Vars, word: &Word) -> Result<Text, OutOfMemory>
    ensures { IfOk result (λ text. text ≡ job.arg_text vars.now word.now) }
{
    match word {
        Word::Text(text) => Ok(Text::from_string(expand(alloc, text.as_str(), vars)?)),
        Word::Var(variable) => shown(alloc, value_at(alloc, vars, variable)?),
    }
}

fn words_of(alloc: Global, vars: &Vars, args: &[Arg]) -> Result<Items<Text>, OutOfMemory>
    ensures { IfOk result (λ words. words ≡ job.words_of vars.now args.now) }
{
    let mut words = Items::new(alloc);
    for arg in args {
        if is_taken(alloc, vars, &arg.filter)? {
            words.push(word_text(alloc, vars, &arg.word)?)?;
        }
    }
    Ok(words)
}

fn commands_of(
    alloc: Global,
    vars: &Vars,
    commands: &[Command],
) -> Result<Items<Items<Text>>, OutOfMemory>
    ensures { IfOk result (λ made. made ≡ job.job_commands vars.now commands.now) }
{
    let mut made = Items::new(alloc);
    for command in commands {
        if is_taken(alloc, vars, &command.filter)? {
            let words = words_of(alloc, vars, command.args.as_slice())?;
            if !words.is_empty() {
                made.push(words)?;
            }
        }
    }
    Ok(made)
}
