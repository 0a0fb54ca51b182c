// Parts of a package as they are shown.
use crate::filter_show::{push_filter, push_reduced, push_var};
use opam_filter::Filter;
use opam_package::{Arg, Command, EnvUpdate, Need, Word};
use row_script::fault::Fault;
use row_script::show::push_quoted;
use syntax_trees::EnvOp;

/// The three readings, one after another.
pub fn push_need(text: &mut String, need: &Need) -> Result<(), Fault> {
    text.push_str("(")?;
    push_reduced(text, &need.runtime)?;
    text.push_str(" / ")?;
    push_reduced(text, &need.building)?;
    text.push_str(" / ")?;
    push_reduced(text, &need.full)?;
    Ok(text.push_str(")")?)
}

fn push_braces(text: &mut String, filter: &Option<Filter>) -> Result<(), Fault> {
    if let Some(filter) = filter {
        text.push_str("{")?;
        push_filter(text, filter)?;
        text.push_str("}")?;
    }
    Ok(())
}

fn push_arg(text: &mut String, arg: &Arg) -> Result<(), Fault> {
    text.push_str(" ")?;
    match &arg.word {
        Word::Text(word) => push_quoted(text, word.as_str().as_bytes())?,
        Word::Var(variable) => push_var(text, variable)?,
    }
    push_braces(text, &arg.filter)
}

/// The arguments with their filters, and the filter of the whole.
pub fn push_command(text: &mut String, command: &Command) -> Result<(), Fault> {
    text.push_str("(")?;
    for arg in command.args.as_slice() {
        push_arg(text, arg)?;
    }
    text.push_str(" )")?;
    push_braces(text, &command.filter)
}

fn sign(op: EnvOp) -> &'static str {
    match op {
        EnvOp::Set => "=",
        EnvOp::Before => "+=",
        EnvOp::After => "=+",
        EnvOp::BeforeKeep => ":=",
        EnvOp::AfterKeep => "=:",
    }
}

/// The name, the sign and the text.
pub fn push_update(text: &mut String, update: &EnvUpdate) -> Result<(), Fault> {
    text.push_str("(")?;
    text.push_str(update.name.as_str())?;
    text.push_str(" ")?;
    text.push_str(sign(update.op))?;
    text.push_str(" ")?;
    push_quoted(text, update.value.as_str().as_bytes())?;
    Ok(text.push_str(")")?)
}
