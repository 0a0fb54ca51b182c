// Calls of `opam_filter`, under the variables of the script.
use crate::filter_show::{push_filter, push_formula, push_reduced, truth_word};
use crate::spans::show_at;
use crate::trees::{read_tree, variable};
use opam_filter::{
    Filter, FilterFault, Formula, Reduced, VarValue, Vars, asked, asked_in, atoms, eval, expand,
    holds, meets, names, read_filter, read_formula, reduce, rises,
};
use opam_names::{Name, Pkg, Text};
use row_script::fault::Fault;
use row_script::lexer::Word;
use row_script::script::Call;
use row_script::show::{answered, plain, quoted};
use row_script::values::pkg_of;
use std::alloc::Global;

pub fn answer(alloc: Global, call: &Call, vars: &mut Vars) -> Result<String, Fault> {
    let name = call.name.as_str();
    let words = call.words.as_slice();
    match name {
        "read_filter" => show_filter(alloc, words),
        "Filter::copy" => copy_filter(alloc, words),
        "eval" => evaluate(alloc, words, vars),
        "asked" => ask(alloc, words),
        "read_formula" => show_formula(alloc, words),
        "reduce" => show_reduced(alloc, words, vars),
        "Reduced::copy" => copy_reduced(alloc, words, vars),
        "names" => show_kept(alloc, words, vars),
        "atoms" => show_atoms(alloc, words),
        "holds" => hold(alloc, words, vars),
        "meets" => meet(alloc, words, vars),
        _ => answer_few(alloc, name, words, vars),
    }
}

// Calls with up to two words.
fn answer_few(alloc: Global, name: &str, words: &[Word], vars: &mut Vars) -> Result<String, Fault> {
    match words {
        [] => answer_bare(alloc, name, vars),
        [word] => answer_word(alloc, name, word, vars),
        [variable, value] => answer_pair(alloc, name, variable, value, vars),
        _ => Err(Fault::Unknown),
    }
}

fn answer_bare(alloc: Global, name: &str, vars: &mut Vars) -> Result<String, Fault> {
    match name {
        "Vars::empty" => empty(alloc, vars),
        _ => Err(Fault::Unknown),
    }
}

fn answer_word(alloc: Global, name: &str, word: &Word, vars: &Vars) -> Result<String, Fault> {
    match name {
        "Vars::value" => value(alloc, vars, word),
        "expand" => fill_in(alloc, word, vars),
        "asked_in" => ask_in(alloc, word),
        "rises" => rise(alloc, word),
        _ => Err(Fault::Unknown),
    }
}

fn answer_pair(
    alloc: Global,
    name: &str,
    variable: &Word,
    value: &Word,
    vars: &mut Vars,
) -> Result<String, Fault> {
    match name {
        "Vars::set" => set(alloc, vars, variable, value),
        _ => Err(Fault::Unknown),
    }
}

fn empty(alloc: Global, vars: &mut Vars) -> Result<String, Fault> {
    *vars = Vars::empty(alloc);
    plain(alloc, "noted")
}

/// In quotes it is a text, and else a boolean.
pub fn value_of(alloc: Global, word: &Word) -> Result<VarValue, Fault> {
    if word.quoted {
        Ok(VarValue::Text(Text::from_str(alloc, word.text()?)?))
    } else {
        Ok(VarValue::Flag(word.is("true")))
    }
}

fn set(alloc: Global, vars: &mut Vars, name: &Word, value: &Word) -> Result<String, Fault> {
    let value = value_of(alloc, value)?;
    vars.set(variable(alloc, name.text()?)?, value)?;
    plain(alloc, "noted")
}

/// The value that a variable has.
pub fn value(alloc: Global, vars: &Vars, name: &Word) -> Result<String, Fault> {
    match vars.value(&variable(alloc, name.text()?)?) {
        None => plain(alloc, "undefined"),
        Some(VarValue::Flag(flag)) => plain(alloc, if *flag { "true" } else { "false" }),
        Some(VarValue::Text(text)) => quoted(alloc, text.as_str().as_bytes()),
    }
}

pub fn faulty(alloc: Global, fault: FilterFault) -> Result<String, Fault> {
    match fault {
        FilterFault::NotAFilter { span } => show_at(alloc, "no filter", span),
        FilterFault::NotAFormula { span } => show_at(alloc, "no formula", span),
        FilterFault::NotText { span } => show_at(alloc, "no text", span),
        FilterFault::BadName { span } => show_at(alloc, "no name", span),
        FilterFault::NegatedVersion { span } => show_at(alloc, "a negated version", span),
        FilterFault::Memory => Err(Fault::Memory),
    }
}

// The filter that the words write.
fn filter_of(alloc: Global, tree: &[Word]) -> Result<Filter, Fault> {
    match read_filter(alloc, &read_tree(alloc, tree)?) {
        Ok(filter) => Ok(filter),
        Err(FilterFault::Memory) => Err(Fault::Memory),
        Err(_) => Err(Fault::Line("the words are no filter")),
    }
}

fn formula_of(alloc: Global, tree: &[Word]) -> Result<Formula, Fault> {
    match read_formula(alloc, &read_tree(alloc, tree)?) {
        Ok(formula) => Ok(formula),
        Err(FilterFault::Memory) => Err(Fault::Memory),
        Err(_) => Err(Fault::Line("the words are no formula")),
    }
}

fn reduced_of(alloc: Global, tree: &[Word], vars: &Vars) -> Result<Reduced, Fault> {
    Ok(reduce(alloc, &formula_of(alloc, tree)?, vars)?)
}

fn filter_text(alloc: Global, filter: &Filter) -> Result<String, Fault> {
    let mut text = String::new(alloc);
    push_filter(&mut text, filter)?;
    Ok(text)
}

fn show_filter(alloc: Global, tree: &[Word]) -> Result<String, Fault> {
    match read_filter(alloc, &read_tree(alloc, tree)?) {
        Ok(filter) => filter_text(alloc, &filter),
        Err(fault) => faulty(alloc, fault),
    }
}

fn copy_filter(alloc: Global, tree: &[Word]) -> Result<String, Fault> {
    filter_text(alloc, &filter_of(alloc, tree)?.copy(alloc)?)
}

fn evaluate(alloc: Global, tree: &[Word], vars: &Vars) -> Result<String, Fault> {
    let truth = eval(alloc, &filter_of(alloc, tree)?, vars)?;
    plain(alloc, truth_word(truth))
}

fn fill_in(alloc: Global, text: &Word, vars: &Vars) -> Result<String, Fault> {
    quoted(alloc, expand(alloc, text.text()?, vars)?.as_bytes())
}

fn names_text(alloc: Global, names: &[Name]) -> Result<String, Fault> {
    let mut text = String::from_str(alloc, "names:")?;
    for name in names {
        text.push_str(" ")?;
        text.push_str(name.as_str())?;
    }
    Ok(text)
}

fn ask(alloc: Global, tree: &[Word]) -> Result<String, Fault> {
    let found = asked(alloc, &filter_of(alloc, tree)?)?;
    names_text(alloc, found.as_slice())
}

fn ask_in(alloc: Global, text: &Word) -> Result<String, Fault> {
    let found = asked_in(alloc, text.text()?)?;
    names_text(alloc, found.as_slice())
}

fn formula_text(alloc: Global, formula: &Formula) -> Result<String, Fault> {
    let mut text = String::new(alloc);
    push_formula(&mut text, formula)?;
    Ok(text)
}

fn show_formula(alloc: Global, tree: &[Word]) -> Result<String, Fault> {
    match read_formula(alloc, &read_tree(alloc, tree)?) {
        Ok(formula) => formula_text(alloc, &formula),
        Err(fault) => faulty(alloc, fault),
    }
}

fn reduced_text(alloc: Global, reduced: &Reduced) -> Result<String, Fault> {
    let mut text = String::new(alloc);
    push_reduced(&mut text, reduced)?;
    Ok(text)
}

fn show_reduced(alloc: Global, tree: &[Word], vars: &Vars) -> Result<String, Fault> {
    reduced_text(alloc, &reduced_of(alloc, tree, vars)?)
}

fn copy_reduced(alloc: Global, tree: &[Word], vars: &Vars) -> Result<String, Fault> {
    reduced_text(alloc, &reduced_of(alloc, tree, vars)?.copy(alloc)?)
}

fn show_kept(alloc: Global, tree: &[Word], vars: &Vars) -> Result<String, Fault> {
    let found = names(alloc, &reduced_of(alloc, tree, vars)?)?;
    names_text(alloc, found.as_slice())
}

// Each atom as a formula of its own.
fn show_atoms(alloc: Global, tree: &[Word]) -> Result<String, Fault> {
    let found = atoms(alloc, formula_of(alloc, tree)?)?;
    let mut text = String::from_str(alloc, "atoms:")?;
    for atom in found.as_slice() {
        text.push_str(" ")?;
        push_formula(&mut text, atom)?;
    }
    Ok(text)
}

/// Packages between commas.
pub fn set_of(alloc: Global, set: &Word) -> Result<Vec<Pkg>, Fault> {
    let mut pkgs = Vec::new(alloc);
    for text in set.text()?.split(',') {
        if !text.is_empty() {
            pkgs.push(pkg_named(alloc, text)?)?;
        }
    }
    Ok(pkgs)
}

fn pkg_named(alloc: Global, text: &str) -> Result<Pkg, Fault> {
    let bytes = Vec::from_slice(alloc, text.as_bytes())?;
    pkg_of(
        alloc,
        &Word {
            bytes,
            quoted: false,
        },
    )
}

fn rise(alloc: Global, set: &Word) -> Result<String, Fault> {
    answered(alloc, rises(set_of(alloc, set)?.as_slice()))
}

fn hold(alloc: Global, words: &[Word], vars: &Vars) -> Result<String, Fault> {
    let [set, tree @ ..] = words else {
        return Err(Fault::Unknown);
    };
    let reduced = reduced_of(alloc, tree, vars)?;
    let set = set_of(alloc, set)?;
    if !rises(set.as_slice()) {
        return Err(Fault::Line("the packages do not rise"));
    }
    answered(alloc, holds(&reduced, set.as_slice()))
}

fn meet(alloc: Global, words: &[Word], vars: &Vars) -> Result<String, Fault> {
    let [pkg, tree @ ..] = words else {
        return Err(Fault::Unknown);
    };
    let reduced = reduced_of(alloc, tree, vars)?;
    answered(alloc, meets(&reduced, &pkg_of(alloc, pkg)?))
}
