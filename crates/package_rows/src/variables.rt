// Calls of `package_vars`, over the facts of the script.
use crate::filters::{set_of, value, value_of};
use opam_filter::Vars;
use opam_names::{Items, Name, Text};
use package_vars::{Facts, VarValue, View, globals, vars_for};
use row_script::fault::Fault;
use row_script::lexer::Word;
use row_script::script::Call;
use row_script::show::{plain, push_quoted};
use row_script::values::{name_of, pkg_of};
use std::alloc::Global;

pub fn answer(alloc: Global, call: &Call, facts: &mut Facts) -> Result<String, Fault> {
    let name = call.name.as_str();
    match call.words.as_slice() {
        [] => answer_bare(alloc, name, facts),
        [word] => answer_word(alloc, name, word, facts),
        [variable, value] => answer_pair(alloc, name, variable, value, facts),
        words => answer_look_up(alloc, name, words, facts),
    }
}

fn answer_bare(alloc: Global, name: &str, facts: &Facts) -> Result<String, Fault> {
    match name {
        "Facts::copy" => show_copy(alloc, facts),
        _ => Err(Fault::Unknown),
    }
}

fn answer_word(alloc: Global, name: &str, word: &Word, facts: &mut Facts) -> Result<String, Fault> {
    match name {
        "Facts" => new_facts(alloc, facts, word),
        "globals" => value(alloc, &globals(alloc, facts)?, word),
        _ => Err(Fault::Unknown),
    }
}

fn answer_pair(
    alloc: Global,
    name: &str,
    variable: &Word,
    value: &Word,
    facts: &mut Facts,
) -> Result<String, Fault> {
    match name {
        "Facts::global" => add_global(alloc, facts, variable, value),
        "Facts::env" => add_env(alloc, facts, variable, value),
        _ => Err(Fault::Unknown),
    }
}

fn answer_look_up(
    alloc: Global,
    name: &str,
    words: &[Word],
    facts: &Facts,
) -> Result<String, Fault> {
    match name {
        "vars_for" => look_up(alloc, facts, words),
        _ => Err(Fault::Unknown),
    }
}

/// Facts with an empty prefix, and nothing else.
pub fn no_facts(alloc: Global) -> Facts {
    Facts {
        prefix: Text::from_string(String::new(alloc)),
        globals: Items::new(alloc),
        env: Items::new(alloc),
    }
}

fn new_facts(alloc: Global, facts: &mut Facts, prefix: &Word) -> Result<String, Fault> {
    *facts = Facts {
        prefix: Text::from_str(alloc, prefix.text()?)?,
        globals: Items::new(alloc),
        env: Items::new(alloc),
    };
    plain(alloc, "noted")
}

fn add_global(
    alloc: Global,
    facts: &mut Facts,
    name: &Word,
    value: &Word,
) -> Result<String, Fault> {
    let name = Text::from_str(alloc, name.text()?)?;
    facts.globals.push((name, value_of(alloc, value)?))?;
    plain(alloc, "noted")
}

fn add_env(alloc: Global, facts: &mut Facts, name: &Word, value: &Word) -> Result<String, Fault> {
    let name = Text::from_str(alloc, name.text()?)?;
    facts
        .env
        .push((name, Text::from_str(alloc, value.text()?)?))?;
    plain(alloc, "noted")
}

fn show_copy(alloc: Global, facts: &Facts) -> Result<String, Fault> {
    let copy = facts.copy(alloc)?;
    show_facts(alloc, &copy)
}

fn show_facts(alloc: Global, facts: &Facts) -> Result<String, Fault> {
    let mut text = String::new(alloc);
    push_facts(&mut text, facts)?;
    Ok(text)
}

fn push_facts(text: &mut String, facts: &Facts) -> Result<(), Fault> {
    push_quoted(text, facts.prefix.as_str().as_bytes())?;
    push_globals(text, facts.globals.as_slice())?;
    push_env(text, facts.env.as_slice())
}

fn push_globals(text: &mut String, globals: &[(Text, VarValue)]) -> Result<(), Fault> {
    text.push_str("; globals")?;
    for (name, value) in globals {
        text.push_str(" ")?;
        text.push_str(name.as_str())?;
        text.push_str("=")?;
        push_value(text, value)?;
    }
    Ok(())
}

fn push_value(text: &mut String, value: &VarValue) -> Result<(), Fault> {
    match value {
        VarValue::Flag(flag) => Ok(text.push_str(if *flag { "true" } else { "false" })?),
        VarValue::Text(inner) => push_quoted(text, inner.as_str().as_bytes()),
    }
}

fn push_env(text: &mut String, env: &[(Text, Text)]) -> Result<(), Fault> {
    text.push_str("; env")?;
    for (name, value) in env {
        text.push_str(" ")?;
        text.push_str(name.as_str())?;
        text.push_str("=")?;
        push_quoted(text, value.as_str().as_bytes())?;
    }
    Ok(())
}

// Names between commas.
fn names_of(alloc: Global, asked: &Word) -> Result<Vec<Name>, Fault> {
    let mut names = Vec::new(alloc);
    for text in asked.text()?.split(',') {
        if !text.is_empty() {
            names.push(named(alloc, text)?)?;
        }
    }
    Ok(names)
}

fn named(alloc: Global, text: &str) -> Result<Name, Fault> {
    let bytes = Vec::from_slice(alloc, text.as_bytes())?;
    name_of(
        alloc,
        &Word {
            bytes,
            quoted: false,
        },
    )
}

fn look_up(alloc: Global, facts: &Facts, words: &[Word]) -> Result<String, Fault> {
    let [view, pkg, asked, name] = words else {
        return Err(Fault::Unknown);
    };
    let vars = seen(alloc, facts, view, pkg, asked)?;
    value(alloc, &vars, name)
}

// The variables that a package sees.
fn seen(
    alloc: Global,
    facts: &Facts,
    view: &Word,
    pkg: &Word,
    asked: &Word,
) -> Result<Vars, Fault> {
    let members = Items::from_vec(set_of(alloc, view)?);
    let view = View { members };
    let asked = names_of(alloc, asked)?;
    let pkg = pkg_of(alloc, pkg)?;
    Ok(vars_for(alloc, facts, &view, &pkg, asked.as_slice())?)
}
