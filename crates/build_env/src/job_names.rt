// The names of packages that a job asks for.
ghost use Rattle.std.specs.List.{flat_map};
ghost use Rattle.std.specs.Prelude.{◌≡◌, ◌++◌, IfOk, OnOk};
ghost use Rattle.build_env.specs.JobNames as names;
ghost use Rattle.build_env.specs.Seen as seen;

use crate::Export;
use opam_filter::{Filter, asked, asked_in};
use opam_names::{Items, Name, OutOfMemory};
use opam_package::{Arg, Command, EnvUpdate, Package, Word};
use std::alloc::Global;
use syntax_trees::{Var, Word as VarWord};

/// The names with which the commands of a package and its own updates look up variables.
pub(crate) fn asked_by_own(alloc: Global, built: &Package) -> Result<Items<Name>, OutOfMemory>
    ensures { IfOk result (λ found. found ≡ seen.asked_by_own built.now) }
{
    let mut found = Items::new(alloc);
    add_commands(alloc, &mut found, built.commands.as_slice())?;
    add_updates(alloc, &mut found, built.build_env.as_slice())?;
    Ok(found)
}

/// The same of the updates of an export.
pub(crate) fn asked_by_export(alloc: Global, export: &Export) -> Result<Items<Name>, OutOfMemory>
    ensures { IfOk result (λ found. found ≡ names.asked_by_export export.now) }
{
    let mut found = Items::new(alloc);
    add_updates(alloc, &mut found, export.updates.as_slice())?;
    Ok(found)
}

fn copy_word(alloc: Global, word: &VarWord) -> Result<VarWord, OutOfMemory>
    ensures { IfOk result (λ copy. copy ≡ word.now) }
{
    Ok(VarWord::from_string(String::from_str(alloc, word.as_str())?))
}

fn copy_variable(alloc: Global, variable: &Var) -> Result<Var, OutOfMemory>
    ensures { IfOk result (λ copy. copy ≡ variable.now) }
{
    let scope = match &variable.scope {
        None => None,
        Some(scope) => Some(copy_word(alloc, scope)?),
    };
    Ok(Var {
        scope,
        name: copy_word(alloc, &variable.name)?,
    })
}

fn add_names(alloc: Global, found: &mut Items<Name>, more: &[Name]) -> Result<(), OutOfMemory>
    ensures { OnOk result (found.new ≡ found.old ++ more.now) }
{
    for name in more {
        found.push(name.copy(alloc)?)?;
    }
    Ok(())
}

fn add_filter(
    alloc: Global,
    found: &mut Items<Name>,
    filter: &Option<Filter>,
) -> Result<(), OutOfMemory>
    ensures { OnOk result (found.new ≡ found.old ++ names.asked_by_filter filter.now) }
{
    match filter {
        None => Ok(()),
        Some(filter) => add_names(alloc, found, asked(alloc, filter)?.as_slice()),
    }
}

fn add_text(alloc: Global, found: &mut Items<Name>, text: &str) -> Result<(), OutOfMemory>
    ensures { OnOk result (found.new ≡ found.old ++ names.asked_by_text text.now) }
{
    add_names(alloc, found, asked_in(alloc, text)?.as_slice())
}

fn add_word(alloc: Global, found: &mut Items<Name>, word: &Word) -> Result<(), OutOfMemory>
    ensures { OnOk result (found.new ≡ found.old ++ names.asked_by_word word.now) }
{
    match word {
        Word::Text(text) => add_text(alloc, found, text.as_str()),
        Word::Var(variable) => {
            let filter = Filter::Var(copy_variable(alloc, variable)?);
            add_names(alloc, found, asked(alloc, &filter)?.as_slice())
        }
    }
}

fn add_arg(alloc: Global, found: &mut Items<Name>, arg: &Arg) -> Result<(), OutOfMemory>
    ensures { OnOk result (found.new ≡ found.old ++ names.asked_by_arg arg.now) }
{
    add_filter(alloc, found, &arg.filter)?;
    add_word(alloc, found, &arg.word)
}

fn add_args(alloc: Global, found: &mut Items<Name>, args: &[Arg]) -> Result<(), OutOfMemory>
    ensures { OnOk result (found.new ≡ found.old ++ flat_map names.asked_by_arg args.now) }
{
    for arg in args {
        add_arg(alloc, found, arg)?;
    }
    Ok(())
}

fn add_command(alloc: Global, found: &mut Items<Name>, command: &Command) -> Result<(), OutOfMemory>
    ensures { OnOk result (found.new ≡ found.old ++ names.asked_by_command command.now) }
{
    add_filter(alloc, found, &command.filter)?;
    add_args(alloc, found, command.args.as_slice())
}

fn add_commands(
    alloc: Global,
    found: &mut Items<Name>,
    commands: &[Command],
) -> Result<(), OutOfMemory>
    ensures { OnOk result (found.new ≡ found.old ++ flat_map names.asked_by_command commands.now) }
{
    for command in commands {
        add_command(alloc, found, command)?;
    }
    Ok(())
}

fn add_updates(
    alloc: Global,
    found: &mut Items<Name>,
    updates: &[EnvUpdate],
) -> Result<(), OutOfMemory>
    ensures { OnOk result (found.new ≡ found.old ++ flat_map names.asked_by_update updates.now) }
{
    for update in updates {
        add_text(alloc, found, update.value.as_str())?;
    }
    Ok(())
}
