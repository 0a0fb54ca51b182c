// The command of arguments that have no fault.
ghost use Rattle.std.specs.Prelude.{◌≡◌, [], IfOk, IsTrue, None, codes};
ghost use Rattle.std.specs.List.{list_all};
ghost use Rattle.command_words.specs.Readings.{command_of, first_fault, first_word, is_jobs, is_name_or_option, is_shown, jobs_of, names_of, option_or, repo_of, shown};
ghost use Rattle.command_words.specs.Tables.{row};
ghost use Rattle.opam_names.specs.Names.{is_name, is_version};

use crate::arguments::Argument;
use crate::command::{Change, Command, Query, Shown};
use crate::tables::Kind;
use crate::values::number_of;
use opam_names::{Items, Name, OutOfMemory, Pkg, ReadFault, Text, Version};
use std::alloc::Global;
use std::collections::BTreeSet;

// The command of these arguments, which have no fault.
pub fn command_of(
    alloc: Global,
    command: &str,
    kind: Kind,
    given: &[Argument],
) -> Result<Command, OutOfMemory>
    requires { first_fault command.now (row kind) [] given.now ≡ None }
    ensures { IfOk result (λ c. c ≡ command_of kind given.now) }
{
    match kind {
        Kind::Install => Ok(Command::Change(Change::Install {
            lock_file: option_or(alloc, "", "--lock-file", given)?,
            repo: repo_of(alloc, given)?,
            jobs: jobs_of(given),
            names: names_of(alloc, given)?,
        })),
        Kind::Remove => Ok(Command::Change(Change::Remove {
            jobs: jobs_of(given),
            names: names_of(alloc, given)?,
        })),
        Kind::Reinstall => Ok(Command::Change(Change::Reinstall {
            jobs: jobs_of(given),
            names: names_of(alloc, given)?,
        })),
        Kind::List => Ok(Command::Query(Query::List)),
        Kind::Show => Ok(Command::Query(Query::Show {
            repo: repo_of(alloc, given)?,
            what: shown(alloc, first_word(given))?,
        })),
        Kind::Lint => Ok(Command::Query(Query::Lint {
            file: Text::from_str(alloc, first_word(given))?,
        })),
    }
}

fn repo_of(alloc: Global, given: &[Argument]) -> Result<Text, OutOfMemory>
    ensures { IfOk result (λ repo. repo ≡ repo_of given.now) }
{
    option_or(alloc, ".", "--repo", given)
}

// The value of an option, or what stands for it.
fn option_or(
    alloc: Global,
    text: &str,
    option: &str,
    given: &[Argument],
) -> Result<Text, OutOfMemory>
    ensures { IfOk result (λ value. value ≡ option_or text.now option.now given.now) }
{
    Text::from_str(alloc, value_or(text, option, given))
}

fn value_or<'a>(text: &'a str, option: &str, given: &'a [Argument]) -> &'a str
    ensures { result.now ≡ option_or text.now option.now given.now }
{
    for argument in given {
        if let Argument::Given { name, value } = argument {
            if option == name.as_str() {
                return match value {
                    Some(value) => value.as_str(),
                    None => text,
                };
            }
        }
    }
    text
}

fn jobs_of(given: &[Argument]) -> u32
    requires { IsTrue (is_jobs (option_or (codes "4") (codes "--jobs") given.now)) }
    ensures { result ≡ jobs_of given.now }
{
    number_of(value_or("4", "--jobs", given).as_bytes())
}

// The plain words in the order of bytes, each once.
fn names_of(alloc: Global, given: &[Argument]) -> Result<Items<Name>, OutOfMemory>
    requires { IsTrue (list_all is_name_or_option given.now) }
    ensures { IfOk result (λ names. names ≡ names_of given.now) }
{
    let mut names = BTreeSet::new(alloc);
    for argument in given {
        if let Argument::Plain(word) = argument {
            names.insert(name_of(alloc, word.as_str())?)?;
        }
    }
    Ok(Items::from_vec(names.into_iter().collect(alloc)?))
}

fn name_of(alloc: Global, word: &str) -> Result<Name, OutOfMemory>
    requires { IsTrue (is_name word.now) }
    ensures { IfOk result (λ name. name ≡ word.now) }
{
    match Name::read(alloc, word.as_bytes()) {
        Ok(name) => Ok(name),
        Err(ReadFault::Bad { .. }) => unreachable!(),
        Err(ReadFault::Memory) => Err(OutOfMemory),
    }
}

fn version_of(alloc: Global, word: &str) -> Result<Version, OutOfMemory>
    requires { IsTrue (is_version word.now) }
    ensures { IfOk result (λ version. version ≡ word.now) }
{
    match Version::read(alloc, word.as_bytes()) {
        Ok(version) => Ok(version),
        Err(ReadFault::Bad { .. }) => unreachable!(),
        Err(ReadFault::Memory) => Err(OutOfMemory),
    }
}

// The first plain word; an empty one where there is none.
fn first_word(given: &[Argument]) -> &str
    ensures { result.now ≡ first_word given.now }
{
    for argument in given {
        if let Argument::Plain(word) = argument {
            return word.as_str();
        }
    }
    ""
}

fn shown(alloc: Global, word: &str) -> Result<Shown, OutOfMemory>
    requires { IsTrue (is_shown word.now) }
    ensures { IfOk result (λ what. what ≡ shown word.now) }
{
    match word.split_once('.') {
        Some((name, version)) => Ok(Shown::Exact(Pkg {
            name: name_of(alloc, name)?,
            version: version_of(alloc, version)?,
        })),
        None => Ok(Shown::Name(name_of(alloc, word)?)),
    }
}
