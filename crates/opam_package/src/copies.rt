// Copies of what is lent.
ghost use Rattle.std.specs.Prelude.{◌≡◌, IfOk};

use crate::{Arg, Command, EnvUpdate, Member, Need, Package, Word};
use opam_filter::{Filter, Reduced};
use opam_names::{Items, OutOfMemory, RelPath, Text};
use std::alloc::Global;
use syntax_trees::{Var, Word as Name};

fn copy_name(alloc: Global, name: &Name) -> Result<Name, OutOfMemory>
    ensures { IfOk result (λ copy. copy ≡ name.now) }
{
    Ok(Name::from_string(String::from_str(alloc, name.as_str())?))
}

fn copy_scope(alloc: Global, scope: &Option<Name>) -> Result<Option<Name>, OutOfMemory>
    ensures { IfOk result (λ copy. copy ≡ scope.now) }
{
    match scope {
        None => Ok(None),
        Some(scope) => Ok(Some(copy_name(alloc, scope)?)),
    }
}

pub(crate) fn copy_variable(alloc: Global, variable: &Var) -> Result<Var, OutOfMemory>
    ensures { IfOk result (λ copy. copy ≡ variable.now) }
{
    Ok(Var {
        scope: copy_scope(alloc, &variable.scope)?,
        name: copy_name(alloc, &variable.name)?,
    })
}

fn copy_filter(alloc: Global, filter: &Option<Filter>) -> Result<Option<Filter>, OutOfMemory>
    ensures { IfOk result (λ copy. copy ≡ filter.now) }
{
    match filter {
        None => Ok(None),
        Some(filter) => Ok(Some(filter.copy(alloc)?)),
    }
}

fn copy_text(alloc: Global, text: &Option<Text>) -> Result<Option<Text>, OutOfMemory>
    ensures { IfOk result (λ copy. copy ≡ text.now) }
{
    match text {
        None => Ok(None),
        Some(text) => Ok(Some(text.copy(alloc)?)),
    }
}

impl Word {
    fn copy(&self, alloc: Global) -> Result<Word, OutOfMemory>
        ensures { IfOk result (λ copy. copy ≡ self.now) }
    {
        match self {
            Word::Text(text) => Ok(Word::Text(text.copy(alloc)?)),
            Word::Var(variable) => Ok(Word::Var(copy_variable(alloc, variable)?)),
        }
    }
}

impl Arg {
    fn copy(&self, alloc: Global) -> Result<Arg, OutOfMemory>
        ensures { IfOk result (λ copy. copy ≡ self.now) }
    {
        Ok(Arg {
            word: self.word.copy(alloc)?,
            filter: copy_filter(alloc, &self.filter)?,
        })
    }
}

fn copy_args(alloc: Global, args: &[Arg]) -> Result<Items<Arg>, OutOfMemory>
    ensures { IfOk result (λ copies. copies ≡ args.now) }
{
    let mut copies = Items::new(alloc);
    for arg in args {
        copies.push(arg.copy(alloc)?)?;
    }
    Ok(copies)
}

impl Command {
    fn copy(&self, alloc: Global) -> Result<Command, OutOfMemory>
        ensures { IfOk result (λ copy. copy ≡ self.now) }
    {
        Ok(Command {
            args: copy_args(alloc, self.args.as_slice())?,
            filter: copy_filter(alloc, &self.filter)?,
        })
    }
}

fn copy_commands(alloc: Global, commands: &[Command]) -> Result<Items<Command>, OutOfMemory>
    ensures { IfOk result (λ copies. copies ≡ commands.now) }
{
    let mut copies = Items::new(alloc);
    for command in commands {
        copies.push(command.copy(alloc)?)?;
    }
    Ok(copies)
}

impl EnvUpdate {
    pub fn copy(&self, alloc: Global) -> Result<EnvUpdate, OutOfMemory>
        ensures { IfOk result (λ copy. copy ≡ self.now) }
    {
        Ok(EnvUpdate {
            name: self.name.copy(alloc)?,
            op: self.op,
            value: self.value.copy(alloc)?,
        })
    }
}

fn copy_updates(alloc: Global, updates: &[EnvUpdate]) -> Result<Items<EnvUpdate>, OutOfMemory>
    ensures { IfOk result (λ copies. copies ≡ updates.now) }
{
    let mut copies = Items::new(alloc);
    for update in updates {
        copies.push(update.copy(alloc)?)?;
    }
    Ok(copies)
}

impl Need {
    fn copy(&self, alloc: Global) -> Result<Need, OutOfMemory>
        ensures { IfOk result (λ copy. copy ≡ self.now) }
    {
        Ok(Need {
            runtime: self.runtime.copy(alloc)?,
            building: self.building.copy(alloc)?,
            full: self.full.copy(alloc)?,
        })
    }
}

fn copy_needs(alloc: Global, needs: &[Need]) -> Result<Items<Need>, OutOfMemory>
    ensures { IfOk result (λ copies. copies ≡ needs.now) }
{
    let mut copies = Items::new(alloc);
    for need in needs {
        copies.push(need.copy(alloc)?)?;
    }
    Ok(copies)
}

fn copy_atoms(alloc: Global, atoms: &[Reduced]) -> Result<Items<Reduced>, OutOfMemory>
    ensures { IfOk result (λ copies. copies ≡ atoms.now) }
{
    let mut copies = Items::new(alloc);
    for atom in atoms {
        copies.push(atom.copy(alloc)?)?;
    }
    Ok(copies)
}

fn copy_texts(alloc: Global, texts: &[Text]) -> Result<Items<Text>, OutOfMemory>
    ensures { IfOk result (λ copies. copies ≡ texts.now) }
{
    let mut copies = Items::new(alloc);
    for text in texts {
        copies.push(text.copy(alloc)?)?;
    }
    Ok(copies)
}

fn copy_paths(alloc: Global, paths: &[RelPath]) -> Result<Items<RelPath>, OutOfMemory>
    ensures { IfOk result (λ copies. copies ≡ paths.now) }
{
    let mut copies = Items::new(alloc);
    for path in paths {
        copies.push(path.copy(alloc)?)?;
    }
    Ok(copies)
}

impl Package {
    pub fn copy(&self, alloc: Global) -> Result<Package, OutOfMemory>
        ensures { IfOk result (λ copy. copy ≡ self.now) }
    {
        Ok(Package {
            pkg: self.pkg.copy(alloc)?,
            items: copy_needs(alloc, self.items.as_slice())?,
            depopts: copy_atoms(alloc, self.depopts.as_slice())?,
            conflicts: copy_atoms(alloc, self.conflicts.as_slice())?,
            classes: copy_texts(alloc, self.classes.as_slice())?,
            available: self.available,
            refused: copy_texts(alloc, self.refused.as_slice())?,
            commands: copy_commands(alloc, self.commands.as_slice())?,
            exports: copy_updates(alloc, self.exports.as_slice())?,
            build_env: copy_updates(alloc, self.build_env.as_slice())?,
            substs: copy_paths(alloc, self.substs.as_slice())?,
            source: copy_text(alloc, &self.source)?,
            synopsis: copy_text(alloc, &self.synopsis)?,
        })
    }
}

impl Member {
    pub fn copy(&self, alloc: Global) -> Result<Member, OutOfMemory>
        ensures { IfOk result (λ copy. copy ≡ self.now) }
    {
        Ok(Member {
            package: self.package.copy(alloc)?,
            opam: Items::from_slice(alloc, self.opam.as_slice())?,
        })
    }
}
