// The package that a file is of, field by field.
ghost use Rattle.std.specs.Prelude.{[], ◌≡◌, IfErr, IfOk, OnOk, codes};
ghost use Rattle.syntax_trees.specs.Trees.{items_of};
ghost use Rattle.opam_package.specs.Commands.{commands_faults};
ghost use Rattle.opam_package.specs.FieldFaults.{faults_of_file};
ghost use Rattle.opam_package.specs.Fields.{field_of, listed};
ghost use Rattle.opam_package.specs.Forms.{filter_faults, formula_faults, formulas_faults, text_faults, texts_faults};
ghost use Rattle.opam_package.specs.PackageFaults.{IsFirstOf};
ghost use Rattle.opam_package.specs.Packages as packages;
ghost use Rattle.opam_package.specs.Packages.{package_of_file};
ghost use Rattle.opam_package.specs.Relatives.{substs_faults};
ghost use Rattle.opam_package.specs.Updates.{updates_faults};

use crate::commands::build_commands;
use crate::field_faults::file_fault;
use crate::fields::field_of;
use crate::formulas::{build_atoms, build_available, build_needs, own_vars, reading_vars};
use crate::paths::build_substs;
use crate::sources::{refused_names, source_of};
use crate::texts::{build_text, build_texts};
use crate::updates::build_updates;
use crate::{Command, EnvUpdate, Need, Package, PackageFault};
use opam_filter::{Reduced, Vars};
use opam_names::{Items, OutOfMemory, Pkg, RelPath, Text};
use std::alloc::Global;
use syntax_trees::File;

fn depends_of(alloc: Global, file: &File, vars: &Vars) -> Result<Items<Need>, OutOfMemory>
    requires { listed formulas_faults (field_of (codes "depends") (items_of file.now)) ≡ [] }
    ensures { IfOk result (λ needs. needs ≡ packages.depends_in vars.now (items_of file.now)) }
{
    match field_of(file, "depends") {
        None => Ok(Items::new(alloc)),
        Some(node) => build_needs(alloc, node, vars),
    }
}

// Each atom of a field alone.
fn atoms_of(
    alloc: Global,
    file: &File,
    name: &str,
    vars: &Vars,
) -> Result<Items<Reduced>, OutOfMemory>
    requires { listed formula_faults (field_of name.now (items_of file.now)) ≡ [] }
    ensures { IfOk result (λ all. all ≡ packages.atoms_in vars.now name.now (items_of file.now)) }
{
    match field_of(file, name) {
        None => Ok(Items::new(alloc)),
        Some(node) => build_atoms(alloc, node, vars),
    }
}

fn classes_of(alloc: Global, file: &File) -> Result<Items<Text>, OutOfMemory>
    requires { listed texts_faults (field_of (codes "conflict-class") (items_of file.now)) ≡ [] }
    ensures { IfOk result (λ texts. texts ≡ packages.classes_in (items_of file.now)) }
{
    match field_of(file, "conflict-class") {
        None => Ok(Items::new(alloc)),
        Some(node) => build_texts(alloc, node),
    }
}

fn is_available(alloc: Global, file: &File, vars: &Vars) -> Result<bool, OutOfMemory>
    requires { listed filter_faults (field_of (codes "available") (items_of file.now)) ≡ [] }
    ensures { IfOk result (λ is. is ≡ packages.availability_in vars.now (items_of file.now)) }
{
    match field_of(file, "available") {
        None => Ok(true),
        Some(node) => build_available(alloc, node, vars),
    }
}

fn commands_of(alloc: Global, file: &File) -> Result<Items<Command>, OutOfMemory>
    requires { listed commands_faults (field_of (codes "build") (items_of file.now)) ≡ [] }
    ensures { IfOk result (λ commands. commands ≡ packages.commands_in (items_of file.now)) }
{
    match field_of(file, "build") {
        None => Ok(Items::new(alloc)),
        Some(node) => build_commands(alloc, node),
    }
}

fn updates_of(alloc: Global, file: &File, name: &str) -> Result<Items<EnvUpdate>, OutOfMemory>
    requires { listed updates_faults (field_of name.now (items_of file.now)) ≡ [] }
    ensures { IfOk result (λ updates. updates ≡ packages.updates_in name.now (items_of file.now)) }
{
    match field_of(file, name) {
        None => Ok(Items::new(alloc)),
        Some(node) => build_updates(alloc, node),
    }
}

fn substs_of(alloc: Global, file: &File) -> Result<Items<RelPath>, OutOfMemory>
    requires { listed substs_faults (field_of (codes "substs") (items_of file.now)) ≡ [] }
    ensures { IfOk result (λ paths. paths ≡ packages.substs_in (items_of file.now)) }
{
    match field_of(file, "substs") {
        None => Ok(Items::new(alloc)),
        Some(node) => build_substs(alloc, node),
    }
}

fn synopsis_of(alloc: Global, file: &File) -> Result<Option<Text>, OutOfMemory>
    requires { listed text_faults (field_of (codes "synopsis") (items_of file.now)) ≡ [] }
    ensures { IfOk result (λ synopsis. synopsis ≡ packages.synopsis_in (items_of file.now)) }
{
    match field_of(file, "synopsis") {
        None => Ok(None),
        Some(node) => Ok(Some(build_text(alloc, node)?)),
    }
}

// A file without faults, field by field.
fn build_package(
    alloc: Global,
    file: &File,
    pkg: &Pkg,
    globals: &Vars,
) -> Result<Package, OutOfMemory>
    requires { faults_of_file pkg.now file.now ≡ [] }
    ensures { IfOk result (λ found. found ≡ package_of_file pkg.now globals.now file.now) }
{
    let vars = own_vars(alloc, pkg, globals)?;
    let building = reading_vars(alloc, true, false, &vars)?;
    let full = reading_vars(alloc, true, true, &vars)?;
    Ok(Package {
        pkg: pkg.copy(alloc)?,
        items: depends_of(alloc, file, &vars)?,
        depopts: atoms_of(alloc, file, "depopts", &building)?,
        conflicts: atoms_of(alloc, file, "conflicts", &full)?,
        classes: classes_of(alloc, file)?,
        available: is_available(alloc, file, &vars)?,
        refused: refused_names(alloc, file)?,
        commands: commands_of(alloc, file)?,
        exports: updates_of(alloc, file, "setenv")?,
        build_env: updates_of(alloc, file, "build-env")?,
        substs: substs_of(alloc, file)?,
        source: source_of(alloc, file)?,
        synopsis: synopsis_of(alloc, file)?,
    })
}

/// The package that a file is of, or the first of its faults by the places where they stand (opam manual, file format:
/// opam). Which fault it is does not depend on the variables.
pub fn package_of(
    alloc: Global,
    file: &File,
    pkg: &Pkg,
    globals: &Vars,
) -> Result<Package, PackageFault>
    ensures ok { IfOk result (λ found. found ≡ package_of_file pkg.now globals.now file.now) }
    ensures sound { OnOk result (faults_of_file pkg.now file.now ≡ []) }
    ensures err { IfErr result (λ fault. IsFirstOf (faults_of_file pkg.now file.now) fault) }
{
    match file_fault(alloc, pkg, file)? {
        Some(fault) => Err(fault),
        None => Ok(build_package(alloc, file, pkg, globals)?),
    }
}
