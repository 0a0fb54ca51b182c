// The variables that a build sees.
ghost use Rattle.std.specs.Prelude.{◌≡◌, [], ◌∷◌, IfOk, OnOk, false, true};
ghost use Rattle.package_vars.specs.BuildVariables as table;
ghost use Rattle.package_vars.specs.Steps.{with_rows};

use crate::package_rows::{set_installed, set_member};
use crate::variable_rows::{below, set_plain, text_value};
use crate::{Facts, View};
use opam_filter::{VarValue, Vars};
use opam_names::{Name, OutOfMemory, Pkg, Text};
use std::alloc::Global;

/// The global variables alone: for formulas, `available` and locks. Of several values of one variable the last one
/// counts.
pub fn globals(alloc: Global, facts: &Facts) -> Result<Vars, OutOfMemory>
    ensures { IfOk result (λ vars. vars ≡ table.variables_of
        (table.global_rows facts.now.globals)) }
{
    let mut vars = Vars::empty(alloc);
    set_globals(alloc, &mut vars, facts.globals.as_slice())?;
    Ok(vars)
}

/// What the commands of a package see, where the view has what is installed when its build starts. Whether it is
/// installed is told of each package of the view, of the one that is built, and of each name that is asked for.
pub fn vars_for(
    alloc: Global,
    facts: &Facts,
    view: &View,
    pkg: &Pkg,
    asked: &[Name],
) -> Result<Vars, OutOfMemory>
    ensures { IfOk result (λ vars. vars ≡ table.variables_of
        (table.build_rows facts.now view.now pkg.now asked.now)) }
{
    let prefix = facts.prefix.as_str();
    let mut vars = globals(alloc, facts)?;
    set_own(alloc, &mut vars, prefix, pkg)?;
    set_folders(alloc, &mut vars, prefix)?;
    set_asked(alloc, &mut vars, asked)?;
    set_member(alloc, &mut vars, prefix, pkg, false, pkg)?;
    set_view(alloc, &mut vars, prefix, pkg, view.members.as_slice())?;
    Ok(vars)
}

fn set_globals(
    alloc: Global,
    vars: &mut Vars,
    globals: &[(Text, VarValue)],
) -> Result<(), OutOfMemory>
    ensures { OnOk result (vars.new ≡ with_rows vars.old (table.global_rows globals.now)) }
{
    for (name, value) in globals {
        set_plain(alloc, vars, name.as_str(), value.copy(alloc)?)?;
    }
    Ok(())
}

fn set_own(alloc: Global, vars: &mut Vars, prefix: &str, pkg: &Pkg) -> Result<(), OutOfMemory>
    ensures { OnOk result (vars.new ≡ with_rows vars.old (table.own_rows prefix.now pkg.now)) }
{
    let name = text_value(alloc, pkg.name.as_str())?;
    set_plain(alloc, vars, "name", name)?;
    let version = text_value(alloc, pkg.version.as_str())?;
    set_plain(alloc, vars, "version", version)?;
    set_plain(alloc, vars, "pinned", VarValue::Flag(false))?;
    set_plain(alloc, vars, "prefix", text_value(alloc, prefix)?)
}

fn set_folder(alloc: Global, vars: &mut Vars, prefix: &str, folder: &str) -> Result<(), OutOfMemory>
    ensures { OnOk result (vars.new ≡ with_rows vars.old
        (table.folder_row prefix.now folder.now ∷ [])) }
{
    let value = below(alloc, prefix, folder)?;
    set_plain(alloc, vars, folder, value)
}

fn set_library_folder(
    alloc: Global,
    vars: &mut Vars,
    prefix: &str,
    folder: &str,
) -> Result<(), OutOfMemory>
    ensures { OnOk result (vars.new ≡ with_rows vars.old
        (table.library_row prefix.now folder.now ∷ [])) }
{
    let mut path = String::from_str(alloc, "lib/")?;
    path.push_str(folder)?;
    let value = below(alloc, prefix, path.as_str())?;
    set_plain(alloc, vars, folder, value)
}

fn set_folders(alloc: Global, vars: &mut Vars, prefix: &str) -> Result<(), OutOfMemory>
    ensures { OnOk result (vars.new ≡ with_rows vars.old (table.folder_rows prefix.now)) }
{
    set_folder(alloc, vars, prefix, "bin")?;
    set_folder(alloc, vars, prefix, "sbin")?;
    set_folder(alloc, vars, prefix, "lib")?;
    set_folder(alloc, vars, prefix, "share")?;
    set_folder(alloc, vars, prefix, "doc")?;
    set_folder(alloc, vars, prefix, "etc")?;
    set_folder(alloc, vars, prefix, "man")?;
    set_library_folder(alloc, vars, prefix, "stublibs")?;
    set_library_folder(alloc, vars, prefix, "toplevel")
}

fn set_asked(alloc: Global, vars: &mut Vars, asked: &[Name]) -> Result<(), OutOfMemory>
    ensures { OnOk result (vars.new ≡ with_rows vars.old (table.asked_rows asked.now)) }
{
    for name in asked {
        set_installed(alloc, vars, name.as_str(), false)?;
    }
    Ok(())
}

fn set_view(
    alloc: Global,
    vars: &mut Vars,
    prefix: &str,
    built: &Pkg,
    members: &[Pkg],
) -> Result<(), OutOfMemory>
    ensures { OnOk result (vars.new ≡ with_rows vars.old
        (table.view_rows prefix.now built.now members.now)) }
{
    for pkg in members {
        set_member(alloc, vars, prefix, built, true, pkg)?;
    }
    Ok(())
}
