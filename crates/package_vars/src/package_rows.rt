// The rows of a package under a scope.
ghost use Rattle.std.specs.Prelude.{◌≡◌, [], ◌∷◌, OnOk, bytes_eq, codes, if◌then◌else◌};
ghost use Rattle.package_vars.specs.BuildVariables as table;
ghost use Rattle.package_vars.specs.Steps.{with_rows};

use crate::variable_rows::{below, set_scoped, text_value};
use opam_filter::{VarValue, Vars};
use opam_names::{OutOfMemory, Pkg};
use std::alloc::Global;

fn enable_word(installed: bool) -> &'static str
    ensures { result.now ≡ (if installed then codes "enable" else codes "disable") }
{
    if installed { "enable" } else { "disable" }
}

pub(crate) fn set_installed(
    alloc: Global,
    vars: &mut Vars,
    scope: &str,
    installed: bool,
) -> Result<(), OutOfMemory>
    ensures { OnOk result (vars.new ≡ with_rows vars.old
        (table.installed_rows scope.now installed)) }
{
    set_scoped(alloc, vars, scope, "installed", VarValue::Flag(installed))?;
    let enable = text_value(alloc, enable_word(installed))?;
    set_scoped(alloc, vars, scope, "enable", enable)
}

fn set_package_folder(
    alloc: Global,
    vars: &mut Vars,
    prefix: &str,
    scope: &str,
    name: &str,
    folder: &str,
) -> Result<(), OutOfMemory>
    ensures { OnOk result (vars.new ≡ with_rows vars.old
        (table.package_folder_row prefix.now scope.now name.now folder.now ∷ [])) }
{
    let mut path = String::from_str(alloc, folder)?;
    path.push_str("/")?;
    path.push_str(name)?;
    let value = below(alloc, prefix, path.as_str())?;
    set_scoped(alloc, vars, scope, folder, value)
}

fn set_shared_folder(
    alloc: Global,
    vars: &mut Vars,
    prefix: &str,
    scope: &str,
    folder: &str,
) -> Result<(), OutOfMemory>
    ensures { OnOk result (vars.new ≡ with_rows vars.old
        (table.shared_folder_row prefix.now scope.now folder.now ∷ [])) }
{
    let value = below(alloc, prefix, folder)?;
    set_scoped(alloc, vars, scope, folder, value)
}

fn set_folders(
    alloc: Global,
    vars: &mut Vars,
    prefix: &str,
    scope: &str,
    name: &str,
) -> Result<(), OutOfMemory>
    ensures { OnOk result (vars.new ≡ with_rows vars.old
        (table.package_folder_rows prefix.now scope.now name.now)) }
{
    set_package_folder(alloc, vars, prefix, scope, name, "lib")?;
    set_package_folder(alloc, vars, prefix, scope, name, "share")?;
    set_package_folder(alloc, vars, prefix, scope, name, "doc")?;
    set_package_folder(alloc, vars, prefix, scope, name, "etc")?;
    set_shared_folder(alloc, vars, prefix, scope, "bin")?;
    set_shared_folder(alloc, vars, prefix, scope, "sbin")?;
    set_shared_folder(alloc, vars, prefix, scope, "man")
}

fn set_package(
    alloc: Global,
    vars: &mut Vars,
    prefix: &str,
    scope: &str,
    pkg: &Pkg,
    installed: bool,
) -> Result<(), OutOfMemory>
    ensures { OnOk result (vars.new ≡ with_rows vars.old
        (table.package_rows prefix.now scope.now pkg.now installed)) }
{
    let name = text_value(alloc, pkg.name.as_str())?;
    set_scoped(alloc, vars, scope, "name", name)?;
    let version = text_value(alloc, pkg.version.as_str())?;
    set_scoped(alloc, vars, scope, "version", version)?;
    set_folders(alloc, vars, prefix, scope, pkg.name.as_str())?;
    set_installed(alloc, vars, scope, installed)
}

// Under its name, and under `_` where that is the name of the package that is built.
pub(crate) fn set_member(
    alloc: Global,
    vars: &mut Vars,
    prefix: &str,
    built: &Pkg,
    installed: bool,
    pkg: &Pkg,
) -> Result<(), OutOfMemory>
    ensures { OnOk result (vars.new ≡ with_rows vars.old
        (table.member_rows prefix.now built.now installed pkg.now)) }
{
    set_package(alloc, vars, prefix, pkg.name.as_str(), pkg, installed)?;
    if pkg.name == built.name {
        set_package(alloc, vars, prefix, "_", pkg, installed)?;
    }
    Ok(())
}
