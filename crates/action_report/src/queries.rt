// What is told of the packages of a switch: a line for each, or all of one.
ghost use Rattle.std.specs.Prelude.{◌≡◌, ◌++◌, ◌<◌, IfOk, IfSome, OnOk, length};
ghost use Rattle.std.specs.List.{flat_map, position};
ghost use Rattle.std.specs.Option.{option_copied};
ghost use Rattle.action_report.specs.Queries as queries;
ghost use Rattle.action_report.specs.Queries.{is_newline, pkgs_of};

use opam_names::{Items, OutOfMemory, Pkg, RelPath, Text};
use opam_package::Member;
use owner_map::Owners;
use std::alloc::Global;

/// A line for each entry, in byte order of their names.
pub fn list_text(alloc: Global, entries: &[Member]) -> Result<Vec<u8>, OutOfMemory>
    ensures { IfOk result (λ text. text.items ≡ queries.list_text entries.now) }
{
    let mut pkgs = pkgs_of(alloc, entries)?;
    pkgs.sort_by_bytes()?;
    pkg_lines(alloc, pkgs.as_slice())
}

fn pkgs_of(alloc: Global, members: &[Member]) -> Result<Items<Pkg>, OutOfMemory>
    ensures { IfOk result (λ pkgs. pkgs ≡ pkgs_of members.now) }
{
    let mut pkgs = Items::new(alloc);
    for member in members {
        pkgs.push(member.package.pkg.copy(alloc)?)?;
    }
    Ok(pkgs)
}

fn pkg_lines(alloc: Global, pkgs: &[Pkg]) -> Result<Vec<u8>, OutOfMemory>
    ensures { IfOk result (λ text. text.items ≡ flat_map queries.pkg_line pkgs.now) }
{
    let mut text = Vec::new(alloc);
    for pkg in pkgs {
        add_pkg(alloc, &mut text, pkg)?;
    }
    Ok(text)
}

fn add_pkg(alloc: Global, text: &mut Vec<u8>, pkg: &Pkg) -> Result<(), OutOfMemory>
    ensures { OnOk result (text.new.items ≡ text.old.items ++ queries.pkg_line pkg.now) }
{
    let pkg = pkg.print(alloc)?;
    let line = format!(in alloc; "{pkg}\n")?;
    text.extend_from_slice(line.as_bytes())?;
    Ok(())
}

/// What is told of a package: its name, its version, whether it is installed, the first line of its synopsis, and the paths that it
/// owns. There are owners where it is installed.
pub fn show_text(
    alloc: Global,
    member: &Member,
    owners: Option<&Owners>,
) -> Result<Vec<u8>, OutOfMemory>
    ensures { IfOk result (λ text. text.items
        ≡ queries.show_text member.now (option_copied owners.entry)) }
{
    let mut text = Vec::new(alloc);
    add_head(&mut text, member, owners.is_some())?;
    add_synopsis(&mut text, &member.package.synopsis)?;
    add_owned(&mut text, &member.package.pkg, owners)?;
    Ok(text)
}

fn add_head(text: &mut Vec<u8>, member: &Member, installed: bool) -> Result<(), OutOfMemory>
    ensures { OnOk result (text.new.items
        ≡ text.old.items ++ queries.head_lines member.now installed) }
{
    add_line(text, "name: ", member.package.pkg.name.as_str().as_bytes())?;
    add_line(
        text,
        "version: ",
        member.package.pkg.version.as_str().as_bytes(),
    )?;
    add_line(text, "state: ", state_text(installed).as_bytes())
}

fn state_text(installed: bool) -> &'static str
    ensures { result.now ≡ queries.state_text installed }
{
    if installed { "installed" } else { "available" }
}

fn add_synopsis(text: &mut Vec<u8>, synopsis: &Option<Text>) -> Result<(), OutOfMemory>
    ensures { OnOk result (text.new.items
        ≡ text.old.items ++ queries.synopsis_line synopsis.now) }
{
    match synopsis {
        None => Ok(()),
        Some(synopsis) => add_line(text, "synopsis: ", first_line(synopsis.as_str().as_bytes())),
    }
}

fn first_line(bytes: &[u8]) -> &[u8]
    ensures { result.now ≡ queries.first_line bytes.now }
{
    match first_newline(bytes) {
        None => bytes,
        Some(at) => &bytes[..at],
    }
}

fn first_newline(bytes: &[u8]) -> Option<usize>
    ensures place { result ≡ position is_newline bytes.now }
    ensures within { IfSome result (λ at. at < length bytes.now) }
{
    bytes.iter().position(|b| *b == b'\n')
}

fn add_owned(text: &mut Vec<u8>, pkg: &Pkg, owners: Option<&Owners>) -> Result<(), OutOfMemory>
    ensures { OnOk result (text.new.items
        ≡ text.old.items ++ queries.owned_lines pkg.now (option_copied owners.entry)) }
{
    match owners {
        None => Ok(()),
        Some(owners) => add_paths(text, owners.paths_of(pkg)?.as_slice()),
    }
}

fn add_paths(text: &mut Vec<u8>, paths: &[RelPath]) -> Result<(), OutOfMemory>
    ensures { OnOk result (text.new.items
        ≡ text.old.items ++ flat_map queries.path_line paths.now) }
{
    for path in paths {
        add_line(text, "file: ", path.as_str().as_bytes())?;
    }
    Ok(())
}

fn add_line(text: &mut Vec<u8>, label: &str, value: &[u8]) -> Result<(), OutOfMemory>
    ensures { OnOk result (text.new.items
        ≡ text.old.items ++ queries.labelled label.now value.now) }
{
    text.extend_from_slice(label.as_bytes())?;
    text.extend_from_slice(value)?;
    text.push(b'\n')?;
    Ok(())
}
