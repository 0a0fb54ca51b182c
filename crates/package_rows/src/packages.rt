// Calls of `opam_package`. The items of a file stand between `;`: a field as its name and its value, a section as its name, `{`
// and perhaps a field.
use crate::files::{empty_file, section_of};
use crate::filter_show::push_reduced;
use crate::filters::{faulty, set_of};
use crate::package_show::{push_command, push_need, push_update};
use crate::spans::{show_at, show_doubled};
use crate::trees::{read_tree, syntax_word};
use indexmap::IndexMap;
use opam_filter::{Reduced, Vars};
use opam_names::{Name, Pkg, Text};
use opam_package::{
    Command, EnvUpdate, Need, OPAM_LIMIT, Package, PackageFault, edges, forbids, needs, package_of,
    read_package,
};
use row_script::fault::Fault;
use row_script::lexer::Word;
use row_script::script::Call;
use row_script::show::{answered, plain, push_quoted, quoted};
use row_script::values::pkg_of;
use std::alloc::Global;
use syntax_trees::{File, Item, Key, SyntaxFault};

pub fn answer(alloc: Global, call: &Call, vars: &Vars) -> Result<String, Fault> {
    let [one, other, words @ ..] = call.words.as_slice() else {
        return Err(Fault::Unknown);
    };
    match call.name.as_str() {
        "package_of" => show(alloc, one, other, words, vars),
        "Package::copy" => show_copy(alloc, one, other, words, vars),
        "read_package" => read(alloc, one, other, words, vars),
        "edges" => show_edges(alloc, one, other, words, vars),
        "needs" => show_needs(alloc, one, other, words, vars),
        "forbids" => forbid(alloc, one, other, words, vars),
        _ => Err(Fault::Unknown),
    }
}

// The words up to the next `;`, and those after it.
fn first_item(words: &[Word]) -> (&[Word], &[Word]) {
    match words.iter().position(|word| word.is(";")) {
        Some(at) => {
            let (item, rest) = words.split_at(at);
            match rest {
                [_, later @ ..] => (item, later),
                [] => (item, rest),
            }
        }
        None => (words, &[]),
    }
}

fn add_item(alloc: Global, file: &mut File, words: &[Word]) -> Result<(), Fault> {
    let [name, words @ ..] = words else {
        return Err(Fault::Line("an item has no name"));
    };
    let item = item_of(alloc, words)?;
    let key = Key {
        name: syntax_word(alloc, name.text()?)?,
        section: matches!(item, Item::Section(_)),
        label: None,
    };
    file.items.insert(key, item)?;
    Ok(())
}

fn item_of(alloc: Global, words: &[Word]) -> Result<Item, Fault> {
    match words {
        [open] if open.is("{") => Ok(Item::Section(IndexMap::new(alloc))),
        [open, field, tree @ ..] if open.is("{") => section_of(alloc, field, tree),
        _ => Ok(Item::Field(read_tree(alloc, words)?)),
    }
}

fn file_of(alloc: Global, words: &[Word]) -> Result<File, Fault> {
    let mut file = empty_file(alloc);
    let mut left = words;
    for _ in words {
        if left.is_empty() {
            return Ok(file);
        }
        let (item, later) = first_item(left);
        add_item(alloc, &mut file, item)?;
        left = later;
    }
    Ok(file)
}

fn package(
    alloc: Global,
    pkg: &Word,
    items: &[Word],
    vars: &Vars,
) -> Result<Result<Package, PackageFault>, Fault> {
    let pkg = pkg_of(alloc, pkg)?;
    let file = file_of(alloc, items)?;
    Ok(package_of(alloc, &file, &pkg, vars))
}

// A package without a fault.
fn sound(alloc: Global, pkg: &Word, items: &[Word], vars: &Vars) -> Result<Package, Fault> {
    match package(alloc, pkg, items, vars)? {
        Ok(package) => Ok(package),
        Err(PackageFault::Memory) => Err(Fault::Memory),
        Err(_) => Err(Fault::Line("the file has a fault")),
    }
}

fn show(
    alloc: Global,
    pkg: &Word,
    part: &Word,
    items: &[Word],
    vars: &Vars,
) -> Result<String, Fault> {
    match package(alloc, pkg, items, vars)? {
        Ok(package) => part_of(alloc, &package, part),
        Err(fault) => refused(alloc, fault),
    }
}

// The same of the text of an opam file.
fn read(
    alloc: Global,
    pkg: &Word,
    part: &Word,
    words: &[Word],
    vars: &Vars,
) -> Result<String, Fault> {
    let [text] = words else {
        return Err(Fault::Unknown);
    };
    let bytes = text.bytes.as_slice();
    if bytes.len() > OPAM_LIMIT {
        return Err(Fault::Line("the text is too long"));
    }
    match read_package(alloc, bytes, &pkg_of(alloc, pkg)?, vars) {
        Ok(package) => part_of(alloc, &package, part),
        Err(fault) => refused(alloc, fault),
    }
}

fn show_copy(
    alloc: Global,
    pkg: &Word,
    part: &Word,
    items: &[Word],
    vars: &Vars,
) -> Result<String, Fault> {
    let package = sound(alloc, pkg, items, vars)?;
    copied_part(alloc, &package, part)
}

fn copied_part(alloc: Global, package: &Package, part: &Word) -> Result<String, Fault> {
    let copy = package.copy(alloc)?;
    part_of(alloc, &copy, part)
}

/// Why a file is none of a package.
pub fn refused(alloc: Global, fault: PackageFault) -> Result<String, Fault> {
    match fault {
        PackageFault::Filter(fault) => faulty(alloc, fault),
        PackageFault::WrongKind { span } => show_at(alloc, "the wrong kind", span),
        PackageFault::NotText { span } => show_at(alloc, "no text", span),
        PackageFault::Mismatch { span } => show_at(alloc, "another package", span),
        PackageFault::OpamVersion { span } => show_at(alloc, "another format", span),
        PackageFault::TooMany { span } => show_at(alloc, "too many", span),
        PackageFault::EnvOperator { span } => show_at(alloc, "no update", span),
        PackageFault::Unsafe { span } => show_at(alloc, "unsafe", span),
        PackageFault::Syntax(SyntaxFault::Doubled { at }) => show_doubled(alloc, at),
        PackageFault::Syntax(_) => plain(alloc, "no file"),
        PackageFault::Memory => Err(Fault::Memory),
    }
}

/// A part of what a file says.
pub fn part_of(alloc: Global, package: &Package, part: &Word) -> Result<String, Fault> {
    match part.text()? {
        "depends" => all_needs(alloc, package.items.as_slice()),
        "depopts" => all_atoms(alloc, package.depopts.as_slice()),
        "conflicts" => all_atoms(alloc, package.conflicts.as_slice()),
        "classes" => all_texts(alloc, package.classes.as_slice()),
        "available" => answered(alloc, package.available),
        "refused" => all_texts(alloc, package.refused.as_slice()),
        "build" => all_commands(alloc, package.commands.as_slice()),
        "setenv" => all_updates(alloc, package.exports.as_slice()),
        "build-env" => all_updates(alloc, package.build_env.as_slice()),
        "substs" => all_paths(alloc, package),
        "source" => one_text(alloc, &package.source),
        "synopsis" => one_text(alloc, &package.synopsis),
        _ => Err(Fault::Line("a package has no such part")),
    }
}

fn one_text(alloc: Global, text: &Option<Text>) -> Result<String, Fault> {
    match text {
        None => plain(alloc, "none"),
        Some(text) => quoted(alloc, text.as_str().as_bytes()),
    }
}

fn all_texts(alloc: Global, texts: &[Text]) -> Result<String, Fault> {
    let mut shown = plain(alloc, "[")?;
    for text in texts {
        push_quoted(&mut shown, text.as_str().as_bytes())?;
    }
    shown.push_str("]")?;
    Ok(shown)
}

fn all_paths(alloc: Global, package: &Package) -> Result<String, Fault> {
    let mut shown = plain(alloc, "[")?;
    for path in package.substs.as_slice() {
        push_quoted(&mut shown, path.as_str().as_bytes())?;
    }
    shown.push_str("]")?;
    Ok(shown)
}

fn all_atoms(alloc: Global, atoms: &[Reduced]) -> Result<String, Fault> {
    let mut shown = plain(alloc, "[")?;
    for atom in atoms {
        push_reduced(&mut shown, atom)?;
        shown.push_str(";")?;
    }
    shown.push_str("]")?;
    Ok(shown)
}

fn all_needs(alloc: Global, needs: &[Need]) -> Result<String, Fault> {
    let mut shown = plain(alloc, "[")?;
    for need in needs {
        push_need(&mut shown, need)?;
    }
    shown.push_str("]")?;
    Ok(shown)
}

fn all_commands(alloc: Global, commands: &[Command]) -> Result<String, Fault> {
    let mut shown = plain(alloc, "[")?;
    for command in commands {
        push_command(&mut shown, command)?;
    }
    shown.push_str("]")?;
    Ok(shown)
}

fn all_updates(alloc: Global, updates: &[EnvUpdate]) -> Result<String, Fault> {
    let mut shown = plain(alloc, "[")?;
    for update in updates {
        push_update(&mut shown, update)?;
    }
    shown.push_str("]")?;
    Ok(shown)
}

fn all_names(alloc: Global, names: &[Name]) -> Result<String, Fault> {
    let mut shown = plain(alloc, "[")?;
    for name in names {
        shown.push_str(" ")?;
        shown.push_str(name.as_str())?;
    }
    shown.push_str(" ]")?;
    Ok(shown)
}

fn show_edges(
    alloc: Global,
    set: &Word,
    pkg: &Word,
    items: &[Word],
    vars: &Vars,
) -> Result<String, Fault> {
    let package = sound(alloc, pkg, items, vars)?;
    let set = set_of(alloc, set)?;
    edges_of(alloc, &package, set.as_slice())
}

fn edges_of(alloc: Global, package: &Package, set: &[Pkg]) -> Result<String, Fault> {
    let found = edges(alloc, package, set)?;
    all_names(alloc, found.as_slice())
}

fn show_needs(
    alloc: Global,
    set: &Word,
    pkg: &Word,
    items: &[Word],
    vars: &Vars,
) -> Result<String, Fault> {
    let package = sound(alloc, pkg, items, vars)?;
    let set = set_of(alloc, set)?;
    needs_of(alloc, &package, set.as_slice())
}

fn needs_of(alloc: Global, package: &Package, set: &[Pkg]) -> Result<String, Fault> {
    let found = needs(alloc, package, set)?;
    all_names(alloc, found.as_slice())
}

fn forbid(
    alloc: Global,
    other: &Word,
    pkg: &Word,
    items: &[Word],
    vars: &Vars,
) -> Result<String, Fault> {
    let package = sound(alloc, pkg, items, vars)?;
    answered(alloc, forbids(&package, &pkg_of(alloc, other)?))
}
