// The packages that there are in the world of a script, and those of them that words name. Words stand between commas, and `-` is
// none.
ghost use Rattle.std.specs.Prelude.{bytes_eq, map, IfOk};
ghost use Rattle.std.specs.List.{IsDistinct};
ghost use Rattle.lock_check.specs.Targets.{member_name};

use action_graph::are_in_order;
use lock_check::names_differ;
use opam_filter::Vars;
use opam_names::{Items, Name, Pkg};
use opam_package::{Member, OPAM_LIMIT, PackageFault, read_package};
use row_script::fault::Fault;
use row_script::lexer::Word;
use row_script::show::{answered, plain};
use row_script::values::{name_of, pkg_of};
use std::alloc::Global;

/// Puts a package with the text of its opam file there.
pub fn put(
    alloc: Global,
    shelf: &mut Vec<Member>,
    pkg: &Word,
    text: &Word,
) -> Result<String, Fault> {
    let member = member_of(alloc, pkg, text.bytes.as_slice())?;
    shelf.push(member)?;
    plain(alloc, "noted")
}

fn member_of(alloc: Global, pkg: &Word, bytes: &[u8]) -> Result<Member, Fault> {
    if bytes.len() > OPAM_LIMIT {
        return Err(Fault::Line("the text is too long"));
    }
    let pkg = pkg_of(alloc, pkg)?;
    match read_package(alloc, bytes, &pkg, &Vars::empty(alloc)) {
        Ok(package) => Ok(Member {
            package,
            opam: Items::from_slice(alloc, bytes)?,
        }),
        Err(PackageFault::Memory) => Err(Fault::Memory),
        Err(_) => Err(Fault::Line("the file has a fault")),
    }
}

fn is_blank(text: &str) -> bool {
    text.is_empty() || text == "-"
}

fn word_of(alloc: Global, text: &str) -> Result<Word, Fault> {
    Ok(Word {
        bytes: Vec::from_slice(alloc, text.as_bytes())?,
        quoted: false,
    })
}

/// The packages that a word names.
pub fn pkgs_in(alloc: Global, word: &Word) -> Result<Items<Pkg>, Fault> {
    let mut pkgs = Items::new(alloc);
    for text in word.text()?.split(',') {
        if !is_blank(text) {
            pkgs.push(pkg_of(alloc, &word_of(alloc, text)?)?)?;
        }
    }
    Ok(pkgs)
}

/// The names that a word names.
pub fn names_in(alloc: Global, word: &Word) -> Result<Items<Name>, Fault> {
    let mut names = Items::new(alloc);
    for text in word.text()?.split(',') {
        if !is_blank(text) {
            names.push(name_of(alloc, &word_of(alloc, text)?)?)?;
        }
    }
    Ok(names)
}

/// The package of the shelf, where it is there.
pub fn on_shelf<'a>(shelf: &'a [Member], pkg: &Pkg) -> Option<&'a Member> {
    for member in shelf {
        if member.package.pkg == *pkg {
            return Some(member);
        }
    }
    None
}

fn take(alloc: Global, shelf: &[Member], pkg: &Pkg) -> Result<Member, Fault> {
    match on_shelf(shelf, pkg) {
        None => Err(Fault::Line("a package is not on the shelf")),
        Some(member) => Ok(member.copy(alloc)?),
    }
}

// Those that a word names, in its order.
fn members_in(alloc: Global, shelf: &[Member], word: &Word) -> Result<Items<Member>, Fault> {
    let pkgs = pkgs_in(alloc, word)?;
    let mut members = Items::new(alloc);
    for pkg in pkgs.as_slice() {
        members.push(take(alloc, shelf, pkg)?)?;
    }
    Ok(members)
}

/// The same, each name once.
pub fn installed_in(alloc: Global, shelf: &[Member], word: &Word) -> Result<Items<Member>, Fault>
    ensures { IfOk result (λ members. IsDistinct bytes_eq (map member_name members)) }
{
    let members = members_in(alloc, shelf, word)?;
    if names_differ(alloc, members.as_slice())? {
        Ok(members)
    } else {
        Err(Fault::Line("two packages have one name"))
    }
}

/// Whether they stand in the byte order of their names.
pub fn rise(alloc: Global, shelf: &[Member], word: &Word) -> Result<String, Fault> {
    let members = members_in(alloc, shelf, word)?;
    answered(alloc, are_in_order(members.as_slice()))
}

/// Whether no two have one name.
pub fn differ(alloc: Global, shelf: &[Member], word: &Word) -> Result<String, Fault> {
    let members = members_in(alloc, shelf, word)?;
    answered(alloc, names_differ(alloc, members.as_slice())?)
}
