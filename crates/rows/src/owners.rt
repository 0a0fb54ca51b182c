// Calls of `owner_map`, on the owned paths that the lines so far have left. `Owners::empty` begins anew.
use opam_names::{Pkg, ReadFault, RelPath};
use owner_map::{Other, Owners};
use row_script::fault::Fault;
use row_script::lexer::Word;
use row_script::script::Call;
use row_script::show::{answered, plain};
use row_script::values::{cut, path_of, pkg_of};
use std::alloc::Global;

/// No line adds more paths by number.
const MOST_PATHS: u64 = 2000000;

pub fn answer(alloc: Global, call: &Call, owners: &mut Owners) -> Result<String, Fault> {
    let name = call.name.as_str();
    let words = call.words.as_slice();
    if name == "Owners::clash" {
        return clash(alloc, words, owners);
    }
    match words {
        [] => answer_bare(alloc, name, owners),
        [word] => answer_word(alloc, name, word, owners),
        [one, other] => answer_pair(alloc, name, one, other, owners),
        _ => Err(Fault::Unknown),
    }
}

fn answer_bare(alloc: Global, name: &str, owners: &mut Owners) -> Result<String, Fault> {
    match name {
        "Owners::empty" => empty(alloc, owners),
        "Owners::len" => len(alloc, owners),
        _ => Err(Fault::Unknown),
    }
}

fn answer_word(
    alloc: Global,
    name: &str,
    word: &Word,
    owners: &mut Owners,
) -> Result<String, Fault> {
    match name {
        "Owners::reserve" => reserve(alloc, word, owners),
        "Owners::owner" => owner(alloc, word, owners),
        "Owners::at" => at(alloc, word, owners),
        "Owners::drop_owner" => drop_owner(alloc, word, owners),
        _ => Err(Fault::Unknown),
    }
}

fn answer_pair(
    alloc: Global,
    name: &str,
    one: &Word,
    other: &Word,
    owners: &mut Owners,
) -> Result<String, Fault> {
    match name {
        "Owners::add" => add(alloc, one, other, owners),
        "Owners::large" => large(alloc, one, other, owners),
        _ => Err(Fault::Unknown),
    }
}

fn empty(alloc: Global, owners: &mut Owners) -> Result<String, Fault> {
    *owners = Owners::empty(alloc);
    plain(alloc, "empty")
}

fn reserve(alloc: Global, count: &Word, owners: &mut Owners) -> Result<String, Fault> {
    let count = count.number()? as usize;
    owners.reserve(count)?;
    answered(alloc, owners.spare() >= count)
}

fn add(alloc: Global, path: &Word, owner: &Word, owners: &mut Owners) -> Result<String, Fault> {
    let path = path_of(alloc, path)?;
    let owner = pkg_of(alloc, owner)?;
    add_path(path, owner, owners)?;
    plain(alloc, "added")
}

fn add_path(path: RelPath, owner: Pkg, owners: &mut Owners) -> Result<(), Fault> {
    if owners.spare() == 0 {
        return Err(Fault::Line("there is no room"));
    }
    let free = owners.is_free(&path)?;
    if !free {
        return Err(Fault::Line("the path meets an owned one"));
    }
    owners.add(path, owner);
    Ok(())
}

fn owner(alloc: Global, path: &Word, owners: &Owners) -> Result<String, Fault> {
    match owners.owner(&path_of(alloc, path)?) {
        Some(owner) => Ok(owner.print(alloc)?),
        None => plain(alloc, "nobody"),
    }
}

fn len(alloc: Global, owners: &Owners) -> Result<String, Fault> {
    let len = owners.len();
    Ok(format!(in alloc; "{len}")?)
}

fn at(alloc: Global, place: &Word, owners: &Owners) -> Result<String, Fault> {
    let place = place.number()? as usize;
    if place >= owners.len() {
        return Err(Fault::Line("there is no such place"));
    }
    let (path, owner) = owners.at(place);
    let path = path.as_str();
    let owner = owner.print(alloc)?;
    Ok(format!(in alloc; "{path} of {owner}")?)
}

fn paths_of(alloc: Global, words: &[Word]) -> Result<Vec<RelPath>, Fault> {
    let mut paths = Vec::new(alloc);
    for word in words {
        paths.push(path_of(alloc, word)?)?;
    }
    Ok(paths)
}

fn clash(alloc: Global, words: &[Word], owners: &Owners) -> Result<String, Fault> {
    let paths = paths_of(alloc, words)?;
    show_clash(alloc, paths.as_slice(), owners)
}

fn show_clash(alloc: Global, paths: &[RelPath], owners: &Owners) -> Result<String, Fault> {
    let Some(clash) = owners.clash(paths)? else {
        return plain(alloc, "none");
    };
    let index = clash.index;
    match clash.other {
        Other::Earlier(place) => Ok(format!(in alloc; "{index} meets earlier {place}")?),
        Other::Owned(place) => Ok(format!(in alloc; "{index} meets owned {place}")?),
    }
}

fn drop_owner(alloc: Global, owner: &Word, owners: &mut Owners) -> Result<String, Fault> {
    let count = owners.drop_owner(&pkg_of(alloc, owner)?);
    Ok(format!(in alloc; "{count}")?)
}

// Adds so many paths `lib/p/K` of a.1, K rising in seven digits, and looks for clashes of so many `lib/q/K`.
fn large(alloc: Global, count: &Word, tests: &Word, owners: &mut Owners) -> Result<String, Fault> {
    let count = count.number()?.min(MOST_PATHS);
    owners.reserve(count as usize)?;
    for number in 0..count {
        add_numbered(alloc, number, owners)?;
    }
    let paths = numbered_paths(alloc, tests.number()?.min(MOST_PATHS))?;
    show_large(alloc, paths.as_slice(), owners)
}

fn show_large(alloc: Global, paths: &[RelPath], owners: &Owners) -> Result<String, Fault> {
    let found = show_clash(alloc, paths, owners)?;
    let len = owners.len();
    Ok(format!(in alloc; "{len} owned, {found}")?)
}

fn add_numbered(alloc: Global, number: u64, owners: &mut Owners) -> Result<(), Fault> {
    let path = numbered_path(alloc, "p", number)?;
    add_path(path, numbered_owner(alloc)?, owners)
}

fn numbered_paths(alloc: Global, count: u64) -> Result<Vec<RelPath>, Fault> {
    let mut paths = Vec::new(alloc);
    for number in 0..count {
        paths.push(numbered_path(alloc, "q", number)?)?;
    }
    Ok(paths)
}

fn numbered_owner(alloc: Global) -> Result<Pkg, Fault> {
    match Pkg::read(alloc, b"a.1") {
        Ok(owner) => Ok(owner),
        Err(ReadFault::Bad { .. }) => Err(Fault::Line("a word is no package")),
        Err(ReadFault::Memory) => Err(Fault::Memory),
    }
}

fn numbered_path(alloc: Global, folder: &str, number: u64) -> Result<RelPath, Fault> {
    let text = format!(in alloc; "lib/{folder}/{number:07}")?;
    match RelPath::read(alloc, cut(text.as_bytes())) {
        Ok(path) => Ok(path),
        Err(ReadFault::Bad { .. }) => Err(Fault::Line("a word is no path")),
        Err(ReadFault::Memory) => Err(Fault::Memory),
    }
}
