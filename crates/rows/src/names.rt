// Calls of `opam_names`.
ghost use Rattle.std.specs.Prelude.{◌<◌, ◌^◌, length, IfOk};
ghost use Rattle.opam_names.specs.ByteOrders.{NeverFallsBy};

use opam_names::{
    Name, Pkg, ReadFault, RelPath, Version, count_before_bytes, find_by_bytes, has_bytes,
    keep_first_of_each, order_is_stable, rises_by_bytes, sort_by_bytes, text_order,
};
use row_script::fault::Fault;
use row_script::lexer::Word;
use row_script::script::Call;
use row_script::show::{answered, plain, quoted};
use row_script::values::{bytes_of, name_of, path_of, pkg_of, version_of};
use std::alloc::Global;
use std::cmp::Ordering;

pub fn answer(alloc: Global, call: &Call) -> Result<String, Fault> {
    let name = call.name.as_str();
    let words = call.words.as_slice();
    match name {
        "sort_by_bytes" => sort(alloc, words),
        "keep_first_of_each" => keep_first(alloc, words),
        "rises_by_bytes" => rise(alloc, words),
        "count_before_bytes" => count_before(alloc, words),
        "find_by_bytes" => find(alloc, words),
        "has_bytes" => has(alloc, words),
        _ => answer_few(alloc, name, words),
    }
}

// Calls with up to two words.
fn answer_few(alloc: Global, name: &str, words: &[Word]) -> Result<String, Fault> {
    match words {
        [] => answer_bare(alloc, name),
        [word] => answer_word(alloc, name, word),
        [one, other] => answer_pair(alloc, name, one, other),
        _ => Err(Fault::Unknown),
    }
}

fn answer_bare(alloc: Global, name: &str) -> Result<String, Fault> {
    match name {
        "RelPath::fixed" => fixed(alloc),
        _ => Err(Fault::Unknown),
    }
}

fn answer_word(alloc: Global, name: &str, word: &Word) -> Result<String, Fault> {
    match name {
        "Name::read" => read_name(alloc, word),
        "Version::read" => read_version(alloc, word),
        "Pkg::read" => read_pkg(alloc, word),
        "RelPath::read" => read_path(alloc, word),
        "Name::copy" => copy_name(alloc, word),
        "Version::copy" => copy_version(alloc, word),
        "Pkg::copy" => copy_pkg(alloc, word),
        "RelPath::copy" => copy_path(alloc, word),
        "Name::is_name" => answered(alloc, Name::is_name(word.bytes.as_slice())),
        "Version::is_version" => answered(alloc, Version::is_version(word.bytes.as_slice())),
        "RelPath::is_path" => answered(alloc, RelPath::is_path(word.bytes.as_slice())),
        _ => Err(Fault::Unknown),
    }
}

fn answer_pair(alloc: Global, name: &str, one: &Word, other: &Word) -> Result<String, Fault> {
    match name {
        "RelPath::join" => join(alloc, one, other),
        "RelPath::above" => above(alloc, one, other),
        "Pkg::print" => print(alloc, one, other),
        "Name::cmp" => compare(alloc, one, other),
        "Version::order" => order(alloc, one, other),
        "text_order" => order_texts(alloc, one, other),
        _ => Err(Fault::Unknown),
    }
}

fn faulty(alloc: Global, fault: ReadFault) -> Result<String, Fault> {
    match fault {
        ReadFault::Bad { at } => Ok(format!(in alloc; "bad at {at}")?),
        ReadFault::Memory => Err(Fault::Memory),
    }
}

fn read_name(alloc: Global, word: &Word) -> Result<String, Fault> {
    match Name::read(alloc, bytes_of(word)) {
        Ok(name) => plain(alloc, name.as_str()),
        Err(fault) => faulty(alloc, fault),
    }
}

fn read_version(alloc: Global, word: &Word) -> Result<String, Fault> {
    match Version::read(alloc, bytes_of(word)) {
        Ok(version) => plain(alloc, version.as_str()),
        Err(fault) => faulty(alloc, fault),
    }
}

fn read_pkg(alloc: Global, word: &Word) -> Result<String, Fault> {
    match Pkg::read(alloc, bytes_of(word)) {
        Ok(pkg) => show_pkg(alloc, &pkg),
        Err(fault) => faulty(alloc, fault),
    }
}

fn show_pkg(alloc: Global, pkg: &Pkg) -> Result<String, Fault> {
    let name = pkg.name.as_str();
    let version = pkg.version.as_str();
    Ok(format!(in alloc; "{name} and {version}")?)
}

fn read_path(alloc: Global, word: &Word) -> Result<String, Fault> {
    match RelPath::read(alloc, bytes_of(word)) {
        Ok(path) => quoted(alloc, path.as_str().as_bytes()),
        Err(fault) => faulty(alloc, fault),
    }
}

// It is for paths that stand in the code.
fn fixed(alloc: Global) -> Result<String, Fault> {
    let path = RelPath::fixed(alloc, "bin/x")?;
    quoted(alloc, path.as_str().as_bytes())
}

fn join(alloc: Global, folder: &Word, below: &Word) -> Result<String, Fault> {
    let folder = path_of(alloc, folder)?;
    match folder.join(alloc, &path_of(alloc, below)?) {
        Ok(path) => quoted(alloc, path.as_str().as_bytes()),
        Err(fault) => faulty(alloc, fault),
    }
}

fn above(alloc: Global, one: &Word, other: &Word) -> Result<String, Fault> {
    let one = path_of(alloc, one)?;
    answered(alloc, one.above(&path_of(alloc, other)?))
}

fn print(alloc: Global, name: &Word, version: &Word) -> Result<String, Fault> {
    let pkg = Pkg {
        name: name_of(alloc, name)?,
        version: version_of(alloc, version)?,
    };
    Ok(pkg.print(alloc)?)
}

fn copy_name(alloc: Global, word: &Word) -> Result<String, Fault> {
    plain(alloc, name_of(alloc, word)?.copy(alloc)?.as_str())
}

fn copy_version(alloc: Global, word: &Word) -> Result<String, Fault> {
    plain(alloc, version_of(alloc, word)?.copy(alloc)?.as_str())
}

fn copy_pkg(alloc: Global, word: &Word) -> Result<String, Fault> {
    show_pkg(alloc, &pkg_of(alloc, word)?.copy(alloc)?)
}

fn copy_path(alloc: Global, word: &Word) -> Result<String, Fault> {
    let path = path_of(alloc, word)?.copy(alloc)?;
    quoted(alloc, path.as_str().as_bytes())
}

fn show_order(alloc: Global, order: Ordering) -> Result<String, Fault> {
    let sign = match order {
        Ordering::Less => "<",
        Ordering::Equal => "equal",
        Ordering::Greater => ">",
    };
    plain(alloc, sign)
}

fn compare(alloc: Global, one: &Word, other: &Word) -> Result<String, Fault> {
    let one = name_of(alloc, one)?;
    show_order(alloc, one.cmp(&name_of(alloc, other)?))
}

fn order(alloc: Global, one: &Word, other: &Word) -> Result<String, Fault> {
    let one = version_of(alloc, one)?;
    show_order(alloc, one.order(&version_of(alloc, other)?))
}

fn order_texts(alloc: Global, one: &Word, other: &Word) -> Result<String, Fault> {
    show_order(alloc, text_order(one.text()?, other.text()?))
}

// Packages stand by their names.
fn pkgs_of(alloc: Global, words: &[Word]) -> Result<Vec<Pkg>, Fault> {
    let mut pkgs = Vec::new(alloc);
    for word in words {
        pkgs.push(pkg_of(alloc, word)?)?;
    }
    Ok(pkgs)
}

fn show_pkgs(alloc: Global, pkgs: &[Pkg]) -> Result<String, Fault> {
    let mut text = String::from_str(alloc, "packages:")?;
    for pkg in pkgs {
        push_pkg(alloc, &mut text, pkg)?;
    }
    Ok(text)
}

fn push_pkg(alloc: Global, text: &mut String, pkg: &Pkg) -> Result<(), Fault> {
    text.push_str(" ")?;
    Ok(text.push_str(pkg.print(alloc)?.as_str())?)
}

fn sort(alloc: Global, words: &[Word]) -> Result<String, Fault> {
    let mut pkgs = pkgs_of(alloc, words)?;
    sort_by_bytes(&mut pkgs)?;
    show_pkgs(alloc, pkgs.as_slice())
}

fn keep_first(alloc: Global, words: &[Word]) -> Result<String, Fault> {
    let mut pkgs = pkgs_of(alloc, words)?;
    keep_first_of_each(&mut pkgs);
    show_pkgs(alloc, pkgs.as_slice())
}

fn rise(alloc: Global, words: &[Word]) -> Result<String, Fault> {
    answered(alloc, rises_by_bytes(pkgs_of(alloc, words)?.as_slice()))
}

// Sorted first, as a search asks for.
fn sorted_pkgs(alloc: Global, words: &[Word]) -> Result<Vec<Pkg>, Fault>
    ensures { IfOk result (λ pkgs. NeverFallsBy (λ pkg. pkg.name) pkgs.items) }
{
    let mut pkgs = pkgs_of(alloc, words)?;
    sort_by_bytes(&mut pkgs)?;
    order_is_stable::<Pkg>();
    Ok(pkgs)
}

fn count_before(alloc: Global, words: &[Word]) -> Result<String, Fault> {
    let [key, words @ ..] = words else {
        return Err(Fault::Unknown);
    };
    let pkgs = sorted_pkgs(alloc, words)?;
    let count = count_before_bytes(pkgs.as_slice(), key.bytes.as_slice());
    Ok(format!(in alloc; "{count}")?)
}

fn find(alloc: Global, words: &[Word]) -> Result<String, Fault> {
    let [key, words @ ..] = words else {
        return Err(Fault::Unknown);
    };
    let pkgs = sorted_pkgs(alloc, words)?;
    match find_by_bytes(pkgs.as_slice(), key.bytes.as_slice()) {
        Some(place) => Ok(format!(in alloc; "at {place}")?),
        None => plain(alloc, "nowhere"),
    }
}

fn has(alloc: Global, words: &[Word]) -> Result<String, Fault> {
    let [key, words @ ..] = words else {
        return Err(Fault::Unknown);
    };
    let pkgs = sorted_pkgs(alloc, words)?;
    answered(alloc, has_bytes(pkgs.as_slice(), key.bytes.as_slice()))
}
