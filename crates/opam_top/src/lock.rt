// Lock files.
ghost use Rattle.std.specs.Prelude.{◌≡◌, ◌≤◌, ◌++◌, Some, None, IfOk, IfSome, OnOk, bytes_eq, if◌then◌else◌, length};
ghost use Rattle.std.specs.List.{list_any};
ghost use Rattle.opam_names.specs.Names.{is_name, is_version};
ghost use Rattle.opam_top.specs.Locks.{are_bound, are_named_once, bound_as_spelled, further_pkgs, in_name_order, is_named_before, lock_text, pkg_item, place_of_pkg, read_lock, read_pkg, read_pkgs, spaced_pkgs};

use crate::spelling::{is_spelling, push_in_quotes, quoted_texts};
use opam_names::{Items, Name, OutOfMemory, Pkg, ReadFault, Version};
use std::alloc::Global;
use std::cmp::Ordering;

// What a lock binds, in the order of the names byte by byte, or `None` where its text is not built.
pub fn bound_by(alloc: Global, bytes: &[u8]) -> Result<Option<Items<Pkg>>, OutOfMemory>
    ensures read { IfOk result (λ bound. bound ≡ read_lock bytes.now) }
    ensures few { IfOk result (λ bound. IfSome bound (λ pkgs. length pkgs ≤ 64)) }
{
    if bytes.is_empty() {
        return Ok(Some(Items::new(alloc)));
    }
    let texts = quoted_texts(alloc, bytes)?;
    match pkgs_of(alloc, texts.as_slice())? {
        None => Ok(None),
        Some(pkgs) => bound_as_spelled(alloc, bytes, pkgs),
    }
}

// The packages in the order of their names, if these bytes spell them.
fn bound_as_spelled(
    alloc: Global,
    bytes: &[u8],
    pkgs: Items<Pkg>,
) -> Result<Option<Items<Pkg>>, OutOfMemory>
    ensures { IfOk result (λ bound. bound ≡ bound_as_spelled bytes.now (Some pkgs)) }
{
    if !are_bound(pkgs.as_slice()) {
        return Ok(None);
    }
    let text = text_of_lock(alloc, pkgs.as_slice())?;
    if !is_spelling(bytes, text.as_slice()) {
        return Ok(None);
    }
    Ok(Some(in_name_order(alloc, pkgs)?))
}

// The packages whose names and versions these texts are by turns.
fn pkgs_of(alloc: Global, texts: &[Items<u8>]) -> Result<Option<Items<Pkg>>, OutOfMemory>
    ensures { IfOk result (λ pkgs. pkgs ≡ read_pkgs texts.now) }
{
    let mut pkgs = Items::new(alloc);
    let mut rest = texts;
    while let [name, version, more @ ..] = rest {
        match pkg_of(alloc, name.as_slice(), version.as_slice())? {
            None => return Ok(None),
            Some(pkg) => pkgs.push(pkg)?,
        }
        rest = more;
    }
    if rest.is_empty() {
        Ok(Some(pkgs))
    } else {
        Ok(None)
    }
}

fn pkg_of(alloc: Global, name: &[u8], version: &[u8]) -> Result<Option<Pkg>, OutOfMemory>
    ensures { IfOk result (λ pkg. pkg ≡ read_pkg name.now version.now) }
{
    let Some(name) = read_name(alloc, name)? else {
        return Ok(None);
    };
    let Some(version) = read_version(alloc, version)? else {
        return Ok(None);
    };
    Ok(Some(Pkg { name, version }))
}

fn read_name(alloc: Global, bytes: &[u8]) -> Result<Option<Name>, OutOfMemory>
    ensures { IfOk result (λ name. name ≡ (if is_name bytes.now then Some bytes.now else None)) }
{
    if bytes.len() > 120 {
        return Ok(None);
    }
    match Name::read(alloc, bytes) {
        Ok(name) => Ok(Some(name)),
        Err(ReadFault::Bad { .. }) => Ok(None),
        Err(ReadFault::Memory) => Err(OutOfMemory),
    }
}

fn read_version(alloc: Global, bytes: &[u8]) -> Result<Option<Version>, OutOfMemory>
    ensures { IfOk result (λ version. version ≡ (if is_version bytes.now then Some bytes.now else None)) }
{
    if bytes.len() > 120 {
        return Ok(None);
    }
    match Version::read(alloc, bytes) {
        Ok(version) => Ok(Some(version)),
        Err(ReadFault::Bad { .. }) => Ok(None),
        Err(ReadFault::Memory) => Err(OutOfMemory),
    }
}

// Whether a lock may have these.
fn are_bound(pkgs: &[Pkg]) -> bool
    ensures { result ≡ are_bound pkgs.now }
{
    pkgs.len() <= 64 && are_named_once(pkgs)
}

fn are_named_once(pkgs: &[Pkg]) -> bool
    ensures { result ≡ are_named_once pkgs.now }
{
    let mut rest = pkgs;
    while let [pkg, more @ ..] = rest {
        if has_name_of(pkg, more) {
            return false;
        }
        rest = more;
    }
    true
}

// Whether one of them has the name of this package.
fn has_name_of(pkg: &Pkg, pkgs: &[Pkg]) -> bool
    ensures { result ≡ list_any (λ other. bytes_eq pkg.now.name other.name) pkgs.now }
{
    for other in pkgs {
        if pkg.name.as_str() == other.name.as_str() {
            return true;
        }
    }
    false
}

// The canonical spelling.
fn text_of_lock(alloc: Global, pkgs: &[Pkg]) -> Result<Vec<u8>, OutOfMemory>
    ensures { IfOk result (λ text. text.items ≡ lock_text pkgs.now) }
{
    let mut text = Vec::from_slice(alloc, b"depends: [")?;
    push_spaced(&mut text, pkgs)?;
    text.extend_from_slice(b"]\n")?;
    Ok(text)
}

fn push_spaced(text: &mut Vec<u8>, pkgs: &[Pkg]) -> Result<(), OutOfMemory>
    ensures { OnOk result (text.new.items ≡ text.old.items ++ spaced_pkgs pkgs.now) }
{
    match pkgs {
        [] => Ok(()),
        [first, more @ ..] => {
            push_pkg(text, first)?;
            push_further(text, more)
        }
    }
}

fn push_further(text: &mut Vec<u8>, pkgs: &[Pkg]) -> Result<(), OutOfMemory>
    ensures { OnOk result (text.new.items ≡ text.old.items ++ further_pkgs pkgs.now) }
{
    for pkg in pkgs {
        text.extend_from_slice(b" ")?;
        push_pkg(text, pkg)?;
    }
    Ok(())
}

fn push_pkg(text: &mut Vec<u8>, pkg: &Pkg) -> Result<(), OutOfMemory>
    ensures { OnOk result (text.new.items ≡ text.old.items ++ pkg_item pkg.now) }
{
    push_in_quotes(text, pkg.name.as_str().as_bytes())?;
    text.extend_from_slice(b" {= ")?;
    push_in_quotes(text, pkg.version.as_str().as_bytes())?;
    text.extend_from_slice(b"}")?;
    Ok(())
}

// The packages in the order of their names, byte by byte.
fn in_name_order(alloc: Global, pkgs: Items<Pkg>) -> Result<Items<Pkg>, OutOfMemory>
    ensures { IfOk result (λ order. order ≡ in_name_order pkgs) }
{
    let mut left = pkgs.into_vec();
    let mut order = Vec::new(alloc);
    while let Some(pkg) = left.pop() {
        let place = place_before(&pkg, order.as_slice());
        order.insert(place, pkg)?;
    }
    Ok(Items::from_vec(order))
}

fn place_before(pkg: &Pkg, pkgs: &[Pkg]) -> usize
    ensures value { result ≡ place_of_pkg pkg.now pkgs.now }
    ensures within { result ≤ length pkgs.now }
{
    for (place, other) in pkgs.iter().enumerate() {
        if !is_named_before(other, pkg) {
            return place;
        }
    }
    pkgs.len()
}

fn is_named_before(pkg: &Pkg, other: &Pkg) -> bool
    ensures { result ≡ is_named_before pkg.now other.now }
{
    pkg.name.as_str().cmp(other.name.as_str()) == Ordering::Less
}
