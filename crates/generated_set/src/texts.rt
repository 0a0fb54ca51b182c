// The texts of a generated set.
ghost use Rattle.std.specs.Prelude.{◌≡◌, ◌++◌, IfOk, OnOk, string_bytes};
ghost use Rattle.std.specs.List.{flat_map};
ghost use Rattle.generated_set.specs.Texts as texts;
ghost use Rattle.generated_set.specs.Texts.{need_text};

use opam_names::OutOfMemory;
use std::alloc::Global;

// The opam file of a package with these needs.
pub(crate) fn opam_text(alloc: Global, needs: &[u32]) -> Result<String, OutOfMemory>
    ensures { IfOk result (λ text. string_bytes text ≡ texts.opam_text needs.now) }
{
    let depends = depends_text(alloc, needs)?;
    let text = format!(in alloc; "opam-version: \"2.0\"\n{depends}build: [[\"make\" name]]\n")?;
    Ok(text)
}

fn depends_text(alloc: Global, needs: &[u32]) -> Result<String, OutOfMemory>
    ensures { IfOk result (λ text. string_bytes text ≡ texts.depends_text needs.now) }
{
    if needs.is_empty() {
        return Ok(String::new(alloc));
    }
    let list = need_texts(alloc, needs)?;
    let text = format!(in alloc; "depends: [{list} ]\n")?;
    Ok(text)
}

fn need_texts(alloc: Global, needs: &[u32]) -> Result<String, OutOfMemory>
    ensures { IfOk result (λ text. string_bytes text ≡ flat_map need_text needs.now) }
{
    let mut list = String::new(alloc);
    for need in needs {
        let text = format!(in alloc; " \"p{need}\"")?;
        list.push_str(text.as_str())?;
    }
    Ok(list)
}

// The lock of so many packages.
pub(crate) fn lock_text(alloc: Global, count: usize) -> Result<String, OutOfMemory>
    ensures { IfOk result (λ text. string_bytes text ≡ texts.lock_text count) }
{
    let bindings = bindings_text(alloc, count)?;
    let text = format!(in alloc; "opam-version: \"2.0\"\ndepends: [\n{bindings}]\n")?;
    Ok(text)
}

fn bindings_text(alloc: Global, count: usize) -> Result<String, OutOfMemory>
    ensures { IfOk result (λ text. string_bytes text ≡ texts.bindings_text count) }
{
    let mut bindings = String::new(alloc);
    for place in 0..count {
        let text = format!(in alloc; "  \"p{place}\" {{= \"1\"}}\n")?;
        bindings.push_str(text.as_str())?;
    }
    Ok(bindings)
}

// Where the opam file of a package stands.
pub(crate) fn opam_path(alloc: Global, place: usize) -> Result<String, OutOfMemory>
    ensures { IfOk result (λ path. string_bytes path ≡ texts.opam_path place) }
{
    let name = name_text(alloc, place)?;
    let path = format!(in alloc; "./packages/{name}/{name}.1/opam")?;
    Ok(path)
}

pub(crate) fn name_text(alloc: Global, place: usize) -> Result<String, OutOfMemory>
    ensures { IfOk result (λ text. string_bytes text ≡ texts.name_text place) }
{
    let text = format!(in alloc; "p{place}")?;
    Ok(text)
}

pub(crate) fn file_text(alloc: Global, place: usize) -> Result<String, OutOfMemory>
    ensures { IfOk result (λ text. string_bytes text ≡ texts.file_text place) }
{
    let text = format!(in alloc; "{place}\n")?;
    Ok(text)
}
