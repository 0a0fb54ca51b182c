// The package that a file is taken for.
ghost use Rattle.std.specs.Option.{option_copied};
ghost use Rattle.std.specs.Prelude.{◌≡◌, IfOk, codes};
ghost use Rattle.opam_names.specs.Names.{IsName, IsVersion, is_name, is_version};
ghost use Rattle.syntax_trees.specs.Trees.{items_of};
ghost use Rattle.opam_package.specs.Forms as forms;
ghost use Rattle.opam_lint.specs.Findings.{text_or, told_package};

use opam_names::{Name, OutOfMemory, Pkg, ReadFault, Version};
use opam_package::field_of;
use std::alloc::Global;
use syntax_trees::{File, Node, Value};

// The bytes of a text; none of another value.
fn text_of(node: &Node) -> &[u8]
    ensures { result.now ≡ forms.text_of node.now }
{
    match &node.value {
        Value::Text(bytes) => bytes.as_slice(),
        _ => &[],
    }
}

fn name_bytes(node: Option<&Node>) -> &[u8]
    ensures text { result.now ≡ text_or is_name (codes "lint") (option_copied node.entry) }
    ensures valid { IsName result.now }
{
    match node {
        Some(node) if Name::is_name(text_of(node)) => text_of(node),
        _ => b"lint",
    }
}

fn version_bytes(node: Option<&Node>) -> &[u8]
    ensures text { result.now ≡ text_or is_version (codes "0") (option_copied node.entry) }
    ensures valid { IsVersion result.now }
{
    match node {
        Some(node) if Version::is_version(text_of(node)) => text_of(node),
        _ => b"0",
    }
}

// The name that a file gives, or `lint`.
fn told_name(alloc: Global, file: &File) -> Result<Name, OutOfMemory>
    ensures { IfOk result (λ name. name ≡ (told_package (items_of file.now)).name) }
{
    match Name::read(alloc, name_bytes(field_of(file, "name"))) {
        Ok(name) => Ok(name),
        Err(ReadFault::Memory) => Err(OutOfMemory),
        Err(ReadFault::Bad { .. }) => unreachable!(),
    }
}

// The version that it gives, or `0`.
fn told_version(alloc: Global, file: &File) -> Result<Version, OutOfMemory>
    ensures { IfOk result (λ version. version ≡ (told_package (items_of file.now)).version) }
{
    match Version::read(alloc, version_bytes(field_of(file, "version"))) {
        Ok(version) => Ok(version),
        Err(ReadFault::Memory) => Err(OutOfMemory),
        Err(ReadFault::Bad { .. }) => unreachable!(),
    }
}

/// The package of the name and the version that a file gives; `lint` and `0` stand for those that it does not give.
pub(crate) fn told_package(alloc: Global, file: &File) -> Result<Pkg, OutOfMemory>
    ensures { IfOk result (λ pkg. pkg ≡ told_package (items_of file.now)) }
{
    Ok(Pkg {
        name: told_name(alloc, file)?,
        version: told_version(alloc, file)?,
    })
}
