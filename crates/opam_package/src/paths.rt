// Paths of nodes that have no fault.
ghost use Rattle.std.specs.Prelude.{[], ◌≡◌, IfOk, map};
ghost use Rattle.std.specs.List.{flat_map};
ghost use Rattle.opam_package.specs.Relatives as relatives;

use crate::forms::text_of_bytes;
use crate::relatives::shortened;
use crate::views::{text_in, values_of};
use opam_names::{Items, OutOfMemory, ReadFault, RelPath, tests_say_the_same};
use std::alloc::Global;
use syntax_trees::{Node, Span};

fn build_path(alloc: Global, text: &str, span: Span) -> Result<RelPath, OutOfMemory>
    requires { relatives.path_faults text.now span ≡ [] }
    ensures { IfOk result (λ path. path ≡ relatives.shortened text.now) }
{
    tests_say_the_same();
    let path = shortened(alloc, text)?;
    match RelPath::read(alloc, path.as_bytes()) {
        Ok(path) => Ok(path),
        Err(ReadFault::Memory) => Err(OutOfMemory),
        Err(ReadFault::Bad { .. }) => unreachable!(),
    }
}

fn build_subst(alloc: Global, node: &Node) -> Result<RelPath, OutOfMemory>
    requires { relatives.subst_faults node.now ≡ [] }
    ensures { IfOk result (λ path. path ≡ relatives.subst_of node.now) }
{
    match text_in(node) {
        None => unreachable!(),
        Some(bytes) => match text_of_bytes(bytes) {
            None => unreachable!(),
            Some(text) => build_path(alloc, text, node.span),
        },
    }
}

/// The paths of a list, or the one path.
pub(crate) fn build_substs(alloc: Global, node: &Node) -> Result<Items<RelPath>, OutOfMemory>
    requires { relatives.substs_faults node.now ≡ [] }
    ensures { IfOk result (λ paths. paths ≡ relatives.substs_of node.now) }
{
    let values = values_of(node);
    let mut paths = Items::new(alloc);
    for value in values {
        paths.push(build_subst(alloc, value)?)?;
    }
    Ok(paths)
}
