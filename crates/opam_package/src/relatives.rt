// Paths as they are written in opam files: empty parts and parts `.` do not count.
ghost use Rattle.std.specs.Prelude.{◌≡◌, IfOk, OnOk, map, string_bytes};
ghost use Rattle.std.specs.List.{flat_map};
ghost use Rattle.opam_names.specs.Paths.{parts};
ghost use Rattle.opam_package.specs.PackageFaults.{first_fault};
ghost use Rattle.opam_package.specs.PartPaths.{put_all, put_behind, with_part};
ghost use Rattle.opam_package.specs.Relatives as relatives;

use crate::PackageFault;
use crate::forms::text_of_bytes;
use crate::limits::SUBST_LIMIT;
use crate::sooner::sooner;
use crate::views::{text_in, values_of};
use opam_names::{OutOfMemory, RelPath};
use std::alloc::Global;
use syntax_trees::{Node, Span};

// What stands between the slashes.
fn parts_of(alloc: Global, text: &str) -> Result<Vec<&str>, OutOfMemory>
    ensures { IfOk result (λ all. map (λ part. part.now) all.items ≡ parts text.now) }
{
    Ok(text.split('/').collect(alloc)?)
}

fn counts(part: &str) -> bool
    ensures { result ≡ relatives.counts part.now }
{
    !part.is_empty() && part != "."
}

fn put_behind(path: &mut String, part: &str) -> Result<(), OutOfMemory>
    ensures { OnOk result (string_bytes path.new ≡ put_behind (string_bytes path.old) part.now) }
{
    if !path.is_empty() {
        path.push_str("/")?;
    }
    path.push_str(part)?;
    Ok(())
}

fn put_part(path: &mut String, part: &str) -> Result<(), OutOfMemory>
    ensures { OnOk result (string_bytes path.new ≡ with_part (string_bytes path.old) part.now) }
{
    if counts(part) {
        put_behind(path, part)
    } else {
        Ok(())
    }
}

fn put_parts(alloc: Global, parts: &[&str]) -> Result<String, OutOfMemory>
    ensures { IfOk result (λ path. string_bytes path ≡ put_all (map (λ part. part.now) parts.now)) }
{
    let mut path = String::new(alloc);
    for part in parts {
        put_part(&mut path, part)?;
    }
    Ok(path)
}

/// The path that a text stands for.
#[tactic(auto, using(crate::proofs::Slashes::put_together))]
pub(crate) fn shortened(alloc: Global, text: &str) -> Result<String, OutOfMemory>
    ensures { IfOk result (λ path. string_bytes path ≡ relatives.shortened text.now) }
{
    put_parts(alloc, &parts_of(alloc, text)?)
}

fn is_unsafe(alloc: Global, text: &str) -> Result<bool, OutOfMemory>
    ensures { IfOk result (λ refused. refused ≡ relatives.is_unsafe text.now) }
{
    if text.as_bytes().starts_with(b"/") || text.len() > SUBST_LIMIT {
        return Ok(true);
    }
    let path = shortened(alloc, text)?;
    Ok(!RelPath::is_path(path.as_bytes()))
}

// A text that stands for a path below the folder of the sources.
fn subst_fault(alloc: Global, node: &Node) -> Result<Option<PackageFault>, OutOfMemory>
    ensures { IfOk result (λ fault. fault ≡ first_fault (relatives.subst_faults node.now)) }
{
    match text_in(node) {
        None => Ok(Some(PackageFault::WrongKind { span: node.span })),
        Some(bytes) => match text_of_bytes(bytes) {
            None => Ok(Some(PackageFault::NotText { span: node.span })),
            Some(text) => unsafe_fault(alloc, text, node.span),
        },
    }
}

fn unsafe_fault(alloc: Global, text: &str, span: Span) -> Result<Option<PackageFault>, OutOfMemory>
    ensures { IfOk result (λ fault. fault ≡ first_fault (relatives.path_faults text.now span)) }
{
    if is_unsafe(alloc, text)? {
        Ok(Some(PackageFault::Unsafe { span }))
    } else {
        Ok(None)
    }
}

/// One such text, or a list of them.
#[tactic(auto, using(crate::proofs::FirstFaults::first_with_next))]
pub(crate) fn substs_fault(alloc: Global, node: &Node) -> Result<Option<PackageFault>, OutOfMemory>
    ensures { IfOk result (λ fault. fault ≡ first_fault (relatives.substs_faults node.now)) }
{
    let values = values_of(node);
    let mut first = None;
    for value in values {
        first = sooner(first, subst_fault(alloc, value)?);
    }
    Ok(first)
}
