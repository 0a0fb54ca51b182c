// What comes of an item of a section.
ghost use Rattle.std.specs.Prelude.{◌≡◌, IfOk};
ghost use Rattle.opam_names.specs.Paths as paths;
ghost use Rattle.install_sections.specs.Verdicts as verdicts;
ghost use Rattle.install_sections.specs.Verdicts.{braced_verdict, placed_at, target_verdict, text_verdict};
ghost use Rattle.install_sections.specs.WrittenPaths.{path_in};

use crate::targets::{default_folder, folder_of, last_part};
use crate::views::text_in;
use crate::written_paths::{path_in, safe_path};
use crate::{InstallFault, Placement, Section, Verdict};
use opam_names::{Name, OutOfMemory, RelPath};
use std::alloc::Global;
use syntax_trees::{Node, Span, Value};

fn is_optional(text: &[u8]) -> bool
    ensures { result ≡ verdicts.is_optional text.now }
{
    text.starts_with(b"?")
}

// A text without its `?`.
fn unmarked(text: &[u8]) -> &[u8]
    ensures { result.now ≡ verdicts.unmarked text.now }
{
    if is_optional(text) { &text[1..] } else { text }
}

// A folder with more behind it.
fn whole_path(folder: Vec<u8>, below: &[u8]) -> Result<Vec<u8>, OutOfMemory>
    ensures { IfOk result (λ path. path.items ≡ paths.joined folder.items below.now) }
{
    let mut path = folder;
    path.push(b'/')?;
    path.extend_from_slice(below)?;
    Ok(path)
}

// A file is placed below a folder, unless the whole path is too long.
fn placed(
    alloc: Global,
    exec: bool,
    optional: bool,
    src: RelPath,
    path: &[u8],
    span: Span,
) -> Result<Verdict, OutOfMemory>
    ensures { IfOk result (λ v. v ≡ placed_at exec optional src (path_in path.now) span) }
{
    match path_in(alloc, path)? {
        None => Ok(Verdict::Fails(InstallFault::Unsafe { span })),
        Some(dst) => Ok(Verdict::Places(Placement {
            src,
            optional,
            dst,
            exec,
        })),
    }
}

// Without a destination a file keeps its name, the last part of its source.
fn untargeted(
    alloc: Global,
    section: Section,
    name: &Name,
    text: &[u8],
    span: Span,
) -> Result<Verdict, OutOfMemory>
    ensures { IfOk result (λ v. v ≡ text_verdict section name.now text.now span) }
{
    let Some(source) = safe_path(alloc, unmarked(text))? else {
        return Ok(Verdict::Fails(InstallFault::Unsafe { span }));
    };
    let file = last_part(source.as_str().as_bytes());
    let path = whole_path(default_folder(alloc, section, name, file)?, file)?;
    placed(
        alloc,
        section.exec,
        is_optional(text),
        source,
        path.as_slice(),
        span,
    )
}

// A destination is a path below the folder of the section.
fn targeted(
    alloc: Global,
    section: Section,
    name: &Name,
    text: &[u8],
    span: Span,
    target: &[u8],
    at: Span,
) -> Result<Verdict, OutOfMemory>
    ensures { IfOk result (λ v. v ≡ target_verdict section name.now text.now span target.now at) }
{
    let Some(source) = safe_path(alloc, unmarked(text))? else {
        return Ok(Verdict::Fails(InstallFault::Unsafe { span }));
    };
    let Some(below) = safe_path(alloc, target)? else {
        return Ok(Verdict::Fails(InstallFault::Unsafe { span: at }));
    };
    let path = whole_path(folder_of(alloc, section, name)?, below.as_str().as_bytes())?;
    placed(
        alloc,
        section.exec,
        is_optional(text),
        source,
        path.as_slice(),
        at,
    )
}

// What braces hold has to be one text, and so has what stands before them.
fn braced(
    alloc: Global,
    section: Section,
    name: &Name,
    before: &Node,
    nodes: &[Node],
    span: Span,
) -> Result<Verdict, OutOfMemory>
    ensures { IfOk result (λ v. v ≡ braced_verdict section name.now before.now nodes.now span) }
{
    if let [target] = nodes {
        if let (Some(text), Some(below)) = (text_in(before), text_in(target)) {
            return targeted(alloc, section, name, text, before.span, below, target.span);
        }
    }
    Ok(Verdict::Fails(InstallFault::NotAnItem { span }))
}

/// What an item gives.
pub(crate) fn verdict(
    alloc: Global,
    section: Section,
    name: &Name,
    node: &Node,
) -> Result<Verdict, OutOfMemory>
    ensures { IfOk result (λ v. v ≡ verdicts.verdict section name.now node.now) }
{
    match &node.value {
        Value::Text(text) => untargeted(alloc, section, name, text.as_slice(), node.span),
        Value::Braced(before, nodes) => {
            braced(
                alloc,
                section,
                name,
                before.get(),
                nodes.as_slice(),
                node.span,
            )
        }
        _ => Ok(Verdict::Fails(InstallFault::NotAnItem { span: node.span })),
    }
}
