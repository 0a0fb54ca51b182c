// Where a file goes for which no destination is named.
ghost use Rattle.std.specs.Prelude.{◌≡◌, ◌==◌, IfOk, OnOk, ◌++◌};
ghost use Rattle.std.specs.List.{after_last, list_any};
ghost use Rattle.opam_names.specs.Paths as paths;
ghost use Rattle.install_sections.specs.Sections as sections;
ghost use Rattle.install_sections.specs.Targets as targets;
ghost use Rattle.install_sections.specs.WrittenPaths as written;

use crate::{Layout, Section};
use opam_names::{Name, OutOfMemory};
use std::alloc::Global;

// What stands behind the last byte of a kind, or all where there is none.
fn behind_last(bytes: &[u8], mark: u8) -> &[u8]
    ensures { result.now ≡ after_last (λ b. b == mark) bytes.now }
{
    let mut start = bytes.len();
    while start > 0 && bytes[start - 1] != mark {
        start -= 1;
    }
    &bytes[start..]
}

/// The last part of a path.
pub(crate) fn last_part(path: &[u8]) -> &[u8]
    ensures { result.now ≡ written.last_part path.now }
{
    behind_last(path, b'/')
}

fn uncompressed(file: &[u8]) -> &[u8]
    ensures { result.now ≡ targets.uncompressed file.now }
{
    if file.ends_with(b".gz") {
        &file[..file.len() - 3]
    } else {
        file
    }
}

fn first_chapter(text: &[u8]) -> Option<u8>
    ensures { result ≡ targets.first_chapter text.now }
{
    match text {
        [byte @ b'1'..=b'8', ..] => Some(*byte),
        _ => None,
    }
}

fn has_dot(name: &[u8]) -> bool
    ensures { result ≡ list_any targets.is_dot name.now }
{
    name.contains(&b'.')
}

// The chapter of a page of the manual.
fn chapter_of(file: &[u8]) -> Option<u8>
    ensures { result ≡ targets.chapter_of file.now }
{
    let name = uncompressed(file);
    if has_dot(name) {
        first_chapter(behind_last(name, b'.'))
    } else {
        None
    }
}

// A folder with more behind it.
fn joined(alloc: Global, folder: &str, below: &[u8]) -> Result<Vec<u8>, OutOfMemory>
    ensures { IfOk result (λ path. path.items ≡ paths.joined folder.now below.now) }
{
    let mut path = Vec::from_slice(alloc, folder.as_bytes())?;
    path.push(b'/')?;
    path.extend_from_slice(below)?;
    Ok(path)
}

fn chapter_folder(alloc: Global, folder: &str, chapter: Option<u8>) -> Result<Vec<u8>, OutOfMemory>
    ensures { IfOk result (λ path. path.items ≡ targets.chapter_folder folder.now chapter) }
{
    match chapter {
        None => Ok(Vec::from_slice(alloc, folder.as_bytes())?),
        Some(chapter) => joined(alloc, folder, &[b'm', b'a', b'n', chapter]),
    }
}

/// The folder of the files of a section, for the package of this name.
pub(crate) fn folder_of(
    alloc: Global,
    section: Section,
    name: &Name,
) -> Result<Vec<u8>, OutOfMemory>
    ensures { IfOk result (λ path. path.items ≡ sections.folder_of section name.now) }
{
    let folder = section.folder.as_str();
    match section.layout {
        Layout::Own => joined(alloc, folder, name.as_str().as_bytes()),
        Layout::Shared | Layout::Pages => Ok(Vec::from_slice(alloc, folder.as_bytes())?),
    }
}

/// The folder of a file of this name for which no destination is named.
pub(crate) fn default_folder(
    alloc: Global,
    section: Section,
    name: &Name,
    file: &[u8],
) -> Result<Vec<u8>, OutOfMemory>
    ensures { IfOk result (λ path. path.items ≡ targets.default_folder section name.now file.now) }
{
    match section.layout {
        Layout::Pages => chapter_folder(alloc, section.folder.as_str(), chapter_of(file)),
        Layout::Own | Layout::Shared => folder_of(alloc, section, name),
    }
}
