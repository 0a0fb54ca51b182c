// Paths as they are written in install files: empty parts and parts `.` do not count.
ghost use Rattle.std.specs.Prelude.{[], ◌≡◌, ◌<◌, ◌≤◌, IfOk, IfSome, OnOk, fold, length};
ghost use Rattle.std.specs.List.{position};
ghost use Rattle.opam_names.specs.Paths.{is_slash, parts};
ghost use Rattle.install_sections.specs.PathGrowth.{put_behind, with_part};
ghost use Rattle.install_sections.specs.WrittenPaths as written;

use opam_names::{OutOfMemory, PATH_LIMIT, ReadFault, RelPath, tests_say_the_same};
use std::alloc::Global;

fn counts(part: &[u8]) -> bool
    ensures { result ≡ written.counts part.now }
{
    !part.is_empty() && part != b".".as_slice()
}

fn put_behind(path: &mut Vec<u8>, part: &[u8]) -> Result<(), OutOfMemory>
    ensures { OnOk result (path.new.items ≡ put_behind path.old.items part.now) }
{
    if !path.is_empty() {
        path.push(b'/')?;
    }
    path.extend_from_slice(part)?;
    Ok(())
}

fn put_part(path: &mut Vec<u8>, part: &[u8]) -> Result<(), OutOfMemory>
    ensures { OnOk result (path.new.items ≡ with_part path.old.items part.now) }
{
    if counts(part) {
        put_behind(path, part)
    } else {
        Ok(())
    }
}

fn first_slash(bytes: &[u8]) -> Option<usize>
    ensures value { result ≡ position is_slash bytes.now }
    ensures within { IfSome result (λ n. n < length bytes.now) }
{
    bytes.iter().position(|b| *b == b'/')
}

fn put_parts(alloc: Global, text: &[u8]) -> Result<Vec<u8>, OutOfMemory>
    requires { length text.now ≤ PATH_LIMIT }
    ensures { IfOk result (λ path. path.items ≡ fold with_part [] (parts text.now)) }
{
    let mut path = Vec::new(alloc);
    let mut rest = text;
    while let Some(slash) = first_slash(rest) {
        put_part(&mut path, &rest[..slash])?;
        rest = &rest[slash + 1..];
    }
    put_part(&mut path, rest)?;
    Ok(path)
}

/// What is left of a text where empty parts and parts `.` are dropped.
#[tactic(auto, using(crate::proofs::Slashes::put_together))]
fn shortened(alloc: Global, text: &[u8]) -> Result<Vec<u8>, OutOfMemory>
    requires { length text.now ≤ PATH_LIMIT }
    ensures { IfOk result (λ path. path.items ≡ written.shortened text.now) }
{
    put_parts(alloc, text)
}

/// Bytes that are a path, as that.
pub(crate) fn path_in(alloc: Global, bytes: &[u8]) -> Result<Option<RelPath>, OutOfMemory>
    ensures { IfOk result (λ path. path ≡ written.path_in bytes.now) }
{
    tests_say_the_same();
    if bytes.len() > PATH_LIMIT {
        return Ok(None);
    }
    match RelPath::read(alloc, bytes) {
        Ok(path) => Ok(Some(path)),
        Err(ReadFault::Bad { .. }) => Ok(None),
        Err(ReadFault::Memory) => Err(OutOfMemory),
    }
}

/// The path that a text stands for, unless it is unsafe.
pub(crate) fn safe_path(alloc: Global, text: &[u8]) -> Result<Option<RelPath>, OutOfMemory>
    ensures { IfOk result (λ path. path ≡ written.safe_path text.now) }
{
    if text.starts_with(b"/") || text.len() > PATH_LIMIT {
        return Ok(None);
    }
    let path = shortened(alloc, text)?;
    path_in(alloc, path.as_slice())
}
