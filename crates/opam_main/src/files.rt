// Files of the machine, as they are read.
use crate::fault::FileError;
use std::alloc::Global;
use std::fs;
use std::fs::Metadata;
use std::io::{ErrorKind, Read};
use std::rt::Files;

/// What was read of a file, up to a limit in bytes.
#[derive(Drop)]
pub enum Content {
    Absent,
    Bytes(Vec<u8>),
    TooLong,
}

/// What stands at a path. A link is not followed.
pub fn found_at<R: Files>(rt: &R, path: &str) -> Result<Option<Metadata>, FileError> {
    match fs::symlink_metadata(rt, path) {
        Ok(data) => Ok(Some(data)),
        Err(error) => {
            if error.kind() == ErrorKind::NotFound {
                return Ok(None);
            }
            Err(FileError::Io(error))
        }
    }
}

/// Reads the file at a path, if it has at most `limit` bytes. Links are followed, and one that leads nowhere is an
/// error. Only a regular file is opened, since a pipe might never answer.
pub fn read_file<R: Files>(
    rt: &R,
    alloc: Global,
    path: &str,
    limit: u64,
) -> Result<Content, FileError> {
    if found_at(rt, path)?.is_none() {
        return Ok(Content::Absent);
    }
    let length = regular_at(rt, path)?.len();
    let most = limit.saturating_add(1);
    // There is room for the whole file and for the read that finds its end, so that nothing is moved.
    let room = length.saturating_add(1).min(most);
    let mut bytes = Vec::with_capacity(alloc, room as usize)?;
    let count = fs::open(rt, path)?.take(most).read_to_end(&mut bytes)?;
    if count as u64 > limit {
        return Ok(Content::TooLong);
    }
    Ok(Content::Bytes(bytes))
}

/// Opens the regular file at a path, or at the end of the links there. All else is an error.
pub fn open_regular<R: Files>(rt: &R, path: &str) -> Result<R::File, FileError> {
    regular_at(rt, path)?;
    Ok(fs::open(rt, path)?)
}

// The regular file at a path, or at the end of the links there.
fn regular_at<R: Files>(rt: &R, path: &str) -> Result<Metadata, FileError> {
    let data = fs::metadata(rt, path)?;
    if !data.is_file() {
        return Err(FileError::NoFile);
    }
    Ok(data)
}
