// Folders of the machine. A link to a folder counts as a file.
ghost use Rattle.std.specs.Prelude.{◌≡◌, ◌∷◌, ◌+◌, IfOk, IfSome, drop, string_bytes, take};
ghost use Rattle.opam_names.specs.Paths.{joined};
ghost use Rattle.opam_main.specs.Folders.{folder_of};

use crate::fault::FileError;
use crate::files::found_at;
use std::alloc::{AllocError, Global};
use std::fs::{DirEntry, Permissions};
use std::io::ErrorKind;
use std::os::unix::fs::PermissionsExt;
use std::rt::Files;
use std::{fs, io};

/// The path of what stands below a folder.
pub fn path_below(alloc: Global, folder: &str, path: &str) -> Result<String, AllocError>
    ensures { IfOk result (λ full. string_bytes full ≡ joined folder.now path.now) }
{
    let mut full = String::from_str(alloc, folder)?;
    full.push_str("/")?;
    full.push_str(path)?;
    Ok(full)
}

/// The folder in which a path stands.
pub fn folder_of(path: &str) -> &str
    ensures { result.now ≡ folder_of path.now }
{
    match path.rsplit_once('/') {
        Some(("", _)) => "/",
        Some((folder, _)) => folder,
        None => ".",
    }
}

/// Whether a path is that of a folder, or of what stands below it. Neither has a link on the way or ends in a slash.
pub fn is_in(path: &str, folder: &str) -> bool {
    match path.strip_prefix(folder) {
        Some(rest) => rest.is_empty() || rest.starts_with('/'),
        None => false,
    }
}

/// Whether each folder stands on the way to a path, from the root on. A file or a link on the way is no folder; in place
/// of the root itself it is an error.
pub fn way_stands<R: Files>(rt: &R, root: &str, path: &str) -> Result<bool, FileError> {
    if !is_folder(rt, root)? {
        return Ok(false);
    }
    for end in root.len()..path.len() {
        if let Some(folder) = folder_to(path, end)
            && !is_real_folder(rt, folder)?
        {
            return Ok(false);
        }
    }
    Ok(true)
}

/// Makes the folders that are missing on the way to a path, from the root on, and adds each to the list before it is
/// made. A file or a link on the way is an error.
pub fn make_way<R: Files>(
    rt: &R,
    alloc: Global,
    root: &str,
    path: &str,
    made: &mut Vec<String>,
) -> Result<(), FileError> {
    for end in root.len()..path.len() {
        if let Some(folder) = folder_to(path, end)
            && !is_folder(rt, folder)?
        {
            made.push(String::from_str(alloc, folder)?)?;
            make_folder(rt, folder)?;
        }
    }
    Ok(())
}

// The first bytes of a path, where a slash comes after them.
fn folder_to(path: &str, end: usize) -> Option<&str>
    ensures value { IfSome result (λ folder. folder.now ≡ take end path.now) }
    ensures slash { IfSome result (λ folder. drop end path.now ≡ 47 ∷ drop (end + 1) path.now) }
{
    match path.split_at_checked(end) {
        Some((folder, rest)) if rest.starts_with('/') => Some(folder),
        _ => None,
    }
}

/// Whether a folder stands at a path, and no link.
pub fn is_real_folder<R: Files>(rt: &R, path: &str) -> Result<bool, FileError> {
    match fs::symlink_metadata(rt, path) {
        Ok(data) => Ok(data.is_dir()),
        Err(error) => match error.kind() {
            ErrorKind::NotFound | ErrorKind::NotADirectory => Ok(false),
            _ => Err(FileError::Io(error)),
        },
    }
}

// What is there and is no folder is an error.
fn is_folder<R: Files>(rt: &R, path: &str) -> Result<bool, FileError> {
    match found_at(rt, path)? {
        None => Ok(false),
        Some(data) => {
            if !data.is_dir() {
                return Err(FileError::NoFolder);
            }
            Ok(true)
        }
    }
}

// Makes a folder, unless another thread has made it meanwhile.
fn make_folder<R: Files>(rt: &R, path: &str) -> Result<(), FileError> {
    match fs::create_dir(rt, path) {
        Ok(()) => Ok(()),
        Err(error) => {
            if error.kind() == ErrorKind::AlreadyExists && is_folder(rt, path)? {
                return Ok(());
            }
            Err(FileError::Io(error))
        }
    }
}

/// The folders of a tree, each before those in it, or `None` where some file is in the tree. What has a name that is not
/// UTF-8 counts as a file.
pub fn bare_folders<R: Files + Alloc + Clone + Drop>(
    rt: &R,
    alloc: Global,
    top: &str,
) -> Result<Option<Vec<String>>, FileError> {
    let mut folders = Vec::new(alloc);
    folders.push(String::from_str(alloc, top)?)?;
    for at in 0..usize::MAX {
        let Some(folder) = folders.get(at) else {
            break;
        };
        let folder = String::from_str(alloc, folder.as_str())?;
        if add_folders(rt, alloc, folder.as_str(), &mut folders)? {
            return Ok(None);
        }
    }
    Ok(Some(folders))
}

// Adds the folders in a folder to the list, unless a file is there.
fn add_folders<R: Files + Alloc + Clone + Drop>(
    rt: &R,
    alloc: Global,
    folder: &str,
    folders: &mut Vec<String>,
) -> Result<bool, FileError> {
    for entry in fs::read_dir(rt, folder)? {
        match named(entry)? {
            Some(entry) if entry.file_type()?.is_dir() => {
                folders.push(String::from_str(alloc, entry.path().as_str())?)?;
            }
            _ => return Ok(true),
        }
    }
    Ok(false)
}

/// An entry of a folder, or `None` where its name is not UTF-8.
pub fn named<R: Files + Alloc>(
    entry: io::Result<DirEntry<R, R::A>>,
) -> Result<Option<DirEntry<R, R::A>>, FileError> {
    match entry {
        Ok(entry) => Ok(Some(entry)),
        Err(error) => {
            if error.kind() == ErrorKind::InvalidFilename {
                return Ok(None);
            }
            Err(FileError::Io(error))
        }
    }
}

/// Removes what stands at a path, a folder with all that is in it. Folders that may not be written to are made writable
/// first, but for those whose names are not UTF-8.
pub fn remove_all<R: Files + Alloc + Clone + Drop>(
    rt: &R,
    alloc: Global,
    path: &str,
) -> Result<(), FileError> {
    match found_at(rt, path)? {
        None => Ok(()),
        Some(data) if data.is_dir() => {
            open_up(rt, alloc, path)?;
            Ok(fs::remove_dir_all(rt, path)?)
        }
        Some(_) => Ok(fs::remove_file(rt, path)?),
    }
}

// Gives the owner each right on the folders of a tree.
fn open_up<R: Files + Alloc + Clone + Drop>(
    rt: &R,
    alloc: Global,
    top: &str,
) -> Result<(), FileError> {
    let mut folders = Vec::new(alloc);
    folders.push(String::from_str(alloc, top)?)?;
    for _ in 0..u64::MAX {
        let Some(folder) = folders.pop() else {
            break;
        };
        let mode = fs::symlink_metadata(rt, folder.as_str())?
            .permissions()
            .mode();
        if mode & 0o700 != 0o700 {
            fs::set_permissions(rt, folder.as_str(), Permissions::from_mode(mode | 0o700))?;
        }
        list_folders(rt, alloc, folder.as_str(), &mut folders)?;
    }
    Ok(())
}

// Adds the folders in a folder to the list.
fn list_folders<R: Files + Alloc + Clone + Drop>(
    rt: &R,
    alloc: Global,
    folder: &str,
    folders: &mut Vec<String>,
) -> Result<(), FileError> {
    for entry in fs::read_dir(rt, folder)? {
        if let Some(entry) = named(entry)?
            && entry.file_type()?.is_dir()
        {
            folders.push(String::from_str(alloc, entry.path().as_str())?)?;
        }
    }
    Ok(())
}
