// The copy of a source folder: its folders and files, and each link as the file that it leads to inside the source.
use crate::fault::FileError;
use crate::files::open_regular;
use crate::folders::{is_in, is_real_folder};
use std::alloc::{AllocError, Global};
use std::fs::{OpenFile, OpenOptions, Permissions};
use std::os::unix::fs::PermissionsExt;
use std::rt::Files;
use std::{fs, io};

/// A folder that is to be copied, and the folder of the switch, which is left out of the copy. Both are as the system
/// spells them, with no link on the way.
#[derive(Drop)]
pub struct Source {
    folder: String,
    switch: String,
}

/// The source folder at a path, for a build folder whose path begins with that of the root of the switch. A source in the
/// switch that holds the build folder, or lies in it, is refused, since the copy would go into itself.
pub fn open_source<R: Files>(
    rt: &R,
    alloc: Global,
    path: &str,
    root: &str,
    build: &str,
) -> Result<Source, FileError> {
    let folder = canonical(rt, alloc, path)?;
    if !is_real_folder(rt, folder.as_str())? {
        return Err(FileError::NoFolder);
    }
    let switch = canonical(rt, alloc, root)?;
    let below = build.strip_prefix(root).unwrap_or("");
    let build = appended(alloc, switch.as_str(), below)?;
    if goes_into_itself(folder.as_str(), switch.as_str(), build.as_str()) {
        return Err(FileError::HoldsBuild);
    }
    Ok(Source { folder, switch })
}

// Whether the copy of a folder would be a part of it, also without the switch. The whole file system is no source.
fn goes_into_itself(folder: &str, switch: &str, build: &str) -> bool {
    if folder == "/" || is_in(folder, build) {
        return true;
    }
    is_in(folder, switch) && is_in(build, folder)
}

// A path with no link on the way.
fn canonical<R: Files>(rt: &R, alloc: Global, path: &str) -> Result<String, FileError> {
    let path = rt.canonicalize(alloc, path)?;
    Ok(String::from_str(alloc, path.as_str())?)
}

impl Source {
    /// Copies what is in it to a folder that is there and empty.
    pub fn copy_to<R: Files + Alloc + Clone + Drop>(
        &self,
        rt: &R,
        alloc: Global,
        target: &str,
    ) -> Result<(), FileError> {
        let mut folders = Vec::new(alloc);
        folders.push(String::new(alloc))?;
        for _ in 0..u64::MAX {
            let Some(below) = folders.pop() else {
                break;
            };
            self.copy_folder(rt, alloc, below.as_str(), target, &mut folders)?;
        }
        Ok(())
    }

    // Copies the entries of a folder, and adds the folders among them to the list. A name that is not UTF-8 is an error.
    fn copy_folder<R: Files + Alloc + Clone + Drop>(
        &self,
        rt: &R,
        alloc: Global,
        below: &str,
        target: &str,
        folders: &mut Vec<String>,
    ) -> Result<(), FileError> {
        let folder = appended(alloc, self.folder.as_str(), below)?;
        for entry in fs::read_dir(rt, folder.as_str())? {
            let entry = entry?;
            let mut path = appended(alloc, below, "/")?;
            path.push_str(entry.file_name())?;
            let from = appended(alloc, self.folder.as_str(), path.as_str())?;
            let to = appended(alloc, target, path.as_str())?;
            if from == self.switch {
                continue;
            }
            if is_real_folder(rt, from.as_str())? {
                fs::create_dir(rt, to.as_str())?;
                folders.push(path)?;
            } else {
                self.copy_entry(rt, alloc, from.as_str(), to.as_str())?;
            }
        }
        Ok(())
    }

    // Copies a file, or the file that a link leads to.
    fn copy_entry<R: Files>(
        &self,
        rt: &R,
        alloc: Global,
        from: &str,
        to: &str,
    ) -> Result<(), FileError> {
        let end = canonical(rt, alloc, from)?;
        if !is_in(end.as_str(), self.folder.as_str()) {
            return Err(FileError::LeadsOut);
        }
        copy_file(rt, end.as_str(), to)
    }
}

fn appended(alloc: Global, path: &str, rest: &str) -> Result<String, AllocError> {
    let mut whole = String::from_str(alloc, path)?;
    whole.push_str(rest)?;
    Ok(whole)
}

// Copies a regular file piece by piece, with the owner's executable bit.
fn copy_file<R: Files>(rt: &R, from: &str, to: &str) -> Result<(), FileError> {
    let mut file = open_regular(rt, from)?;
    let is_exec = file.metadata()?.permissions().mode() & 0o100 != 0;
    let mode = if is_exec { 0o755 } else { 0o644 };
    let mut copy = OpenOptions::new()
        .write(true)
        .create_new(true)
        .open(rt, to)?;
    io::copy(&mut file, &mut copy)?;
    copy.set_permissions(Permissions::from_mode(mode))?;
    Ok(())
}
