// The folder of a switch. No path in it is followed through a link.
use crate::fault::FileError;
use crate::files::{Content, found_at, read_file};
use crate::folders::{
    bare_folders, folder_of, is_real_folder, make_way, named, path_below, way_stands,
};
use crate::loose::Loose;
use crash_disk::{DiskRead, Look};
use opam_names::{Items, RelPath};
use std::alloc::Global;
use std::fs;
use std::fs::{File, OpenFile, OpenOptions, Permissions, TryLockError};
use std::io::Write;
use std::os::unix::fs::PermissionsExt;
use std::rt::Files;

const LOCK: &str = ".opam-switch/lock";

const JOURNAL: &str = ".opam-switch/journal";

/// The folder of a switch, with what is to be made durable of it.
#[derive(Drop)]
pub struct SwitchFolder<R: Files<File = File>> {
    alloc: Global,
    rt: R,
    root: String,
    loose: Loose,
    knows_journal: bool,
    lock: Option<File>,
}

impl<R: Files<File = File> + Alloc + Clone + Drop> SwitchFolder<R> {
    /// The folder need not be there yet; the one above it must be.
    pub fn new(alloc: Global, rt: R, root: String) -> SwitchFolder<R> {
        let loose = Loose::new(alloc, root.len());
        SwitchFolder {
            alloc,
            rt,
            root,
            loose,
            knows_journal: false,
            lock: None,
        }
    }

    /// Whether the switch is this run's until the process ends.
    pub fn claim(&mut self) -> Result<bool, FileError> {
        if self.lock.is_some() {
            return Ok(true);
        }
        let path = path_below(self.alloc, self.root.as_str(), LOCK)?;
        self.make_folders(path.as_str())?;
        self.lock = try_lock(&self.rt, path.as_str())?;
        Ok(self.lock.is_some())
    }

    /// What stands at a path. A link is a file, and nothing is below it.
    pub fn look(&self, path: &RelPath) -> Result<Look, FileError> {
        let full = path_below(self.alloc, self.root.as_str(), path.as_str())?;
        if !way_stands(&self.rt, self.root.as_str(), full.as_str())? {
            return Ok(Look::Absent);
        }
        let Some(data) = found_at(&self.rt, full.as_str())? else {
            return Ok(Look::Absent);
        };
        if !data.is_dir() {
            return Ok(Look::File);
        }
        match bare_folders(&self.rt, self.alloc, full.as_str())? {
            Some(_) => Ok(Look::Absent),
            None => Ok(Look::Folder),
        }
    }

    /// The file at a path, if it has at most `limit` bytes. A folder is no file, nothing is below a file or a link, and
    /// at a link or a special file it is an error.
    pub fn read(&self, alloc: Global, path: &RelPath, limit: u64) -> Result<DiskRead, FileError> {
        let full = path_below(self.alloc, self.root.as_str(), path.as_str())?;
        if !way_stands(&self.rt, self.root.as_str(), full.as_str())? {
            return Ok(DiskRead::Absent);
        }
        let Some(data) = found_at(&self.rt, full.as_str())? else {
            return Ok(DiskRead::Absent);
        };
        if data.is_dir() {
            return Ok(DiskRead::Absent);
        }
        if !data.is_file() {
            return Err(FileError::NoFile);
        }
        match read_file(&self.rt, alloc, full.as_str(), limit)? {
            Content::Absent => Ok(DiskRead::Absent),
            Content::TooLong => Ok(DiskRead::TooLong),
            Content::Bytes(bytes) => Ok(DiskRead::File {
                bytes: Items::from_vec(bytes),
                exec: data.permissions().mode() & 0o100 != 0,
            }),
        }
    }

    /// Makes the file anew, in place of the file, the link or the folders without files that stand there. It is written
    /// to the device at once. Its mode is 0755 if it is executable and 0644 if not, whatever the process masks, so that
    /// a switch is the same on each machine.
    pub fn put(&mut self, path: &RelPath, bytes: &[u8], exec: bool) -> Result<(), FileError> {
        self.meet_journal()?;
        let full = path_below(self.alloc, self.root.as_str(), path.as_str())?;
        self.make_folders(full.as_str())?;
        self.loose.file_changed(full.as_str())?;
        self.clear(full.as_str())?;
        let outcome = write_new(&self.rt, full.as_str(), bytes, exec);
        if outcome.is_err() {
            self.loose.lose();
        }
        outcome
    }

    /// Removes the file or the link at a path, if one is there, and then the folders above it that are empty, but for
    /// the root. Nothing is below a file or a link.
    pub fn remove(&mut self, path: &RelPath) -> Result<(), FileError> {
        self.meet_journal()?;
        let full = path_below(self.alloc, self.root.as_str(), path.as_str())?;
        // an earlier run may have removed it and not have synced
        self.loose.file_changed(full.as_str())?;
        if !way_stands(&self.rt, self.root.as_str(), full.as_str())? {
            return Ok(());
        }
        match found_at(&self.rt, full.as_str())? {
            Some(data) if !data.is_dir() => {
                fs::remove_file(&self.rt, full.as_str())?;
                self.drop_empty_above(full.as_str())
            }
            _ => Ok(()),
        }
    }

    /// Makes all that was put and removed durable, and with the first sync the whole journal.
    pub fn sync(&mut self) -> Result<(), FileError> {
        self.meet_journal()?;
        self.loose.sync(&self.rt)
    }

    // An earlier run may have been ended before it has synced what it has put into the journal.
    fn meet_journal(&mut self) -> Result<(), FileError> {
        if self.knows_journal {
            return Ok(());
        }
        let outcome = self.write_journal();
        match outcome {
            Ok(()) => self.knows_journal = true,
            Err(_) => self.loose.lose(),
        }
        outcome
    }

    // Writes each file of the journal to the device, and notes its folders for the next sync.
    fn write_journal(&mut self) -> Result<(), FileError> {
        let journal = path_below(self.alloc, self.root.as_str(), JOURNAL)?;
        if !way_stands(&self.rt, self.root.as_str(), journal.as_str())? {
            return Ok(());
        }
        let mut folders = Vec::new(self.alloc);
        folders.push(journal)?;
        for _ in 0..u64::MAX {
            let Some(folder) = folders.pop() else {
                break;
            };
            if is_real_folder(&self.rt, folder.as_str())? {
                write_files(&self.rt, self.alloc, folder.as_str(), &mut folders)?;
                self.loose.folder_found(folder.as_str())?;
            }
        }
        Ok(())
    }

    fn make_folders(&mut self, full: &str) -> Result<(), FileError> {
        let mut made = Vec::new(self.alloc);
        let outcome = make_way(&self.rt, self.alloc, self.root.as_str(), full, &mut made);
        for folder in &made {
            self.loose.folder_made(folder.as_str())?;
        }
        outcome
    }

    fn clear(&mut self, full: &str) -> Result<(), FileError> {
        let Some(data) = found_at(&self.rt, full)? else {
            return Ok(());
        };
        if !data.is_dir() {
            fs::remove_file(&self.rt, full)?;
            return Ok(());
        }
        match bare_folders(&self.rt, self.alloc, full)? {
            Some(folders) => self.remove_folders(folders.as_slice()),
            None => Err(FileError::NotEmpty),
        }
    }

    // The last comes first.
    fn remove_folders(&mut self, folders: &[String]) -> Result<(), FileError> {
        for folder in folders.iter().rev() {
            fs::remove_dir(&self.rt, folder.as_str())?;
            self.loose.folder_gone(folder.as_str())?;
        }
        Ok(())
    }

    fn drop_empty_above(&mut self, full: &str) -> Result<(), FileError> {
        let mut folder = folder_of(full);
        for _ in 0..full.len() {
            if folder.len() <= self.root.len() || fs::remove_dir(&self.rt, folder).is_err() {
                break;
            }
            self.loose.folder_gone(folder)?;
            folder = folder_of(folder);
        }
        Ok(())
    }
}

// The lock, unless another open file has it.
fn try_lock<R: Files<File = File>>(rt: &R, path: &str) -> Result<Option<File>, FileError> {
    if let Some(data) = found_at(rt, path)?
        && !data.is_file()
    {
        return Err(FileError::NoFile);
    }
    let file = OpenOptions::new().write(true).create(true).open(rt, path)?;
    match file.try_lock() {
        Ok(()) => Ok(Some(file)),
        Err(TryLockError::WouldBlock) => Ok(None),
        Err(TryLockError::Error(error)) => Err(FileError::Io(error)),
    }
}

fn write_new<R: Files>(rt: &R, path: &str, bytes: &[u8], exec: bool) -> Result<(), FileError> {
    let mode = if exec { 0o755 } else { 0o644 };
    let mut file = OpenOptions::new()
        .write(true)
        .create_new(true)
        .open(rt, path)?;
    file.write_all(bytes)?;
    file.set_permissions(Permissions::from_mode(mode))?;
    file.sync_all()?;
    Ok(())
}

// Writes each regular file of a folder to the device, and adds the folders in it to the list.
fn write_files<R: Files + Alloc + Clone + Drop>(
    rt: &R,
    alloc: Global,
    folder: &str,
    folders: &mut Vec<String>,
) -> Result<(), FileError> {
    for entry in fs::read_dir(rt, folder)? {
        if let Some(entry) = named(entry)? {
            let kind = entry.file_type()?;
            if kind.is_dir() {
                folders.push(String::from_str(alloc, entry.path().as_str())?)?;
            } else if kind.is_file() {
                fs::open(rt, entry.path())?.sync_all()?;
            }
        }
    }
    Ok(())
}
