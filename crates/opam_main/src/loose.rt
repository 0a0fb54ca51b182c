// What a sync of a switch has to write to the device. Each file is written to the device where it is put; a sync does the
// same for the folders whose entries have come or gone.
ghost use Rattle.std.specs.Prelude.{◌≡◌, ◌<◌, ◌≤◌, true, false, IsTrue, OnOk, OnErr, length};
ghost use Rattle.std.specs.BTreeSet.{contains_text, IsEmpty};
ghost use Rattle.opam_main.specs.Folders.{folder_of};
ghost use Rattle.opam_main.specs.Loose.{Has, KeepsAll, KeepsOthers};

use crate::fault::FileError;
use crate::folders::{folder_of, is_real_folder};
use std::alloc::{AllocError, Global};
use std::collections::BTreeSet;
use std::fs;
use std::fs::OpenFile;
use std::rt::Files;

/// The folders of a switch that have changed since the last sync.
#[derive(Drop)]
pub struct Loose {
    alloc: Global,
    root_len: usize,
    // an entry of theirs has come or gone
    folders: BTreeSet<String>,
    // folders below the root whose own entry is durable
    settled: BTreeSet<String>,
    // so is that of the root
    is_root_settled: bool,
    // a change is not noted, or a write or a sync has failed: the system may forget what it could not write
    is_lost: bool,
}

impl Loose {
    /// For a switch whose root's path has so many bytes. Nothing is known of what an earlier run has made durable.
    pub fn new(alloc: Global, root_len: usize) -> Loose
        ensures root { result.root_len ≡ root_len }
        ensures folders { IsEmpty result.folders }
        ensures settled { IsEmpty result.settled }
        ensures root_not_settled { result.is_root_settled ≡ false }
        ensures not_lost { result.is_lost ≡ false }
    {
        Loose {
            alloc,
            root_len,
            folders: BTreeSet::new(alloc),
            settled: BTreeSet::new(alloc),
            is_root_settled: false,
            is_lost: false,
        }
    }

    /// A folder stands there since an earlier run, and its entries may not be durable.
    pub fn folder_found(&mut self, folder: &str) -> Result<(), AllocError>
        ensures noted { OnOk result (Has self.new.folders folder.now) }
        ensures above { OnOk result (0 < length folder.now → Has self.new.folders (folder_of folder.now)) }
        ensures folders { KeepsAll self.old.folders self.new.folders }
        ensures same { self.new ≡ record self.old { folders = self.new.folders } }
    {
        add_path(self.alloc, &mut self.folders, folder)?;
        self.add_folders(folder)
    }

    /// The entry of a file is to come or to go.
    pub fn file_changed(&mut self, path: &str) -> Result<(), AllocError>
        ensures folder { OnOk result (0 < length path.now → Has self.new.folders (folder_of path.now)) }
        ensures folders { KeepsAll self.old.folders self.new.folders }
        ensures same { self.new ≡ record self.old { folders = self.new.folders } }
    {
        self.add_folders(path)
    }

    /// A folder has been made. It may be the root.
    pub fn folder_made(&mut self, path: &str) -> Result<(), AllocError>
        ensures folder { OnOk result (0 < length path.now → Has self.new.folders (folder_of path.now)) }
        ensures err { OnErr result (self.new.is_lost ≡ true) }
        ensures lost { IsTrue self.old.is_lost → IsTrue self.new.is_lost }
        ensures root { length path.now ≤ self.old.root_len → self.new.is_root_settled ≡ false }
        ensures not_settled { contains_text self.new.settled path.now ≡ false }
        ensures folders { KeepsAll self.old.folders self.new.folders }
    {
        if path.len() <= self.root_len {
            self.is_root_settled = false;
        }
        self.settled.remove(path);
        self.entry_changed(path)
    }

    /// A folder below the root has been removed.
    pub fn folder_gone(&mut self, path: &str) -> Result<(), AllocError>
        ensures folder { OnOk result (0 < length path.now → Has self.new.folders (folder_of path.now)) }
        ensures err { OnErr result (self.new.is_lost ≡ true) }
        ensures lost { IsTrue self.old.is_lost → IsTrue self.new.is_lost }
        ensures not_settled { contains_text self.new.settled path.now ≡ false }
        ensures folders { KeepsOthers path.now self.old.folders self.new.folders }
    {
        self.settled.remove(path);
        self.folders.remove(path);
        self.entry_changed(path)
    }

    /// A write has failed: no later sync can say that all is durable.
    pub fn lose(&mut self)
        ensures { self.new ≡ record self.old { is_lost = true } }
    {
        self.is_lost = true;
    }

    // The change is done whether it is noted or not.
    fn entry_changed(&mut self, path: &str) -> Result<(), AllocError>
        ensures folder { OnOk result (0 < length path.now → Has self.new.folders (folder_of path.now)) }
        ensures err { OnErr result (self.new.is_lost ≡ true) }
        ensures lost { IsTrue self.old.is_lost → IsTrue self.new.is_lost }
        ensures folders { KeepsAll self.old.folders self.new.folders }
        ensures same { self.new ≡ record self.old { folders = self.new.folders; is_lost = self.new.is_lost } }
    {
        let outcome = self.add_folders(path);
        if outcome.is_err() {
            self.is_lost = true;
        }
        outcome
    }

    // Adds the folder of an entry, and those above it up to one whose own entry is durable.
    fn add_folders(&mut self, path: &str) -> Result<(), AllocError>
        ensures folder { OnOk result (0 < length path.now → Has self.new.folders (folder_of path.now)) }
        ensures folders { KeepsAll self.old.folders self.new.folders }
        ensures same { self.new ≡ record self.old { folders = self.new.folders } }
    {
        let mut entry = path;
        for _turn in 0..path.len() {
            let folder = folder_of(entry);
            add_path(self.alloc, &mut self.folders, folder)?;
            if entry.len() <= self.root_len || self.is_settled(folder) {
                break;
            }
            entry = folder;
        }
        Ok(())
    }

    fn is_settled(&self, folder: &str) -> bool {
        if folder.len() <= self.root_len {
            return self.is_root_settled;
        }
        self.settled.contains(folder)
    }

    /// Makes the entries of each of the folders durable.
    pub fn sync<R: Files>(&mut self, rt: &R) -> Result<(), FileError>
        ensures was_not_lost { OnOk result (self.old.is_lost ≡ false) }
        ensures not_lost { OnOk result (self.new.is_lost ≡ false) }
        ensures root { OnOk result (self.new.is_root_settled ≡ true) }
        ensures err { OnErr result (self.new.is_lost ≡ true) }
    {
        if self.is_lost {
            return Err(FileError::NotSynced);
        }
        if let Err(error) = sync_each(rt, &self.folders) {
            self.is_lost = true;
            return Err(error);
        }
        self.settle();
        Ok(())
    }

    // All is durable. Folders for which there is no memory are synced once more.
    fn settle(&mut self)
        ensures root { self.new.is_root_settled ≡ true }
        ensures lost { self.new.is_lost ≡ self.old.is_lost }
    {
        self.is_root_settled = true;
        let _ = self.settled.append(&mut self.folders);
    }
}

// Adds a path, if it is not there.
fn add_path(alloc: Global, paths: &mut BTreeSet<String>, path: &str) -> Result<(), AllocError>
    ensures has { OnOk result (Has paths.new path.now) }
    ensures keeps { KeepsAll paths.old paths.new }
{
    paths.insert(String::from_str(alloc, path)?)?;
    Ok(())
}

fn sync_each<R: Files>(rt: &R, folders: &BTreeSet<String>) -> Result<(), FileError> {
    for folder in folders.iter() {
        sync_folder(rt, folder.as_str())?;
    }
    Ok(())
}

// One that has gone again needs no sync but that of the folder above it. What stands in its place is not opened, since
// a pipe might never answer.
fn sync_folder<R: Files>(rt: &R, folder: &str) -> Result<(), FileError> {
    if is_real_folder(rt, folder)? {
        fs::open(rt, folder)?.sync_all()?;
    }
    Ok(())
}
