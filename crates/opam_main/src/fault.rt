// Why work on the machine's files failed.
use opam_names::OutOfMemory;
use std::alloc::AllocError;
use std::io;
use std::io::ErrorKind;
use thiserror::Error;

/// Why a file or a folder could not be worked on. The text is never printed.
#[derive(Debug, Drop, Error)]
pub enum FileError {
    #[error(transparent)]
    Io(#[from] io::Error),
    #[error(transparent)]
    Memory(#[from(alloc)] AllocError),
    #[error("a file or a link stands where a folder is wanted")]
    NoFolder,
    #[error("what stands at the path is no file")]
    NoFile,
    #[error("there are files below the path")]
    NotEmpty,
    #[error("an earlier write or sync has failed")]
    NotSynced,
    #[error("a link leads out of the source")]
    LeadsOut,
    #[error("the source is a part of the switch that holds the build folder")]
    HoldsBuild,
}

impl From<OutOfMemory> for FileError {
    fn from(_: OutOfMemory) -> Self {
        FileError::Memory(AllocError)
    }
}

impl FileError {
    /// Whether memory was refused.
    pub fn is_memory(&self) -> bool {
        match self {
            FileError::Io(error) => error.kind() == ErrorKind::OutOfMemory,
            FileError::Memory(_) => true,
            _ => false,
        }
    }
}
