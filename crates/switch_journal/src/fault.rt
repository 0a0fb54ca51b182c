// Why a journal was not opened.
use opam_names::RelPath;

/// Why a journal was not opened.
#[derive(Drop)]
pub enum OpenFault {
    /// A call of the disk has failed.
    DiskFailed,
    /// The files are no journal. The first bad one is named, slots before records.
    NotAJournal { path: RelPath },
    Memory,
}
