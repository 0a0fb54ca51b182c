// What an open request of a switch has done, and how large a switch may be.
use journal_text::Entry;
use opam_names::{Items, Pkg, RelPath};

/// No switch has more entries, and no request more members.
pub const ENTRY_LIMIT: usize = 4096;

/// No switch owns more paths.
pub const OWNED_LIMIT: usize = 1_048_576;

/// The opam texts of the entries of a switch, or of the members of a request, have together no more bytes.
pub const TEXT_LIMIT: usize = 268_435_456;

/// What a request has done with a package.
#[derive(Drop)]
pub enum Done {
    /// It was removed by the record with this number, which keeps what is needed to put it back, or does not.
    Removed { pkg: Pkg, number: u64, kept: bool },
    Installed(Pkg),
    /// It was removed before, and was put back.
    PutBack(Pkg),
}

/// A request that has begun and has not ended.
#[derive(Drop)]
pub struct Open {
    /// The record that begins it.
    pub from: RelPath,
    /// The packages that are to be installed at its end, with their opam texts.
    pub target: Items<Entry>,
    /// The packages that it removes, in the order in which it does.
    pub removals: Items<Pkg>,
    /// What it has done so far.
    pub done: Items<Done>,
}
