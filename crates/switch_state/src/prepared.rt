// An action that is prepared for its commit.
use opam_names::{Items, Pkg};
use opam_package::Member;
use owner_map::OwnedPath;
use switch_journal::{Done, Ready};

/// What a commit changes in memory.
#[derive(Drop)]
pub enum Change {
    /// A member comes last, with the paths that it is to own.
    Comes {
        member: Member,
        owned: Items<OwnedPath>,
        what: Done,
    },
    /// A package goes, with its paths.
    Goes {
        pkg: Pkg,
        what: Done,
    },
}

/// An action with all the memory that its commit needs.
#[derive(Drop)]
pub struct Prepared {
    /// Its record.
    pub ready: Ready,
    pub change: Change,
}

/// That an action was committed: how many were committed before it since the switch was opened, and the moment of the disk's
/// clock at its end.
#[derive(Clone, Copy, Debug, PartialEq, Eq)]
pub struct Receipt {
    pub index: u32,
    pub moment: u64,
}
