// Why a package is not put back.
use change_verdict::Reason;
use opam_names::{Pkg, Text};

/// Why a package that was removed is not put back.
#[derive(Drop)]
pub enum Why {
    /// Its files, or its opam text, were not kept.
    NotKept,
    /// What it depends on when it runs is not installed.
    Unmet,
    /// The entry that forbids it, or that it forbids.
    Conflict(Pkg),
    /// The class that it shares with the entry.
    Class(Text, Pkg),
    /// The entry that needs it when it runs, and stands before it.
    Late(Pkg),
    /// The switch would own too many paths, or its opam texts would be too long together.
    Full,
    /// One of its files cannot stand.
    Clash(Reason),
}
