// What is decided of a package.
use crate::Reason;
use journal_text::Placed;
use opam_names::Items;

/// What the build of a package brings: the files that it places, in the order of its install file, or why they cannot be had.
#[derive(Drop)]
pub enum Sources {
    Found(Items<Placed>),
    Refused(Reason),
}

/// What is decided of an install: the package comes with these files, in the order of their paths, or it fails.
#[derive(Drop)]
pub enum Verdict {
    Places(Items<Placed>),
    Fails(Reason),
}
