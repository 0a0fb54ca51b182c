// The packages that are to be installed.
use opam_names::{Items, Pkg, Text};

/// A package that is to be installed, with the bytes of its opam file and its build commands, each a list of words.
#[derive(Drop)]
pub struct Member {
    pub pkg: Pkg,
    pub opam: Items<u8>,
    pub commands: Items<Items<Text>>,
}

/// What the repository has of a package.
#[derive(Drop)]
pub enum Answer {
    Known(Member),
    /// It has no opam file of it.
    Unknown(Pkg),
    /// Its opam file is of a form that is not built.
    NotBuilt,
}
