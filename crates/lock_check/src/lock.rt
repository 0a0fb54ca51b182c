// What a lock binds.
use opam_names::{Items, Pkg};

/// The packages that a lock binds, in the order of the bytes of their names, each name once.
#[derive(Drop)]
pub struct Lock {
    pub bound: Items<Pkg>,
}
