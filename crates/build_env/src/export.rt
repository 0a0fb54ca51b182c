// What a package sets in the environment of those who need it.
use opam_names::{Items, Pkg};
use opam_package::EnvUpdate;

/// The updates that a package of the view sets in the environment of those who need it.
#[derive(Drop)]
pub struct Export {
    pub pkg: Pkg,
    pub updates: Items<EnvUpdate>,
}
