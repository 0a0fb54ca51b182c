//! A repository in a folder: the opam file of a package, read from a host (opam manual, repositories).
#![tactic(auto)]

mod fault;
mod opam_paths;
mod repository;

pub use fault::RepoFault;
pub use repository::find;
