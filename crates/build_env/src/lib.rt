//! The job of a package: its commands and their environment under the variables of its build (opam manual, file format:
//! opam, build, setenv and build-env).
#![tactic(auto)]

mod environments;
mod export;
mod job_names;
mod jobs;
mod laws;
mod members;

pub use export::Export;
pub use jobs::job_for;
pub use laws::environment_is_of_exports;
