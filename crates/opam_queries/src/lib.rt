//! The questions of the command line, which change no package: what is installed, what one package is, and what is wrong with an opam
//! file.
#![tactic(auto)]

mod asking;
mod linting;
mod queries;
mod showing;

pub use queries::opam_query;
