//! The variables that filters and texts see: the global ones, and those of the build of a package (opam manual, package
//! definitions: variables).
#![tactic(auto)]

mod build_variables;
mod facts;
mod laws;
mod package_rows;
mod variable_rows;

pub use build_variables::{globals, vars_for};
pub use facts::{Facts, View};
pub use laws::scopes_are_enough;
pub use opam_filter::{VarValue, Vars};
