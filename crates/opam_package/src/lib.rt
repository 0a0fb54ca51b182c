//! Typed opam files: what the fields of a package say, what is wrong with them and where, and which packages it needs
//! (opam manual, file format: opam).
#![tactic(auto)]

mod command_faults;
mod commands;
mod copies;
mod dependencies;
mod fault;
mod field_faults;
mod fields;
mod forms;
mod formulas;
mod laws;
mod limits;
mod package;
mod package_texts;
mod paths;
mod reading;
mod relatives;
mod sooner;
mod sources;
mod texts;
mod update_faults;
mod updates;
mod views;
mod wishes;

pub use dependencies::{edges, forbids, needs};
pub use fault::PackageFault;
pub use field_faults::{file_fault, section_fault};
pub use fields::field_of;
pub use laws::{edges_are_needs, edges_rise, the_first_is_told};
pub use limits::{COMMAND_LIMIT, OPAM_LIMIT, SUBST_LIMIT};
pub use package::{Arg, Command, EnvUpdate, Member, Need, Package, Target, Word};
pub use package_texts::read_package;
pub use reading::package_of;
pub use sooner::fault_start;
pub use sources::is_refused;
