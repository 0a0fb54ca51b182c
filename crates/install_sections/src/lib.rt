//! Install files: which files of a build a package places, and where (opam manual, package definitions: `.install` files).
#![tactic(auto)]

mod fault;
mod judging;
mod laws;
mod limits;
mod placement;
mod reading;
mod sections;
mod targets;
mod verdicts;
mod views;
mod written_paths;

pub use fault::InstallFault;
pub use laws::{files_are_limited, files_stay_below, items_stay_below, only_length_is_refused};
pub use limits::ITEM_LIMIT;
pub use placement::{Placement, Verdict};
pub use reading::{placements_of, read_install};
pub use sections::{Folder, Layout, Section};
