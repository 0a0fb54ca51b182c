//! What is decided of an install: which files the build of a package brings, what stands in their way, and whether the package
//! comes with them or fails, and why.
#![tactic(auto)]

mod clash;
mod foreign;
mod install;
mod limits;
mod reason;
mod sources;
mod verdict;

pub use clash::first_clash;
pub use install::{install_verdict, verdict_of_job, would_be_full};
pub use limits::{FILES_LIMIT, INSTALL_LIMIT};
pub use reason::Reason;
pub use sources::sources_of;
pub use verdict::{Sources, Verdict};
