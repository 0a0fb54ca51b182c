//! The jobs of a change: made, started on a crew, taken in and heard, and what is then true of the floor.
#![tactic(auto)]

mod jobs;
mod laws;
mod package_jobs;
mod starting;
mod taking;

pub use jobs::{Heard, Jobs, begin_jobs};
pub use laws::{
    decisions_go_on, ends_are_as_told, ends_are_decided, ends_are_single, job_is_one,
    packages_are_short,
};
pub use package_jobs::job_of;
pub use starting::start_next;
pub use taking::{take_all, take_one};
