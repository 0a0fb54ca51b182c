//! Whether a package that a request removed, and whose new version did not come, is put back; and why it is not.
#![tactic(auto)]

mod against;
mod back;
mod least;
mod meeting;
mod unfit;
mod why;

pub use back::back_verdict;
pub use why::Why;
