//! Where bytes stop to be a file of opam: which token may follow those before it, and how deep it nests.
#![tactic(auto)]

mod beginnings;
mod control;
mod depth;
mod fault;
mod follower;
mod heights;
mod step;

pub use beginnings::{beginning_len, begins_file, tokens_follow};
pub use depth::first_deep;
pub use fault::fault_of;
pub use follower::Follower;
pub use step::Taken;
