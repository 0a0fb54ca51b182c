//! Locks and targets: what a lock file binds, what a change of a switch comes to, and what stands against it (opam manual,
//! file format: opam, depends; lock files).
#![tactic(auto)]

mod answer;
mod chase;
mod differ;
mod growth;
mod held;
mod install;
mod laws;
mod lock;
mod lock_fault;
mod lock_items;
mod lock_texts;
mod made;
mod progress;
mod removal;
mod sharing;
mod targets;
mod violation;
mod violations;

pub use answer::Answer;
pub use chase::Chase;
pub use differ::names_differ;
pub use held::Held;
pub use laws::{
    chases_end, installed_stays, least_is_one, least_is_there, none_is_left_out,
    nothing_against_is_met, nothing_against_is_peace, union_is_met,
};
pub use lock::Lock;
pub use lock_fault::LockFault;
pub use lock_texts::read_lock;
pub use targets::{reinstall_target, remove_target};
pub use violation::{Violation, What, Who};
