//! What a request comes to before anything is changed: the first refusal, or a target with its plan. No disk is looked at.
#![tactic(auto)]

mod fault;
mod front;
mod fronts;
mod installing;
mod judging;
mod limits;
mod locks;
mod reading;
mod refusal;
mod texts;

pub use fault::FrontFault;
pub use front::{Front, Planned};
pub use fronts::{install_front, reinstall_front, remove_front};
pub use limits::{NAMES_LIMIT, READ_LIMIT, TEXTS_LIMIT};
pub use refusal::{Kind, Refusal};
pub use texts::refusal_text;
