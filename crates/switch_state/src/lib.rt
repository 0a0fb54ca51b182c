//! The state of a switch on a disk: what is installed, whose its paths are, what was asked for and which request is open, over
//! the journal, each change of them one commit.
#![tactic(auto)]

mod begins;
mod ending;
mod fault;
mod kept_files;
mod laws;
mod prepared;
mod preparing;
mod recovery;
mod removals;
mod request;
mod slots;
mod switch;
mod taking;

pub use fault::SwitchFault;
pub use laws::{
    actions_keep_form, begins_keep_form, begins_keep_sound, ends_keep_form, ends_keep_sound,
    installs_keep_sound, put_backs_keep_sound, removals_keep_sound, requests_remove_first,
    the_empty_state_is_formed, the_empty_state_is_sound,
};
pub use prepared::{Change, Prepared, Receipt};
pub use removals::KEPT_LIMIT;
pub use request::OpenRequest;
pub use switch::Switch;
