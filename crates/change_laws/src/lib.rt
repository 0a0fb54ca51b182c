//! What holds of every change by its definitions alone: a sound switch stays sound, and what is left of a change goes on as the whole
//! would have. Nothing here runs.
#![tactic(auto)]

mod laws;

pub use laws::{fit_plans_fit, no_file_has_two_owners, plans_begin_well, rests_go_on, stays_sound};
