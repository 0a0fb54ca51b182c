//! Which jobs of a change may run, and whose turn it is.
#![tactic(auto)]

mod copies;
mod floor;
mod index;
mod laws;
mod needs;
mod progress;
mod queue;
mod ready;
mod rows;
mod settling;
mod turn;

pub use floor::Floor;
pub use laws::{
    aborted_never_start, aborts_name_the_least, events_are_calls, first_start_is_allowed,
    jobs_see_their_views, never_stuck, schedule_does_not_decide, starts_are_single,
    workers_suffice,
};
pub use progress::Progress;
pub use turn::Turn;
