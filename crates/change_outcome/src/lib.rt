//! What a change comes to: the definition of its outcome, action by action, and what holds of every outcome. Nothing here runs.
#![tactic(auto)]

mod laws;

pub use laws::{
    actions_can_follow, foreign_files_stay, records_are_spelled, schedules_give_the_outcome,
    success_is_whole, the_journal_is_not_seen, what_is_decided_may_come,
    what_may_come_back_can_follow, what_may_come_can_follow,
};
