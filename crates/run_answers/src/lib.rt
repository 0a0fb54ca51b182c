//! What every run of the program shares: how it ends, with which status, and what is then said; and the opening of the switch.
#![tactic(auto)]

mod delivery;
mod end;
mod opening;
mod refusals;
mod status;
mod stop;

pub use delivery::{answer_with, conclude, deliver};
pub use end::{Answer, End};
pub use opening::{Opened, open_switch};
pub use refusals::{stop_of_refusal, stop_of_words};
pub use status::{Ended, Status};
pub use stop::{Cause, Stop};
