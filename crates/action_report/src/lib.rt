//! What was decided of the packages of a change, and how it is reported: a line for each decision, and a summary; and what is told of
//! the packages of a switch.
#![tactic(auto)]

mod causes;
mod decision;
mod install_faults;
mod lines;
mod queries;
mod reasons;
mod totals;

pub use decision::Decision;
pub use lines::line_of;
pub use queries::{list_text, show_text};
pub use totals::summary;
