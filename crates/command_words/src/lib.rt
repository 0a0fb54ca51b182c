//! The words of a command line, read as a command or refused with the first fault from the left.
#![tactic(auto)]

mod arguments;
mod building;
mod checking;
mod command;
mod fault;
mod laws;
mod reading;
mod tables;
mod values;

pub use command::{Change, Command, Query, Shown};
pub use fault::WordFault;
pub use laws::names_rise;
pub use reading::read_words;
