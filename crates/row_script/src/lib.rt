//! Scripts of calls, a line each: how a line is read, what its words stand for, how answers are shown, and the devices in
//! memory that a script describes. It proves nothing but that it is safe.
#![tactic(auto)]

pub mod answers;
pub mod devices;
pub mod disk_calls;
pub mod fates;
pub mod fault;
pub mod lexer;
pub mod script;
pub mod show;
pub mod values;
pub mod writes;
