//! A set of packages that is made of two numbers, with the lock and the endings of their builds: what a large change is tried on
//! without any files.
#![tactic(auto)]

mod devices;
mod drawing;
#[cfg(test)]
mod tests;
mod texts;

pub use devices::{generated_host, generated_shop};
pub use drawing::{edge_count, generated_needs};
