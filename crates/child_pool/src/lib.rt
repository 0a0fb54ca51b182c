//! Crews: who builds the jobs of a change. A crew of size `n` has at most `n` jobs running, and gives the fate of each,
//! one at a time.
#![tactic(auto)]

mod crew;
mod ends;
mod hints;
mod order;
mod pool;
mod serial;
mod steps;
#[cfg(test)]
mod tests;
mod threads;

pub use crew::{Crew, Event};
pub use ends::drain;
pub use hints::Hints;
pub use order::OrderCrew;
pub use pool::{PoolCrew, Work};
pub use serial::SerialCrew;
pub use steps::build;
pub use threads::{Child, FateOf, PoolParts};
