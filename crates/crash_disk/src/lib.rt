//! The disk of a switch, with what a stop of the machine may leave of it.
#![tactic(auto)]

mod batch;
pub mod calls;
mod changes;
mod disk;
mod memory_disk;
mod spots;

pub use batch::{Write, write_all};
pub use disk::{Claim, Disk, DiskFault, DiskRead, Look};
pub use memory_disk::MemoryDisk;
pub use spots::Choice;
