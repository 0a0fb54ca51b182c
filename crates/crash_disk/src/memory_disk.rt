// A disk in memory that keeps each change with its moment.
ghost use Rattle.std.specs.Prelude.{IsTrue};
ghost use Rattle.crash_disk.specs.Log.{all_until};

mod calls;
mod images;

use crate::changes::{Entry, Listed};
use opam_names::Items;
use std::alloc::Global;

/// A disk in memory that tells its files. It keeps what stood on it at first, and each change since with its moment.
/// Calls that were listed when it was made fail.
#[derive(Drop)]
pub struct MemoryDisk {
    alloc: Global,
    first: Vec<Listed>,
    log: Items<Entry>,
    fail: Vec<u64>,
    calls: u64,
    faults: u64,
    starved: u64,
    held: u64,
    taken: bool,
    ghost in_order: { IsTrue (all_until calls log) },
}
