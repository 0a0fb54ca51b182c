// Why a line has no answer.
use opam_names::OutOfMemory;
use std::alloc::{AllocError, AllocFailed};

/// Why a line has no answer.
#[derive(Drop)]
pub enum Fault {
    /// It is no call, for this reason.
    Line(&'static str),
    Memory,
    /// There is no call of this name with so many words.
    Unknown,
}

impl From<AllocError> for Fault {
    fn from(_: AllocError) -> Self {
        Fault::Memory
    }
}

impl<T: Drop> From<AllocFailed<T>> for Fault {
    fn from(_: AllocFailed<T>) -> Self {
        Fault::Memory
    }
}

impl From<OutOfMemory> for Fault {
    fn from(_: OutOfMemory) -> Self {
        Fault::Memory
    }
}
