// Why a value is not read.
ghost use Rattle.std.specs.Prelude.{◌≡◌};
ghost use Rattle.journal_text.specs.declared.stop.Stop.TheVariants.{Memory};

use opam_names::OutOfMemory;
use std::alloc::{AllocError, AllocFailed};

/// Why a value is not read.
#[derive(Drop)]
pub(crate) enum Stop {
    /// The bytes begin with no such value.
    Bad,
    Memory,
}

impl From<AllocError> for Stop {
    ghost from_gives = { λ _ e. e ≡ Memory };

    fn from(_: AllocError) -> Self {
        Stop::Memory
    }
}

impl<T: Drop> From<AllocFailed<T>> for Stop {
    ghost from_gives = { λ _ e. e ≡ Memory };

    fn from(_: AllocFailed<T>) -> Self {
        Stop::Memory
    }
}

impl From<OutOfMemory> for Stop {
    ghost from_gives = { λ _ e. e ≡ Memory };

    fn from(_: OutOfMemory) -> Self {
        Stop::Memory
    }
}
