// Files that are read from outside.
ghost use Rattle.std.specs.Prelude.{◌≡◌, ◌≤◌, ℕ};
ghost use Rattle.std.specs.declared.option.Option.{Option};
ghost use Rattle.outside_io.specs.declared.host.HostFault.TheVariants.{Memory};

use opam_names::{Items, OutOfMemory};
use std::alloc::{AllocError, Global};

/// What stands at a path, read up to a limit in bytes.
#[derive(Drop)]
pub enum Found {
    Absent,
    Bytes(Items<u8>),
    TooLong,
}

/// Why a file was not read.
#[derive(Clone, Copy, Debug, PartialEq, Eq)]
pub enum HostFault {
    Failed,
    Memory,
}

impl From<AllocError> for HostFault {
    ghost from_gives = { λ _ e. e ≡ Memory };

    fn from(_: AllocError) -> Self {
        HostFault::Memory
    }
}

impl From<OutOfMemory> for HostFault {
    ghost from_gives = { λ _ e. e ≡ Memory };

    fn from(_: OutOfMemory) -> Self {
        HostFault::Memory
    }
}

/// The machine's files, by their paths.
pub trait Host {
    ghost use Rattle.outside_io.specs.Counts.{Files};
    ghost use Rattle.outside_io.specs.Hosts.{HostCause, HostTells};

    /// The files, where the host tells them.
    ghost files: { Self → Option Files };

    /// How often a call has failed. It never falls.
    ghost faults: { Self → ℕ };

    /// The file at a path, if it has at most `limit` bytes.
    fn read(&mut self, alloc: Global, path: &str, limit: u64) -> Result<Found, HostFault>
        ensures cause { HostCause (faults self.old) (faults self.new) result }
        ensures same { files self.new ≡ files self.old }
        ensures told { HostTells (files self.old) path.now limit result };
}
