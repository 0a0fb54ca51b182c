// Why a package was not read from a repository.
ghost use Rattle.std.specs.Prelude.{◌≡◌};
ghost use Rattle.folder_repo.specs.declared.fault.RepoFault.TheVariants.{Memory};

use opam_names::OutOfMemory;
use opam_package::PackageFault;

/// Why a package was not read from a repository.
#[derive(Clone, Copy, Debug, PartialEq, Eq)]
pub enum RepoFault {
    /// The host has failed.
    HostFailed,
    /// The file is longer than [`opam_package::OPAM_LIMIT`], or than the room that is left.
    TooLong,
    /// The file is not that of the package, for this first fault of it. It is never want of memory.
    Package(PackageFault),
    /// Memory was refused.
    Memory,
}

impl From<OutOfMemory> for RepoFault {
    ghost from_gives = { λ _ e. e ≡ Memory };

    fn from(_: OutOfMemory) -> Self {
        RepoFault::Memory
    }
}
