// What is decided of a package.
ghost use Rattle.std.specs.Prelude.{◌≡◌};
ghost use Rattle.opam_top.specs.Reports.{is_done, is_installed, is_removed, is_failed, is_aborted};

use opam_names::{Pkg, RelPath};
use outside_io::Ending;

/// What was decided of a package.
#[derive(Drop)]
pub enum Decision {
    Installed(Pkg),
    Removed(Pkg),
    /// It was tried, and is not installed.
    Failed(Pkg, Reason),
    /// It was not tried: the second package is the need that is not installed.
    Aborted(Pkg, Pkg),
}

impl Decision {
    /// Whether what was to be done of the package is done: it is installed or removed.
    pub fn is_done(&self) -> bool
        ensures { result ≡ is_done self.now }
    {
        self.is_installed() || self.is_removed()
    }

    pub(crate) fn is_installed(&self) -> bool
        ensures { result ≡ is_installed self.now }
    {
        matches!(self, Decision::Installed(_))
    }

    pub(crate) fn is_removed(&self) -> bool
        ensures { result ≡ is_removed self.now }
    {
        matches!(self, Decision::Removed(_))
    }

    pub(crate) fn is_failed(&self) -> bool
        ensures { result ≡ is_failed self.now }
    {
        matches!(self, Decision::Failed(_, _))
    }

    pub(crate) fn is_aborted(&self) -> bool
        ensures { result ≡ is_aborted self.now }
    {
        matches!(self, Decision::Aborted(_, _))
    }
}

/// Why a package failed.
#[derive(Drop)]
pub enum Reason {
    /// A step of its job, and how that ended. Step 0 prepares the build folder, step k is the k-th command.
    Step(u32, Ending),
    /// Its install text cannot be read.
    InstallUnreadable,
    /// Its install text is too long.
    InstallTooLong,
    /// Its install text asks for what is not built yet.
    InstallNotBuilt,
    /// The source in the build folder that is not there.
    Missing(RelPath),
    /// The source in the build folder that cannot be read.
    Unreadable(RelPath),
    /// Its files are too long together.
    FilesTooLong,
    /// The path to place, and the package that owns it.
    Owned(RelPath, Pkg),
    /// The path to place, which meets a file that no package owns.
    Foreign(RelPath),
    /// The switch would hold too many files.
    SwitchFull,
}
