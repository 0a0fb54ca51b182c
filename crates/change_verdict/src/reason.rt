// Why a package is not installed.
use install_sections::InstallFault;
use opam_names::{Pkg, RelPath};
use outside_io::Ending;

/// Why a package is not installed whose needs are.
#[derive(Drop)]
pub enum Reason {
    /// A step of its job, and how that ended. Step 0 prepares the build folder, step k is the k-th command.
    Step(u32, Ending),
    /// Its install file cannot be read.
    InstallUnreadable,
    /// Its install file is longer than [`crate::INSTALL_LIMIT`].
    InstallTooLong,
    /// Its install file is refused.
    InstallRefused(InstallFault),
    /// The source in the build folder that is not there.
    Missing(RelPath),
    /// The source in the build folder that cannot be read.
    Unreadable(RelPath),
    /// Its files are longer together than [`crate::FILES_LIMIT`].
    FilesTooLong,
    /// The path to place, and the package that owns it.
    Owned(RelPath, Pkg),
    /// The path to place, the path above or below it that is owned, and the package that owns that one.
    Meets(RelPath, RelPath, Pkg),
    /// The path to place, which meets a file that no package owns.
    Foreign(RelPath),
    /// The switch would own too many paths.
    SwitchFull,
}
