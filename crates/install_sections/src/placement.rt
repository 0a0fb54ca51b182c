// What an install file says of one file.
use crate::InstallFault;
use opam_names::RelPath;

/// A file that is to be placed.
#[derive(Drop)]
pub struct Placement {
    /// Where it lies, below the folder of the build.
    pub src: RelPath,
    /// Whether it may be absent there.
    pub optional: bool,
    /// Where it goes, below the prefix.
    pub dst: RelPath,
    /// Whether it can be executed.
    pub exec: bool,
}

/// What an item of a section gives.
#[derive(Drop)]
pub enum Verdict {
    Places(Placement),
    Fails(InstallFault),
}
