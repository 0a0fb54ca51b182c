// What can be found in an opam file.
use opam_package::PackageFault;

/// Something that is wrong with an opam file, or that it lacks.
#[derive(Clone, Copy, Debug, PartialEq, Eq)]
pub struct Finding {
    /// Which rule it is of; codes below 20 are errors.
    pub code: u8,
    /// The byte at which it stands, counted from 0; 0 where something is missing.
    pub at: u32,
    pub problem: Problem,
}

/// What is wrong.
#[derive(Clone, Copy, Debug, PartialEq, Eq)]
pub enum Problem {
    /// The fault for which the text is refused.
    Fault(PackageFault),
    /// The version of the format is not given.
    NoFormat,
    /// The item keeps the package from being installed.
    Refused,
    /// The field is not known.
    Unknown,
    NoSynopsis,
    NoMaintainer,
    /// A list without values stands among the commands.
    EmptyCommand,
}
