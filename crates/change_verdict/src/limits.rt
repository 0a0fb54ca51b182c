// How much a package may bring. The limits are this project's own; code and definitions share them.

/// How many bytes an install file may have.
pub const INSTALL_LIMIT: usize = 1_048_576;

/// How many bytes the files of a package may have together.
pub const FILES_LIMIT: usize = 268_435_456;
