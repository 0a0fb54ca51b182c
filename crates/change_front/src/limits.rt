// How much a run may read. These limits are this project's own; code and definitions share them.

/// How many names may be installed or needed together.
pub const NAMES_LIMIT: u32 = 4096;

/// How many bytes an `install` may read from the repository.
pub const READ_LIMIT: u64 = 268_435_456;

/// How many bytes the opam texts of a target may have together.
pub const TEXTS_LIMIT: u64 = 268_435_456;
