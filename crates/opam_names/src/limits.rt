// How long the values may be, in bytes. These limits are this project's own; code and definitions share them.

/// The longest name of a package, in bytes.
pub const NAME_LIMIT: usize = 120;

/// The longest version, in bytes.
pub const VERSION_LIMIT: usize = 120;

/// The longest path below a folder, in bytes.
pub const PATH_LIMIT: usize = 1024;
