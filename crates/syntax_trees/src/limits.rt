// How long a text may be, and how deep it may nest. These limits are this project's own; code and definitions share them.

/// The longest text of a file that is read, in bytes: 4 MiB.
pub const FILE_LIMIT: usize = 4_194_304;

/// How many brackets and prefix operators may stand in each other.
pub const NESTING_LIMIT: u32 = 64;
