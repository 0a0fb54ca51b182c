// How much an install file may have. The limit is this project's own; code and definitions share it.

/// How many items the sections of an install file may have together.
pub const ITEM_LIMIT: usize = 65_536;
