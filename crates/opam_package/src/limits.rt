// How much an opam file may have. These limits are this project's own; code and definitions share them.

/// The longest opam file, in bytes.
pub const OPAM_LIMIT: usize = 1_048_576;

/// How many commands the field `build` may have.
pub const COMMAND_LIMIT: usize = 64;

/// The longest text in the field `substs`, in bytes as it is written: `.in` still fits behind it.
pub const SUBST_LIMIT: usize = 1021;
