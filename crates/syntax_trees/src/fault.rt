// Why bytes are no file.
ghost use Rattle.std.specs.Prelude.{◌≡◌};
ghost use Rattle.syntax_trees.specs.declared.fault.ParseFault.TheVariants.{Memory};
ghost use Rattle.syntax_trees.specs.declared.fault.SyntaxFault.TheVariants as syntax;

use opam_names::OutOfMemory;
use std::alloc::{AllocError, AllocFailed};

/// What is wrong with the bytes, and at which of them, counted from 0.
#[derive(Clone, Copy, Debug, PartialEq, Eq)]
pub enum SyntaxFault {
    /// They end before the file does.
    Ended { at: u32 },
    /// With the byte at this place they begin no file.
    Stray { at: u32 },
    /// The bracket or the prefix operator at this place is nested in 64 others.
    Deep { at: u32 },
    /// The name at this place has come before.
    Doubled { at: u32 },
    /// Memory was refused.
    Memory,
}

impl From<OutOfMemory> for SyntaxFault {
    ghost from_gives = { λ _ e. e ≡ syntax.Memory };

    fn from(_: OutOfMemory) -> Self {
        SyntaxFault::Memory
    }
}

impl From<AllocError> for SyntaxFault {
    ghost from_gives = { λ _ e. e ≡ syntax.Memory };

    fn from(_: AllocError) -> Self {
        SyntaxFault::Memory
    }
}

impl<T: Drop> From<AllocFailed<T>> for SyntaxFault {
    ghost from_gives = { λ _ e. e ≡ syntax.Memory };

    fn from(_: AllocFailed<T>) -> Self {
        SyntaxFault::Memory
    }
}

/// Why tokens are no entries of a file. The number says how many tokens stand after the one at which it is seen.
#[derive(Clone, Copy, Debug, PartialEq, Eq)]
pub enum ParseFault {
    /// They end before an entry does.
    Ended,
    /// A token goes on with nothing that stands before it.
    Stray(usize),
    /// A bracket or a prefix operator is nested in 64 others.
    Deep(usize),
    /// Memory was refused.
    Memory,
}

impl From<AllocError> for ParseFault {
    ghost from_gives = { λ _ e. e ≡ Memory };

    fn from(_: AllocError) -> Self {
        ParseFault::Memory
    }
}

impl<T: Drop> From<AllocFailed<T>> for ParseFault {
    ghost from_gives = { λ _ e. e ≡ Memory };

    fn from(_: AllocFailed<T>) -> Self {
        ParseFault::Memory
    }
}

impl From<OutOfMemory> for ParseFault {
    ghost from_gives = { λ _ e. e ≡ Memory };

    fn from(_: OutOfMemory) -> Self {
        ParseFault::Memory
    }
}
