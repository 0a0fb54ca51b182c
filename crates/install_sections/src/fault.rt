// Why a text is no install file.
ghost use Rattle.std.specs.Prelude.{◌≡◌};
ghost use Rattle.install_sections.specs.declared.fault.InstallFault.TheVariants.{Memory};

use opam_names::OutOfMemory;
use std::alloc::AllocError;
use syntax_trees::{Span, SyntaxFault};

/// What is wrong with an install file, and where (opam manual, package definitions: `.install` files).
#[derive(Clone, Copy, Debug, PartialEq, Eq)]
pub enum InstallFault {
    /// It has no syntax of a file.
    Syntax(SyntaxFault),
    /// A field or a section has a name that is none of a section of files. The span is that of the whole.
    UnknownSection { span: Span },
    /// The field `misc` has an item. The span is that of the whole field.
    Misc { span: Span },
    /// An item is neither a text nor a text with one text in braces.
    NotAnItem { span: Span },
    /// The path of a source or of a destination does not stay below its folder, or is too long.
    Unsafe { span: Span },
    /// The item is one more than [`crate::ITEM_LIMIT`].
    TooMany { span: Span },
    /// Memory was refused.
    Memory,
}

impl From<AllocError> for InstallFault {
    ghost from_gives = { λ _ e. e ≡ Memory };

    fn from(_: AllocError) -> Self {
        InstallFault::Memory
    }
}

impl From<OutOfMemory> for InstallFault {
    ghost from_gives = { λ _ e. e ≡ Memory };

    fn from(_: OutOfMemory) -> Self {
        InstallFault::Memory
    }
}
