// Why a text is no opam file of a package.
ghost use Rattle.std.specs.Prelude.{◌≡◌};
ghost use Rattle.opam_package.specs.declared.fault.PackageFault.TheVariants.{Memory};

use opam_filter::FilterFault;
use opam_names::OutOfMemory;
use std::alloc::{AllocError, AllocFailed};
use syntax_trees::{Span, SyntaxFault};

/// What is wrong with an opam file, and where.
#[derive(Clone, Copy, Debug, PartialEq, Eq)]
pub enum PackageFault {
    /// It has no syntax of a file.
    Syntax(SyntaxFault),
    /// A filter or a formula is none.
    Filter(FilterFault),
    /// The value is of another form than the field has.
    WrongKind { span: Span },
    /// The text is not UTF-8, or has a zero byte.
    NotText { span: Span },
    /// The name or the version is not that of the package.
    Mismatch { span: Span },
    /// The version of the format does not begin with `2.`.
    OpamVersion { span: Span },
    /// The command is one more than [`crate::COMMAND_LIMIT`].
    TooMany { span: Span },
    /// An update of the environment has another sign, or another right side than a text.
    EnvOperator { span: Span },
    /// The path does not stay below the folder of the sources, or is too long.
    Unsafe { span: Span },
    /// Memory was refused.
    Memory,
}

impl From<AllocError> for PackageFault {
    ghost from_gives = { λ _ e. e ≡ Memory };

    fn from(_: AllocError) -> Self {
        PackageFault::Memory
    }
}

impl<T: Drop> From<AllocFailed<T>> for PackageFault {
    ghost from_gives = { λ _ e. e ≡ Memory };

    fn from(_: AllocFailed<T>) -> Self {
        PackageFault::Memory
    }
}

impl From<OutOfMemory> for PackageFault {
    ghost from_gives = { λ _ e. e ≡ Memory };

    fn from(_: OutOfMemory) -> Self {
        PackageFault::Memory
    }
}
