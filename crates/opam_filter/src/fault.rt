// Why a value is no filter or no formula.
ghost use Rattle.std.specs.Prelude.{◌≡◌};
ghost use Rattle.opam_filter.specs.declared.fault.FilterFault.TheVariants.{Memory};

use opam_names::OutOfMemory;
use std::alloc::{AllocError, AllocFailed};
use syntax_trees::Span;

/// What is wrong with a value, and where.
#[derive(Clone, Copy, Debug, PartialEq, Eq)]
pub enum FilterFault {
    /// No filter may be built so.
    NotAFilter { span: Span },
    /// No formula may be built so.
    NotAFormula { span: Span },
    /// The text is not UTF-8, or has a zero byte.
    NotText { span: Span },
    /// The text is no name of a package.
    BadName { span: Span },
    /// `!` or `?` over a constraint on the version.
    NegatedVersion { span: Span },
    /// Memory was refused.
    Memory,
}

impl From<AllocError> for FilterFault {
    ghost from_gives = { λ _ e. e ≡ Memory };

    fn from(_: AllocError) -> Self {
        FilterFault::Memory
    }
}

impl<T: Drop> From<AllocFailed<T>> for FilterFault {
    ghost from_gives = { λ _ e. e ≡ Memory };

    fn from(_: AllocFailed<T>) -> Self {
        FilterFault::Memory
    }
}

impl From<OutOfMemory> for FilterFault {
    ghost from_gives = { λ _ e. e ≡ Memory };

    fn from(_: OutOfMemory) -> Self {
        FilterFault::Memory
    }
}
