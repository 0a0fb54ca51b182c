// Why a text is no lock file, and which of several faults is told.
ghost use Rattle.std.specs.Prelude.{◌≡◌};
ghost use Rattle.opam_filter.specs.Faults as filters;
ghost use Rattle.lock_check.specs.LockFaults as faults;
ghost use Rattle.lock_check.specs.LockFaults.{inner_lock_faults, first_lock_fault};
ghost use Rattle.lock_check.specs.declared.lock_fault.LockFault.TheVariants.{Memory};

use opam_filter::FilterFault;
use opam_names::OutOfMemory;
use std::alloc::{AllocError, AllocFailed};
use syntax_trees::{Span, SyntaxFault};

/// What is wrong with a lock file, and where.
#[derive(Clone, Copy, Debug, PartialEq, Eq)]
pub enum LockFault {
    /// It has no syntax of a file.
    Syntax(SyntaxFault),
    /// A further filter of an item is none.
    Filter(FilterFault),
    /// The item has not the form of a lock's. The span is that of the item.
    Unbound { span: Span },
    /// An earlier item has the same name. The span is that of the item.
    Twice { span: Span },
    /// Memory was refused.
    Memory,
}

impl From<AllocError> for LockFault {
    ghost from_gives = { λ _ e. e ≡ Memory };

    fn from(_: AllocError) -> Self {
        LockFault::Memory
    }
}

impl<T: Drop> From<AllocFailed<T>> for LockFault {
    ghost from_gives = { λ _ e. e ≡ Memory };

    fn from(_: AllocFailed<T>) -> Self {
        LockFault::Memory
    }
}

impl From<OutOfMemory> for LockFault {
    ghost from_gives = { λ _ e. e ≡ Memory };

    fn from(_: OutOfMemory) -> Self {
        LockFault::Memory
    }
}

fn filter_start(fault: FilterFault) -> u32
    ensures { result ≡ filters.place_of fault }
{
    match fault {
        FilterFault::NotAFilter { span }
        | FilterFault::NotAFormula { span }
        | FilterFault::NotText { span }
        | FilterFault::BadName { span }
        | FilterFault::NegatedVersion { span } => span.start,
        FilterFault::Memory => 0,
    }
}

fn fault_start(fault: LockFault) -> u32
    ensures { result ≡ faults.lock_fault_start fault }
{
    match fault {
        LockFault::Filter(fault) => filter_start(fault),
        LockFault::Unbound { span } | LockFault::Twice { span } => span.start,
        LockFault::Syntax(_) | LockFault::Memory => 0,
    }
}

/// Of two faults the one that begins further left, or else the first.
pub(crate) fn sooner(one: Option<LockFault>, other: Option<LockFault>) -> Option<LockFault>
    ensures { result ≡ faults.sooner_lock_fault one other }
{
    match (one, other) {
        (None, _) => other,
        (Some(_), None) => one,
        (Some(first), Some(second)) => {
            if fault_start(second) < fault_start(first) {
                other
            } else {
                one
            }
        }
    }
}

/// The fault of a filter, where it has one.
pub(crate) fn inner_fault(fault: Option<FilterFault>) -> Option<LockFault>
    ensures { result ≡ first_lock_fault (inner_lock_faults fault) }
{
    match fault {
        None => None,
        Some(fault) => Some(LockFault::Filter(fault)),
    }
}
