// Which of several faults is told.
ghost use Rattle.std.specs.Prelude.{◌≡◌};
ghost use Rattle.opam_filter.specs.Faults as filters;
ghost use Rattle.opam_package.specs.PackageFaults as faults;
ghost use Rattle.opam_package.specs.PackageFaults.{first_fault, inner_faults};

use crate::PackageFault;
use opam_filter::FilterFault;

fn filter_start(fault: FilterFault) -> u32
    ensures { result ≡ filters.place_of fault }
{
    match fault {
        FilterFault::NotAFilter { span }
        | FilterFault::NotAFormula { span }
        | FilterFault::NotText { span }
        | FilterFault::BadName { span }
        | FilterFault::NegatedVersion { span } => span.start,
        FilterFault::Memory => 0,
    }
}

fn filter_rank(fault: FilterFault) -> u8
    ensures { result ≡ filters.rank_of fault }
{
    match fault {
        FilterFault::NotText { .. } => 0,
        FilterFault::NotAFilter { .. } => 1,
        FilterFault::NotAFormula { .. } => 2,
        FilterFault::BadName { .. } => 3,
        FilterFault::NegatedVersion { .. } => 4,
        FilterFault::Memory => 5,
    }
}

/// Where a fault of a value stands, in bytes from the start of the text.
pub fn fault_start(fault: PackageFault) -> u32
    ensures { result ≡ faults.fault_start fault }
{
    match fault {
        PackageFault::Filter(fault) => filter_start(fault),
        PackageFault::WrongKind { span }
        | PackageFault::NotText { span }
        | PackageFault::Mismatch { span }
        | PackageFault::OpamVersion { span }
        | PackageFault::TooMany { span }
        | PackageFault::EnvOperator { span }
        | PackageFault::Unsafe { span } => span.start,
        PackageFault::Syntax(_) | PackageFault::Memory => 0,
    }
}

fn fault_rank(fault: PackageFault) -> u8
    ensures { result ≡ faults.fault_rank fault }
{
    match fault {
        PackageFault::Filter(fault) => filter_rank(fault),
        PackageFault::WrongKind { .. } => 10,
        PackageFault::NotText { .. } => 11,
        PackageFault::Mismatch { .. } => 12,
        PackageFault::OpamVersion { .. } => 13,
        PackageFault::TooMany { .. } => 14,
        PackageFault::EnvOperator { .. } => 15,
        PackageFault::Unsafe { .. } => 16,
        PackageFault::Syntax(_) | PackageFault::Memory => 20,
    }
}

fn is_sooner(one: PackageFault, other: PackageFault) -> bool
    ensures { result ≡ faults.is_sooner one other }
{
    let (start, start_of_other) = (fault_start(one), fault_start(other));
    start < start_of_other || (start == start_of_other && fault_rank(one) < fault_rank(other))
}

// Of two of one kind at one place, that of the inner value, which is named first.
pub(crate) fn sooner(one: Option<PackageFault>, other: Option<PackageFault>) -> Option<PackageFault>
    ensures { result ≡ faults.sooner one other }
{
    match (one, other) {
        (None, _) => other,
        (Some(_), None) => one,
        (Some(first), Some(second)) => { if is_sooner(second, first) { other } else { one } }
    }
}

// The fault of a filter or a formula, where it has one.
pub(crate) fn inner_fault(fault: Option<FilterFault>) -> Option<PackageFault>
    ensures { result ≡ first_fault (inner_faults fault) }
{
    match fault {
        None => None,
        Some(fault) => Some(PackageFault::Filter(fault)),
    }
}
