// Which of several faults comes first.
ghost use Rattle.std.specs.Prelude.{◌≡◌};
ghost use Rattle.opam_filter.specs.Faults as faults;

use crate::FilterFault;

fn place_of(fault: FilterFault) -> u32
    ensures { result ≡ faults.place_of fault }
{
    match fault {
        FilterFault::NotAFilter { span }
        | FilterFault::NotAFormula { span }
        | FilterFault::NotText { span }
        | FilterFault::BadName { span }
        | FilterFault::NegatedVersion { span } => span.start,
        FilterFault::Memory => 0,
    }
}

fn rank_of(fault: FilterFault) -> u8
    ensures { result ≡ faults.rank_of fault }
{
    match fault {
        FilterFault::NotText { .. } => 0,
        FilterFault::NotAFilter { .. } => 1,
        FilterFault::NotAFormula { .. } => 2,
        FilterFault::BadName { .. } => 3,
        FilterFault::NegatedVersion { .. } => 4,
        FilterFault::Memory => 5,
    }
}

fn comes_before(one: FilterFault, other: FilterFault) -> bool
    ensures { result ≡ faults.comes_before one other }
{
    let (place, place_of_other) = (place_of(one), place_of(other));
    place < place_of_other || (place == place_of_other && rank_of(one) < rank_of(other))
}

// Of two of one kind at one place, that of the inner node, which is named first.
pub(crate) fn earlier(one: Option<FilterFault>, other: Option<FilterFault>) -> Option<FilterFault>
    ensures { result ≡ faults.earlier one other }
{
    match (one, other) {
        (None, _) => other,
        (Some(_), None) => one,
        (Some(first), Some(second)) => {
            if comes_before(second, first) {
                other
            } else {
                one
            }
        }
    }
}
