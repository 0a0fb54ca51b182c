// Laws of faults, each proved as a clause of a function that does nothing.
ghost use Rattle.opam_filter.specs.FaultLists.{FaultsAreListed};
ghost use Rattle.opam_filter.specs.Laws.{FirstFaultIsTold};

/// Of several faults one is told before which none of the others comes, whichever way they are grouped.
pub fn the_first_fault_is_told()
    ensures { FirstFaultIsTold }
{}

/// The fault that is told of a node, in each place where it may stand, is the first of all its faults there.
pub fn faults_are_listed()
    ensures { FaultsAreListed }
{}
