// Laws, each proved as a clause of a function that does nothing.
ghost use Rattle.opam_package.specs.PackageLaws.{EdgesAreNeeds, EdgesRise, TheFirstIsTold};

use opam_names::{Pkg, rising_is_kept};

/// Of several faults one is told before which none of the others comes.
pub fn the_first_is_told()
    ensures { TheFirstIsTold }
{}

/// What a package needs when it runs it also needs in all, and it neither needs nor forbids itself.
pub fn edges_are_needs()
    ensures { EdgesAreNeeds }
{}

/// Names of edges and needs stand in the order of their bytes, where those of the set do.
pub fn edges_rise()
    ensures { EdgesRise }
{
    rising_is_kept::<Pkg>();
}
