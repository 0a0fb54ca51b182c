// Laws of formulas, each proved as a clause of a function that does nothing.
ghost use Rattle.opam_filter.specs.Laws.{DroppedHolds, HoldingIsMonotone, NothingIsDroppedInside, ReducingSaysTheSame};

/// To reduce a formula and ask what is left says the same as to read it directly, where what is left out holds.
pub fn reducing_says_the_same()
    ensures { ReducingSaysTheSame }
{}

/// What holds of a set holds of one with more packages; and, where no version is asked for, of one with the same names
/// and more.
pub fn holding_is_monotone()
    ensures { HoldingIsMonotone }
{}

/// A formula all of whose atoms are dropped, and in which no `or` is without parts, holds of every set.
pub fn dropped_holds()
    ensures { DroppedHolds }
{}

/// A formula is dropped as a whole, or nothing that was dropped is left in it.
pub fn nothing_is_dropped_inside()
    ensures { NothingIsDroppedInside }
{}
