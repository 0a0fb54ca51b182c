// Laws of the order of versions, of lists in byte order and of tests, each proved as a clause of a function that does nothing.
ghost use Rattle.opam_names.specs.ByteOrderLaws.{FirstsRise, OrderIsStable, RisingIsKept, TextsRise};
ghost use Rattle.opam_names.specs.OrderLaws.{EqualVersionsDifferInZeros, FirstDifferenceDecides, LeadingZerosDoNotCount, RunsAreCut, TildeComesFirst, VersionsAreOrdered};
ghost use Rattle.opam_names.specs.TestLaws.{TestsSayTheSame};

use crate::ByteKey;

/// The order of versions is total and transitive, and each version is equal to itself.
pub fn versions_are_ordered()
    ensures { VersionsAreOrdered }
{}

/// A version that goes on with `~` comes before the one that has ended.
pub fn tilde_comes_first()
    ensures { TildeComesFirst }
{}

/// Zeros before a number change nothing.
pub fn leading_zeros_do_not_count()
    ensures { LeadingZerosDoNotCount }
{}

/// Texts that differ and are equal versions have the same words and the same numbers, written with other zeros.
pub fn equal_versions_differ_in_zeros()
    ensures { EqualVersionsDifferInZeros }
{}

/// The first run in which two versions differ decides.
pub fn first_difference_decides()
    ensures { FirstDifferenceDecides }
{}

/// The runs of a text are cut where digits begin and end.
pub fn runs_are_cut()
    ensures { RunsAreCut }
{}

/// What stays true of lists whose keys rise.
pub fn rising_is_kept<T: ByteKey>()
    ensures { RisingIsKept T.key }
{}

/// What putting a list into byte order leaves.
pub fn order_is_stable<T: ByteKey>()
    ensures { OrderIsStable T.key }
{}

/// What keeping the first of each key leaves.
pub fn firsts_rise<T: ByteKey>()
    ensures { FirstsRise T.key }
{}

/// Texts of which each stands once in byte order rise, and are the same texts.
pub fn texts_rise()
    ensures { TextsRise }
{}

/// The tests that compute say the same as what is said of names, versions and paths.
pub fn tests_say_the_same()
    ensures { TestsSayTheSame }
{}
