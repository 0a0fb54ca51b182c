// Laws of texts and of what is asked for, each proved as a clause of a function that does nothing but call upon a law below.
ghost use Rattle.opam_filter.specs.Laws.{AskedIsEnough, NamesRise, TextsAreCut};

use opam_names::texts_rise;

/// The parts of a text are the text: each interpolation goes from the first `%{` up to the next `}%`, and none is left.
pub fn texts_are_cut()
    ensures { TextsAreCut }
{}

/// Of the packages, the value of a filter or of a text depends on those that it asks for alone.
pub fn asked_is_enough()
    ensures { AskedIsEnough }
{
    texts_rise();
}

/// The names that are asked for, and those that are left, rise in the order of bytes, and are those of the plain lists.
pub fn names_rise()
    ensures { NamesRise }
{
    texts_rise();
}
