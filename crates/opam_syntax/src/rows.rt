// Worked rows of the canonical spelling.
ghost use Rattle.opam_syntax.specs.Rows.{SampleIsPrinted, ValuesArePrinted};

/// The canonical spelling of a file with a list, an identifier and a text in braces.
pub fn sample_is_printed()
    ensures { SampleIsPrinted }
{}

/// The canonical spelling of values of every kind, and of sections.
pub fn values_are_printed()
    ensures { ValuesArePrinted }
{}
