// Worked rows of the grammar.
ghost use Rattle.syntax_trees.specs.Rows.{RowsAreFaulty, RowsAreSpelled};

/// A lock, three opam files and some short texts spell the items that a reader expects of them.
pub fn rows_are_spelled()
    ensures { RowsAreSpelled }
{}

/// Short texts that are stray, have ended early or have a doubled name, each at its place.
pub fn rows_are_faulty()
    ensures { RowsAreFaulty }
{}
