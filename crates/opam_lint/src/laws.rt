// Laws, each proved as a clause of a function that does nothing but call upon a law below.
ghost use Rattle.opam_lint.specs.LintLaws.{ErrorsAreExact, FindingsAreDetermined, FindingsAreOrdered};

use opam_package::the_first_is_told;
use syntax_trees::one_tree_for_bytes;

/// What is put into the order of findings has the same elements, never falls by place and code, and no other list is so.
pub fn findings_are_ordered()
    ensures { FindingsAreOrdered }
{}

/// Whatever file a text is read as, the findings are the same.
pub fn findings_are_determined()
    ensures { FindingsAreDetermined }
{
    one_tree_for_bytes();
}

/// No error is found just in a file that has no fault, whose package is refused for none of its items, and that says of which
/// format it is.
pub fn errors_are_exact()
    ensures { ErrorsAreExact }
{
    the_first_is_told();
}
