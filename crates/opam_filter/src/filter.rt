// Filters, as they are read from a file.
use opam_names::Text;
use sqlite_items::{Boxed, Items};
use syntax_trees::{RelOp, Var};

/// A filter (opam manual, filters).
#[derive(Drop)]
pub enum Filter {
    Flag(bool),
    /// A text, which may have variables in it.
    Text(Text),
    Var(Var),
    /// Two sides, compared as versions.
    Rel(RelOp, Boxed<Filter>, Boxed<Filter>),
    Not(Boxed<Filter>),
    /// `? ..`: whether it has a value.
    Defined(Boxed<Filter>),
    And(Items<Filter>),
    Or(Items<Filter>),
}
