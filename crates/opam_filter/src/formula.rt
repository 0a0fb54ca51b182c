// Formulas over packages, as they are read from a file, and what is left of them once variables have values.
use crate::{Filter, Truth};
use opam_names::{Name, Text};
use sqlite_items::Items;
use syntax_trees::RelOp;

/// A formula over packages (opam manual, package formulas).
#[derive(Drop)]
pub enum Formula {
    /// A package, and what stands in braces after its name; an `And` of none where nothing does.
    Atom { name: Name, braces: Braces },
    And(Items<Formula>),
    Or(Items<Formula>),
}

/// What stands in braces: filters, and constraints on the version of the package.
#[derive(Drop)]
pub enum Braces {
    Filter(Filter),
    /// A relation without a left side; its right side is a text or a variable.
    Version(RelOp, Filter),
    And(Items<Braces>),
    Or(Items<Braces>),
}

/// A formula whose filters have been answered: what is left of it.
#[derive(Drop)]
pub enum Reduced {
    /// All of it was left out.
    Dropped,
    And(Items<Reduced>),
    Or(Items<Reduced>),
    Atom { name: Name, test: Test },
}

/// What a version of the package has to meet.
#[derive(Drop)]
pub enum Test {
    /// A filter that has been answered.
    Known(Truth),
    /// None: the right side was undefined.
    Version(RelOp, Option<Text>),
    And(Items<Test>),
    Or(Items<Test>),
}
