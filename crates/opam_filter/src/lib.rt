//! Filters and formulas: the values of variables, texts with variables in them, and what a set of packages meets (opam
//! manual: filters, package formulas, variables).
#![tactic(auto)]

mod asking;
mod building;
mod copies;
mod earlier;
mod evaluating;
mod expanding;
mod fault;
mod fault_laws;
mod filter;
mod formula;
mod formula_laws;
mod judging;
mod meeting;
mod parts;
mod reading;
mod reducing;
mod rising;
mod scopes;
mod separating;
mod text_tests;
mod texts;
mod truth;
mod truths;
mod value_laws;
mod vars;

pub use asking::{asked, asked_in};
pub use evaluating::eval;
pub use expanding::expand;
pub use fault::FilterFault;
pub use fault_laws::{faults_are_listed, the_first_fault_is_told};
pub use filter::Filter;
pub use formula::{Braces, Formula, Reduced, Test};
pub use formula_laws::{
    dropped_holds, holding_is_monotone, nothing_is_dropped_inside, reducing_says_the_same,
};
pub use judging::{filter_fault, formula_fault};
pub use meeting::{holds, meets, names};
pub use reading::{read_filter, read_formula};
pub use reducing::reduce;
pub use rising::rises;
pub use scopes::value_at;
pub use separating::atoms;
pub use syntax_trees::{RelOp, Var};
pub use truth::{Truth, VarValue};
pub use value_laws::{asked_is_enough, names_rise, texts_are_cut};
pub use vars::Vars;
