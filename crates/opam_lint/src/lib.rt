//! What is wrong with an opam file, and what it lacks: each finding with a code, a place and a text (opam manual, file format:
//! opam; the codes are this project's own).
#![tactic(auto)]

mod empty_commands;
mod finding;
mod finding_texts;
mod findings;
mod known_fields;
mod laws;
mod linting;
mod naming;

pub use finding::{Finding, Problem};
pub use finding_texts::{fault_text, findings_text};
pub use laws::{errors_are_exact, findings_are_determined, findings_are_ordered};
pub use linting::lint;
