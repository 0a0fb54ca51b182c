//! A text read as an opam file, and a file printed as a text: what is read is the file of which it is the text, what is refused has
//! a fault with its place, and what is printed reads back.
#![tactic(auto)]

mod printing;
mod printing_laws;
mod reading;
mod rows;

pub use printing::print_file;
pub use printing_laws::printing_reads_back;
pub use reading::read_file;
pub use rows::{sample_is_printed, values_are_printed};
