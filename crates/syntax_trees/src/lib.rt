//! The syntax of opam files: tokens, trees with spans, and what it means that bytes spell a tree (opam manual, file format). What
//! stands first in bytes, the items that tokens are, and the file that items are come of it each by itself; a reader puts them together.
#![tactic(auto)]

mod assembly;
mod entry;
mod fault;
mod file;
mod gaps;
mod laws;
mod lexer;
mod limits;
mod lookup;
mod parsing;
mod queue;
mod rows;
mod signs;
mod texts;
mod token;
mod tree;
mod values;
mod words;

pub use assembly::assemble;
pub use entry::{ReadContents, ReadEntry, ReadField};
pub use fault::{ParseFault, SyntaxFault};
pub use file::{File, Item, Key, Label, Word};
pub use laws::{
    deep_is_told, early_end_is_told, file_tokens_follow, files_are_faultless,
    files_are_nowhere_deep, files_have_no_fault, following_tokens_begin, one_derivation,
    one_fault_for_bytes, one_tree_for_bytes, spans_are_within,
};
pub use lexer::{ScanEnd, Scanned, Step, next_step, scan};
pub use limits::{FILE_LIMIT, NESTING_LIMIT};
pub use lookup::text_of;
pub use parsing::parse;
pub use rows::{rows_are_faulty, rows_are_spelled};
pub use token::{PlacedToken, Token};
pub use tree::{EnvOp, Node, RelOp, Span, Value, Var};
