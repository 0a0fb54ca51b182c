//! Lists of paths in byte order of which none is above another: whether a list is one, and how a path is looked for in it
//! by halves.
#![tactic(auto)]

mod pathed;
mod search;
mod texts;

pub use pathed::Pathed;
pub use search::{above_in, are_apart, place_of};
pub use texts::stands_before;
