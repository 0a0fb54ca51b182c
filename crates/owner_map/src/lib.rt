//! Who owns the paths of a switch: a list in byte order of paths, of which none is above another, and the least clash of
//! new paths with it.
#![tactic(auto)]

mod chunk;
mod chunks;
mod clash;
mod earlier;
mod laws;
mod meeting;
mod owned;
mod owners;
mod sorted_list;

pub use clash::{Clash, Other};
pub use laws::additions_are_met;
pub use owned::OwnedPath;
pub use owners::Owners;
