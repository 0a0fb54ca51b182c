// The request that is open.
use opam_names::{Buffer, Items, Pkg, RelPath};
use opam_package::Member;
use switch_journal::Done;

/// A request that has begun and has not ended.
#[derive(Drop)]
pub struct OpenRequest {
    /// The record that begins it.
    pub from: RelPath,
    /// The packages that are to be installed at its end, in the order of the bytes of their names.
    pub target: Items<Member>,
    /// The packages that it removes, in the order in which it does.
    pub removals: Items<Pkg>,
    /// What it has done so far.
    pub done: Buffer<Done>,
}
