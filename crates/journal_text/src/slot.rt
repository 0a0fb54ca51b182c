// What a slot of the journal says.
ghost use Rattle.std.specs.Prelude.{◌≡◌};

use crate::record::Entry;
use opam_names::{Items, Name, RelPath};
use path_order::Pathed;

/// The longest slot, in bytes. This limit is this project's own.
pub const SLOT_LIMIT: usize = 2_147_483_647;

/// A path that a package owns, and the place of that package in the list of entries.
#[derive(Drop)]
pub struct Owned {
    pub path: RelPath,
    pub owner: u32,
}

/// The state of a switch after a record: the number of that record, the installed packages in the
/// order in which they came, those that were asked for, and the paths that they own.
#[derive(Drop)]
pub struct Snapshot {
    pub number: u64,
    pub entries: Items<Entry>,
    pub roots: Items<Name>,
    pub owned: Items<Owned>,
}

impl Pathed for Owned {
    ghost path = { λ owned. owned.path };

    fn path(&self) -> &RelPath {
        &self.path
    }
}
