// Why a switch was not opened.
use opam_names::RelPath;

/// Why a switch was not opened.
#[derive(Drop)]
pub enum SwitchFault {
    /// A call of the disk has failed.
    DiskFailed,
    /// The files are no journal: the first bad one is named. Or an opam text of the switch is too long or is refused: the record or
    /// the slot is named from which the first such text comes.
    Damaged { path: RelPath },
    Memory,
}
