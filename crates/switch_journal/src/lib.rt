//! The journal of a switch on a disk: which records count, how one is committed, how the last one's work is done again, and
//! what a stop of the machine at any moment of this leaves.
#![tactic(auto)]

mod asked;
mod changes;
mod commits;
mod conditions;
mod fault;
mod gated;
mod journal;
mod kept;
mod laws;
mod open_slot;
mod opening;
mod places;
mod request;
mod slot_kept;
mod slot_owners;
mod slot_pieces;
mod slots;
mod snapshots;
mod standing;
mod steps;
mod walk;

pub use commits::{Ready, commit, make_ready, redo};
pub use fault::OpenFault;
pub use gated::{Gated, read_record, read_slot};
pub use journal::{Journal, RECORDS_TO_SLOT};
pub use kept::Kept;
pub use laws::{
    a_journal_is_read_by_its_files, each_map_is_read, one_reading_of_files,
    readings_are_determined, readings_are_of_the_journal, records_are_determined,
    what_is_read_is_said,
};
pub use places::{gate_path_of, record_path_of, slot_gate_of, slot_path_of};
pub use request::{Done, ENTRY_LIMIT, OWNED_LIMIT, Open, TEXT_LIMIT};
pub use slot_pieces::Slot;
pub use slots::{ReadySlot, make_slot, write_slot};
pub use standing::Standing;
