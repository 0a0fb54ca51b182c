//! How the journal spells its records and slots, in the format that is written and in the old one: each
//! has one spelling, and bytes spell at most one.
#![tactic(auto)]

mod decoding;
mod encoding;
mod field;
mod fields;
mod laws;
mod order;
mod reader;
mod record;
mod slot;
mod slot_decoding;
mod slot_encoding;
mod slot_order;
mod slot_parts;
mod stop;
mod writer;

pub use decoding::{decode, decode_old};
pub use encoding::encode;
pub use laws::{
    one_record_for_bytes, one_slot_for_bytes, record_or_none_for_bytes, slot_or_none_for_bytes,
};
pub use record::{Entry, KeptFiles, Placed, RECORD_LIMIT, Rec};
pub use slot::{Owned, SLOT_LIMIT, Snapshot};
pub use slot_decoding::{decode_old_slot, decode_slot};
pub use slot_encoding::encode_slot;
pub use slot_parts::{
    push_slot_count, push_slot_entry, push_slot_front, push_slot_path, push_slot_root,
};
