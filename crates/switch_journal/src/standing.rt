// A package that stands in a switch.
use journal_text::Entry;
use opam_names::RelPath;

/// An installed package with its opam text, and the record or the slot from which it comes.
#[derive(Drop)]
pub struct Standing {
    pub entry: Entry,
    pub from: RelPath,
}
