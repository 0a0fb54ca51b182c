// What a journal knows of its disk.
ghost use Rattle.std.specs.Prelude.{◌≡◌};
ghost use Rattle.switch_journal.specs.Journal.{is_due};

use std::marker::Model;

/// With so many records beyond the slot that counts, a new slot is due.
pub const RECORDS_TO_SLOT: u64 = 64;

/// The journal of a disk that was opened: which slot counts, which slot gates are open, which records are counted beyond that slot,
/// and whether the journal is old.
#[derive(Drop)]
pub struct Journal {
    pub(crate) counts: Option<bool>,
    pub(crate) zero_is_open: bool,
    pub(crate) one_is_open: bool,
    // The number of the first record beyond the slot, and of the next record.
    pub(crate) first: u64,
    pub(crate) next: u64,
    pub(crate) old: bool,
}

impl Model for Journal {
    ghost use Rattle.std.specs.Prelude.{◌≤◌, ◌^◌};
    ghost use Rattle.switch_journal.specs.Journal.{Head};

    ghost Value = { Head };

    ghost view = { λ j. record {
      counts = j.counts;
      zero_is_open = j.zero_is_open;
      one_is_open = j.one_is_open;
      first = j.first;
      next = j.next;
      old = j.old;
    } };

    ghost invariant = { λ j. (j.first ≤ 2 ^ 63) × (j.next ≤ 2 ^ 63) };
}

impl Journal {
    /// Whether a slot is to be written before the next request begins: 64 or more records are counted beyond the slot that counts, or
    /// the journal is old.
    pub fn due(&self) -> bool
        ensures { result ≡ is_due self.now }
    {
        self.old || self.next.saturating_sub(self.first) >= RECORDS_TO_SLOT
    }
}
