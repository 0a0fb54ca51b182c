// Laws of the spellings, each proved as a clause of a function that does nothing.
ghost use Rattle.journal_text.specs.Laws.{OneRecordForBytes, OneSlotForBytes, RecordOrNoneForBytes, SlotOrNoneForBytes};

/// Bytes spell at most one record.
pub fn one_record_for_bytes()
    ensures { OneRecordForBytes }
{}

/// Bytes spell at most one slot.
pub fn one_slot_for_bytes()
    ensures { OneSlotForBytes }
{}

/// Bytes spell a record, which can be told from them, or none.
pub fn record_or_none_for_bytes()
    ensures { RecordOrNoneForBytes }
{}

/// Bytes spell a slot, which can be told from them, or none.
pub fn slot_or_none_for_bytes()
    ensures { SlotOrNoneForBytes }
{}
