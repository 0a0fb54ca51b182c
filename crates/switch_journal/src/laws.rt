// Laws of reading, as functions that do nothing: what each ensures is proved.
ghost use Rattle.switch_journal.specs.Laws.{EachMapIsRead, OneListOfRecords, OneOutcome, OneReading, ReadByTheirInside, SayTheSameInside, WhatIsReadIsSaid};

use journal_text::{
    one_record_for_bytes, one_slot_for_bytes, record_or_none_for_bytes, slot_or_none_for_bytes,
};

/// Files hold at most one list of counted records.
pub fn records_are_determined()
    ensures { OneListOfRecords }
{}

/// Which records count, and what the slots are, is told by the files of the journal alone.
pub fn a_journal_is_read_by_its_files()
    ensures { ReadByTheirInside }
{}

/// Files say at most one thing of a switch, or have one first bad file.
pub fn readings_are_determined()
    ensures { OneOutcome }
{
    one_record_for_bytes();
    one_slot_for_bytes();
}

/// Each map of files says something of a switch, or has a first bad file.
pub fn each_map_is_read()
    ensures { EachMapIsRead }
{
    one_record_for_bytes();
    one_slot_for_bytes();
    record_or_none_for_bytes();
    slot_or_none_for_bytes();
}

/// What files say of a switch is told by the files of the journal alone.
pub fn readings_are_of_the_journal()
    ensures { SayTheSameInside }
{}

/// Files are read with one set of numbers, say one thing, and have one last record's work.
pub fn one_reading_of_files()
    ensures { OneReading }
{
    one_record_for_bytes();
    one_slot_for_bytes();
}

/// What files say is what is read, with some numbers and some work.
pub fn what_is_read_is_said()
    ensures { WhatIsReadIsSaid }
{}
