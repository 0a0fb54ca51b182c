// Laws of the reading, each proved as a clause of a function that does nothing.
ghost use Rattle.command_words.specs.Laws.{NamesAreInOrder};

/// The names of a command rise in the order of bytes, and are those of its plain words.
pub fn names_rise()
    ensures { NamesAreInOrder }
{}
