// Laws of reading: exactly the canonical spellings are read.
ghost use Rattle.opam_top.specs.Readings.{InstallTextsAreRead, LocksAreRead, NamesAreInOrder, OpamFilesAreRead};

/// An install text gives items exactly where it is empty and they are none, or where it is their canonical spelling,
/// whose last newline may be missing.
pub fn install_texts_are_read()
    ensures { InstallTextsAreRead }
{}

/// A lock binds packages exactly where it is empty and they are none, or where it is the canonical spelling of them in
/// some order, whose last newline may be missing.
pub fn locks_are_read()
    ensures { LocksAreRead }
{}

/// What a lock binds comes in an order in which the names rise, byte by byte.
pub fn names_are_in_order()
    ensures { NamesAreInOrder }
{}

/// An opam file gives commands exactly where it is the line of the version and they are none, or where it is their
/// canonical spelling.
pub fn opam_files_are_read()
    ensures { OpamFilesAreRead }
{}
