// Laws of install files, each proved as a clause of a function that does nothing.
ghost use Rattle.install_sections.specs.InstallLaws.{FilesAreLimited, FilesStayBelow, ItemsStayBelow, OnlyLengthIsRefused};

/// The file of an item lies below the folder of its section, and apart from the folder of the switch itself.
pub fn items_stay_below()
    ensures { ItemsStayBelow }
{}

/// Each file of an install file lies below the folder of one of the sections.
pub fn files_stay_below()
    ensures { FilesStayBelow }
{}

/// An install file without a fault places no more files than the limit.
pub fn files_are_limited()
    ensures { FilesAreLimited }
{}

/// The whole path of an item whose texts are not unsafe is refused exactly where it is longer than the limit.
pub fn only_length_is_refused()
    ensures { OnlyLengthIsRefused }
{}
