// Laws of the canonical spelling.
ghost use Rattle.opam_syntax.specs.Printed.{PrintedIsReadBack, PrintedIsSpelled};

/// Whatever text a file was read from, its canonical spelling is the text of the same items at other places; what is read of it
/// is printed as it was.
pub fn printing_reads_back()
    ensures spelled { PrintedIsSpelled }
    ensures read_back { PrintedIsReadBack }
{}
