// What the records of the journal say.
ghost use Rattle.std.specs.Prelude.{◌≡◌};

use opam_names::{ByteKey, Items, Name, Pkg, RelPath};
use path_order::Pathed;

/// The longest record, in bytes. This limit is this project's own.
pub const RECORD_LIMIT: usize = 402_653_184;

/// A file that is put below the prefix: where it stands, whether it is executable, and what it
/// holds.
#[derive(Drop)]
pub struct Placed {
    pub path: RelPath,
    pub exec: bool,
    pub bytes: Items<u8>,
}

/// What a removal keeps of a package, so that it can be put back: its opam text and its files.
#[derive(Drop)]
pub struct KeptFiles {
    pub opam: Items<u8>,
    pub files: Items<Placed>,
}

/// A package with its opam text.
#[derive(Drop)]
pub struct Entry {
    pub pkg: Pkg,
    pub opam: Items<u8>,
}

/// A record of the journal.
#[derive(Drop)]
pub enum Rec {
    /// A package was installed, with its opam text and its files.
    Install {
        pkg: Pkg,
        opam: Items<u8>,
        files: Items<Placed>,
    },
    /// A package that this request removed was put back, with its opam text and its files.
    PutBack {
        pkg: Pkg,
        opam: Items<u8>,
        files: Items<Placed>,
    },
    /// A package was removed.
    Remove {
        pkg: Pkg,
        kept: Option<KeptFiles>,
    },
    /// A request is open: the packages that were asked for, those that are to be installed when it
    /// ends, and those that it removes, in the order in which it does.
    Begin {
        roots: Items<Name>,
        target: Items<Entry>,
        removals: Items<Pkg>,
    },
    /// The open request has ended.
    End,
}

impl Pathed for Placed {
    ghost path = { λ file. file.path };

    fn path(&self) -> &RelPath {
        &self.path
    }
}

/// A package with its text stands by its name.
impl ByteKey for Entry {
    ghost key = { λ entry. entry.pkg.name };

    fn key(&self) -> &[u8] {
        self.pkg.key()
    }
}
