// What stands against a target.
use opam_names::{ByteKey, Name, Pkg, Text};

/// Of what a violation is told.
#[derive(Drop)]
pub enum Who {
    Name(Name),
    Pkg(Pkg),
}

/// What is wrong with it.
#[derive(Drop)]
pub enum What {
    /// It is needed and not in the repository, or asked for and not bound.
    Unknown,
    /// It is to be removed or built once more, and is not installed.
    NotInstalled,
    /// Its filter `available` is not true.
    Unavailable,
    /// A reading of this value of `depends`, counted from 1, does not hold.
    Unmet(u32),
    /// It forbids this package.
    Conflict(Pkg),
    /// It shares this class with that package.
    Class(Text, Pkg),
    /// It has this field, which is not done.
    Refused(Text),
}

/// Something that stands against a target.
#[derive(Drop)]
pub struct Violation {
    pub who: Who,
    pub what: What,
}

/// A violation stands by the name of what it is told of.
impl ByteKey for Violation {
    ghost use Rattle.lock_check.specs.Violations.{violation_name};

    ghost key = { λ violation. violation_name violation };

    fn key(&self) -> &[u8] {
        match &self.who {
            Who::Name(name) => name.as_str().as_bytes(),
            Who::Pkg(pkg) => pkg.name.as_str().as_bytes(),
        }
    }
}
