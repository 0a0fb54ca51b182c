// Why a request is refused before anything is changed, and of which kind that is.
ghost use Rattle.std.specs.Prelude.{◌≡◌};
ghost use Rattle.change_front.specs.Refusals as refusals;

use lock_check::{LockFault, Violation, What};
use opam_names::{Items, Name, Text};
use opam_package::PackageFault;

/// Why a request is refused.
#[derive(Drop)]
pub enum Refusal {
    /// There is no file at this path.
    NotFound(Text),
    /// The file at this path is longer than it may be, or than the room that is left.
    TooLong(Text),
    /// The file at this path is no lock. The fault is never want of memory.
    BadLock(Text, LockFault),
    /// The file at this path is no opam file of its package. The fault is never want of memory.
    BadOpam(Text, PackageFault),
    /// More names are installed or needed than [`crate::NAMES_LIMIT`].
    TooManyPackages,
    /// The opam texts of the target have more bytes than [`crate::TEXTS_LIMIT`].
    TextsTooLong,
    /// All that stands against the target, in order.
    Violations(Items<Violation>),
    /// These need one another, or one of those. The names are in byte order.
    Cycle(Items<Name>),
}

/// What kind of refusal it is.
#[derive(Clone, Copy, Debug, PartialEq, Eq)]
pub enum Kind {
    /// Something is not found, or not bound.
    Missing,
    NoSolution,
    /// A file cannot be taken as it is, or a limit is passed.
    BadFile,
}

fn is_unknown(what: &What) -> bool
    ensures { result ≡ refusals.is_unknown what.now }
{
    match what {
        What::Unknown => true,
        What::NotInstalled
        | What::Unavailable
        | What::Unmet(_)
        | What::Conflict(_)
        | What::Class(_, _)
        | What::Refused(_) => false,
    }
}

fn has_unknown(violations: &[Violation]) -> bool
    ensures { result ≡ refusals.has_unknown violations.now }
{
    violations
        .iter()
        .any(|violation| is_unknown(&violation.what))
}

impl Refusal {
    /// Of which kind it is: among violations, what is unknown comes before all else.
    pub fn kind(&self) -> Kind
        ensures { result ≡ refusals.kind_of self.now }
    {
        match self {
            Refusal::NotFound(_) => Kind::Missing,
            Refusal::TooLong(_)
            | Refusal::BadLock(_, _)
            | Refusal::BadOpam(_, _)
            | Refusal::TooManyPackages
            | Refusal::TextsTooLong => Kind::BadFile,
            Refusal::Violations(violations) => kind_among(violations.as_slice()),
            Refusal::Cycle(_) => Kind::NoSolution,
        }
    }
}

fn kind_among(violations: &[Violation]) -> Kind
    ensures { result ≡ refusals.kind_among violations.now }
{
    if has_unknown(violations) {
        Kind::Missing
    } else {
        Kind::NoSolution
    }
}
