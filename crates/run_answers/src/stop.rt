// Why a run comes to no answer.
ghost use Rattle.std.specs.Prelude.{◌≡◌};
ghost use Rattle.run_answers.specs.Stops as stops;
ghost use Rattle.run_answers.specs.declared.stop.Stop.TheVariants.{Memory};

use crate::Status;
use opam_names::{Items, OutOfMemory};
use std::alloc::AllocError;

/// Why what is asked for is refused.
#[derive(Clone, Copy, Debug, PartialEq, Eq)]
pub enum Cause {
    /// The words are no command.
    Words,
    /// Something is not found, or not bound.
    NotFound,
    /// What is asked for does not hold together.
    NoSolution,
    /// A file cannot be taken as it is, or a limit is passed.
    BadFile,
    /// The journal of the switch is damaged.
    Damaged,
}

impl Cause {
    pub fn status(self) -> Status
        ensures { result ≡ stops.status_of_cause self }
    {
        match self {
            Cause::Words => Status::Words,
            Cause::NotFound => Status::NotFound,
            Cause::NoSolution => Status::NoSolution,
            Cause::BadFile => Status::BadFile,
            Cause::Damaged => Status::Damaged,
        }
    }
}

/// Why a run comes to no answer.
#[derive(Drop)]
pub enum Stop {
    /// What is asked for is refused, with what is said of it.
    Refused { cause: Cause, text: Items<u8> },
    /// Another run has claimed the switch.
    Locked,
    /// The host has failed.
    HostFailed,
    /// The disk has failed.
    DiskFailed,
    /// Memory was refused.
    Memory,
}

impl From<OutOfMemory> for Stop {
    ghost from_gives = { λ _ e. e ≡ Memory };

    fn from(_: OutOfMemory) -> Self {
        Stop::Memory
    }
}

impl From<AllocError> for Stop {
    ghost from_gives = { λ _ e. e ≡ Memory };

    fn from(_: AllocError) -> Self {
        Stop::Memory
    }
}

impl Stop {
    /// The status of a run that is stopped so.
    pub fn status(&self) -> Status
        ensures { result ≡ stops.status_of_stop self.now }
    {
        match self {
            Stop::Refused { cause, .. } => cause.status(),
            Stop::Locked => Status::Locked,
            Stop::HostFailed => Status::HostFailed,
            Stop::DiskFailed => Status::DiskFailed,
            Stop::Memory => Status::Memory,
        }
    }

    /// What is then said on standard error.
    pub fn text(&self) -> &[u8]
        ensures { result.now ≡ stops.text_of_stop self.now }
    {
        match self {
            Stop::Refused { text, .. } => text.as_slice(),
            Stop::Locked => b"the switch is locked\n",
            Stop::HostFailed => b"host fault\n",
            Stop::DiskFailed => b"disk fault\n",
            Stop::Memory => b"",
        }
    }
}
