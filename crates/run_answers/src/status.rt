// How a run ended.
ghost use Rattle.std.specs.Prelude.{◌≡◌};
ghost use Rattle.run_answers.specs.Statuses.{number_of};

use opam_names::{Items, Pkg};
use outside_io::Fate;
use switch_state::Receipt;

/// How a run ended. The program ends with the status's number.
#[derive(Clone, Copy, Debug, PartialEq, Eq)]
pub enum Status {
    /// All that was asked for is done.
    Done,
    /// `lint` has found an error.
    Findings,
    /// The words are no command.
    Words,
    /// A lock, a file or a package is not there.
    NotFound,
    /// Another run works on the switch.
    Locked,
    /// The locked set does not hold together.
    NoSolution,
    /// A lock or an opam file is refused, or a limit is passed.
    BadFile,
    /// Some package failed or was aborted.
    Actions,
    /// A file could not be read.
    HostFailed,
    /// The disk of the switch failed.
    DiskFailed,
    /// The output could not be written.
    OutFailed,
    /// The journal of the switch is damaged.
    Damaged,
    /// Memory was refused.
    Memory,
}

impl Status {
    /// The number with which the program ends.
    pub fn number(&self) -> u8
        ensures { result ≡ number_of self.now }
    {
        match self {
            Status::Done => 0,
            Status::Findings => 1,
            Status::Words => 2,
            Status::NotFound => 5,
            Status::Locked => 15,
            Status::NoSolution => 20,
            Status::BadFile => 30,
            Status::Actions => 31,
            Status::HostFailed => 40,
            Status::DiskFailed => 41,
            Status::OutFailed => 42,
            Status::Damaged => 50,
            Status::Memory => 98,
        }
    }
}

/// How a run ended: its status, each job that was started and came to its end, with its fate, in the order in which they were taken
/// in, and a receipt for each action that was committed.
#[derive(Drop)]
pub struct Ended {
    pub status: Status,
    pub heard: Items<(Pkg, Fate)>,
    pub receipts: Items<Receipt>,
}
