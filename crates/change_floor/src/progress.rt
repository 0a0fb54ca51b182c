// How far the job of an install is.
use outside_io::Fate;

/// How far the job of an install is.
#[derive(Clone, Copy, Debug, PartialEq, Eq)]
pub enum Progress {
    /// It was never started.
    Waiting,
    Running,
    /// It has ended, maybe long before its turn.
    Ended(Fate),
}
