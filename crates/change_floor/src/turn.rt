// Whose turn it is.
use outside_io::Fate;

/// The next action of a change.
#[derive(Clone, Copy, Debug, PartialEq, Eq)]
pub enum Turn {
    /// An entry is removed.
    Remove(u32),
    /// An install is given up: the least of its needs that are not installed is named.
    Abort { id: u32, need: u32 },
    /// The job of an install has ended like this.
    Decide { id: u32, fate: Fate },
    /// The next install has all its needs, and its job has not ended.
    Wait,
    /// Every removal and install is decided.
    Done,
}
