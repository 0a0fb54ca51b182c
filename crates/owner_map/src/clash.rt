// Where a new path meets another.

/// A new path that is the same as another, above or below it.
#[derive(Clone, Copy, Debug, PartialEq, Eq)]
pub struct Clash {
    /// The place of the new path.
    pub index: usize,
    pub other: Other,
}

/// Which path a new one meets.
#[derive(Clone, Copy, Debug, PartialEq, Eq)]
pub enum Other {
    /// The new path at this place, before it.
    Earlier(usize),
    /// The owned path at this place, in byte order.
    Owned(usize),
}
