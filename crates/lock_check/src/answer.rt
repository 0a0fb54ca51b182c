// What is found of a package that is looked for.
use opam_package::Member;

/// What the repository says of a package.
#[derive(Drop)]
pub enum Answer {
    Known(Member),
    /// It has none.
    Unknown,
}
