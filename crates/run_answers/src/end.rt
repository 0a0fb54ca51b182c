// How a run comes to its end, and what it answers.
ghost use Rattle.std.specs.Prelude.{◌≡◌};
ghost use Rattle.run_answers.specs.Ends as ends;

use crate::{Status, Stop};
use opam_names::Items;

/// How a run ends that comes to an answer.
#[derive(Clone, Copy, Debug, PartialEq, Eq)]
pub enum End {
    /// All that was asked for is done.
    Done,
    /// A file has an error.
    Findings,
    /// Some package failed or was aborted.
    Actions,
}

/// What a run answers: how it ends, and its text for standard output.
#[derive(Drop)]
pub struct Answer {
    pub end: End,
    pub text: Items<u8>,
}

/// The status of a run that ends so, where its output was `broken` or not. Where the output has failed and all else is done, that is
/// the status; what else went wrong comes first.
pub(crate) fn status_at_end(end: &Result<End, Stop>, broken: bool) -> Status
    ensures { result ≡ ends.status_at_end broken end.now }
{
    match end {
        Ok(End::Done) if broken => Status::OutFailed,
        Ok(End::Done) => Status::Done,
        Ok(End::Findings) => Status::Findings,
        Ok(End::Actions) => Status::Actions,
        Err(stop) => stop.status(),
    }
}

/// What is then said on standard error.
pub(crate) fn text_at_end(end: &Result<End, Stop>, broken: bool) -> &[u8]
    ensures { result.now ≡ ends.text_at_end broken end.now }
{
    match end {
        Ok(End::Done) if broken => b"output fault\n",
        Ok(_) => b"",
        Err(stop) => stop.text(),
    }
}
