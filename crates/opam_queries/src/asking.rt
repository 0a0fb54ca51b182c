// Answers, and refusals in place of them.
ghost use Rattle.std.specs.Prelude.{◌≡◌, Err};
ghost use Rattle.change_front.specs.declared.refusal.Refusal.TheVariants.{NotFound, TooLong};
ghost use Rattle.run_answers.specs.Stops.{refusal_stop};
ghost use Rattle.opam_queries.specs.Asking.{OrMemory};
ghost use Rattle.opam_queries.specs.Replies.{nothing_found, told_answer};

use change_front::Refusal;
use opam_names::{Items, OutOfMemory, Text};
use run_answers::{Answer, End, Stop, stop_of_refusal};
use std::alloc::Global;

// The answer that has this text, where all is done.
pub(crate) fn told_answer(text: Vec<u8>) -> Answer
    ensures { result ≡ told_answer text.items }
{
    Answer {
        end: End::Done,
        text: Items::from_vec(text),
    }
}

// What is asked for is refused.
pub(crate) fn refused(alloc: Global, refusal: &Refusal) -> Result<Answer, Stop>
    ensures { OrMemory (Err (refusal_stop refusal.now)) result }
{
    Err(stop_of_refusal(alloc, refusal))
}

// There is nothing of this name.
pub(crate) fn not_found(alloc: Global, word: &str) -> Result<Answer, Stop>
    ensures { OrMemory (nothing_found word.now) result }
{
    match Text::from_str(alloc, word) {
        Ok(word) => refused(alloc, &Refusal::NotFound(word)),
        Err(OutOfMemory) => Err(Stop::Memory),
    }
}

// The file at this path is too long.
pub(crate) fn too_long(alloc: Global, path: &str) -> Result<Answer, Stop>
    ensures { OrMemory (Err (refusal_stop (TooLong path.now))) result }
{
    match Text::from_str(alloc, path) {
        Ok(path) => refused(alloc, &Refusal::TooLong(path)),
        Err(OutOfMemory) => Err(Stop::Memory),
    }
}
