// What is written to the outside at the end of a run.
ghost use Rattle.std.specs.Prelude.{◌≡◌, false};
ghost use Rattle.outside_io.specs.SinkEffects.{IsTold};
ghost use Rattle.run_answers.specs.Deliveries.{Answers, Delivers};
ghost use Rattle.run_answers.specs.Ends as ends;
ghost use Rattle.run_answers.specs.Ends.{end_of, out_of};

use crate::end::{status_at_end, text_at_end};
use crate::{Answer, End, Status, Stop};
use outside_io::{Sink, Teller};

/// Writes a text to a sink, and nothing more once the sink has failed. Whether it has.
pub fn deliver<S: Sink>(sink: &mut S, text: &[u8]) -> bool
    ensures told { IsTold S.Sink text.now false result sink.old sink.new }
{
    let mut teller = Teller::new(sink);
    teller.tell(text);
    teller.broken()
}

#[tactic(auto, using(crate::proofs::Delivered::delivered))]
fn say<S: Sink>(sink: &mut S, text: &[u8])
    ensures { Delivers S.Sink text.now sink.old sink.new }
{
    let _ = deliver(sink, text);
}

/// Says on standard error what is said of a run that ends so, whose output is `broken` or not, and gives its status. A fault of
/// standard error changes nothing.
pub fn conclude<E: Sink>(end: &Result<End, Stop>, broken: bool, err: &mut E) -> Status
    ensures status { result ≡ ends.status_at_end broken end.now }
    ensures said { Delivers E.Sink (ends.text_at_end broken end.now) err.old err.new }
{
    say(err, text_at_end(end, broken));
    status_at_end(end, broken)
}

/// Writes an answer's text to the output, then says on standard error what is said of it, and gives the status of the run. Where the
/// run was stopped, the output gets nothing.
pub fn answer_with<O: Sink, E: Sink>(
    answer: Result<Answer, Stop>,
    out: &mut O,
    err: &mut E,
) -> Status
    ensures { Answers O.Sink E.Sink (end_of answer) (out_of answer)
        result out.old out.new err.old err.new }
{
    match answer {
        Ok(Answer { end, text }) => tell_and_conclude(&Ok(end), text.as_slice(), out, err),
        Err(stop) => tell_and_conclude(&Err(stop), b"", out, err),
    }
}

fn tell_and_conclude<O: Sink, E: Sink>(
    end: &Result<End, Stop>,
    text: &[u8],
    out: &mut O,
    err: &mut E,
) -> Status
    ensures { Answers O.Sink E.Sink end.now text.now result out.old out.new err.old err.new }
{
    let broken = deliver(out, text);
    conclude(end, broken, err)
}
