// How a run ends.
ghost use Rattle.std.specs.Prelude.{◌≡◌, ◌≢◌, true, Err, codes};
ghost use Rattle.std.specs.List.{list_all};
ghost use Rattle.opam_top.specs.Reports.{is_done};
ghost use Rattle.outside_io.specs.Counts.{Quiet};
ghost use Rattle.outside_io.specs.Sinks.{Got};
ghost use Rattle.opam_top.specs.Answers.{status_at_end, status_by, with_output, status_by_stop, text_at_end, text_by_stop};

use crate::Status;
use crate::decision::Decision;
use crate::stops::Stop;
use crate::telling::tell;
use outside_io::Sink;

// Says on standard error why a run has ended early. Where the output failed, that is said in place of success.
pub fn conclude<E: Sink>(
    end: &Result<(), Stop>,
    decisions: &[Decision],
    broken: bool,
    err: &mut E,
) -> Status
    ensures status { result ≡ with_output broken (status_at_end end.now decisions.now) }
    ensures said { result ≢ Status.OutFailed → Quiet (E.faults err.old) (E.faults err.new) → Got (E.written err.old) (E.written err.new) (text_at_end end.now) }
    ensures out_said { result ≡ Status.OutFailed → Quiet (E.faults err.old) (E.faults err.new) → Got (E.written err.old) (E.written err.new) (codes "output fault\n") }
{
    let status = status_of_end(end, decisions);
    if broken && status == Status::Done {
        tell(err, b"output fault\n");
        return Status::OutFailed;
    }
    tell(err, text_of_end(end));
    status
}

// With which status it ends, where the output does not fail.
fn status_of_end(end: &Result<(), Stop>, decisions: &[Decision]) -> Status
    ensures { result ≡ status_at_end end.now decisions.now }
{
    match end {
        Ok(()) => status_of_decisions(decisions),
        Err(stop) => status_of_stop(stop),
    }
}

fn status_of_decisions(decisions: &[Decision]) -> Status
    ensures { result ≡ status_by decisions.now }
{
    if all_are_done(decisions) {
        Status::Done
    } else {
        Status::Actions
    }
}

fn all_are_done(decisions: &[Decision]) -> bool
    ensures { result ≡ list_all is_done decisions.now }
{
    for decision in decisions {
        if !decision.is_done() {
            return false;
        }
    }
    true
}

fn status_of_stop(stop: &Stop) -> Status
    ensures { result ≡ status_by_stop stop.now }
{
    match stop {
        Stop::Host => Status::HostFailed,
        Stop::Disk => Status::DiskFailed,
        Stop::Memory => Status::Memory,
        Stop::Refused(refusal) => refusal.cause.status(),
    }
}

// What is then said on standard error.
fn text_of_end(end: &Result<(), Stop>) -> &[u8]
    ensures { result.now ≡ text_at_end end.now }
{
    match end {
        Ok(()) => b"",
        Err(stop) => text_of_stop(stop),
    }
}

fn text_of_stop(stop: &Stop) -> &[u8]
    ensures { result.now ≡ text_by_stop stop.now }
{
    match stop {
        Stop::Host => b"host fault\n",
        Stop::Disk => b"disk fault\n",
        Stop::Memory => b"",
        Stop::Refused(refusal) => refusal.err.as_slice(),
    }
}
