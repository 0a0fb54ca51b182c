// A sink that is told all of each piece, until it fails.
ghost use Rattle.std.specs.Prelude.{◌≡◌, ◌≤◌, true, false};
ghost use Rattle.std.specs.Bool.{OnTrue, OnFalse};
ghost use Rattle.outside_io.specs.Counts.{Rose};
ghost use Rattle.outside_io.specs.SinkEffects.{IsTold};
ghost use Rattle.outside_io.specs.Sinks.{Got, GotPrefix};

use crate::Sink;

/// Writes pieces to a sink, each one whole, and nothing more once the sink has failed.
#[derive(Drop)]
pub struct Teller<'a, S: Sink> {
    pub sink: &'a mut S,
    /// The sink has failed.
    pub stopped: bool,
}

impl<'a, S: Sink> Teller<'a, S> {
    pub fn new(sink: &'a mut S) -> Teller<'a, S>
        ensures same { result.sink.ghost_name ≡ sink.entry.ghost_name }
        ensures value { result.sink.now ≡ sink.old }
        ensures unbroken { result.stopped ≡ false }
    {
        Teller {
            sink,
            stopped: false,
        }
    }

    /// Whether the sink has failed: it is true exactly where the sink's count of faults has risen since `new`.
    pub fn broken(&self) -> bool
        ensures { result ≡ self.now.stopped }
    {
        self.stopped
    }

    /// Where the sink fails, it has got the first bytes of the piece.
    pub fn tell(&mut self, bytes: &[u8])
        ensures same { self.new.sink.ghost_name ≡ self.old.sink.ghost_name }
        ensures later { S.faults self.old.sink.now ≤ S.faults self.new.sink.now }
        ensures all { self.new.stopped ≡ false → Got (S.written self.old.sink.now) (S.written self.new.sink.now) bytes.now }
        ensures quiet { self.new.stopped ≡ false → S.faults self.new.sink.now ≡ S.faults self.old.sink.now }
        ensures rose { self.old.stopped ≡ false → self.new.stopped ≡ true → Rose (S.faults self.old.sink.now) (S.faults self.new.sink.now) }
        ensures part { GotPrefix (S.written self.old.sink.now) (S.written self.new.sink.now) bytes.now }
        ensures stays { self.old.stopped ≡ true → self.new.stopped ≡ true }
        ensures silent { self.old.stopped ≡ true → S.written self.new.sink.now ≡ S.written self.old.sink.now }
        ensures unmoved { self.old.stopped ≡ true → S.faults self.new.sink.now ≡ S.faults self.old.sink.now }
        // The same in one word, for one text after another.
        ensures told { IsTold S.Sink bytes.now self.old.stopped self.new.stopped
            self.old.sink.now self.new.sink.now }
    {
        if !self.stopped && !write_all(self.sink, bytes) {
            self.stopped = true;
        }
    }
}

fn write_all<S: Sink>(sink: &mut S, bytes: &[u8]) -> bool
    ensures later { S.faults sink.old ≤ S.faults sink.new }
    ensures all { OnTrue result (Got (S.written sink.old) (S.written sink.new) bytes.now) }
    ensures quiet { OnTrue result (S.faults sink.new ≡ S.faults sink.old) }
    ensures rose { OnFalse result (Rose (S.faults sink.old) (S.faults sink.new)) }
    ensures part { GotPrefix (S.written sink.old) (S.written sink.new) bytes.now }
{
    let mut done = 0;
    while done < bytes.len() {
        match sink.write(&bytes[done..]) {
            Err(_) => return false,
            Ok(0) => return false,
            Ok(count) => done += count,
        }
    }
    true
}
