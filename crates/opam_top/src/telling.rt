// What is written, and where the sink fails.
ghost use Rattle.std.specs.Prelude.{◌≡◌, true, false};
ghost use Rattle.outside_io.specs.Counts.{Rose};
ghost use Rattle.outside_io.specs.Sinks.{Got, GotPrefix};
ghost use Rattle.opam_top.specs.Changes.{Says};

use outside_io::{Sink, Teller};

// Tells it all of a piece.
pub fn say<S: Sink>(out: &mut Teller<S>, bytes: &[u8])
    ensures same { out.new.sink.ghost_name ≡ out.old.sink.ghost_name }
    ensures said { Says out.old.stopped out.new.stopped (S.faults out.old.sink.now) (S.faults out.new.sink.now) (S.written out.old.sink.now) (S.written out.new.sink.now) bytes.now }
{
    out.tell(bytes);
}

// Writes all of it, and says whether the sink has failed.
pub fn tell<S: Sink>(sink: &mut S, bytes: &[u8]) -> bool
    ensures rose { result ≡ true → Rose (S.faults sink.old) (S.faults sink.new) }
    ensures same { result ≡ false → S.faults sink.new ≡ S.faults sink.old }
    ensures all { result ≡ false → Got (S.written sink.old) (S.written sink.new) bytes.now }
    ensures part { GotPrefix (S.written sink.old) (S.written sink.new) bytes.now }
{
    let mut teller = Teller::new(sink);
    teller.tell(bytes);
    teller.broken()
}
