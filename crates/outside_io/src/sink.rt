// Where bytes go.
ghost use Rattle.std.specs.Prelude.{◌≡◌, ◌≤◌, ℕ, List, IfOk, length};
ghost use Rattle.std.specs.declared.option.Option.{Option};

/// A call on the outside has failed.
#[derive(Clone, Copy, Debug, PartialEq, Eq)]
pub struct Failed;

/// A stream that takes bytes.
pub trait Sink {
    ghost use Rattle.outside_io.specs.Sinks.{SinkCause, SinkTakes};

    /// The bytes written, where the sink tells them.
    ghost written: { Self → Option (List ℕ) };

    /// How often it has failed, or has taken nothing of a piece. It never falls.
    ghost faults: { Self → ℕ };

    /// Takes the first bytes of a piece, and says how many.
    fn write(&mut self, bytes: &[u8]) -> Result<usize, Failed>
        ensures cause { SinkCause (faults self.old) (faults self.new) bytes.now result }
        ensures bound { IfOk result (λ n. n ≤ length bytes.now) }
        ensures told { SinkTakes (written self.old) (written self.new) bytes.now result };
}
