// A stream of the machine as a sink.
ghost use Rattle.std.specs.Prelude.{◌≤◌, IfOk, length};
ghost use Rattle.std.specs.declared.option.Option.TheVariants.{None};

use outside_io::{Failed, Sink};
use std::fs::{File, OpenOptions};
use std::io;
use std::io::{ErrorKind, Write};
use std::os::fd::{AsRawFd, IntoRawFd};
use std::rt::Files;

/// A stream as a sink. It tells nothing of what it has taken.
#[derive(Drop)]
pub struct OutSink<S: Write> {
    inner: S,
    faults: u64,
}

impl<S: Write> OutSink<S> {
    pub fn new(inner: S) -> OutSink<S> {
        OutSink { inner, faults: 0 }
    }
}

impl<S: Write> Sink for OutSink<S> {
    ghost written = { λ _. None };

    ghost faults = { λ s. s.faults };

    fn write(&mut self, bytes: &[u8]) -> Result<usize, Failed> {
        match write_some(&mut self.inner, bytes) {
            Ok(0) => {
                if !bytes.is_empty() {
                    self.faults = self.faults.saturating_add(1);
                }
                Ok(0)
            }
            Ok(count) => Ok(count),
            Err(_) => {
                self.faults = self.faults.saturating_add(1);
                Err(Failed)
            }
        }
    }
}

const MOST_TRIES: u32 = 1_000_000;

// A write that a signal has interrupted is tried again.
fn write_some<S: Write>(inner: &mut S, bytes: &[u8]) -> io::Result<usize>
    ensures { IfOk result (λ count. count ≤ length bytes.now) }
{
    for _ in 0..MOST_TRIES {
        match inner.write(bytes) {
            Err(error) if error.kind() == ErrorKind::Interrupted => {}
            outcome => return outcome,
        }
    }
    Err(io::Error::from(ErrorKind::Interrupted))
}

/// Opens `/dev/null` for each of the standard streams that the program was started without, so that no file of the
/// switch gets the number of one.
pub fn open_standard_streams<R: Files<File = File>>(rt: &R) -> io::Result<()> {
    for _ in 0..3 {
        let file = OpenOptions::new()
            .read(true)
            .write(true)
            .open(rt, "/dev/null")?;
        if file.as_raw_fd() > 2 {
            break;
        }
        // it stays open
        let _ = file.into_raw_fd();
    }
    Ok(())
}
