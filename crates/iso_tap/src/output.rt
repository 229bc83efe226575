//! A sink over a writer.
ghost use Rattle.std.specs.Prelude.{◌≡◌, None};

use crate::sink::{Sink, SinkFailed};
use std::io;
use std::marker::Model;

/// A sink over a writer, as the program's standard output. It doesn't tell what it took.
pub struct OutputSink<W: io::Write + Drop> {
    writer: W,
    count: u64,
    failures: u64,
}

impl<W: io::Write + Drop> Drop for OutputSink<W> {
    fn drop(self) {
        let OutputSink {
            writer: _,
            count: _,
            failures: _,
        } = self;
    }
}

impl<W: io::Write + Drop> Model for OutputSink<W> {
    ghost use Rattle.std.specs.Prelude.{None};
    ghost use Rattle.iso_tap.specs.Sinks.{Account};

    ghost Value = { Account };

    ghost view = { λ s. record { bytes = None; count = s.count; failures = s.failures } };
}

impl<W: io::Write + Drop> OutputSink<W> {
    /// A sink over this writer, which has taken nothing.
    pub fn new(writer: W) -> OutputSink<W>
        ensures { result ≡ record { bytes = None; count = 0; failures = 0 } }
    {
        OutputSink {
            writer,
            count: 0,
            failures: 0,
        }
    }
}

impl<W: io::Write + Drop> Sink for OutputSink<W> {
    ghost account = { λ s. s };

    // More bytes than can be counted are not taken.
    fn write(&mut self, bytes: &[u8]) -> Result<usize, SinkFailed> {
        let countable = self.count.checked_add(bytes.len() as u64).is_some();
        if bytes.is_empty() {
            return Ok(0);
        }
        if countable {
            match self.writer.write(bytes) {
                Ok(taken) if taken > 0 => {
                    self.count += taken as u64;
                    return Ok(taken);
                }
                _ => {}
            }
        }
        self.failures = self.failures.saturating_add(1);
        Err(SinkFailed)
    }

    fn flush(&mut self) -> Result<(), SinkFailed> {
        if self.writer.flush().is_ok() {
            return Ok(());
        }
        self.failures = self.failures.saturating_add(1);
        Err(SinkFailed)
    }
}
