//! A sink that takes no memory.
use iso_tap::sink::{Sink, SinkFailed};

/// Takes all bytes, keeps none, and counts them.
#[derive(Drop)]
pub(crate) struct CountingSink {
    count: u64,
    failures: u64,
}

impl CountingSink {
    /// A sink that has taken nothing.
    pub(crate) fn new() -> CountingSink {
        CountingSink {
            count: 0,
            failures: 0,
        }
    }
}

impl Sink for CountingSink {
    ghost use Rattle.std.specs.Prelude.{None};
    ghost use Rattle.iso_tap.specs.Sinks.{Account};

    ghost account = { λ s. record { bytes = None; count = s.count; failures = s.failures } };

    // More bytes than can be counted are not taken.
    fn write(&mut self, bytes: &[u8]) -> Result<usize, SinkFailed> {
        match self.count.checked_add(bytes.len() as u64) {
            Some(count) => {
                self.count = count;
                Ok(bytes.len())
            }
            None => {
                self.failures = self.failures.saturating_add(1);
                Err(SinkFailed)
            }
        }
    }

    fn flush(&mut self) -> Result<(), SinkFailed> {
        Ok(())
    }
}
