//! A sink over memory.
ghost use Rattle.std.specs.Prelude.{◌≡◌, [], Some};

use crate::sink::{Sink, SinkFailed};
use std::alloc::Global;
use std::marker::Model;

/// A sink that keeps what it takes in memory. Running out of memory is a failure.
pub struct MemorySink {
    bytes: Vec<u8>,
    failures: u64,
}

impl Drop for MemorySink {
    fn drop(self) {
        let MemorySink {
            bytes: _,
            failures: _,
        } = self;
    }
}

impl Model for MemorySink {
    ghost use Rattle.std.specs.Prelude.{Some, length};
    ghost use Rattle.iso_tap.specs.Sinks.{Account};

    ghost Value = { Account };

    ghost view = { λ s. record {
      bytes = Some s.bytes.items;
      count = length s.bytes.items;
      failures = s.failures;
    } };
}

impl MemorySink {
    /// A sink that has taken nothing. It grows in this allocator's memory.
    pub fn new(alloc: Global) -> MemorySink
        ensures { result ≡ record { bytes = Some []; count = 0; failures = 0 } }
    {
        MemorySink {
            bytes: Vec::new(alloc),
            failures: 0,
        }
    }

    /// The bytes that it took so far.
    pub fn bytes(&self) -> &[u8]
        ensures { self.now.bytes ≡ Some result.now }
    {
        self.bytes.as_slice()
    }
}

impl Sink for MemorySink {
    ghost account = { λ s. s };

    fn write(&mut self, bytes: &[u8]) -> Result<usize, SinkFailed> {
        match self.bytes.extend_from_slice(bytes) {
            Ok(_) => Ok(bytes.len()),
            Err(_) => {
                self.failures = self.failures.saturating_add(1);
                Err(SinkFailed)
            }
        }
    }

    // It holds nothing back.
    fn flush(&mut self) -> Result<(), SinkFailed> {
        Ok(())
    }
}
