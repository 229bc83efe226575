//! A clock that counts how often it was read.
use std::io;
use std::rt::Clock;
use std::sync::atomic::{AtomicU64, Ordering};
use std::time::Duration;

/// Tells at its nth reading n microseconds, the first of them 0, and fails at one of them.
#[derive(Drop)]
pub(crate) struct Readings {
    read: AtomicU64,
    fails: u64,
}

impl Readings {
    /// A clock that wasn't read.
    pub(crate) fn new(fails: u64) -> Readings {
        Readings {
            read: AtomicU64::new(0),
            fails,
        }
    }
}

impl Clock for Readings {
    fn monotonic(&self) -> io::Result<Duration> {
        let reading = self.read.fetch_add(1, Ordering::SeqCst);
        if reading == self.fails {
            return Err(io::Error::from(io::ErrorKind::Other));
        }
        Ok(Duration::from_micros(reading))
    }

    fn since_1970(&self) -> io::Result<Duration> {
        Err(io::Error::from(io::ErrorKind::Unsupported))
    }
}
