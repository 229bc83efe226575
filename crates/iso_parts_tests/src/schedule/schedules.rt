//! How a fault of a schedule shows by itself.
use crate::shared::check_text;
use iso_schedule::reader::read_schedule;
use std::alloc::{AllocError, Global};

/// How bytes are refused, as a fault is shown; nothing for a schedule.
fn refusal(alloc: Global, bytes: &[u8]) -> Result<String, AllocError> {
    match read_schedule(alloc, bytes) {
        Ok(_) => Ok(String::new(alloc)),
        Err(error) => format!(in alloc; "{error}"),
    }
}

/// Bytes, and how they are refused. `tests/rows` has more, and the line that the program writes,
/// which is another.
static REFUSALS: [(&[u8], &str); 2] = [
    (b"enter 0 1\nleave 0\nent", "BadLine at line 3"),
    (
        b"step 0\n\r\nstep 9999999999\nwait\n",
        "NumberTooBig at line 3",
    ),
];

#[test]
fn first_fault_is_shown(rt: HostRuntime) -> Result<(), AllocError> {
    for (bytes, want) in &REFUSALS {
        let found = refusal(rt.alloc(), bytes)?;
        check_text(&rt, "a schedule", found.as_str(), want);
    }
    Ok(())
}
