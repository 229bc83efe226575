//! Each schedule with one byte changed is answered.
use crate::shared::check_changes;
use iso_schedule::fault::ScheduleError;
use iso_schedule::reader::read_schedule;
use std::alloc::{AllocError, Global};

const SCHEDULE: &[u8] =
    b"enter 0 1\nleave 0\nenter 0 2\nenter 1 3\nstep 0\nstep 1\nleave 1\nenter 1 4\n";

/// Whether bytes are read, or have a fault.
fn is_answered(alloc: Global, bytes: &[u8]) -> bool {
    !matches!(read_schedule(alloc, bytes), Err(ScheduleError::OutOfMemory))
}

#[test]
fn changed_schedules_are_answered(rt: HostRuntime) -> Result<(), AllocError> {
    check_changes(&rt, rt.alloc(), SCHEDULE, is_answered)
}
