//! Whole schedules.
ghost use Rattle.std.specs.Prelude.{◌≡◌};
ghost use Rattle.iso_schedule.specs.Schedules.{AreRead, IfAnswered, Reading};

use crate::fault::{ScheduleError, ScheduleFault, ScheduleFaultKind};
use crate::line::read_event;
use crate::lines::split_line;
use iso_model::limits::FILE_BYTES;
use iso_standing::event::Event;
use std::alloc::Global;

/// Reads a schedule of at most 1,048,576 bytes: the events of its lines, in their order. The list
/// takes memory from `alloc`, and where that is refused, the answer is `OutOfMemory`.
///
/// A line ends at a line feed, which the last may lack, and loses one carriage return right before
/// that. It is empty, `enter W N`, `step W`, `leave W` or `shut W N`: words with one or more spaces
/// between them, and none around them. W and N are decimal digits, at most nine of them.
///
/// What is no schedule is answered with its first fault. A schedule above the limit is `TooLong` at
/// line 1, before all else. Any other line is `BadLine`, and one with a longer number, which is
/// tested last, `NumberTooBig`.
pub fn read_schedule(alloc: Global, bytes: &[u8]) -> Result<Vec<Event>, ScheduleError>
    // What is answered is what the bytes are read as.
    ensures answered { IfAnswered (AreRead bytes.now) result }
    // What the bytes are read as is answered, unless memory runs out.
    ensures only { (reading : Reading) → AreRead bytes.now reading
        → IfAnswered (λ r. r ≡ reading) result }
{
    if bytes.len() > FILE_BYTES as usize {
        let kind = ScheduleFaultKind::TooLong;
        return Err(ScheduleError::Fault(ScheduleFault { kind, line: 1 }));
    }
    let mut events = Vec::new(alloc);
    let mut number = 1;
    let mut rest = bytes;
    'lines: while !rest.is_empty() {
        let (line, after) = split_line(rest);
        if !line.is_empty() {
            match read_event(line) {
                Ok(event) => events.push(event)?,
                Err(kind) => {
                    return Err(ScheduleError::Fault(ScheduleFault { kind, line: number }));
                }
            }
        }
        number += 1;
        rest = after;
    }
    Ok(events)
}
