//! Lines of a schedule.
ghost use Rattle.std.specs.Prelude.{◌≡◌, ◌≤◌, length, option_map};
ghost use Rattle.std.specs.Str.Lines.{lines};
ghost use Rattle.iso_model.specs.declared.limits.TheConstants.{FILE_BYTES};
ghost use Rattle.iso_explain_plan.specs.ScheduleLines.{event_line, line_at};

use iso_schedule::lines::split_line;

/// A line of a schedule, with its number, counted from 1.
#[derive(Clone, Copy)]
pub(crate) struct Line<'a> {
    pub number: u32,
    pub text: &'a [u8],
}

/// The line with this number, counted from 1; an empty one where there are fewer.
pub(crate) fn line_at(schedule: &[u8], number: u32) -> &[u8]
    ensures { result.now ≡ line_at number (lines schedule.now) }
{
    let mut left = number;
    let mut rest = schedule;
    'lines: while !rest.is_empty() {
        let (line, after) = split_line(rest);
        if left <= 1 {
            return line;
        }
        left -= 1;
        rest = after;
    }
    &[]
}

/// The line of the event with this number, counted from 0: empty lines write none.
pub(crate) fn event_line(schedule: &[u8], event: usize) -> Option<Line<'_>>
    requires { length schedule.now ≤ FILE_BYTES }
    ensures { option_map (λ l. (l.number, l.text.now)) result
        ≡ event_line event 1 (lines schedule.now) }
{
    let mut left = event;
    let mut number = 1;
    let mut rest = schedule;
    'lines: while !rest.is_empty() {
        let (line, after) = split_line(rest);
        if !line.is_empty() {
            if left == 0 {
                return Some(Line { number, text: line });
            }
            left -= 1;
        }
        number += 1;
        rest = after;
    }
    None
}
