//! What stands on standard error after a report.
ghost use Rattle.std.specs.Prelude.{◌≡◌, ◌∷◌, ◌==◌, None, false, length, map, not, option_map};
ghost use Rattle.std.specs.List.{list_any};
ghost use Rattle.iso_run.specs.Besides.{IsQuiet, IsSaid, goes_on, part_text, parted, parts_of, replay_text, text_in};
ghost use Rattle.iso_run.specs.Parts.{text_of};
ghost use Rattle.iso_tap.specs.Printers.{Prints};

use crate::besides::Besides;
use iso_arguments::request::InputFiles;
use iso_commands::replay::{Recorded, can_be_told, replay_line, too_large_line};
use iso_model::limits::FILE_BYTES;
use iso_tap::memory::MemorySink;
use iso_tap::printer::Printer;
use iso_tap::sink::{Sink, SinkFailed};
use iso_telling::tells::{DurationsText, PageText, SummaryText};

/// What stands on standard error after a report, or nothing.
#[derive(Clone, Copy)]
enum Part<'p> {
    Text(&'p [u8]),
    /// The command that replays a recorded run.
    Replay(Recorded<'p>),
    /// A schedule in a file of this name is longer than what is replayed.
    TooLarge(&'p str),
}

/// Tells on standard error what is asked for there of a run of these files, as far as the sink
/// takes it, with an empty line between two parts. Answers whether there are any.
pub(crate) fn say_parts<E: Sink>(
    besides: &Besides<'_, '_>,
    files: &InputFiles<'_>,
    processors: u32,
    errors: &mut E,
) -> bool
    ensures said { IsSaid (parted false (parts_of files.now processors besides.now))
        (E.account errors.old) (E.account errors.new) }
    ensures quiet { IsQuiet besides.now.tells → besides.now.course.stats ≡ None
        → besides.now.schedule ≡ None → errors.new ≡ errors.old }
{
    let tells = &besides.tells;
    let parts = [
        Part::Text(summary_bytes(&tells.summary)),
        Part::Text(durations_bytes(&tells.durations)),
        Part::Text(text_bytes(&besides.course.stats)),
        Part::Text(text_bytes(&tells.github)),
        replay_part(besides, files, processors),
    ];
    if !has_part(&parts) {
        return false;
    }
    let _ = print_parts(&mut Printer::new(errors), &parts);
    true
}

/// How a recorded run of these files is replayed, where it is and that can be told.
fn replay_part<'p>(
    besides: &'p Besides<'_, '_>,
    files: &'p InputFiles<'_>,
    processors: u32,
) -> Part<'p>
    ensures { text_of result ≡ replay_text files.now processors besides.now }
{
    let Some(schedule) = besides.schedule else {
        return Part::Text(&[]);
    };
    if text_bytes(&besides.course.schedule).len() > FILE_BYTES as usize {
        return Part::TooLarge(schedule);
    }
    let run = Recorded {
        schedule,
        files,
        processors,
    };
    if can_be_told(&run) {
        Part::Replay(run)
    } else {
        Part::Text(&[])
    }
}

/// Whether one of these is a part.
fn has_part(parts: &[Part<'_>]) -> bool
    ensures { result ≡ list_any (λ part. not (length (text_of part) == 0)) parts.now }
{
    for part in parts {
        if !is_empty(part) {
            return true;
        }
    }
    false
}

/// Writes parts one after another, with an empty line between two. An empty text is no part.
fn print_parts<E: Sink>(printer: &mut Printer<'_, E>, parts: &[Part<'_>]) -> Result<(), SinkFailed>
    ensures { Prints printer.old printer.new (parted false (map text_of parts.now)) result }
{
    let mut after = false;
    'parts: for part in parts {
        print_part(printer, after, part)?;
        after = goes_on(after, part);
    }
    Ok(())
}

/// Whether what follows a text comes after a part.
fn goes_on(after: bool, part: &Part<'_>) -> bool
    ensures { result ≡ goes_on after (text_of part.now) }
{
    after || !is_empty(part)
}

/// Whether nothing is told by a part.
fn is_empty(part: &Part<'_>) -> bool
    ensures { result ≡ (length (text_of part.now) == 0) }
{
    match part {
        Part::Text(text) => text.is_empty(),
        Part::Replay(_) | Part::TooLarge(_) => false,
    }
}

/// Writes a part, and where it comes after another one an empty line before it; nothing of an empty
/// text.
fn print_part<E: Sink>(
    printer: &mut Printer<'_, E>,
    after: bool,
    part: &Part<'_>,
) -> Result<(), SinkFailed>
    ensures { Prints printer.old printer.new (part_text after (text_of part.now)) result }
{
    if is_empty(part) {
        Ok(())
    } else if after {
        print_after(printer, part)
    } else {
        print_alone(printer, part)
    }
}

/// Writes a part that comes after another one.
fn print_after<E: Sink>(printer: &mut Printer<'_, E>, part: &Part<'_>) -> Result<(), SinkFailed>
    ensures { Prints printer.old printer.new (10 ∷ text_of part.now) result }
{
    printer.bytes(b"\n")?;
    print_alone(printer, part)
}

/// Writes what a part tells.
fn print_alone<E: Sink>(printer: &mut Printer<'_, E>, part: &Part<'_>) -> Result<(), SinkFailed>
    ensures { Prints printer.old printer.new (text_of part.now) result }
{
    match part {
        Part::Text(text) => printer.bytes(text),
        Part::Replay(run) => replay_line(printer, run),
        Part::TooLarge(name) => too_large_line(printer, name),
    }
}

/// The text of a summary, where one is asked for.
fn summary_bytes<'a>(summary: &'a Option<SummaryText<'_>>) -> &'a [u8]
    ensures { result.now ≡ text_in (option_map (λ s. s.text) summary.now) }
{
    match summary {
        Some(summary) => summary.text.bytes(),
        None => &[],
    }
}

/// The text of the slowest, where one is asked for.
fn durations_bytes(durations: &Option<DurationsText>) -> &[u8]
    ensures { result.now ≡ text_in (option_map (λ d. d.text) durations.now) }
{
    match durations {
        Some(durations) => durations.text.bytes(),
        None => &[],
    }
}

/// A text, where one is asked for.
pub(crate) fn text_bytes(text: &Option<MemorySink>) -> &[u8]
    ensures { result.now ≡ text_in text.now }
{
    match text {
        Some(text) => text.bytes(),
        None => &[],
    }
}

/// The text of a page, where one is asked for.
pub(crate) fn page_bytes<'a>(page: &'a Option<PageText<'_>>) -> &'a [u8]
    ensures { result.now ≡ text_in (option_map (λ p. p.text) page.now) }
{
    match page {
        Some(page) => page.text.bytes(),
        None => &[],
    }
}
