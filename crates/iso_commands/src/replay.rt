//! The command that replays a recorded run.
ghost use Rattle.std.specs.Prelude.{◌≡◌};
ghost use Rattle.std.specs.Option.{option_map};
ghost use Rattle.iso_commands.specs.Lent.{lent};
ghost use Rattle.iso_commands.specs.Replays.{can_be_told, has_unseen_in, has_unseen_option, has_unseen_word, is_dash, is_stdin, recorded_of, replay_line, too_large_line};
ghost use Rattle.iso_tap.specs.Printers.{Prints};

use crate::part::{Part, line};
use iso_arguments::request::InputFiles;
use iso_summary::name::name;
use iso_summary::unseen::{given_has_unseen, has_unseen};
use iso_tap::printer::Printer;
use iso_tap::sink::{Sink, SinkFailed};

/// A recorded run: the file of its schedule, the files that it was made of, and how many processors
/// it counted with.
#[derive(Clone, Copy)]
pub struct Recorded<'r> {
    pub schedule: &'r str,
    pub files: &'r InputFiles<'r>,
    pub processors: u32,
}

/// Writes the command that replays a recorded run, as a line to be pasted. Takes no memory.
pub fn replay_line<W: Sink>(
    printer: &mut Printer<'_, W>,
    run: &Recorded<'_>,
) -> Result<(), SinkFailed>
    ensures { Prints printer.old printer.new (replay_line (recorded_of run.now)) result }
{
    let files = run.files;
    line(
        printer,
        &[
            Part::Plain("replay: jtap replay --schedule "),
            Part::File(run.schedule),
            Part::FileOption(" --settings ", files.settings),
            Part::FileOption(" --world ", files.world),
            Part::NumberOption(" --processors ", processors(run)),
            Part::Words(" --only ", &files.only),
            Part::Words(" --match ", &files.patterns),
            Part::FileOption(" --only-from ", files.only_from),
            Part::ShardOption(files.shard),
            Part::Files(&files.scripts),
        ],
    )
}

/// How many processors were counted with, where that was asked for.
fn processors(run: &Recorded<'_>) -> Option<u32>
    ensures { result ≡ option_map (λ asked. run.now.processors) run.now.files.now.processors }
{
    match run.files.processors {
        Some(_) => Some(run.processors),
        None => None,
    }
}

/// Whether that command can be told: nothing is read from standard input, and no word has a
/// character that no reader sees.
pub fn can_be_told(run: &Recorded<'_>) -> bool
    ensures { result ≡ can_be_told (recorded_of run.now) }
{
    !run.files.scripts.is_empty()
        && !is_stdin(run.files.only_from)
        && !has_unseen_option(run)
        && !has_unseen_word(run)
}

/// Whether some option of a run has a character that no reader sees.
fn has_unseen_option(run: &Recorded<'_>) -> bool
    ensures { result ≡ has_unseen_option (recorded_of run.now) }
{
    has_unseen(run.schedule)
        || given_has_unseen(run.files.settings)
        || given_has_unseen(run.files.world)
        || given_has_unseen(run.files.only_from)
}

/// Whether some path, pattern or script of a run has one.
fn has_unseen_word(run: &Recorded<'_>) -> bool
    ensures { result ≡ has_unseen_word (recorded_of run.now) }
{
    has_unseen_in(&run.files.only)
        || has_unseen_in(&run.files.patterns)
        || has_unseen_in(&run.files.scripts)
}

/// Writes the line of a recorded run whose schedule, in a file of this name, is longer than what is
/// replayed. Takes no memory.
pub fn too_large_line<W: Sink>(
    printer: &mut Printer<'_, W>,
    schedule: &str,
) -> Result<(), SinkFailed>
    ensures { Prints printer.old printer.new (too_large_line schedule.now) result }
{
    printer.bytes(b"jtap: ")?;
    name(printer, schedule)?;
    printer.bytes(b": too large to replay\n")
}

/// Whether a file is standard input.
fn is_stdin(given: Option<&str>) -> bool
    ensures { result ≡ is_stdin (option_map (λ f. f.now) given.entry) }
{
    match given {
        Some(name) => is_dash(name.as_bytes()),
        None => false,
    }
}

/// Whether a name is that of standard input.
fn is_dash(name: &[u8]) -> bool
    ensures { result ≡ is_dash name.now }
{
    matches!(name, [b'-'])
}

/// Whether one of these words has a character that no reader sees.
fn has_unseen_in(words: &[&str]) -> bool
    ensures { result ≡ has_unseen_in (lent words.now) }
{
    for word in words {
        if has_unseen(word) {
            return true;
        }
    }
    false
}
