//! A line of a schedule: the event that it writes.
ghost use Rattle.std.specs.Prelude.{◌≡◌, ◌≢◌, ◌≤◌, [], MatchResult, length, option_map};
ghost use Rattle.std.specs.List.{prefix_len};
ghost use Rattle.iso_schedule.specs.Scan.{after_gap, in_word, is_space, last_numeral, numeral_at, scanned, word_at};
ghost use Rattle.iso_schedule.specs.Lines.{IsEvent, IsWrong};
ghost use Rattle.iso_schedule.specs.Parts.{numeral_in, written};

use crate::fault::ScheduleFaultKind;
use crate::numeral::Numeral;
use crate::written::Written;
use iso_standing::event::Event;

fn is_space(byte: u8) -> bool
    ensures { result ≡ is_space byte }
{
    byte == b' '
}

/// How many bytes stand before the first space.
fn word_length(bytes: &[u8]) -> usize
    ensures exact { result ≡ prefix_len in_word bytes.now }
    ensures within { result ≤ length bytes.now }
{
    bytes.iter().take_while(|byte| !is_space(**byte)).count()
}

/// How many spaces stand at the front.
fn gap_length(bytes: &[u8]) -> usize
    ensures exact { result ≡ prefix_len is_space bytes.now }
    ensures within { result ≤ length bytes.now }
{
    bytes.iter().take_while(|byte| is_space(**byte)).count()
}

/// The word at the front, and what follows it.
fn split_word(bytes: &[u8]) -> (&[u8], &[u8])
    ensures { (result.0.now, result.1.now) ≡ word_at bytes.now }
{
    bytes.split_at(word_length(bytes))
}

/// What follows one or more spaces.
fn strip_gap(bytes: &[u8]) -> Option<&[u8]>
    ensures { option_map (λ rest. rest.now) result ≡ after_gap bytes.now }
{
    match bytes {
        [b' ', rest @ ..] => Some(&rest[gap_length(rest)..]),
        _ => None,
    }
}

/// The digits after a gap, and what follows them.
fn split_numeral(bytes: &[u8]) -> Option<(Numeral<'_>, &[u8])>
    ensures { option_map (λ front. (front.0.digits.now, front.1.now)) result
        ≡ numeral_at bytes.now }
{
    let (word, rest) = split_word(strip_gap(bytes)?);
    let numeral = Numeral::from_word(word)?;
    Some((numeral, rest))
}

/// The digits after a gap, up to the end.
fn last_numeral(bytes: &[u8]) -> Option<Numeral<'_>>
    ensures { option_map numeral_in result ≡ last_numeral bytes.now }
{
    let (numeral, rest) = split_numeral(bytes)?;
    if rest.is_empty() { Some(numeral) } else { None }
}

/// The event that a line writes, with its numbers as digits.
fn read_written(line: &[u8]) -> Option<Written<'_>>
    ensures { option_map written result ≡ scanned line.now }
{
    let (verb, rest) = split_word(line);
    if verb == b"enter".as_slice() {
        let (worker, rest) = split_numeral(rest)?;
        let node = last_numeral(rest)?;
        Some(Written::Enter { worker, node })
    } else if verb == b"step".as_slice() {
        let worker = last_numeral(rest)?;
        Some(Written::Step { worker })
    } else if verb == b"leave".as_slice() {
        let worker = last_numeral(rest)?;
        Some(Written::Leave { worker })
    } else if verb == b"shut".as_slice() {
        let (worker, rest) = split_numeral(rest)?;
        let node = last_numeral(rest)?;
        Some(Written::Shut { worker, node })
    } else {
        None
    }
}

/// The event of a line that isn't empty.
pub(crate) fn read_event(line: &[u8]) -> Result<Event, ScheduleFaultKind>
    requires { line.now ≢ [] }
    ensures { MatchResult result (IsEvent line.now) (IsWrong line.now) }
{
    let Some(written) = read_written(line) else {
        return Err(ScheduleFaultKind::BadLine);
    };
    match written.event() {
        Some(event) => Ok(event),
        None => Err(ScheduleFaultKind::NumberTooBig),
    }
}
