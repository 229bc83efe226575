//! A place in a script, as the patterns see it.
ghost use Rattle.std.specs.Prelude.{◌≡◌, ◌≤◌, length, option_map};
ghost use Rattle.std.specs.List.{prefix_len};
ghost use Rattle.iso_hints.specs.Bytes.{is_blank};
ghost use Rattle.iso_hints.specs.Places.{IsPlace, name_of, place_at, place_between, untrimmed};

use crate::byte::is_blank;
use crate::scan::scan;
use crate::token::is_name;

/// A place in a script.
#[derive(Clone, Copy)]
pub struct Place<'a> {
    /// What stands before it, without the blanks and comments at its end.
    pub before: &'a [u8],
    /// Of this the statement or head that is begun: what stands behind the last `;`, `{` or `}`.
    pub statement: &'a [u8],
    /// Whether it is the first in its line.
    pub leads: bool,
    /// What stands from it on.
    pub rest: &'a [u8],
}

/// The place behind `bytes` bytes of a text, or its end where it has fewer.
pub fn place_at(text: &[u8], bytes: usize) -> Place<'_>
    ensures { IsPlace result (place_at text.now bytes) }
{
    let (front, rest) = text.split_at(bytes.min(text.len()));
    place_between(front, rest)
}

/// The place between two parts of a text.
fn place_between<'a>(front: &'a [u8], rest: &'a [u8]) -> Place<'a>
    ensures { IsPlace result (place_between front.now rest.now) }
{
    let seen = scan(front);
    Place {
        before: &front[..seen.end],
        statement: &front[seen.start..seen.end],
        leads: front[seen.end..].contains(&b'\n'),
        rest,
    }
}

/// The statement that is begun at a place, where it is one name so far.
pub fn name_at<'a>(place: &Place<'a>) -> Option<&'a str>
    ensures { option_map (λ name. name.now) result ≡ name_of place.now.statement.now }
{
    if !is_name(place.statement) {
        return None;
    }
    let Ok(name) = std::str::from_utf8(place.statement) else {
        unreachable!()
    };
    Some(name)
}

/// Bytes without the blanks at their beginning.
pub(crate) fn without_start(bytes: &[u8]) -> &[u8]
    ensures { result.now ≡ untrimmed bytes.now }
{
    &bytes[blanks_at_start(bytes)..]
}

/// How many blanks stand at the beginning of bytes.
fn blanks_at_start(bytes: &[u8]) -> usize
    ensures count { result ≡ prefix_len is_blank bytes.now }
    ensures within { result ≤ length bytes.now }
{
    bytes.iter().take_while(|byte| is_blank(**byte)).count()
}
