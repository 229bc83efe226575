//! Places in the bytes of a script.
ghost use Rattle.std.specs.Prelude.{◌≡◌, ◌≤◌, ◌==◌, length, not};
ghost use Rattle.std.specs.List.{prefix_len};
ghost use Rattle.std.specs.Str.Lines.{strip_carriage_return};
ghost use Rattle.iso_explain.specs.Spots.{IsSpotOf, first_line, start_of};

use iso_hints::place::{Place, place_at};
use iso_hints::position::line_start;
use iso_script_statements::fault::ScriptFault;

/// Where a fault is.
#[derive(Clone, Copy)]
pub(crate) struct Spot<'a> {
    /// Its line, without the line end, LF or CR LF. A line that isn't there is empty.
    pub line: &'a [u8],
    /// Its place, with what stands before it.
    pub place: Place<'a>,
}

/// Where a fault of these bytes is. All of them are passed, so it is found once for an explanation.
pub(crate) fn spot_of(bytes: &[u8], fault: ScriptFault) -> Spot<'_>
    ensures { IsSpotOf result bytes.now fault }
{
    let start = start_of(bytes, fault.line);
    Spot {
        line: first_line(&bytes[start..]),
        place: place_at(bytes, start + fault.column.saturating_sub(1) as usize),
    }
}

/// How many bytes stand before the line of this number: all of them where there are fewer lines.
fn start_of(bytes: &[u8], line: u32) -> usize
    ensures value { result ≡ start_of bytes.now line }
    ensures within { result ≤ length bytes.now }
{
    line_start(bytes, line.saturating_sub(1))
}

/// The first line of what stands here.
fn first_line(rest: &[u8]) -> &[u8]
    ensures { result.now ≡ first_line rest.now }
{
    without_return(&rest[..line_bytes(rest)])
}

/// How many bytes stand before the first line feed.
fn line_bytes(rest: &[u8]) -> usize
    ensures value { result ≡ prefix_len (λ b. not (b == 10)) rest.now }
    ensures within { result ≤ length rest.now }
{
    rest.iter().take_while(|byte| **byte != b'\n').count()
}

/// A line without the CR at its end, if it has one.
fn without_return(line: &[u8]) -> &[u8]
    ensures { result.now ≡ strip_carriage_return line.now }
{
    line.strip_suffix(b"\r").unwrap_or(line)
}
