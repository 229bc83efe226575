//! Positions in a text.
ghost use Rattle.std.specs.Prelude.{◌≡◌, ◌≤◌, length};
ghost use Rattle.iso_hints.specs.Positions.{line_start, place_at_position};

use memchr::memchr;

/// For a runner of one's own: how many bytes of a text stand before a line and a column, both from
/// 1 on. A text that has fewer lines is one with its end there.
pub fn bytes_before(text: &[u8], line: u32, column: u32) -> usize
    ensures { result ≡ place_at_position text.now line column }
{
    line_start(text, line.saturating_sub(1)) + column.saturating_sub(1) as usize
}

/// How many bytes stand in the first `lines` lines of a text, with their line feeds: all of them
/// where it has fewer lines.
pub fn line_start(text: &[u8], lines: u32) -> usize
    ensures start { result ≡ line_start lines text.now }
    ensures within { result ≤ length text.now }
{
    let mut start = 0;
    'lines: for _line in 0..lines {
        let Some(feed) = memchr(b'\n', &text[start..]) else {
            return text.len();
        };
        start += feed + 1;
    }
    start
}
