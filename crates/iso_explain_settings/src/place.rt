//! Places in the bytes of a file.
ghost use Rattle.std.specs.Prelude.{◌≡◌, ◌≤◌, ◌==◌, count_by, drop, length, not, take};
ghost use Rattle.std.specs.List.{prefix_len, suffix_len};
ghost use Rattle.std.specs.Str.Lines.{strip_carriage_return};
ghost use Rattle.iso_explain_settings.specs.Places.{column, first_line, line_at, line_number, narrowed};

/// The number of the line at whose end, or in which, these bytes end; it counts from 1.
pub(crate) fn line_number(before: &[u8]) -> u32
    ensures { result ≡ line_number before.now }
{
    narrowed(line_feeds(before) + 1)
}

/// The column behind these bytes, which counts bytes from 1.
pub(crate) fn column(before: &[u8]) -> u32
    ensures { result ≡ column before.now }
{
    narrowed(in_line(before) + 1)
}

/// The line in which a place stands, without its line end.
pub(crate) fn line_at(bytes: &[u8], place: usize) -> &[u8]
    requires { place ≤ length bytes.now }
    ensures { result.now ≡ line_at bytes.now place }
{
    first_line(&bytes[place - in_line(&bytes[..place])..])
}

/// A number as one of 32 bits, the greatest where it is greater.
pub(crate) fn narrowed(number: usize) -> u32
    ensures { result ≡ narrowed number }
{
    number.min(u32::MAX as usize) as u32
}

/// How many line feeds stand in bytes.
fn line_feeds(bytes: &[u8]) -> usize
    ensures count { result ≡ count_by (λ b. b == 10) bytes.now }
    ensures within { result ≤ length bytes.now }
{
    bytes.iter().filter(|byte| **byte == b'\n').count()
}

/// How many bytes stand behind the last line feed.
fn in_line(bytes: &[u8]) -> usize
    ensures count { result ≡ suffix_len (λ b. not (b == 10)) bytes.now }
    ensures within { result ≤ length bytes.now }
{
    bytes
        .iter()
        .rev()
        .take_while(|byte| **byte != b'\n')
        .count()
}

/// The first line of what stands here.
fn first_line(rest: &[u8]) -> &[u8]
    ensures { result.now ≡ first_line rest.now }
{
    without_return(&rest[..line_bytes(rest)])
}

/// How many bytes stand before the first line feed.
fn line_bytes(rest: &[u8]) -> usize
    ensures value { result ≡ prefix_len (λ b. not (b == 10)) rest.now }
    ensures within { result ≤ length rest.now }
{
    rest.iter().take_while(|byte| **byte != b'\n').count()
}

/// A line without the CR at its end, if it has one.
fn without_return(line: &[u8]) -> &[u8]
    ensures { result.now ≡ strip_carriage_return line.now }
{
    line.strip_suffix(b"\r").unwrap_or(line)
}
