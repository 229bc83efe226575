//! The lines of bytes.
ghost use Rattle.std.specs.Prelude.{◌≡◌, ◌≢◌, ◌<◌, ◌+◌, ◌==◌, [], ◌∷◌, length, drop, MatchOption};
ghost use Rattle.std.specs.List.{position};
ghost use Rattle.std.specs.Str.Lines.{lines, strip_carriage_return};

/// Where the first line feed stands.
fn line_feed(bytes: &[u8]) -> Option<usize>
    ensures { result ≡ position (λ b. b == 10) bytes.now }
{
    bytes.iter().position(|byte| *byte == b'\n')
}

/// A line without the carriage return at its end.
fn without_return(line: &[u8]) -> &[u8]
    ensures { result.now ≡ strip_carriage_return line.now }
{
    match line {
        [front @ .., b'\r'] => front,
        _ => line,
    }
}

/// The first line of bytes, and what follows its line feed. A line loses the carriage return before
/// its line feed.
pub fn split_line(bytes: &[u8]) -> (&[u8], &[u8])
    requires { bytes.now ≢ [] }
    ensures first { lines bytes.now ≡ result.0.now ∷ lines result.1.now }
    ensures rest { MatchOption (position (λ b. b == 10) bytes.now) (result.1.now ≡ [])
        (λ end. result.1.now ≡ drop (end + 1) bytes.now) }
    ensures shorter { length result.1.now < length bytes.now }
{
    match line_feed(bytes) {
        Some(end) => (without_return(&bytes[..end]), &bytes[end + 1..]),
        None => (bytes, &[]),
    }
}
