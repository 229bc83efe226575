//! Where the statement at a place begins, and where it ends so far, beside texts and comments.
ghost use Rattle.std.specs.Prelude.{◌≡◌, ◌<◌, ◌≤◌, ◌^◌, ◌+◌, ◌==◌, ◌||◌, false, length, true};
ghost use Rattle.iso_hints.specs.Scans.{IsBehind, IsRun, ends_here, inside_next, is_of_token, past_others, past_token, scan_of, start_behind, step};
ghost use Rattle.iso_hints.specs.declared.scan.Inside.TheVariants.{Code, Comment, Text};

use crate::byte::{ends_statement, is_blank};
use memchr::{memchr, memchr2};

/// What the next byte stands in.
#[derive(Clone, Copy, PartialEq, Eq)]
pub(crate) enum Inside {
    /// Neither a text nor a comment.
    Code,
    Text,
    /// A text, behind a backslash.
    Escape,
    Comment,
}

/// What is known of the bytes that are passed.
#[derive(Clone, Copy)]
pub(crate) struct Seen {
    /// How many they are.
    pub passed: usize,
    /// How many stand before the statement or head that is begun.
    pub start: usize,
    /// How many stand before what follows its last token so far, or that of the statement before
    /// it.
    pub end: usize,
    pub inside: Inside,
}

/// What is known of these bytes once they are passed.
pub(crate) fn scan(bytes: &[u8]) -> Seen
    ensures value { result ≡ scan_of bytes.now }
    ensures order { result.start ≤ result.end }
    ensures within { result.end ≤ length bytes.now }
{
    let mut seen = Seen {
        passed: 0,
        start: 0,
        end: 0,
        inside: Inside::Code,
    };
    'runs: while seen.passed < bytes.len() {
        let next = step(seen, bytes[seen.passed]);
        seen = behind_run(next, &bytes[next.passed..]);
    }
    seen
}

/// What is known behind the bytes that come next and stand in the same: most are in runs, and these
/// are passed at once.
fn behind_run(seen: Seen, bytes: &[u8]) -> Seen
    requires order { seen.start ≤ seen.end }
    requires within { seen.end ≤ seen.passed }
    requires room { seen.passed + length bytes.now < 2 ^ 64 }
    ensures { IsBehind seen bytes.now result }
{
    match seen.inside {
        Inside::Code => behind_code(seen, bytes),
        Inside::Text => past_token(seen, text_run(bytes)),
        Inside::Escape => seen,
        Inside::Comment => past_others(seen, comment_run(bytes)),
    }
}

/// What is known behind the bytes before the next text or comment.
fn behind_code(seen: Seen, bytes: &[u8]) -> Seen
    requires code { seen.inside ≡ Code }
    requires room { seen.passed + length bytes.now < 2 ^ 64 }
    ensures { IsBehind seen bytes.now result }
{
    let mut next = seen;
    for byte in bytes {
        if leaves_code(*byte) {
            return next;
        }
        next = step_in_code(next, *byte);
    }
    next
}

/// Whether a byte begins a text or a comment.
fn leaves_code(byte: u8) -> bool
    ensures { result ≡ ((byte == 34) || (byte == 47)) }
{
    matches!(byte, b'"' | b'/')
}

/// What is known behind a byte of code more. That it is one is told again, so that it isn't asked
/// of each byte.
fn step_in_code(seen: Seen, byte: u8) -> Seen
    requires code { seen.inside ≡ Code }
    requires room { seen.passed + 1 < 2 ^ 64 }
    ensures { result ≡ step seen byte }
{
    let in_code = Seen {
        passed: seen.passed,
        start: seen.start,
        end: seen.end,
        inside: Inside::Code,
    };
    step(in_code, byte)
}

/// How many bytes of a text stand before its next quote or backslash.
fn text_run(bytes: &[u8]) -> usize
    ensures { IsRun Text true bytes.now result }
{
    memchr2(b'"', b'\\', bytes).unwrap_or(bytes.len())
}

/// How many bytes of a comment stand before the end of its line.
fn comment_run(bytes: &[u8]) -> usize
    ensures { IsRun Comment false bytes.now result }
{
    memchr(b'\n', bytes).unwrap_or(bytes.len())
}

/// What is known behind `bytes` bytes of a token more.
fn past_token(seen: Seen, bytes: usize) -> Seen
    requires { seen.passed + bytes < 2 ^ 64 }
    ensures { result ≡ past_token seen bytes }
{
    if bytes == 0 {
        return seen;
    }
    Seen {
        passed: seen.passed + bytes,
        start: if seen.start == seen.end {
            seen.passed
        } else {
            seen.start
        },
        end: seen.passed + bytes,
        inside: seen.inside,
    }
}

/// What is known behind `bytes` bytes more that are of no token.
fn past_others(seen: Seen, bytes: usize) -> Seen
    requires { seen.passed + bytes < 2 ^ 64 }
    ensures { result ≡ past_others seen bytes }
{
    Seen {
        passed: seen.passed + bytes,
        start: seen.start,
        end: seen.end,
        inside: seen.inside,
    }
}

/// What is known behind one byte more.
fn step(seen: Seen, byte: u8) -> Seen
    requires { seen.passed + 1 < 2 ^ 64 }
    ensures { result ≡ step seen byte }
{
    let inside = inside_next(seen.inside, byte);
    let passed = seen.passed + 1;
    if !is_of_token(seen.inside, byte) {
        return Seen {
            passed,
            start: seen.start,
            end: seen.end,
            inside,
        };
    }
    Seen {
        passed,
        start: start_behind(seen, byte),
        end: passed,
        inside,
    }
}

/// Where the statement begins that is begun behind a byte of a token.
fn start_behind(seen: Seen, byte: u8) -> usize
    requires { seen.passed + 1 < 2 ^ 64 }
    ensures { result ≡ start_behind seen byte }
{
    if ends_here(seen.inside, byte) {
        seen.passed + 1
    } else if seen.start == seen.end {
        seen.passed
    } else {
        seen.start
    }
}

/// What follows a byte that stands in this.
fn inside_next(inside: Inside, byte: u8) -> Inside
    ensures { result ≡ inside_next inside byte }
{
    match inside {
        Inside::Code => match byte {
            b'"' => Inside::Text,
            b'/' => Inside::Comment,
            _ => Inside::Code,
        },
        Inside::Text => match byte {
            b'"' => Inside::Code,
            b'\\' => Inside::Escape,
            _ => Inside::Text,
        },
        Inside::Escape => Inside::Text,
        Inside::Comment => match byte {
            b'\n' => Inside::Code,
            _ => Inside::Comment,
        },
    }
}

/// Whether a byte that stands in this is of a token. A slash is of none: it begins a comment.
fn is_of_token(inside: Inside, byte: u8) -> bool
    ensures { result ≡ is_of_token inside byte }
{
    match inside {
        Inside::Code => !is_blank(byte) && byte != b'/',
        Inside::Text | Inside::Escape => true,
        Inside::Comment => false,
    }
}

/// Whether a byte that stands in this ends a statement or a head.
fn ends_here(inside: Inside, byte: u8) -> bool
    ensures { result ≡ ends_here inside byte }
{
    match inside {
        Inside::Code => ends_statement(byte),
        Inside::Text | Inside::Escape | Inside::Comment => false,
    }
}
