//! Gaps: blanks, line feeds and comments.
ghost use Rattle.std.specs.Prelude.{◌≡◌, ◌≤◌, ℕ, List, false, true, length};
ghost use Rattle.iso_script_lexer.specs.Cursors.{line_of};
ghost use Rattle.iso_script_lexer.specs.Scan.{after_gap, gap_from};
ghost use Rattle.iso_script_lexer.specs.Spelling.{begins};

use crate::begin::begun_by;
use crate::cursor::Cursor;

/// What follows the blanks, line feeds and comments that come next. Where these are spaces alone
/// the cursor stays before them, since what is left is written once, behind the token.
pub(crate) fn skip_gap<'a>(cursor: &mut Cursor<'a>) -> &'a [u8]
    ensures value { (line_of cursor.new, result.now)
        ≡ after_gap false (line_of cursor.old) cursor.old.rest.now }
    ensures shorter { length result.now ≤ length cursor.new.rest.now }
{
    let rest = after_spaces(cursor.rest);
    match rest {
        [byte, ..] if begun_by(*byte) == b'/' => {
            *cursor = after_gap(*cursor);
            cursor.rest
        }
        _ => rest,
    }
}

/// Behind the blanks, line feeds and comments that come next.
#[tactic(auto, unfolding(crate::specs::Scan::gap_from))]
fn after_gap(start: Cursor<'_>) -> Cursor<'_>
    ensures { (line_of result, result.rest.now)
        ≡ after_gap false (line_of start.entry) start.entry.rest.now }
{
    let mut cursor = start;
    'gap: loop {
        let here = cursor.further(after_spaces(cursor.rest));
        cursor = match here.rest {
            [b'\n', rest @ ..] => here.next_line(rest),
            [b'\t' | b'\r', rest @ ..] => here.further(rest),
            [b'/', b'/', rest @ ..] => here.further(after_comment(rest)),
            _ => return here,
        };
    }
}

/// What follows the spaces that come next: they are the most of what stands in gaps.
#[tactic(auto, unfolding(crate::specs::Scan::gap_from))]
fn after_spaces(bytes: &[u8]) -> &[u8]
    ensures value { (number : ℕ) (line : List ℕ)
        → gap_from false number line bytes.now ≡ gap_from false number line result.now }
    ensures none { begins 32 result.now ≡ false }
    ensures shorter { length result.now ≤ length bytes.now }
{
    let mut rest = bytes;
    'spaces: while let [b' ', after @ ..] = rest {
        rest = after;
    }
    rest
}

/// What follows the bytes of a comment.
#[tactic(auto, unfolding(crate::specs::Scan::gap_from))]
fn after_comment(bytes: &[u8]) -> &[u8]
    ensures value { (number : ℕ) (line : List ℕ)
        → gap_from true number line bytes.now ≡ gap_from false number line result.now }
    ensures shorter { length result.now ≤ length bytes.now }
{
    let mut rest = bytes;
    'comment: while let [b' '..=b'~' | b'\t' | b'\r', after @ ..] = rest {
        rest = after;
    }
    rest
}
