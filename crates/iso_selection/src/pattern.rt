//! Patterns of paths.
ghost use Rattle.std.specs.Prelude.{◌≡◌, ◌<◌, ◌||◌, ◌&&◌, [], ℕ, drop, false, length, not, slice_index_or};
ghost use Rattle.std.specs.List.{list_any};
ghost use Rattle.iso_plan.specs.Paths.{is_root};
ghost use Rattle.iso_selection.specs.Patterns.{is_match, some_end};

use iso_model::text::Text;

/// The byte of a pattern that stands for any bytes.
const STAR: u8 = b'*';

/// Whether a pattern takes in a text, from its first byte to its last: `*` stands for any bytes,
/// each other byte for itself.
///
/// It goes on after each star with the first end of the text that fits, and looks at no byte of the
/// text more often than the pattern has bytes. Takes no memory.
pub fn is_match(pattern: &[u8], text: &[u8]) -> bool
    ensures { result ≡ is_match pattern.now text.now }
{
    'bytes: for at in 0..pattern.len() {
        if pattern[at] == STAR {
            return has_end(&pattern[at + 1..], &text[at..]);
        }
        if at >= text.len() || pattern[at] != text[at] {
            return false;
        }
    }
    pattern.len() == text.len()
}

/// Whether a pattern takes in some end of a text. A star that is met goes on from there: whatever
/// an earlier one would still take in, it takes in too.
fn has_end(pattern: &[u8], text: &[u8]) -> bool
    ensures { result ≡ some_end (is_match pattern.now) text.now }
{
    let (mut after, mut from) = (0, 0);
    let (mut at, mut place) = (0, 0);
    'text: while place < text.len() {
        if at < pattern.len() && pattern[at] == STAR {
            at += 1;
            after = at;
            from = place;
        } else if at < pattern.len() && pattern[at] == text[place] {
            at += 1;
            place += 1;
        } else {
            from += 1;
            at = after;
            place = from;
        }
    }
    is_match_of_nothing(&pattern[at..])
}

/// Whether a pattern takes in the empty text.
fn is_match_of_nothing(pattern: &[u8]) -> bool
    ensures { result ≡ is_match pattern.now [] }
{
    'bytes: for byte in pattern {
        if *byte != STAR {
            return false;
        }
    }
    true
}

/// Marks the nodes whose paths a pattern takes in. Answers whether there are any.
pub(crate) fn mark_matches(named: &mut Vec<bool>, paths: &[Text], pattern: &[u8]) -> bool
    requires some { 0 < length paths.now }
    requires each { length named.old.items ≡ length paths.now }
    ensures marked { (n : ℕ) → n < length paths.now → slice_index_or named.new.items n false
        ≡ (slice_index_or named.old.items n false
        || (not (is_root n) && is_match pattern.now (slice_index_or paths.now n []))) }
    ensures each { length named.new.items ≡ length named.old.items }
    ensures found { result ≡ list_any (is_match pattern.now) (drop 1 paths.now) }
{
    let mut found = false;
    'nodes: for n in 1..paths.len() {
        if found && named[n] {
            continue;
        }
        if is_match(pattern, paths[n].as_str().as_bytes()) {
            named[n] = true;
            found = true;
        }
    }
    found
}
