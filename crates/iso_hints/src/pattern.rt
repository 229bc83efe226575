//! Patterns of mistakes: what stands at a place and beside it.
ghost use Rattle.std.specs.Prelude.{◌≡◌, ◌-◌, ◌≤◌, length, map, option_copied, slice_get};
ghost use Rattle.std.specs.Char.{is_ascii_digit};
ghost use Rattle.std.specs.List.{list_any, prefix_len};
ghost use Rattle.iso_hints.specs.Bytes.{is_operator_byte};
ghost use Rattle.iso_hints.specs.Patterns.{ends_operand, is_any_next, is_behind_team, is_odd_numeral, is_second_operator, lies};
ghost use Rattle.iso_hints.specs.Places.{view_of};
ghost use Rattle.iso_hints.specs.Tokens.{is_next};

use crate::byte::{in_name, is_operator_byte};
use crate::place::{Place, without_start};
use crate::token::{is_last, is_name, is_name_byte, is_next};
use crate::words::{LITERALS, OPERATORS, RESERVED};

/// How the first word of a row stands to the place. At the place itself its second word stands; an
/// empty word is any.
#[derive(Clone, Copy)]
pub(crate) enum Pattern {
    /// It is the last one before.
    Token,
    /// The statement or head at the place begins with it.
    Statement,
    /// It is the last one before, and at the place stands a reserved word.
    Reserved,
    /// At the place stand digits that go on as a word. There is no first word.
    Numeral,
    /// At the place stands an operator behind another one's operands. There is no first word.
    Operator,
    /// It stands behind the name of the team. There is no first word.
    Team,
    /// The place is the first of the script. There is no first word.
    Start,
}

/// Whether a word stands to a place as a pattern says.
pub(crate) fn lies(pattern: Pattern, word: &[u8], place: &Place<'_>) -> bool
    ensures { result ≡ lies (view_of place.now) pattern word.now }
{
    match pattern {
        Pattern::Token => is_last(word, place.before),
        Pattern::Statement => is_next(word, place.statement),
        Pattern::Reserved => is_last(word, place.before) && is_any_next(RESERVED, place.rest),
        Pattern::Numeral => is_odd_numeral(place.rest),
        Pattern::Operator => is_second_operator(place),
        Pattern::Team => is_behind_team(place.statement),
        Pattern::Start => place.before.is_empty(),
    }
}

/// Whether one of these tokens is next.
fn is_any_next(tokens: &[&str], bytes: &[u8]) -> bool
    ensures { result ≡ is_any_next (map (λ t. t.now) tokens.now) bytes.now }
{
    any_is_next(tokens, bytes)
}

/// Whether one of these tokens is next, of references.
fn any_is_next(tokens: &[&str], bytes: &[u8]) -> bool
    ensures { result ≡ list_any (λ t. is_next t.now bytes.now) tokens.now }
{
    tokens.iter().any(|token| is_next(token.as_bytes(), bytes))
}

/// Whether digits are next that go on as a word.
fn is_odd_numeral(bytes: &[u8]) -> bool
    ensures { result ≡ is_odd_numeral bytes.now }
{
    let digits = digits_at_start(bytes);
    0 < digits && is_name_byte(bytes.get(digits))
}

/// How many digits stand at the beginning of bytes.
fn digits_at_start(bytes: &[u8]) -> usize
    ensures count { result ≡ prefix_len is_ascii_digit bytes.now }
    ensures within { result ≤ length bytes.now }
{
    bytes
        .iter()
        .take_while(|byte| byte.is_ascii_digit())
        .count()
}

/// Whether an operator is next behind an operand of another one.
fn is_second_operator(place: &Place<'_>) -> bool
    ensures { result ≡ is_second_operator (view_of place.now) }
{
    is_any_next(OPERATORS, place.rest)
        && ends_operand(place.before.last())
        && has_operator(place.statement)
        && !is_any_next(LITERALS, place.statement)
}

/// Whether a byte of an operator is among these.
fn has_operator(bytes: &[u8]) -> bool
    ensures { result ≡ list_any is_operator_byte bytes.now }
{
    bytes.iter().any(|byte| is_operator_byte(*byte))
}

/// Whether a head is that of the team, as far as its name.
fn is_behind_team(head: &[u8]) -> bool
    ensures { result ≡ is_behind_team head.now }
{
    is_next(b"team", head) && is_name(without_start(&head[head.len().min(4)..]))
}

/// Whether an operand ends with a byte.
fn ends_operand(byte: Option<&u8>) -> bool
    ensures { result ≡ ends_operand (option_copied byte.entry) }
{
    match byte {
        Some(byte) => in_name(*byte) || matches!(*byte, b'"' | b')'),
        None => false,
    }
}
