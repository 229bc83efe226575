//! Tokens beside a place.
ghost use Rattle.std.specs.Prelude.{◌≡◌, ◌-◌, ◌&&◌, drop, length, not, option_copied, slice_get, take};
ghost use Rattle.std.specs.List.{list_all};
ghost use Rattle.iso_hints.specs.Bytes.{in_name};
ghost use Rattle.iso_hints.specs.Tokens.{is_cut, is_last, is_name, is_name_byte, is_next};

use crate::byte::in_name;

/// Whether bytes begin with a token that doesn't go on.
pub(crate) fn is_next(token: &[u8], bytes: &[u8]) -> bool
    ensures { result ≡ is_next token.now bytes.now }
{
    bytes.starts_with(token) && !is_cut(token, &bytes[token.len()..])
}

/// Whether bytes end with a token that doesn't begin before.
pub(crate) fn is_last(token: &[u8], bytes: &[u8]) -> bool
    ensures { result ≡ is_last token.now bytes.now }
{
    bytes.ends_with(token) && !is_cut(&bytes[..bytes.len() - token.len()], token)
}

/// Whether a word goes on from some bytes into others.
fn is_cut(first: &[u8], second: &[u8]) -> bool
    ensures { result ≡ is_cut first.now second.now }
{
    is_name_byte(first.last()) && is_name_byte(second.first())
}

/// Whether there is a byte, and it is one of a name.
pub(crate) fn is_name_byte(byte: Option<&u8>) -> bool
    ensures { result ≡ is_name_byte (option_copied byte.entry) }
{
    match byte {
        Some(byte) => in_name(*byte),
        None => false,
    }
}

/// Whether bytes are a name.
pub(crate) fn is_name(bytes: &[u8]) -> bool
    ensures { result ≡ is_name bytes.now }
{
    !bytes.is_empty() && are_of_names(bytes)
}

/// Whether each of these bytes is of a name.
fn are_of_names(bytes: &[u8]) -> bool
    ensures { result ≡ list_all in_name bytes.now }
{
    bytes.iter().all(|byte| in_name(*byte))
}
