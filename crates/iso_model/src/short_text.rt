ghost use Rattle.std.specs.Prelude.{◌≡◌, IfSome};

use percent_encoding::ascii_str;
use std::marker::Model;

/// The most bytes of a short text.
const MOST: usize = 14;

/// A text of at most 14 bytes of ASCII, which lie in the value itself. Contracts see it as its
/// bytes.
#[derive(Drop)]
pub(crate) struct ShortText {
    length: u8,
    bytes: [u8; 14],
}

impl Model for ShortText {
    ghost use Rattle.std.specs.Prelude.{List, ℕ, ◌≤◌, take};
    ghost use Rattle.std.specs.Str.{IsAscii};

    ghost Value = { List ℕ };

    ghost view = { λ s. take s.length s.bytes };

    ghost invariant = { λ s. (s.length ≤ 14) × IsAscii (take s.length s.bytes) };
}

impl ShortText {
    /// This text, where it is short and ASCII.
    pub fn of(text: &str) -> Option<ShortText>
        ensures { IfSome result (λ s. s ≡ text.now) }
    {
        if text.len() > MOST || !text.is_ascii() {
            return None;
        }
        let mut bytes = [0; 14];
        bytes[..text.len()].copy_from_slice(text.as_bytes());
        Some(ShortText {
            length: text.len() as u8,
            bytes,
        })
    }

    /// Its bytes, as a `str`.
    #[inline(always)]
    pub fn as_str(&self) -> &str
        ensures { result.now ≡ self.now }
    {
        ascii_str(&self.bytes[..usize::from(self.length)])
    }
}
