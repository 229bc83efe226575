ghost use Rattle.std.specs.Prelude.{◌≡◌, length, nat_eq, not, IfOk, string_bytes};
ghost use Rattle.std.specs.List.{list_all};
ghost use Rattle.iso_script_lexer.specs.Spelling.{backslash};
ghost use Rattle.iso_script_lexer.specs.Text.{IsQuoted, IsText};

use percent_encoding::ascii_str;
use std::alloc::{AllocError, Global};

/// A text as it stands between its quotes in the script: printable bytes, in which each quote and
/// each backslash is escaped by a backslash, and nothing else is; at most 4,096 bytes without the
/// escapes.
#[derive(Clone, Copy)]
pub struct QuotedText<'a> {
    pub(crate) raw: &'a [u8],
    ghost quoted: { IsQuoted raw.now },
}

impl QuotedText<'_> {
    ghost use Rattle.iso_script_lexer.specs.Tokens.{text_of};

    /// The text that is meant, without its escapes.
    #[tactic(auto, unfolding(crate::specs::Text::decoded))]
    pub fn decode(self, alloc: Global) -> Result<String, AllocError>
        ensures value { IfOk result (λ t. string_bytes t ≡ text_of self.entry) }
        ensures text { IsText (text_of self.entry) }
    {
        if is_plain(self.raw) {
            return String::from_str(alloc, ascii_str(self.raw));
        }
        let mut text = String::new(alloc);
        let mut escaped = false;
        'decode: for byte in self.raw {
            if *byte == b'\\' && !escaped {
                escaped = true;
            } else {
                text.push(char::from(*byte))?;
                escaped = false;
            }
        }
        Ok(text)
    }
}

/// Whether none of these bytes is escaped.
fn is_plain(raw: &[u8]) -> bool
    ensures { result ≡ list_all (λ b. not (nat_eq b backslash)) raw.now }
{
    raw.iter().all(|byte| *byte != b'\\')
}
