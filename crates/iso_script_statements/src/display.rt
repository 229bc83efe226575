//! Texts that a report shows: display texts, and reasons.
ghost use Rattle.std.specs.Prelude.{◌≡◌, List, ℕ};
ghost use Rattle.iso_script_statements.specs.Parsing.{Parses};
ghost use Rattle.iso_script_statements.specs.Statements.{IsDisplay, is_display};

use crate::fault::{ScriptError, ScriptFaultKind};
use crate::parser::Parser;
use crate::wanted::Wanted;
use iso_model::limits::DISPLAY_BYTES;
use iso_model::text::Text;
use iso_script_lexer::token::Token;

/// Whether a text may be a display text or a reason: it has 1 to 200 bytes, and neither the first
/// nor the last is a space.
fn is_display(text: &[u8]) -> bool
    ensures { result ≡ is_display text.now }
{
    let [first, ..] = text else {
        return false;
    };
    text.len() <= DISPLAY_BYTES as usize && *first != b' ' && text[text.len() - 1] != b' '
}

impl Parser<'_> {
    /// A display text or a reason. Where no text is next, one is wanted; one that may be none is
    /// `BadDisplay`, at its quote. With any fault it is still next.
    pub fn display(&mut self) -> Result<Text, ScriptError>
        ensures { Parses (λ (t : List ℕ). t) IsDisplay result self.old.lexer self.new.lexer }
    {
        let Token::Text(quoted) = self.lexer.peek().0 else {
            return Err(self.unexpected(Wanted::Text));
        };
        let text = Text::new(quoted.decode(self.alloc)?);
        if !is_display(text.as_str().as_bytes()) {
            return Err(self.fault_here(ScriptFaultKind::BadDisplay));
        }
        self.lexer.advance();
        Ok(text)
    }
}
