//! Display texts of classes and tests, which may be left out.
ghost use Rattle.std.specs.Prelude.{◌≡◌, ℕ, List, Option};
ghost use Rattle.iso_script.specs.Displays.{IsDisplayed};
ghost use Rattle.iso_script.specs.Wants.{after_display};
ghost use Rattle.iso_script_statements.specs.Parsing.{Parses};

use iso_model::text::Text;
use iso_script_lexer::symbol::Symbol;
use iso_script_lexer::token::Token;
use iso_script_statements::fault::ScriptError;
use iso_script_statements::parser::Parser;
use iso_script_statements::wanted::Wanted;

/// The display text that comes next, if one does. One that may not be shown is `BadDisplay` at its
/// quote.
pub(crate) fn read_display(parser: &mut Parser<'_>) -> Result<Option<Text>, ScriptError>
    ensures { Parses (λ (t : Option (List ℕ)). t) IsDisplayed result parser.old.lexer
        parser.new.lexer }
{
    let Token::Text(_) = parser.lexer.peek().0 else {
        return Ok(None);
    };
    let text = parser.display()?;
    Ok(Some(text))
}

/// What is wanted after this display text, or after none, where the brace is not next.
pub(crate) fn wanted_after(display: &Option<Text>) -> Wanted
    ensures { result ≡ after_display display.now }
{
    match display {
        Some(_) => Wanted::Symbol(Symbol::OpenBrace),
        None => Wanted::Display,
    }
}
