//! A token that isn't the one that is wanted.
ghost use Rattle.std.specs.Prelude.{◌≡◌, false};
ghost use Rattle.iso_script_statements.specs.Wanted.{seen, takes};

use crate::wanted::Wanted;
use iso_script_lexer::token::Token;

/// What is wanted, and the token that is found in its place, which is none of it.
#[derive(Clone, Copy)]
pub struct Unmet<'a> {
    pub wanted: Wanted,
    pub found: Token<'a>,
    pub ghost otherwise: { takes wanted (seen found) ≡ false },
}
