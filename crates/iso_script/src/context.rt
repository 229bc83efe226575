//! What stands before a fault, and belongs to it.
ghost use Rattle.std.specs.Prelude.{◌≡◌, ◌≢◌, ◌≤◌, ◌∷◌, [], List, IfOk, IsTrue, false, length};
ghost use Rattle.iso_model.specs.declared.limits.TheConstants.{FILE_BYTES};
ghost use Rattle.iso_script.specs.Contexts.{BeginAt, IsOpenAt, after_piece};
ghost use Rattle.iso_script_lexer.specs.Piece.{Piece};
ghost use Rattle.iso_script_lexer.specs.Tokens.{front};

use iso_script_lexer::lexer::Lexer;
use iso_script_lexer::symbol::Symbol;
use iso_script_lexer::token::{Position, Token};
use std::alloc::{AllocError, Global};

/// Where the innermost brace stands that is open at this position of a script.
pub(crate) fn open_brace(
    alloc: Global,
    bytes: &[u8],
    at: Position,
) -> Result<Option<Position>, AllocError>
    requires { length bytes.now ≤ FILE_BYTES }
    ensures { IfOk result (λ brace. IsOpenAt bytes.now at brace) }
{
    let mut lexer = Lexer::new(bytes);
    let mut braces = Vec::new(alloc);
    'tokens: while !is_reached(&lexer, at) {
        let (token, position) = lexer.peek();
        pass(&mut braces, token, position)?;
        lexer.advance();
    }
    Ok(braces.pop())
}

/// Whether this position is reached, or the end.
pub(crate) fn is_reached(lexer: &Lexer<'_>, at: Position) -> bool
    ensures reached { IsTrue result → BeginAt at lexer.now }
    ensures more { result ≡ false → lexer.now ≢ [] }
{
    let (token, position) = lexer.peek();
    is_at(position, at) || matches!(token, Token::End)
}

/// Whether two positions are one.
fn is_at(position: Position, at: Position) -> bool
    ensures { IsTrue result → position ≡ at }
{
    position.line == at.line && position.column == at.column
}

/// Adds a brace that is opened by this token, and takes away one that is closed.
fn pass(braces: &mut Vec<Position>, token: Token<'_>, position: Position) -> Result<(), AllocError>
    ensures { (p : Piece) (ps : List Piece) → front position token.entry ps ≡ p ∷ ps
        → IfOk result (λ _. braces.new.items ≡ after_piece braces.old.items p) }
{
    match token {
        Token::Symbol(Symbol::OpenBrace) => braces.push(position)?,
        Token::Symbol(Symbol::CloseBrace) => {
            braces.pop();
        }
        _ => {}
    }
    Ok(())
}
