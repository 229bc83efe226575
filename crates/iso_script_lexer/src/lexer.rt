ghost use Rattle.std.specs.Prelude.{◌≡◌, ◌≢◌, ◌≤◌, List, [], Some, None, false, length, if◌then◌else◌};
ghost use Rattle.iso_script_lexer.specs.LexicalGrammar.{ArePiecesOf};
ghost use Rattle.iso_script_lexer.specs.Piece.{Piece};
ghost use Rattle.iso_script_lexer.specs.Cursors.{line_of};
ghost use Rattle.iso_script_lexer.specs.Scan.{pieces_of};
ghost use Rattle.iso_script_lexer.specs.Piece.{tail};
ghost use Rattle.iso_script_lexer.specs.Tokens.{IsToken, front, after, after_word};

use crate::cursor::Cursor;
use crate::gap::skip_gap;
use crate::scan::scan;
use crate::symbol::Symbol;
use crate::token::{Position, Token};
use crate::word::Word;
use iso_model::limits::FILE_BYTES;
use std::marker::Model;

/// The tokens of a script, from the one that is next on.
#[derive(Drop)]
pub struct Lexer<'a> {
    token: Token<'a>,
    position: Position,
    next: Cursor<'a>,
}

impl<'a> Model for Lexer<'a> {
    ghost use Rattle.std.specs.Prelude.{List};
    ghost use Rattle.iso_script_lexer.specs.Piece.{Piece};
    ghost use Rattle.iso_script_lexer.specs.Scan.{pieces_of};
    ghost use Rattle.iso_script_lexer.specs.Tokens.{front, IsToken};
    ghost use Rattle.iso_script_lexer.specs.Cursors.{line_of};

    ghost Value = { List Piece };

    ghost view = { λ l. front l.position l.token (pieces_of (line_of l.next) l.next.rest.now) };

    ghost invariant = { λ l. IsToken l.token };
}

impl<'a> Lexer<'a> {
    /// At the first token of a script.
    pub fn new(bytes: &'a [u8]) -> Lexer<'a>
        requires { length bytes.now ≤ FILE_BYTES }
        ensures { ArePiecesOf bytes.now result }
    {
        let next = Cursor::new(bytes);
        // What stands before the first token is passed at once.
        let mut lexer = Lexer {
            token: Token::Symbol(Symbol::Semicolon),
            position: next.position(),
            next,
        };
        lexer.pass();
        lexer
    }

    /// Goes past the token that is next, in place: a lexer is large to hand on.
    fn pass(&mut self)
        requires { self.old ≢ [] }
        ensures { self.new ≡ tail self.old }
    {
        let rest = skip_gap(&mut self.next);
        let start = self.next.further(rest);
        match scan(rest) {
            Ok((token, after)) => {
                self.token = token;
                self.position = start.position();
                self.next.rest = after;
            }
            Err(misspelling) => {
                let (_, fault) = rest.split_at(misspelling.offset);
                self.token = Token::Bad(misspelling.fault);
                self.position = start.further(fault).position();
                self.next.rest = &[];
            }
        }
    }

    /// What is next, and its position. The position of `End` is the one after the last byte of the
    /// script, where no `Bad` came before. The position of `Bad` is that of the fault, which may
    /// lie inside the bytes that are no token.
    pub fn peek(&self) -> (Token<'a>, Position)
        ensures next { self.now ≡ front result.1 result.0 (tail self.now) }
        ensures token { IsToken result.0 }
    {
        (self.token, self.position)
    }

    /// How many bytes the token that is next has: 0 where none is.
    pub fn width(&self) -> u32 {
        match self.token {
            Token::End | Token::Bad(_) => 0,
            _ => self
                .next
                .position()
                .column
                .saturating_sub(self.position.column),
        }
    }

    /// Goes on to the next token. At `End` it stays there, and after `Bad` comes `End`.
    pub fn advance(&mut self)
        ensures { self.new ≡ tail self.old }
    {
        if !matches!(self.token, Token::End) {
            self.pass();
        }
    }

    /// Goes past a symbol where it is next, and answers whether it was.
    pub fn takes(&mut self, symbol: Symbol) -> bool
        ensures found { after symbol self.old ≡ (if result then Some self.new else None) }
        ensures kept { result ≡ false → self.new ≡ self.old }
    {
        match self.token {
            Token::Symbol(next) if next.is(symbol) => {
                self.advance();
                true
            }
            _ => false,
        }
    }

    /// Goes past a reserved word where it is next, and answers whether it was.
    pub fn takes_word(&mut self, word: Word) -> bool
        ensures found { after_word word self.old ≡ (if result then Some self.new else None) }
        ensures kept { result ≡ false → self.new ≡ self.old }
    {
        match self.token {
            Token::Word(next) if next.is(word) => {
                self.advance();
                true
            }
            _ => false,
        }
    }
}
