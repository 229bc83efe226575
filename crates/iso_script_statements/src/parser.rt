ghost use Rattle.std.specs.Prelude.{ℕ, suc, ◌≡◌, ◌≢◌, ◌≤◌, ◌↔◌, List, [], Some, None, IsTrue, MatchResult, IfErr, is_some, length, option_map};
ghost use Rattle.iso_script_lexer.specs.LexicalGrammar.{ArePiecesOf};
ghost use Rattle.iso_script_lexer.specs.Piece.{Piece, tail};
ghost use Rattle.iso_script_lexer.specs.Tokens.{after, after_word, text_of};
ghost use Rattle.iso_model.specs.declared.limits.TheConstants.{FILE_BYTES};
ghost use Rattle.iso_script_statements.specs.Faults.{IsFaultOf, IsUnexpected, IsUnopened};
ghost use Rattle.iso_script_statements.specs.Pieces.{name_ahead, name_next, row_in, text_next};
ghost use Rattle.iso_script_statements.specs.Reasons.{Tells};
ghost use Rattle.iso_script_statements.specs.Wanted.{IsUnmet};
ghost use Rattle.iso_script_statements.specs.declared.reason.Reason.TheVariants.{Beyond};
ghost use Rattle.iso_script_statements.specs.declared.wanted.Wanted.TheVariants as W;

use crate::body_lengths::BodyLengths;
use crate::fault::{ScriptError, ScriptFault, ScriptFaultKind};
use crate::reason::{Limit, Reason};
use crate::wanted::{Operators, Wanted};
use iso_script_lexer::lexer::Lexer;
use iso_script_lexer::symbol::Symbol;
use iso_script_lexer::text::QuotedText;
use iso_script_lexer::token::{Position, Token};
use iso_script_lexer::word::Word;
use std::alloc::Global;

/// A script that is being read, at the token that is next.
#[derive(Drop)]
pub struct Parser<'a> {
    pub alloc: Global,
    pub lexer: Lexer<'a>,
    /// Why a fault was answered, once one was.
    pub reason: Reason<'a>,
    /// The operators that may follow the expression that was read last.
    pub(crate) operators: Operators,
    /// Where no `else` followed the body of an `if`, at the last such place.
    pub(crate) without_else: Option<Position>,
    /// How long the next body is likely to be.
    pub(crate) lengths: BodyLengths,
}

impl<'a> Parser<'a> {
    /// At the first token of a script.
    pub fn new(alloc: Global, bytes: &'a [u8]) -> Parser<'a>
        requires { length bytes.now ≤ FILE_BYTES }
        ensures { ArePiecesOf bytes.now result.lexer }
    {
        Parser {
            alloc,
            lexer: Lexer::new(bytes),
            reason: Reason::Kind,
            operators: Operators::None,
            without_else: None,
            lengths: BodyLengths::new(),
        }
    }

    /// A fault of this kind at the token that is next, which would go beyond this limit.
    pub fn beyond(&mut self, limit: Limit, kind: ScriptFaultKind) -> ScriptError
        ensures fault { IsFaultOf (λ k. k ≡ kind) result }
        ensures told { self.new.reason ≡ Beyond limit }
    {
        self.reason = Reason::Beyond(limit);
        self.fault_here(kind)
    }

    /// A fault of what was read before, placed at the token that is next.
    pub fn fault_here(&self, kind: ScriptFaultKind) -> ScriptError
        ensures { IsFaultOf (λ k. k ≡ kind) result }
    {
        ScriptError::Fault(ScriptFault::at(kind, self.lexer.peek().1))
    }

    /// Goes past a symbol, which has to be next.
    pub fn expect(&mut self, symbol: Symbol) -> Result<(), ScriptError>
        ensures { MatchResult result
            (λ _. after symbol self.old.lexer ≡ Some self.new.lexer)
            (λ e. (after symbol self.old.lexer ≡ None) × IsFaultOf (IsUnexpected self.old.lexer) e
            × Tells (W.Symbol symbol) self.new.reason) }
    {
        self.expect_or(symbol, Wanted::Symbol(symbol))
    }

    /// Goes past a symbol, which has to be next. Where it is not, this is wanted.
    pub fn expect_or(&mut self, symbol: Symbol, wanted: Wanted) -> Result<(), ScriptError>
        requires { after symbol self.old.lexer ≡ None → IsUnmet wanted self.old.lexer }
        ensures { MatchResult result
            (λ _. after symbol self.old.lexer ≡ Some self.new.lexer)
            (λ e. (after symbol self.old.lexer ≡ None) × IsFaultOf (IsUnexpected self.old.lexer) e
            × Tells wanted self.new.reason) }
    {
        if self.lexer.takes(symbol) {
            Ok(())
        } else {
            Err(self.unexpected(wanted))
        }
    }

    /// Goes past a reserved word, which has to be next.
    pub fn expect_word(&mut self, word: Word) -> Result<(), ScriptError>
        ensures { MatchResult result
            (λ _. after_word word self.old.lexer ≡ Some self.new.lexer)
            (λ e. (after_word word self.old.lexer ≡ None)
            × IsFaultOf (IsUnexpected self.old.lexer) e
            × Tells (W.Word word) self.new.reason) }
    {
        if self.lexer.takes_word(word) {
            Ok(())
        } else {
            Err(self.unexpected(Wanted::Word(word)))
        }
    }

    /// Goes past a name, which has to be next.
    pub fn name(&mut self) -> Result<&'a str, ScriptError>
        ensures { MatchResult result
            (λ n. name_next self.old.lexer ≡ Some (n.now, self.new.lexer))
            (λ e. (name_next self.old.lexer ≡ None) × IsFaultOf (IsUnexpected self.old.lexer) e
            × Tells W.Name self.new.reason) }
    {
        self.name_or(Wanted::Name)
    }

    /// Goes past a name, which has to be next. Where none is, this is wanted.
    pub(crate) fn name_or(&mut self, wanted: Wanted) -> Result<&'a str, ScriptError>
        requires { name_next self.old.lexer ≡ None → IsUnmet wanted self.old.lexer }
        ensures { MatchResult result
            (λ n. name_next self.old.lexer ≡ Some (n.now, self.new.lexer))
            (λ e. (name_next self.old.lexer ≡ None) × IsFaultOf (IsUnexpected self.old.lexer) e
            × Tells wanted self.new.reason) }
    {
        match self.lexer.peek().0 {
            Token::Name(name) => {
                self.lexer.advance();
                Ok(name)
            }
            _ => Err(self.unexpected(wanted)),
        }
    }

    /// The name that is next.
    pub fn name_ahead(&self) -> Option<&'a str>
        ensures { name_ahead self.now.lexer ≡ option_map (λ n. n.now) result }
    {
        match self.lexer.peek().0 {
            Token::Name(name) => Some(name),
            _ => None,
        }
    }

    /// Goes past a text, which has to be next.
    pub fn text(&mut self) -> Result<QuotedText<'a>, ScriptError>
        ensures { MatchResult result
            (λ t. text_next self.old.lexer ≡ Some (text_of t, self.new.lexer))
            (λ e. (text_next self.old.lexer ≡ None) × IsFaultOf (IsUnexpected self.old.lexer) e
            × Tells W.Text self.new.reason) }
    {
        match self.lexer.peek().0 {
            Token::Text(text) => {
                self.lexer.advance();
                Ok(text)
            }
            _ => Err(self.unexpected(Wanted::Text)),
        }
    }

    /// Goes past an opening symbol, which has to be next, where `left` may be opened. Answers how
    /// many more may be. Where the symbol is not next, this is wanted, and where no more of them
    /// may be opened, this is their limit.
    pub fn open(
        &mut self,
        symbol: Symbol,
        left: u32,
        wanted: Wanted,
        limit: Limit,
    ) -> Result<u32, ScriptError>
        requires { after symbol self.old.lexer ≡ None → IsUnmet wanted self.old.lexer }
        ensures opened { MatchResult result
            (λ more. (left ≡ suc more) × (after symbol self.old.lexer ≡ Some self.new.lexer))
            (λ e. (more : ℕ) → left ≡ suc more → after symbol self.old.lexer ≡ None) }
        ensures fault { IfErr result (IsFaultOf (IsUnopened symbol self.old.lexer)) }
        ensures told { IfErr result
            (λ _. (after symbol self.old.lexer ≡ None → Tells wanted self.new.reason)
            × (after symbol self.old.lexer ≢ None → self.new.reason ≡ Beyond limit)) }
    {
        if !self.is_at(symbol) {
            return Err(self.unexpected(wanted));
        }
        let Some(more) = left.checked_sub(1) else {
            return Err(self.beyond(limit, ScriptFaultKind::TooDeep));
        };
        self.lexer.advance();
        Ok(more)
    }

    /// Whether this symbol is next.
    pub fn is_at(&self, symbol: Symbol) -> bool
        ensures { result ≡ is_some (after symbol self.now.lexer) }
    {
        matches!(self.lexer.peek().0, Token::Symbol(next) if next.is(symbol))
    }

    /// Whether this reserved word is next.
    pub fn is_at_word(&self, word: Word) -> bool
        ensures { result ≡ is_some (after_word word self.now.lexer) }
    {
        matches!(self.lexer.peek().0, Token::Word(next) if next.is(word))
    }

    /// Whether nothing is next.
    pub fn is_at_end(&self) -> bool
        ensures { IsTrue result ↔ (self.now.lexer ≡ []) }
    {
        matches!(self.lexer.peek().0, Token::End)
    }

    /// The row of the token that is next, in a block whose opening brace has this many lines above
    /// its own.
    pub fn row_in(&self, above: u32) -> u32
        ensures { self.now.lexer ≢ [] → result ≡ row_in above self.now.lexer }
    {
        self.lexer.peek().1.line.saturating_sub(above)
    }
}
