//! Statements and bodies.
ghost use Rattle.std.specs.Prelude.{◌∷◌, ◌≡◌, ℕ, [], MatchResult, None};
ghost use Rattle.iso_script_lexer.specs.Piece.{word_at};
ghost use Rattle.iso_script_lexer.specs.Tokens.{after};
ghost use Rattle.iso_script_lexer.specs.declared.symbol.Symbol.TheVariants.{CloseBrace, OpenBrace};
ghost use Rattle.iso_script_lexer.specs.declared.token.Position.{Position};
ghost use Rattle.iso_script_lexer.specs.declared.word.Word.TheVariants as W;
ghost use Rattle.iso_model.specs.SyntaxView.{form_of, stmt_of};
ghost use Rattle.iso_script_statements.specs.Faults.{IsMemory};
ghost use Rattle.iso_script_statements.specs.Parsing.{Parses};
ghost use Rattle.iso_script_statements.specs.Statements.{IsBlock, IsBody, IsElse, IsStatement, IsStatements, body_of};
ghost use Rattle.iso_script_statements.specs.Wanted.{IsInBody, IsUnmet};

use crate::fault::ScriptError;
use crate::parser::Parser;
use crate::reason::Limit;
use crate::wanted::Wanted;
use iso_model::limits::{BODY_DEPTH, PARENTHESES};
use iso_model::tree::{Form, Stmt, TwoBodies};
use iso_script_lexer::symbol::Symbol;
use iso_script_lexer::word::Word;

impl Parser<'_> {
    /// A block: a body, with rows that count from 1 on the line of its opening brace. Where none is
    /// next, this is wanted.
    pub fn block(&mut self, wanted: Wanted) -> Result<Vec<Stmt>, ScriptError>
        requires { after OpenBrace self.old.lexer ≡ None → IsUnmet wanted self.old.lexer }
        ensures { Parses body_of IsBlock result self.old.lexer self.new.lexer }
    {
        let above = self.lexer.peek().1.line.saturating_sub(1);
        self.body(BODY_DEPTH, above, wanted)
    }

    /// A body of a block whose opening brace has this many lines above its own, the outermost of
    /// `bodies` that may be opened; where none may be, it is `TooDeep`. Where none is next, this is
    /// wanted.
    #[cycle(body)]
    pub fn body(
        &mut self,
        bodies: u32,
        above: u32,
        wanted: Wanted,
    ) -> Result<Vec<Stmt>, ScriptError>
        requires { after OpenBrace self.old.lexer ≡ None → IsUnmet wanted self.old.lexer }
        ensures { Parses body_of (IsBody bodies above) result self.old.lexer self.new.lexer }
    {
        let more = self.open(Symbol::OpenBrace, bodies, wanted, Limit::Bodies)?;
        self.statements(more, above)
    }

    /// Statements, and the brace that closes them.
    #[cycle(body)]
    fn statements(&mut self, bodies: u32, above: u32) -> Result<Vec<Stmt>, ScriptError>
        ensures { Parses body_of (IsStatements bodies above) result self.old.lexer self.new.lexer }
    {
        let mut statements = self.likely_room(bodies)?;
        'statements: while !self.lexer.takes(Symbol::CloseBrace) {
            let row = self.row_in(above);
            let form = self.form(bodies, above)?;
            statements.push(Stmt { row, form })?;
        }
        self.lengths.note(bodies, statements.len());
        Ok(statements)
    }

    /// No statements, with room for as many as are likely. A body without any takes no memory.
    fn likely_room(&self, bodies: u32) -> Result<Vec<Stmt>, ScriptError>
        ensures { MatchResult result (λ v. v.items ≡ []) IsMemory }
    {
        if self.is_at(Symbol::CloseBrace) {
            Ok(Vec::new(self.alloc))
        } else {
            Ok(Vec::with_capacity(self.alloc, self.lengths.likely(bodies))?)
        }
    }

    /// What is wanted where neither a statement is next nor the brace that closes the body: an
    /// `else` too, where one may stand.
    fn wanted_in_body(&self) -> Wanted
        ensures { IsInBody self.now.lexer result }
    {
        if self.without_else == Some(self.lexer.peek().1) && !self.is_at_word(Word::Else) {
            Wanted::StatementOrElse
        } else {
            Wanted::Statement
        }
    }

    /// What a statement does.
    #[cycle(body)]
    fn form(&mut self, bodies: u32, above: u32) -> Result<Form, ScriptError>
        requires { after CloseBrace self.old.lexer ≡ None }
        ensures { Parses form_of (IsStatement bodies above) result self.old.lexer self.new.lexer }
    {
        if let Some(simple) = self.simple() {
            self.lexer.advance();
            return self.simple_form(simple);
        }
        if self.lexer.takes_word(Word::If) {
            return self.choice(bodies, above);
        }
        if self.lexer.takes_word(Word::Repeat) {
            return self.repetition(bodies, above);
        }
        let wanted = self.wanted_in_body();
        let (name, value) = self.binding(wanted)?;
        Ok(Form::Assign(name, value))
    }

    /// What follows `if`.
    #[cycle(body)]
    fn choice(&mut self, bodies: u32, above: u32) -> Result<Form, ScriptError>
        ensures { (r : Position) → Parses form_of
            (λ a ps qs. IsStatement bodies above a (word_at r W.If ∷ ps) qs)
            result self.old.lexer self.new.lexer }
    {
        let condition = self.expression(PARENTHESES, Symbol::OpenBrace)?;
        let wanted = self.wanted_before(Symbol::OpenBrace);
        let first = self.body(bodies, above, wanted)?;
        let second = self.otherwise(bodies, above)?;
        if second.is_empty() {
            return Ok(Form::If(condition, first));
        }
        let bodies = Box::new(self.alloc, TwoBodies { first, second })?;
        Ok(Form::IfElse(condition, bodies))
    }

    /// The body of an `else`, or none.
    #[cycle(body)]
    fn otherwise(&mut self, bodies: u32, above: u32) -> Result<Vec<Stmt>, ScriptError>
        ensures { Parses body_of (IsElse bodies above) result self.old.lexer self.new.lexer }
    {
        if self.lexer.takes_word(Word::Else) {
            self.body(bodies, above, Wanted::Symbol(Symbol::OpenBrace))
        } else {
            self.without_else = Some(self.lexer.peek().1);
            Ok(Vec::new(self.alloc))
        }
    }

    /// What follows `repeat`.
    #[cycle(body)]
    fn repetition(&mut self, bodies: u32, above: u32) -> Result<Form, ScriptError>
        ensures { (r : Position) → Parses form_of
            (λ a ps qs. IsStatement bodies above a (word_at r W.Repeat ∷ ps) qs)
            result self.old.lexer self.new.lexer }
    {
        let count = self.expression(PARENTHESES, Symbol::OpenBrace)?;
        let wanted = self.wanted_before(Symbol::OpenBrace);
        let body = self.body(bodies, above, wanted)?;
        Ok(Form::Repeat(count, body))
    }
}
