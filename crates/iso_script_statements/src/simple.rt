//! Statements without bodies.
ghost use Rattle.std.specs.Prelude.{◌≡◌, MatchResult, None};
ghost use Rattle.iso_model.specs.Syntax.{Term};
ghost use Rattle.iso_model.specs.SyntaxView.{form_of, term_of};
ghost use Rattle.iso_script_statements.specs.Faults.{IsMemory};
ghost use Rattle.iso_script_statements.specs.Parsing.{Parses};
ghost use Rattle.iso_script_statements.specs.Pieces.{name_next};
ghost use Rattle.iso_script_statements.specs.Statements.{IsBinding, IsSimple, binding_of, simple_next, simple_of};
ghost use Rattle.iso_script_statements.specs.Wanted.{IsUnmet};
ghost use Rattle.iso_script_statements.specs.declared.simple.Simple.TheVariants.{Assume, Fail, Let, One, Two};

use crate::fault::ScriptError;
use crate::parser::Parser;
use crate::wanted::Wanted;
use iso_model::text::Text;
use iso_model::tree::{Expr, Form, OneOperand, TwoOperands};
use iso_model::tree_text::TreeText;
use iso_script_lexer::symbol::Symbol;
use iso_script_lexer::token::Token;
use iso_script_lexer::word::Word;
use std::alloc::Global;

/// A statement that begins with a word of its own and has no body.
#[derive(Clone, Copy)]
pub enum Simple {
    One(OneOperand),
    Two(TwoOperands),
    Let,
    Assume,
    Fail,
}

/// The simple statement that a reserved word begins.
fn simple_of(word: Word) -> Option<Simple>
    ensures { result ≡ simple_of word }
{
    match word {
        Word::Let => Some(Simple::Let),
        Word::Print => Some(Simple::One(OneOperand::Print)),
        Word::Assert => Some(Simple::One(OneOperand::Assert)),
        Word::AssertEqual => Some(Simple::Two(TwoOperands::AssertEqual)),
        Word::Assume => Some(Simple::Assume),
        Word::Fail => Some(Simple::Fail),
        Word::SetProp => Some(Simple::Two(TwoOperands::SetProp)),
        Word::ClearProp => Some(Simple::One(OneOperand::ClearProp)),
        Word::SetLocale => Some(Simple::One(OneOperand::SetLocale)),
        Word::WriteFile => Some(Simple::Two(TwoOperands::WriteFile)),
        Word::AppendFile => Some(Simple::Two(TwoOperands::AppendFile)),
        Word::DeleteFile => Some(Simple::One(OneOperand::DeleteFile)),
        _ => None,
    }
}

/// An expression with its name.
fn named(alloc: Global, name: &str, value: Expr) -> Result<(TreeText, Expr), ScriptError>
    ensures { MatchResult result (λ b. binding_of b ≡ (name.now, term_of value)) IsMemory }
{
    Ok((TreeText::copied(alloc, name)?, value))
}

impl Parser<'_> {
    /// The simple statement whose word is next.
    pub(crate) fn simple(&self) -> Option<Simple>
        ensures { result ≡ simple_next self.now.lexer }
    {
        match self.lexer.peek().0 {
            Token::Word(word) => simple_of(word),
            _ => None,
        }
    }

    /// What follows the word of a simple statement.
    pub(crate) fn simple_form(&mut self, simple: Simple) -> Result<Form, ScriptError>
        ensures { Parses form_of (IsSimple simple) result self.old.lexer self.new.lexer }
    {
        match simple {
            Simple::One(operand) => self.of_one(operand),
            Simple::Two(operands) => self.of_two(operands),
            Simple::Let => self.definition(),
            Simple::Assume => self.assumption(),
            Simple::Fail => self.failure(),
        }
    }

    /// The expression of a statement of one.
    fn of_one(&mut self, operand: OneOperand) -> Result<Form, ScriptError>
        ensures { Parses form_of (IsSimple (One operand)) result self.old.lexer self.new.lexer }
    {
        let value = self.expression_before(Symbol::Semicolon)?;
        Ok(Form::One(operand, value))
    }

    /// The expressions of a statement of two.
    fn of_two(&mut self, operands: TwoOperands) -> Result<Form, ScriptError>
        ensures { Parses form_of (IsSimple (Two operands)) result self.old.lexer self.new.lexer }
    {
        let first = self.expression_before(Symbol::Comma)?;
        let second = self.expression_before(Symbol::Semicolon)?;
        Ok(Form::Two(operands, first, second))
    }

    /// What follows `let`.
    fn definition(&mut self) -> Result<Form, ScriptError>
        ensures { Parses form_of (IsSimple Let) result self.old.lexer self.new.lexer }
    {
        let (name, value) = self.binding(Wanted::Name)?;
        Ok(Form::Let(name, value))
    }

    /// What follows `assume`.
    fn assumption(&mut self) -> Result<Form, ScriptError>
        ensures { Parses form_of (IsSimple Assume) result self.old.lexer self.new.lexer }
    {
        let condition = self.expression_before(Symbol::Comma)?;
        let reason = self.display()?;
        self.expect(Symbol::Semicolon)?;
        Ok(Form::Assume(condition, TreeText::of(self.alloc, reason)?))
    }

    /// What follows `fail`.
    fn failure(&mut self) -> Result<Form, ScriptError>
        ensures { Parses form_of (IsSimple Fail) result self.old.lexer self.new.lexer }
    {
        let message = self.text()?;
        self.expect(Symbol::Semicolon)?;
        let decoded = Text::new(message.decode(self.alloc)?);
        Ok(Form::Fail(TreeText::of(self.alloc, decoded)?))
    }

    /// A name, and the expression that it gets. Where no name is next, this is wanted.
    pub(crate) fn binding(&mut self, wanted: Wanted) -> Result<(TreeText, Expr), ScriptError>
        requires { name_next self.old.lexer ≡ None → IsUnmet wanted self.old.lexer }
        ensures { Parses binding_of IsBinding result self.old.lexer self.new.lexer }
    {
        let name = self.name_or(wanted)?;
        self.expect(Symbol::Equals)?;
        let value = self.expression_before(Symbol::Semicolon)?;
        named(self.alloc, name, value)
    }
}
