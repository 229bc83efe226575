//! Literals and expressions.
ghost use Rattle.std.specs.Prelude.{◌≡◌, ◌∷◌, ◌-◌, ℕ, List, MatchResult, None, Some};
ghost use Rattle.iso_script_lexer.specs.Piece.{Piece, symbol_at};
ghost use Rattle.iso_script_lexer.specs.Tokens.{after};
ghost use Rattle.iso_script_lexer.specs.declared.symbol.Symbol.TheVariants.{Minus};
ghost use Rattle.iso_script_lexer.specs.declared.token.Position.{Position};
ghost use Rattle.iso_model.specs.Syntax.{chain, compare, literal};
ghost use Rattle.iso_model.specs.SyntaxView.{term_of};
ghost use Rattle.iso_model.specs.declared.data.Data.{Data};
ghost use Rattle.iso_model.specs.declared.limits.TheConstants.{OPERANDS};
ghost use Rattle.iso_script_statements.specs.Expressions.{IsBefore, IsChained, IsEnclosed, IsExpression, IsLiteral, IsLocale, IsOperand, function_next, function_of, infix_next, infix_of, terms_in};
ghost use Rattle.iso_script_statements.specs.Faults.{IsMemory};
ghost use Rattle.iso_script_statements.specs.Parsing.{Parses};
ghost use Rattle.iso_script_statements.specs.Wanted.{IsUnmet};
ghost use Rattle.iso_script_statements.specs.declared.wanted.Wanted.TheVariants.{Literal};

use crate::fault::{ScriptError, ScriptFaultKind};
use crate::parser::Parser;
use crate::reason::Limit;
use crate::wanted::{Operators, Wanted};
use iso_model::data::Data;
use iso_model::limits::{OPERANDS, PARENTHESES};
use iso_model::text::Text;
use iso_model::tree::{Comparison, Expr, Function, Operands, Operator};
use iso_model::tree_text::TreeText;
use iso_script_lexer::symbol::Symbol;
use iso_script_lexer::token::Token;
use iso_script_lexer::word::Word;
use std::alloc::Global;

/// The most operands of a chain after its first.
const MORE_OPERANDS: usize = OPERANDS as usize - 1;

/// What stands between operands.
#[derive(Clone, Copy)]
pub enum Infix {
    Chain(Operator),
    Compare(Comparison),
}

/// What a symbol is between operands.
fn infix_of(symbol: Symbol) -> Option<Infix>
    ensures { result ≡ infix_of symbol }
{
    match symbol {
        Symbol::Plus => Some(Infix::Chain(Operator::Add)),
        Symbol::Minus => Some(Infix::Chain(Operator::Subtract)),
        Symbol::Star => Some(Infix::Chain(Operator::Multiply)),
        Symbol::PlusPlus => Some(Infix::Chain(Operator::Join)),
        Symbol::EqualsEquals => Some(Infix::Compare(Comparison::Equal)),
        Symbol::NotEquals => Some(Infix::Compare(Comparison::NotEqual)),
        Symbol::Less => Some(Infix::Compare(Comparison::Less)),
        _ => None,
    }
}

/// What a reserved word calls.
fn function_of(word: Word) -> Option<Function>
    ensures { result ≡ function_of word }
{
    match word {
        Word::Text => Some(Function::Text),
        Word::Len => Some(Function::Len),
        Word::Prop => Some(Function::Prop),
        Word::HasProp => Some(Function::HasProp),
        Word::File => Some(Function::File),
        Word::HasFile => Some(Function::HasFile),
        _ => None,
    }
}

/// A literal as an expression.
fn written(alloc: Global, value: Data) -> Result<Expr, ScriptError>
    ensures { MatchResult result (λ e. term_of e ≡ literal value) IsMemory }
{
    match value {
        Data::Whole(number) => Ok(Expr::Whole(number)),
        Data::Flag(holds) => Ok(Expr::Flag(holds)),
        Data::Text(text) => Ok(Expr::Text(TreeText::of(alloc, text)?)),
    }
}

/// An operand and those that follow it in its chain.
fn chain(
    alloc: Global,
    operator: Operator,
    first: Expr,
    rest: Vec<Expr>,
) -> Result<Expr, ScriptError>
    ensures { MatchResult result (λ e. term_of e
        ≡ chain operator (term_of first) (terms_in rest)) IsMemory }
{
    let operands = Operands { first, rest };
    Ok(Expr::Chain(operator, Box::new(alloc, operands)?))
}

/// Two operands that are compared.
fn compare(
    alloc: Global,
    comparison: Comparison,
    first: Expr,
    second: Expr,
) -> Result<Expr, ScriptError>
    ensures { MatchResult result (λ e. term_of e
        ≡ compare comparison (term_of first) (term_of second)) IsMemory }
{
    Ok(Expr::Compare(
        comparison,
        Box::new(alloc, first)?,
        Box::new(alloc, second)?,
    ))
}

impl Parser<'_> {
    /// The operator that is next, and what it is between operands.
    fn infix(&self) -> Option<(Symbol, Infix)>
        ensures { result ≡ infix_next self.now.lexer }
    {
        match self.lexer.peek().0 {
            Token::Symbol(symbol) => {
                let infix = infix_of(symbol)?;
                Some((symbol, infix))
            }
            _ => None,
        }
    }

    /// The function that is next.
    fn function(&self) -> Option<Function>
        ensures { result ≡ function_next self.now.lexer }
    {
        match self.lexer.peek().0 {
            Token::Word(word) => function_of(word),
            _ => None,
        }
    }

    /// A literal. Where none is next, this is wanted.
    pub fn literal(&mut self, wanted: Wanted) -> Result<Data, ScriptError>
        requires { IsUnmet Literal self.old.lexer → IsUnmet wanted self.old.lexer }
        ensures { Parses (λ (x : Data). x) IsLiteral result self.old.lexer self.new.lexer }
    {
        if self.lexer.takes(Symbol::Minus) {
            return self.negative();
        }
        if self.lexer.takes_word(Word::True) {
            return Ok(Data::Flag(true));
        }
        if self.lexer.takes_word(Word::False) {
            return Ok(Data::Flag(false));
        }
        match self.lexer.peek().0 {
            Token::Number(number) => {
                let Ok(whole) = i64::try_from(number) else {
                    return Err(self.unexpected(wanted));
                };
                self.lexer.advance();
                Ok(Data::Whole(whole))
            }
            Token::Text(text) => {
                self.lexer.advance();
                Ok(Data::Text(Text::new(text.decode(self.alloc)?)))
            }
            _ => Err(self.unexpected(wanted)),
        }
    }

    /// The number after a minus, as the negative one that it writes.
    fn negative(&mut self) -> Result<Data, ScriptError>
        ensures { (q : Position) → Parses (λ (x : Data). x)
            (λ x ps qs. IsLiteral x (symbol_at q Minus ∷ ps) qs) result self.old.lexer
            self.new.lexer }
    {
        let Token::Number(number) = self.lexer.peek().0 else {
            return Err(self.unexpected(Wanted::Number));
        };
        let Ok(whole) = i64::try_from(-i128::from(number)) else {
            return Err(self.unexpected(Wanted::Number));
        };
        self.lexer.advance();
        Ok(Data::Whole(whole))
    }

    /// An operand, in which `parens` parentheses may be opened.
    #[cycle(expression)]
    fn operand(&mut self, parens: u32) -> Result<Expr, ScriptError>
        ensures { Parses term_of (IsOperand parens) result self.old.lexer self.new.lexer }
    {
        if self.is_at(Symbol::OpenParen) {
            return self.enclosed(parens);
        }
        if let Some(function) = self.function() {
            self.lexer.advance();
            let operand = self.enclosed(parens)?;
            return Ok(Expr::Call(function, Box::new(self.alloc, operand)?));
        }
        if self.lexer.takes_word(Word::Locale) {
            return self.locale(parens);
        }
        if let Some(name) = self.name_ahead() {
            self.lexer.advance();
            return Ok(Expr::Name(TreeText::copied(self.alloc, name)?));
        }
        // Most literals are numbers: one is written to where it stays, and not handed on.
        if let Token::Number(number) = self.lexer.peek().0
            && let Ok(whole) = i64::try_from(number)
        {
            self.lexer.advance();
            return Ok(Expr::Whole(whole));
        }
        let literal = self.literal(Wanted::Operand)?;
        written(self.alloc, literal)
    }

    /// What follows the word `locale`: two parentheses, where `parens` may be opened.
    fn locale(&mut self, parens: u32) -> Result<Expr, ScriptError>
        ensures { Parses term_of (IsLocale parens) result self.old.lexer self.new.lexer }
    {
        let paren = Symbol::OpenParen;
        self.open(paren, parens, Wanted::Symbol(paren), Limit::Parentheses)?;
        self.expect(Symbol::CloseParen)?;
        Ok(Expr::Locale)
    }

    /// An expression between parentheses, the outermost of `parens` that may be opened.
    #[cycle(expression)]
    fn enclosed(&mut self, parens: u32) -> Result<Expr, ScriptError>
        ensures { Parses term_of (IsEnclosed parens) result self.old.lexer self.new.lexer }
    {
        let paren = Symbol::OpenParen;
        let more = self.open(paren, parens, Wanted::Symbol(paren), Limit::Parentheses)?;
        let expression = self.expression(more, Symbol::CloseParen)?;
        self.followed(Symbol::CloseParen)?;
        Ok(expression)
    }

    /// The operands after the first of a chain, with this operator before each. What follows the
    /// chain is this symbol.
    #[cycle(expression)]
    fn chained(
        &mut self,
        symbol: Symbol,
        parens: u32,
        follows: Symbol,
    ) -> Result<Vec<Expr>, ScriptError>
        requires { infix_of follows ≡ None }
        ensures { Parses terms_in (IsChained parens symbol (OPERANDS - 1)) result self.old.lexer
            self.new.lexer }
    {
        // Most chains have two operands.
        let mut operands = Vec::with_capacity(self.alloc, 1)?;
        'operands: while self.infix().is_some() {
            if !self.is_at(symbol) {
                return Err(self.unexpected(Wanted::SameOperator(symbol, follows)));
            }
            if operands.len() >= MORE_OPERANDS {
                return Err(self.beyond(Limit::Operands, ScriptFaultKind::TooDeep));
            }
            self.lexer.advance();
            operands.push(self.operand(parens)?)?;
        }
        Ok(operands)
    }

    /// An expression, in which `parens` parentheses may be opened. What follows it is this symbol.
    #[cycle(expression)]
    pub(crate) fn expression(&mut self, parens: u32, follows: Symbol) -> Result<Expr, ScriptError>
        requires { infix_of follows ≡ None }
        ensures { Parses term_of (IsExpression parens) result self.old.lexer self.new.lexer }
    {
        let first = self.operand(parens)?;
        let Some((symbol, infix)) = self.infix() else {
            self.operators = Operators::Any;
            return Ok(first);
        };
        match infix {
            Infix::Chain(operator) => {
                let operands = self.chained(symbol, parens, follows)?;
                self.operators = Operators::Same(symbol);
                chain(self.alloc, operator, first, operands)
            }
            Infix::Compare(comparison) => {
                self.lexer.advance();
                let second = self.compared(parens, follows)?;
                self.operators = Operators::None;
                compare(self.alloc, comparison, first, second)
            }
        }
    }

    /// The second of two operands that are compared, which no operator follows, but this symbol.
    #[cycle(expression)]
    fn compared(&mut self, parens: u32, follows: Symbol) -> Result<Expr, ScriptError>
        requires { infix_of follows ≡ None }
        ensures { Parses term_of (λ e ps qs. IsOperand parens e ps qs × (infix_next qs ≡ None))
            result self.old.lexer self.new.lexer }
    {
        let second = self.operand(parens)?;
        if self.infix().is_some() {
            Err(self.unexpected(Wanted::Symbol(follows)))
        } else {
            Ok(second)
        }
    }

    /// An expression and the symbol that has to follow it.
    pub(crate) fn expression_before(&mut self, symbol: Symbol) -> Result<Expr, ScriptError>
        requires { infix_of symbol ≡ None }
        ensures { Parses term_of (IsBefore symbol) result self.old.lexer self.new.lexer }
    {
        let expression = self.expression(PARENTHESES, symbol)?;
        self.followed(symbol)?;
        Ok(expression)
    }

    /// What is wanted after the expression that was read last, and before this symbol.
    pub(crate) fn wanted_before(&self, symbol: Symbol) -> Wanted
        ensures { (ps : List Piece) → infix_next ps ≡ None → after symbol ps ≡ None
            → IsUnmet result ps }
    {
        Wanted::after(self.operators, symbol)
    }

    /// Goes past the symbol that has to follow an expression.
    fn followed(&mut self, symbol: Symbol) -> Result<(), ScriptError>
        requires { infix_next self.old.lexer ≡ None }
        ensures { MatchResult result
            (λ _. after symbol self.old.lexer ≡ Some self.new.lexer)
            (λ _. after symbol self.old.lexer ≡ None) }
    {
        if self.lexer.takes(symbol) {
            Ok(())
        } else {
            let wanted = self.wanted_before(symbol);
            Err(self.unexpected(wanted))
        }
    }
}
