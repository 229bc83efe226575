//! When the names of a block are indexed. An index costs as much as many look-ups, and most blocks
//! do few: so the first ones go over the names, and what they cost together is about what the index
//! costs.
ghost use Rattle.std.specs.Prelude.{◌≡◌};
ghost use Rattle.iso_interp.specs.Runs.{SameWork, local_of};

use crate::run::BlockRun;
use iso_model::names::FEW_NAMES;
use iso_model::tree::{Expr, Form, Stmt};
use std::alloc::AllocError;

/// How many look-ups of a block may go over many names.
pub(super) const LOOKS: u32 = 50;

impl<'a> BlockRun<'a> {
    /// Counts the look-ups that a statement may do, before it does them, and has the names indexed
    /// where they are too many.
    #[inline(always)]
    pub(super) fn count_looks(&mut self, statement: &Stmt) -> Result<(), AllocError>
        ensures local { local_of self.new ≡ local_of self.old }
        ensures work { SameWork self.old self.new }
    {
        if self.looks == 0 || self.names.len() <= FEW_NAMES {
            return Ok(());
        }
        self.looks = left_after_form(&statement.form, self.looks);
        if self.looks > 0 {
            return Ok(());
        }
        self.names.index()
    }
}

/// What a statement leaves of `looks` look-ups. A literal counts as a name, so no more of an
/// expression is gone over than there are look-ups.
fn left_after_form(form: &Form, looks: u32) -> u32 {
    match form {
        Form::Let(_, value) | Form::Assign(_, value) => left_after(value, looks.saturating_sub(1)),
        Form::One(_, value)
        | Form::Assume(value, _)
        | Form::If(value, _)
        | Form::IfElse(value, _)
        | Form::Repeat(value, _) => left_after(value, looks),
        Form::Two(_, first, second) => left_after(second, left_after(first, looks)),
        Form::Fail(_) => looks,
    }
}

/// What an expression leaves of `looks` look-ups.
#[cycle(looks)]
fn left_after(expression: &Expr, looks: u32) -> u32 {
    if looks == 0 {
        return 0;
    }
    match expression {
        Expr::Whole(_) | Expr::Flag(_) | Expr::Text(_) | Expr::Name(_) | Expr::Locale => looks - 1,
        Expr::Chain(_, operands) => {
            left_after_all(&operands.rest, left_after(&operands.first, looks))
        }
        Expr::Compare(_, first, second) => left_after(second, left_after(first, looks)),
        Expr::Call(_, operand) => left_after(operand, looks),
    }
}

/// What expressions leave of `looks` look-ups.
#[cycle(looks)]
fn left_after_all(expressions: &[Expr], looks: u32) -> u32 {
    let mut left = looks;
    for expression in expressions {
        left = left_after(expression, left);
    }
    left
}
