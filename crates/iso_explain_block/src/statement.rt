//! The lines of statements.
ghost use Rattle.std.specs.Prelude.{◌≡◌, OnOk};
ghost use Rattle.iso_explain_block.specs.Statements.{act_lines, acts_lines, inner_lines, own_lines, plain_pair_lines, plain_single_lines};
ghost use Rattle.iso_explain_block.specs.declared.operation.Taking.TheVariants.{Both};
ghost use Rattle.iso_model.specs.SyntaxView.{block_of, form_of, stmt_of, term_of};

use crate::expression::add_expression;
use crate::kind::Kind;
use crate::operation::{Taking, add_pair, add_single};
use crate::rule::form_rule;
use iso_model::text::Text;
use iso_model::tree::{Expr, Form, OneOperand, Stmt, TwoOperands};
use std::alloc::{AllocError, Global};

/// Adds the lines of those statements of a body that stand on a row, in their order, also of bodies
/// in it.
#[cycle(statement)]
pub(crate) fn add_statements(
    alloc: Global,
    lines: &mut Vec<Text>,
    row: u32,
    statements: &[Stmt],
) -> Result<(), AllocError>
    ensures { OnOk result (lines.new.items
        ≡ acts_lines row (block_of statements.now) lines.old.items) }
{
    for statement in statements {
        add_statement(alloc, lines, row, statement)?;
    }
    Ok(())
}

/// Adds the lines of a statement, if it stands on a row, and of the bodies in it.
#[cycle(statement)]
fn add_statement(
    alloc: Global,
    lines: &mut Vec<Text>,
    row: u32,
    statement: &Stmt,
) -> Result<(), AllocError>
    ensures { OnOk result (lines.new.items
        ≡ act_lines row (stmt_of statement.now).0 (stmt_of statement.now).1 lines.old.items) }
{
    if statement.row == row {
        add_own(alloc, lines, &statement.form)?;
    }
    add_inner(alloc, lines, row, &statement.form)
}

/// Adds the lines of the bodies in a statement.
#[cycle(statement)]
fn add_inner(alloc: Global, lines: &mut Vec<Text>, row: u32, form: &Form) -> Result<(), AllocError>
    ensures { OnOk result (lines.new.items ≡ inner_lines row (form_of form.now) lines.old.items) }
{
    match form {
        Form::Let(_, _)
        | Form::Assign(_, _)
        | Form::One(_, _)
        | Form::Two(_, _, _)
        | Form::Assume(_, _)
        | Form::Fail(_) => Ok(()),
        Form::If(_, body) | Form::Repeat(_, body) => add_statements(alloc, lines, row, body),
        Form::IfElse(_, bodies) => {
            add_statements(alloc, lines, row, &bodies.first)?;
            add_statements(alloc, lines, row, &bodies.second)
        }
    }
}

/// Adds the lines of a statement without those of bodies in it.
fn add_own(alloc: Global, lines: &mut Vec<Text>, form: &Form) -> Result<(), AllocError>
    ensures { OnOk result (lines.new.items ≡ own_lines (form_of form.now) lines.old.items) }
{
    let rule = form_rule(form);
    match form {
        Form::Fail(_) => Ok(()),
        Form::Let(_, value) | Form::Assign(_, value) | Form::One(OneOperand::Print, value) => {
            add_expression(alloc, lines, value)
        }
        Form::One(OneOperand::Assert, condition)
        | Form::Assume(condition, _)
        | Form::If(condition, _)
        | Form::IfElse(condition, _) => add_one(alloc, lines, rule, Kind::Flag, condition),
        Form::Repeat(count, _) => add_one(alloc, lines, rule, Kind::Whole, count),
        Form::One(OneOperand::ClearProp | OneOperand::SetLocale | OneOperand::DeleteFile, text) => {
            add_one(alloc, lines, rule, Kind::Text, text)
        }
        Form::Two(TwoOperands::AssertEqual, expected, actual) => {
            add_two(alloc, lines, rule, Taking::Alike, expected, actual)
        }
        Form::Two(
            TwoOperands::SetProp | TwoOperands::WriteFile | TwoOperands::AppendFile,
            name,
            text,
        ) => add_two(alloc, lines, rule, Taking::Both(Kind::Text), name, text),
    }
}

/// Adds the lines of an expression, and that of what takes it.
#[tactic(auto, unfolding(crate::specs::Statements::plain_single_lines))]
fn add_one(
    alloc: Global,
    lines: &mut Vec<Text>,
    rule: &str,
    wanted: Kind,
    operand: &Expr,
) -> Result<(), AllocError>
    ensures { OnOk result (lines.new.items
        ≡ plain_single_lines rule.now wanted (term_of operand.now) lines.old.items) }
{
    add_expression(alloc, lines, operand)?;
    add_single(alloc, lines, rule, wanted, operand)
}

/// The same of two expressions.
#[tactic(auto, unfolding(crate::specs::Statements::plain_pair_lines))]
fn add_two(
    alloc: Global,
    lines: &mut Vec<Text>,
    rule: &str,
    taking: Taking,
    left: &Expr,
    right: &Expr,
) -> Result<(), AllocError>
    ensures { OnOk result (lines.new.items
        ≡ plain_pair_lines rule.now taking (term_of left.now) (term_of right.now) lines.old.items) }
{
    add_expression(alloc, lines, left)?;
    add_expression(alloc, lines, right)?;
    add_pair(alloc, lines, rule, taking, left, right)
}
