//! The lines of an expression: those of its operations that may have been given values of other
//! kinds than they take.
ghost use Rattle.std.specs.Prelude.{◌≡◌, OnOk};
ghost use Rattle.iso_explain_block.specs.Expressions.{call_lines, comparison_lines, term_lines, terms_lines};
ghost use Rattle.iso_model.specs.SyntaxView.{term_of, terms_of_all};

use crate::kind::Kind;
use crate::operation::{Taking, add_chain, add_pair, add_single};
use crate::rule::{comparison_rule, function_rule};
use iso_model::text::Text;
use iso_model::tree::{Comparison, Expr, Function};
use std::alloc::{AllocError, Global};

/// Adds the lines of an expression: of each operation after those of its operands.
#[cycle(expression)]
pub(crate) fn add_expression(
    alloc: Global,
    lines: &mut Vec<Text>,
    expression: &Expr,
) -> Result<(), AllocError>
    ensures { OnOk result (lines.new.items ≡ term_lines (term_of expression.now) lines.old.items) }
{
    match expression {
        Expr::Whole(_) | Expr::Flag(_) | Expr::Text(_) | Expr::Name(_) | Expr::Locale => Ok(()),
        Expr::Chain(operator, operands) => {
            add_expression(alloc, lines, &operands.first)?;
            add_expressions(alloc, lines, &operands.rest)?;
            add_chain(alloc, lines, *operator, &operands.first, &operands.rest)
        }
        Expr::Compare(comparison, left, right) => {
            add_expression(alloc, lines, left)?;
            add_expression(alloc, lines, right)?;
            add_comparison(alloc, lines, *comparison, left, right)
        }
        Expr::Call(function, operand) => {
            add_expression(alloc, lines, operand)?;
            add_call(alloc, lines, *function, operand)
        }
    }
}

/// Adds the lines of expressions.
#[cycle(expression)]
fn add_expressions(
    alloc: Global,
    lines: &mut Vec<Text>,
    expressions: &[Expr],
) -> Result<(), AllocError>
    ensures { OnOk result (lines.new.items
        ≡ terms_lines (terms_of_all expressions.now) lines.old.items) }
{
    for expression in expressions {
        add_expression(alloc, lines, expression)?;
    }
    Ok(())
}

/// Adds the line of a comparison.
fn add_comparison(
    alloc: Global,
    lines: &mut Vec<Text>,
    comparison: Comparison,
    left: &Expr,
    right: &Expr,
) -> Result<(), AllocError>
    ensures { OnOk result (lines.new.items
        ≡ comparison_lines comparison (term_of left.now) (term_of right.now) lines.old.items) }
{
    let taking = match comparison {
        Comparison::Equal | Comparison::NotEqual => Taking::Alike,
        Comparison::Less => Taking::Both(Kind::Whole),
    };
    add_pair(
        alloc,
        lines,
        comparison_rule(comparison),
        taking,
        left,
        right,
    )
}

/// Adds the line of a function, which `text` never has.
fn add_call(
    alloc: Global,
    lines: &mut Vec<Text>,
    function: Function,
    operand: &Expr,
) -> Result<(), AllocError>
    ensures { OnOk result (lines.new.items
        ≡ call_lines function (term_of operand.now) lines.old.items) }
{
    if let Function::Text = function {
        return Ok(());
    }
    add_single(alloc, lines, function_rule(function), Kind::Text, operand)
}
