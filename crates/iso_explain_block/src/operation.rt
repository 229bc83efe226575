//! The lines of operations whose operands aren't shown to be of the kinds that they take.
ghost use Rattle.std.specs.Prelude.{◌≡◌, ◌++◌, IfOk, OnOk, [], map};
ghost use Rattle.iso_explain_block.specs.Operations.{all_are, chain_lines, fits, pair_lines, pair_words, right_kind, single_lines, single_words};
ghost use Rattle.iso_explain_block.specs.declared.kind.Kind.TheVariants.{Hidden};
ghost use Rattle.iso_model.specs.Syntax.{term};
ghost use Rattle.iso_model.specs.SyntaxView.{term_of, terms_of_all};

use crate::kind::{Kind, chain_kind, kind_of};
use crate::line::add_line;
use crate::rule::chain_rule;
use iso_model::text::Text;
use iso_model::tree::{Expr, Operator};
use std::alloc::{AllocError, Global};

/// Which two values an operation takes.
#[derive(Clone, Copy)]
pub(crate) enum Taking {
    /// Both of this kind.
    Both(Kind),
    /// Both of one kind.
    Alike,
}

impl Taking {
    /// Whether values of two kinds are shown to fit.
    fn fits(self, left: Kind, right: Kind) -> bool
        ensures { result ≡ fits self left right }
    {
        match self {
            Taking::Both(kind) => left.is(kind) && right.is(kind),
            Taking::Alike => left.is(right),
        }
    }
}

/// Adds the line of an operation of one operand, unless that is shown to be of the kind that it
/// takes.
#[tactic(auto, unfolding(crate::specs::Operations::single_lines))]
pub(crate) fn add_single(
    alloc: Global,
    lines: &mut Vec<Text>,
    rule: &str,
    wanted: Kind,
    operand: &Expr,
) -> Result<(), AllocError>
    ensures { OnOk result (lines.new.items
        ≡ single_lines rule.now wanted (term_of operand.now) lines.old.items) }
{
    let kind = kind_of(operand);
    if kind.is(wanted) {
        return Ok(());
    }
    add_line(lines, single_text(alloc, rule, kind)?)
}

/// The same of two operands.
#[tactic(auto, unfolding(crate::specs::Operations::pair_lines))]
pub(crate) fn add_pair(
    alloc: Global,
    lines: &mut Vec<Text>,
    rule: &str,
    taking: Taking,
    left: &Expr,
    right: &Expr,
) -> Result<(), AllocError>
    ensures { OnOk result (lines.new.items
        ≡ pair_lines rule.now taking (term_of left.now) (term_of right.now) lines.old.items) }
{
    let left = kind_of(left);
    let right = kind_of(right);
    if taking.fits(left, right) {
        return Ok(());
    }
    add_line(lines, pair_text(alloc, rule, left, right)?)
}

/// The same of a chain.
#[tactic(auto, unfolding(crate::specs::Operations::chain_lines))]
pub(crate) fn add_chain(
    alloc: Global,
    lines: &mut Vec<Text>,
    operator: Operator,
    first: &Expr,
    rest: &[Expr],
) -> Result<(), AllocError>
    ensures { OnOk result (lines.new.items
        ≡ chain_lines operator (term_of first.now) (terms_of_all rest.now) lines.old.items) }
{
    let wanted = chain_kind(operator);
    if is_first_and_all(wanted, first, rest) {
        return Ok(());
    }
    let right = right_kind(wanted, rest);
    add_line(
        lines,
        pair_text(alloc, chain_rule(operator), kind_of(first), right)?,
    )
}

/// Whether a first operand and all after it are shown to be of a kind.
fn is_first_and_all(wanted: Kind, first: &Expr, rest: &[Expr]) -> bool
    ensures { result ≡ all_are wanted (term (term_of first.now) (terms_of_all rest.now)) }
{
    kind_of(first).is(wanted) && all_are(wanted, rest)
}

/// Whether all these operands are shown to be of a kind.
fn all_are(wanted: Kind, operands: &[Expr]) -> bool
    ensures { result ≡ all_are wanted (terms_of_all operands.now) }
{
    for operand in operands {
        if !kind_of(operand).is(wanted) {
            return false;
        }
    }
    true
}

/// The kind of the first of these operands that is shown to be of another kind, or else of the
/// last.
fn right_kind(wanted: Kind, operands: &[Expr]) -> Kind
    ensures { result ≡ right_kind wanted Hidden (terms_of_all operands.now) }
{
    let mut last = Kind::Hidden;
    for operand in operands {
        last = kind_of(operand);
        if last.is_other(wanted) {
            return last;
        }
    }
    last
}

/// What an operation takes, and the kind of its operand, where it is shown.
fn single_text(alloc: Global, rule: &str, kind: Kind) -> Result<Text, AllocError>
    ensures { IfOk result (λ t. t ≡ rule.now ++ single_words kind) }
{
    if kind.is_hidden() {
        return Text::copied(alloc, rule);
    }
    let words = kind.words();
    Ok(Text::new(format!(in alloc; "{rule}: this is {words}")?))
}

/// The same of two operands.
fn pair_text(alloc: Global, rule: &str, left: Kind, right: Kind) -> Result<Text, AllocError>
    ensures { IfOk result (λ t. t ≡ rule.now ++ pair_words left right) }
{
    match (left.is_hidden(), right.is_hidden()) {
        (true, true) => Text::copied(alloc, rule),
        (true, false) => {
            let right = right.words();
            Ok(Text::new(format!(in alloc; "{rule}: right is {right}")?))
        },
        (false, true) => {
            let left = left.words();
            Ok(Text::new(format!(in alloc; "{rule}: left is {left}")?))
        },
        (false, false) => {
            let left = left.words();
            let right = right.words();
            Ok(Text::new(format!(in alloc; "{rule}: left is {left}, right {right}")?))
        },
    }
}
