//! The value of an expression, over the names, the rights and the resources of a block.
ghost use Rattle.std.specs.Prelude.{◌≡◌, IfOk, IfSome, Ok, option_map};
ghost use Rattle.iso_model.specs.Evaluation.{compared, evaluated, evaluated_all, joined, joined_all, or_fault, then};
ghost use Rattle.iso_model.specs.Names.{binding_of};
ghost use Rattle.iso_model.specs.Rights.{access_in};
ghost use Rattle.iso_model.specs.SyntaxView.{term_of, terms_of_all};
ghost use Rattle.iso_model.specs.Touch.{HasKeys};
ghost use Rattle.iso_model.specs.declared.data.Data.TheVariants as Kinds;
ghost use Rattle.iso_model.specs.declared.data.Data.TheVariants.{Flag};
ghost use Rattle.iso_model.specs.declared.fault.Fault.TheVariants as Faults;
ghost use Rattle.iso_model.specs.declared.names.Binding.{Binding};
ghost use Rattle.iso_interp.specs.Values.{AlwaysGives, Answers, ComeTo, SumTo, data_of, given_of};

use crate::functions::{call, locale};
use crate::interrupt::Interrupt;
use crate::operators::{combined_numbers, compared, joined};
use crate::value::{Given, TextValue, Value};
use iso_model::fault::Fault;
use iso_model::names::Names;
use iso_model::rights::Rights;
use iso_model::touch::Touch;
use iso_model::tree::{Comparison, Expr, Operator};
use iso_model::tree_text::TreeText;
use std::alloc::{AllocError, Global};

/// The value of an expression, or its first fault. Operands are evaluated from the left, each once.
/// Memory is taken only for a text that is made, and for a fault.
#[cycle(evaluate)]
#[inline(always)]
pub fn evaluate<'a, T: Touch>(
    alloc: Global,
    names: &'a Names,
    rights: &Rights,
    touch: &'a T,
    expression: &'a Expr,
) -> Result<Value<'a>, Interrupt>
    requires { HasKeys (access_in rights.now) (T.content touch.now) (T.writes touch.now) }
    ensures { Answers data_of result (evaluated names.now.names (T.content touch.now)
        (access_in rights.now) (term_of expression.now)) }
{
    match at_once(names, expression) {
        Some(value) => Ok(value),
        None => worked_out(alloc, names, rights, touch, expression),
    }
}

/// The value of a literal, of a visible name, or of a chain of such numbers. Most expressions are
/// one, so little is done for them.
#[inline(always)]
fn at_once<'a>(names: &'a Names, expression: &'a Expr) -> Option<Value<'a>>
    ensures { IfSome result (λ v. AlwaysGives names.now.names (term_of expression.now)
        (data_of v)) }
{
    match expression {
        Expr::Chain(_, _) => Some(Value::Whole(sum_at_once(names, expression)?)),
        _ => simple(names, expression),
    }
}

/// The number that a chain comes to at once: of another expression nothing is looked at.
#[inline(always)]
pub fn chain_at_once(names: &Names, expression: &Expr) -> Option<i64>
    ensures { IfSome result (λ n. AlwaysGives names.now.names (term_of expression.now)
        (Kinds.Whole n)) }
{
    match expression {
        Expr::Chain(_, _) => sum_at_once(names, expression),
        _ => None,
    }
}

/// The value of a literal or of a visible name.
#[inline(always)]
fn simple<'a>(names: &'a Names, expression: &'a Expr) -> Option<Value<'a>>
    ensures { IfSome result (λ v. AlwaysGives names.now.names (term_of expression.now)
        (data_of v)) }
{
    match expression {
        Expr::Whole(number) => Some(Value::Whole(*number)),
        Expr::Flag(holds) => Some(Value::Flag(*holds)),
        Expr::Text(text) => Some(Value::Text(TextValue::Lent(text.as_str()))),
        Expr::Name(name) => {
            let binding = names.get(name.as_str())?;
            Some(Value::lent(binding.value))
        }
        _ => None,
    }
}

/// The number that a chain comes to whose operands are literals and visible names that are numbers.
#[inline(never)]
fn sum_at_once(names: &Names, expression: &Expr) -> Option<i64>
    ensures { IfSome result (λ n. AlwaysGives names.now.names (term_of expression.now)
        (Kinds.Whole n)) }
{
    match expression {
        Expr::Chain(operator, operands) => match simple(names, &operands.first)? {
            Value::Whole(first) => numbers(names, *operator, first, &operands.rest),
            _ => None,
        },
        _ => None,
    }
}

/// What a first number and the operands after it come to, where all of them are numbers at once.
#[inline(always)]
fn numbers(names: &Names, operator: Operator, first: i64, rest: &[Expr]) -> Option<i64>
    ensures { IfSome result (λ n. SumTo names.now.names operator first rest.now n) }
{
    let mut sum = first;
    for passed in 0..rest.len() {
        sum = next_number(names, operator, sum, &rest[passed])?;
    }
    Some(sum)
}

/// What a number and the operand after it come to, where the operand is a number at once and the
/// two come to a number.
#[inline(always)]
fn next_number(names: &Names, operator: Operator, sum: i64, operand: &Expr) -> Option<i64>
    ensures { IfSome result (ComeTo names.now.names operator sum (term_of operand.now)) }
{
    match simple(names, operand)? {
        Value::Whole(number) => match combined_numbers(operator, sum, number) {
            Ok(Value::Whole(next)) => Some(next),
            _ => None,
        },
        _ => None,
    }
}

/// The value of an expression by what it is made of: as [`evaluate`], which asks first what it comes
/// to at once.
#[cycle(evaluate)]
#[inline(never)]
pub fn worked_out<'a, T: Touch>(
    alloc: Global,
    names: &'a Names,
    rights: &Rights,
    touch: &'a T,
    expression: &'a Expr,
) -> Result<Value<'a>, Interrupt>
    requires { HasKeys (access_in rights.now) (T.content touch.now) (T.writes touch.now) }
    ensures { Answers data_of result (evaluated names.now.names (T.content touch.now)
        (access_in rights.now) (term_of expression.now)) }
{
    match expression {
        Expr::Whole(number) => Ok(Value::Whole(*number)),
        Expr::Flag(holds) => Ok(Value::Flag(*holds)),
        Expr::Text(text) => Ok(Value::Text(TextValue::Lent(text.as_str()))),
        Expr::Name(name) => named(alloc, names, name),
        Expr::Chain(operator, operands) => {
            match evaluate(alloc, names, rights, touch, &operands.first) {
                Ok(first) => chain(
                    alloc,
                    names,
                    rights,
                    touch,
                    *operator,
                    first,
                    &operands.rest,
                ),
                Err(interrupt) => Err(interrupt),
            }
        }
        Expr::Compare(comparison, first, second) => {
            match evaluate(alloc, names, rights, touch, first) {
                Ok(first) => against(alloc, names, rights, touch, *comparison, first, second),
                Err(interrupt) => Err(interrupt),
            }
        }
        Expr::Call(function, operand) => match evaluate(alloc, names, rights, touch, operand) {
            Ok(operand) => call(alloc, rights, touch, *function, operand),
            Err(interrupt) => Err(interrupt),
        },
        Expr::Locale => locale(alloc, rights, touch),
    }
}

/// A chain of a first value and of these operands. All of them are evaluated before a fault of
/// joining them counts.
#[cycle(evaluate)]
fn chain<'a, T: Touch>(
    alloc: Global,
    names: &'a Names,
    rights: &Rights,
    touch: &'a T,
    operator: Operator,
    first: Value<'a>,
    rest: &'a [Expr],
) -> Result<Value<'a>, Interrupt>
    requires { HasKeys (access_in rights.now) (T.content touch.now) (T.writes touch.now) }
    ensures { Answers data_of result (then
        (evaluated_all names.now.names (T.content touch.now) (access_in rights.now)
        (terms_of_all rest.now))
        (λ ds. joined_all operator (data_of first.entry) ds)) }
{
    let mut sum = Ok(first);
    for place in 0..rest.len() {
        match evaluate(alloc, names, rights, touch, &rest[place]) {
            Ok(value) => sum = joined_to(alloc, operator, sum, value)?,
            // A call drops the sum: its variants then stand in the proof of that call alone.
            Err(interrupt) => {
                drop(sum);
                return Err(interrupt);
            }
        }
    }
    match sum {
        Ok(value) => Ok(value),
        Err(fault) => Err(Interrupt::Fault(fault)),
    }
}

/// Whether a comparison of a first value with a second operand holds.
#[cycle(evaluate)]
fn against<'a, T: Touch>(
    alloc: Global,
    names: &'a Names,
    rights: &Rights,
    touch: &'a T,
    comparison: Comparison,
    first: Value<'a>,
    second: &'a Expr,
) -> Result<Value<'a>, Interrupt>
    requires { HasKeys (access_in rights.now) (T.content touch.now) (T.writes touch.now) }
    ensures { Answers data_of result (then
        (evaluated names.now.names (T.content touch.now) (access_in rights.now)
        (term_of second.now))
        (λ y. then (compared comparison (data_of first.entry) y) (λ holds. Ok (Flag holds)))) }
{
    match evaluate(alloc, names, rights, touch, second) {
        Ok(second) => comparison_of(comparison, first, second),
        Err(interrupt) => {
            drop(first);
            Err(interrupt)
        }
    }
}

/// Whether a comparison of two values holds, as a value.
fn comparison_of<'a>(
    comparison: Comparison,
    first: Value<'_>,
    second: Value<'_>,
) -> Result<Value<'a>, Interrupt>
    ensures { Answers data_of result
        (then (compared comparison (data_of first.entry) (data_of second.entry))
        (λ holds. Ok (Flag holds))) }
{
    let holds = compared(comparison, &first, &second);
    drop(first);
    drop(second);
    match holds {
        Ok(holds) => Ok(Value::Flag(holds)),
        Err(fault) => Err(Interrupt::Fault(fault)),
    }
}

/// What a chain comes to with one value more. Its fault stays.
fn joined_to<'a>(
    alloc: Global,
    operator: Operator,
    sum: Given<'a>,
    value: Value<'a>,
) -> Result<Given<'a>, AllocError>
    ensures { IfOk result (λ g. given_of g
        ≡ then (given_of sum.entry) (λ x. joined operator x (data_of value.entry))) }
{
    match sum {
        Ok(sum) => {
            let given = joined(alloc, operator, &sum, &value);
            drop(sum);
            drop(value);
            given
        }
        Err(fault) => {
            drop(value);
            Ok(Err(fault))
        }
    }
}

/// The value of a name.
fn named<'a>(alloc: Global, names: &'a Names, name: &TreeText) -> Result<Value<'a>, Interrupt>
    ensures { Answers data_of result
        (or_fault (option_map (λ (b : Binding). b.value) (binding_of names.now.names name.now))
        (Faults.UnknownName name.now)) }
{
    match names.get(name.as_str()) {
        Some(binding) => Ok(Value::lent(binding.value)),
        None => Err(Interrupt::Fault(Fault::UnknownName(name.copy(alloc)?))),
    }
}
