//! What joins and compares values.
ghost use Rattle.std.specs.Prelude.{◌≡◌, ◌++◌, Some, None, cond, IfOk};
ghost use Rattle.iso_model.specs.Evaluation.{compared, is_equal, is_less, is_short, joined};
ghost use Rattle.iso_model.specs.declared.data.Data.TheVariants as Kinds;
ghost use Rattle.iso_interp.specs.Values.{data_of, given_of};

use crate::value::{Given, TextValue, Value};
use iso_model::fault::Fault;
use iso_model::limits::TEXT_BYTES;
use iso_model::text::Text;
use iso_model::tree::{Comparison, Operator};
use std::alloc::{AllocError, Global};

/// One pair of a chain.
pub fn joined<'a>(
    alloc: Global,
    operator: Operator,
    first: &Value<'_>,
    second: &Value<'_>,
) -> Result<Given<'a>, AllocError>
    ensures { IfOk result (λ g. given_of g
        ≡ joined operator (data_of first.now) (data_of second.now)) }
{
    match (first, second) {
        (Value::Whole(x), Value::Whole(y)) => Ok(combined_numbers(operator, *x, *y)),
        (Value::Text(x), Value::Text(y)) => combined_texts(alloc, operator, x.as_str(), y.as_str()),
        _ => Ok(Err(Fault::WrongKind)),
    }
}

/// What an operator makes of two numbers.
pub fn combined_numbers<'a>(operator: Operator, x: i64, y: i64) -> Given<'a>
    ensures { given_of result ≡ joined operator (Kinds.Whole x) (Kinds.Whole y) }
{
    let number = match operator {
        Operator::Add => x.checked_add(y),
        Operator::Subtract => x.checked_sub(y),
        Operator::Multiply => x.checked_mul(y),
        Operator::Join => return Err(Fault::WrongKind),
    };
    match number {
        Some(number) => Ok(Value::Whole(number)),
        None => Err(Fault::Overflow),
    }
}

/// What an operator makes of two texts.
fn combined_texts<'a>(
    alloc: Global,
    operator: Operator,
    first: &str,
    second: &str,
) -> Result<Given<'a>, AllocError>
    ensures { IfOk result (λ g. given_of g
        ≡ joined operator (Kinds.Text first.now) (Kinds.Text second.now)) }
{
    if !matches!(operator, Operator::Join) {
        return Ok(Err(Fault::WrongKind));
    }
    match joined_text(alloc, first, second)? {
        Some(text) => Ok(Ok(Value::Text(TextValue::Made(text)))),
        None => Ok(Err(Fault::TextTooLong)),
    }
}

/// Two texts as one, or `None` where it would be too long.
pub fn joined_text(alloc: Global, first: &str, second: &str) -> Result<Option<Text>, AllocError>
    ensures { IfOk result (λ o. o ≡ cond (is_short (first.now ++ second.now))
        (Some (first.now ++ second.now)) None) }
{
    let limit = TEXT_BYTES as usize;
    if first.len() > limit || second.len() > limit - first.len() {
        return Ok(None);
    }
    let mut text = String::from_str(alloc, first)?;
    text.push_str(second)?;
    Ok(Some(Text::new(text)))
}

/// Whether a comparison of two values holds.
pub fn compared(
    comparison: Comparison,
    first: &Value<'_>,
    second: &Value<'_>,
) -> Result<bool, Fault>
    ensures { result ≡ compared comparison (data_of first.now) (data_of second.now) }
{
    match comparison {
        Comparison::Equal => is_equal(first, second),
        Comparison::NotEqual => match is_equal(first, second) {
            Ok(holds) => Ok(!holds),
            Err(fault) => Err(fault),
        },
        Comparison::Less => is_less(first, second),
    }
}

/// Whether two values of one kind are equal.
pub fn is_equal(first: &Value<'_>, second: &Value<'_>) -> Result<bool, Fault>
    ensures { result ≡ is_equal (data_of first.now) (data_of second.now) }
{
    match (first, second) {
        (Value::Whole(x), Value::Whole(y)) => Ok(x == y),
        (Value::Flag(x), Value::Flag(y)) => Ok(x == y),
        (Value::Text(x), Value::Text(y)) => Ok(x.as_str() == y.as_str()),
        _ => Err(Fault::WrongKind),
    }
}

/// Whether a number is below another.
fn is_less(first: &Value<'_>, second: &Value<'_>) -> Result<bool, Fault>
    ensures { result ≡ is_less (data_of first.now) (data_of second.now) }
{
    match (first, second) {
        (Value::Whole(x), Value::Whole(y)) => Ok(x < y),
        _ => Err(Fault::WrongKind),
    }
}
