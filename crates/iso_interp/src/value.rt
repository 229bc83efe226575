//! Values while an expression is evaluated. A text that stands somewhere already is borrowed.
ghost use Rattle.std.specs.Prelude.{◌≡◌, IfOk, pos, length};
ghost use Rattle.iso_model.specs.Evaluation.{as_count, as_flag, as_text, as_texts};
ghost use Rattle.iso_model.specs.Texts.{text_of};
ghost use Rattle.iso_interp.specs.Values.{bytes_of, data_of, text_given};

use iso_model::data::Data;
use iso_model::fault::Fault;
use iso_model::text::Text;
use std::alloc::{AllocError, Global};

/// A text, where it stands.
#[derive(Drop)]
pub enum TextValue<'a> {
    /// Lent by the tree, by the value of a name or by a resource.
    Lent(&'a str),
    /// Made by the evaluation.
    Made(Text),
}

/// A value of the test language, with a text where it stands.
#[derive(Drop)]
pub enum Value<'a> {
    Whole(i64),
    Flag(bool),
    Text(TextValue<'a>),
}

/// A value, or the fault that ends the block.
pub type Given<'a> = Result<Value<'a>, Fault>;

impl<'a> TextValue<'a> {
    /// Its bytes, as a `str`.
    pub fn as_str(&self) -> &str
        ensures { result.now ≡ bytes_of self.now }
    {
        match self {
            TextValue::Lent(text) => text,
            TextValue::Made(text) => text.as_str(),
        }
    }

    /// The text itself: copied, unless it was made.
    pub fn into_text(self, alloc: Global) -> Result<Text, AllocError>
        ensures { IfOk result (λ t. t ≡ bytes_of self.entry) }
    {
        match self {
            TextValue::Lent(text) => Text::copied(alloc, text),
            TextValue::Made(text) => Ok(text),
        }
    }
}

impl<'a> Value<'a> {
    /// A value that stands somewhere.
    pub fn lent(value: &'a Data) -> Value<'a>
        ensures { data_of result ≡ value.now }
    {
        match value {
            Data::Whole(number) => Value::Whole(*number),
            Data::Flag(holds) => Value::Flag(*holds),
            Data::Text(text) => Value::Text(TextValue::Lent(text.as_str())),
        }
    }

    /// The value itself: a text is copied, unless it was made.
    pub fn into_data(self, alloc: Global) -> Result<Data, AllocError>
        ensures { IfOk result (λ d. d ≡ data_of self.entry) }
    {
        match self {
            Value::Whole(number) => Ok(Data::Whole(number)),
            Value::Flag(holds) => Ok(Data::Flag(holds)),
            Value::Text(text) => Ok(Data::Text(text.into_text(alloc)?)),
        }
    }

    /// What `text` gives of it, lent where it is a text already.
    pub fn shown(&self, alloc: Global) -> Result<TextValue<'_>, AllocError>
        ensures { IfOk result (λ t. bytes_of t ≡ text_of (data_of self.now)) }
    {
        match self {
            Value::Whole(number) => Ok(TextValue::Made(Text::new(number.to_string(alloc)?))),
            Value::Flag(true) => Ok(TextValue::Lent("true")),
            Value::Flag(false) => Ok(TextValue::Lent("false")),
            Value::Text(text) => Ok(TextValue::Lent(text.as_str())),
        }
    }

    /// What `text` gives of it.
    pub fn text(self, alloc: Global) -> Result<TextValue<'a>, AllocError>
        ensures { IfOk result (λ t. bytes_of t ≡ text_of (data_of self.entry)) }
    {
        match self {
            Value::Whole(number) => Ok(TextValue::Made(Text::new(number.to_string(alloc)?))),
            Value::Flag(true) => Ok(TextValue::Lent("true")),
            Value::Flag(false) => Ok(TextValue::Lent("false")),
            Value::Text(text) => Ok(text),
        }
    }
}

/// The text in a value.
pub fn as_text<'v>(value: &'v Value<'_>) -> Result<&'v str, Fault>
    ensures { text_given result ≡ as_text (data_of value.now) }
{
    match value {
        Value::Text(text) => Ok(text.as_str()),
        Value::Whole(_) | Value::Flag(_) => Err(Fault::WrongKind),
    }
}

/// The text that is a value's own.
pub fn own_text(value: Data) -> Result<Text, Fault>
    ensures { result ≡ as_text value }
{
    match value {
        Data::Text(text) => Ok(text),
        Data::Whole(_) | Data::Flag(_) => Err(Fault::WrongKind),
    }
}

/// The texts that are two values' own.
pub fn own_texts(first: Data, second: Data) -> Result<(Text, Text), Fault>
    ensures { result ≡ as_texts first second }
{
    match first {
        Data::Text(first) => Ok((first, own_text(second)?)),
        Data::Whole(_) | Data::Flag(_) => Err(Fault::WrongKind),
    }
}

/// The truth value in a value.
pub fn as_flag(value: Value<'_>) -> Result<bool, Fault>
    ensures { result ≡ as_flag (data_of value.entry) }
{
    match value {
        Value::Flag(holds) => Ok(holds),
        Value::Whole(_) | Value::Text(_) => Err(Fault::WrongKind),
    }
}

/// The count in a value.
pub fn as_count(value: Value<'_>) -> Result<u64, Fault>
    ensures { result ≡ as_count (data_of value.entry) }
{
    match value {
        Value::Whole(number) if number >= 0 => Ok(number as u64),
        Value::Whole(_) => Err(Fault::BadCount),
        Value::Flag(_) | Value::Text(_) => Err(Fault::WrongKind),
    }
}

/// The number of bytes of a text.
pub fn length(alloc: Global, text: &str) -> Result<i64, AllocError>
    ensures { IfOk result (λ n. n ≡ pos (length text.now)) }
{
    if text.len() <= i64::MAX as usize {
        return Ok(text.len() as i64);
    }
    // No text is that long: its copy would have no room.
    let copy = String::from_str(alloc, text)?;
    Ok(copy.len() as i64)
}
