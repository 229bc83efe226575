//! What functions give: of a text, of any value, and of the resources that a block may look at.
ghost use Rattle.std.specs.Prelude.{◌≡◌, [], Ok, option_copied};
ghost use Rattle.iso_model.specs.Evaluation.{called, evaluated, looked};
ghost use Rattle.iso_model.specs.ResourceKeys.{spelling};
ghost use Rattle.iso_model.specs.Rights.{access_in};
ghost use Rattle.iso_model.specs.Syntax.{locale};
ghost use Rattle.iso_model.specs.Touch.{HasKeys, answered, kind_of_ask, kind_of_key};
ghost use Rattle.iso_model.specs.declared.data.Data.TheVariants as Kinds;
ghost use Rattle.iso_interp.specs.Values.{Answers, data_of};

use crate::interrupt::Interrupt;
use crate::value::{TextValue, Value, as_text, length};
use iso_model::access::Access;
use iso_model::fault::Fault;
use iso_model::resource::Ask;
use iso_model::resource_key::ResourceKey;
use iso_model::rights::Rights;
use iso_model::text::Text;
use iso_model::touch::Touch;
use iso_model::tree::Function;
use std::alloc::Global;

/// What a function gives of its operand.
pub(crate) fn call<'a, T: Touch>(
    alloc: Global,
    rights: &Rights,
    touch: &'a T,
    function: Function,
    operand: Value<'a>,
) -> Result<Value<'a>, Interrupt>
    requires { HasKeys (access_in rights.now) (T.content touch.now) (T.writes touch.now) }
    ensures { Answers data_of result (called (T.content touch.now) (access_in rights.now) function
        (data_of operand.entry)) }
{
    if let Function::Text = function {
        return Ok(Value::Text(operand.text(alloc)?));
    }
    let given = match as_text(&operand) {
        Ok(text) => call_on_text(alloc, rights, touch, function, text),
        Err(fault) => Err(Interrupt::Fault(fault)),
    };
    drop(operand);
    given
}

/// What a function gives of a text.
fn call_on_text<'a, T: Touch>(
    alloc: Global,
    rights: &Rights,
    touch: &'a T,
    function: Function,
    text: &str,
) -> Result<Value<'a>, Interrupt>
    requires { HasKeys (access_in rights.now) (T.content touch.now) (T.writes touch.now) }
    ensures { Answers data_of result (called (T.content touch.now) (access_in rights.now) function
        (Kinds.Text text.now)) }
{
    match function {
        Function::Text => Ok(Value::Text(TextValue::Made(Text::copied(alloc, text)?))),
        Function::Len => Ok(Value::Whole(length(alloc, text)?)),
        Function::Prop => match looked(
            alloc,
            rights,
            touch,
            ResourceKey::Properties,
            Ask::Prop(text),
        )? {
            Some(found) => Ok(Value::Text(TextValue::Lent(found))),
            None => Err(Interrupt::Fault(Fault::MissingProperty(Text::copied(alloc, text)?))),
        },
        Function::HasProp => {
            let found = looked(
                alloc,
                rights,
                touch,
                ResourceKey::Properties,
                Ask::Prop(text),
            )?;
            Ok(Value::Flag(found.is_some()))
        },
        Function::File => match looked(alloc, rights, touch, ResourceKey::File(text), Ask::File)? {
            Some(found) => Ok(Value::Text(TextValue::Lent(found))),
            None => Err(Interrupt::Fault(Fault::MissingFile(Text::copied(alloc, text)?))),
        },
        Function::HasFile => {
            let found = looked(alloc, rights, touch, ResourceKey::File(text), Ask::File)?;
            Ok(Value::Flag(found.is_some()))
        },
    }
}

/// What is answered to a look at a resource, where the rights let it be looked at.
fn looked<'a, T: Touch>(
    alloc: Global,
    rights: &Rights,
    touch: &'a T,
    key: ResourceKey<'_>,
    ask: Ask<'_>,
) -> Result<Option<&'a str>, Interrupt>
    requires keys { HasKeys (access_in rights.now) (T.content touch.now) (T.writes touch.now) }
    requires kind { kind_of_key (spelling key) ≡ kind_of_ask ask }
    ensures { Answers option_copied result (looked (access_in rights.now) (spelling key.entry)
        (Ok (answered (T.content touch.now (spelling key.entry)) ask.entry))) }
{
    if rights.lets_look(key) {
        return Ok(touch.look(key, ask));
    }
    Err(Interrupt::Fault(Fault::Undeclared(Access::Read, key.key(alloc)?)))
}

/// The locale.
pub(crate) fn locale<'a, T: Touch>(
    alloc: Global,
    rights: &Rights,
    touch: &'a T,
) -> Result<Value<'a>, Interrupt>
    requires { HasKeys (access_in rights.now) (T.content touch.now) (T.writes touch.now) }
    ensures { Answers data_of result
        (evaluated [] (T.content touch.now) (access_in rights.now) locale) }
{
    let found = looked(alloc, rights, touch, ResourceKey::Locale, Ask::Locale)?;
    Ok(Value::Text(TextValue::Lent(found.unwrap_or(""))))
}
