//! Classes: what is read, also of changed bytes, and the largest.
use crate::script::made::check_script;
use crate::script::marks::is_marked;
use crate::shared::{add, check_changes, check_fronts, made};
use iso_model::access::Access;
use iso_model::data::Data;
use iso_model::heads::{ClassHead, Target, Variable};
use iso_model::script::{Class, Member, Mode, Script, Test};
use iso_script::fault::ScriptError;
use iso_script::reader::read_script;
use std::alloc::{AllocError, Global};

/// Two classes, one in the other, with all that a class can have.
const CART: &str = "team shop
read \"a\" isolated write \"b\" same_thread read \"a\"
class Cart \"The cart\" {
  field count = -3;
  static price = 7;
  field size = 4;
  static name = \"pen\";
  after_each { }
  before_all { print 1; print 2; }
  class Full {
    field other = true;
    concurrent write \"c\" test total \"A total\" { print 1 - 2 - 3; }
  }
  test last { }
}
";

/// Whether this variable has this name and starts with this number.
fn is_number(variable: Option<&Variable>, name: &str, number: i64) -> bool {
    match variable {
        Some(
            Variable {
                name: found,
                value: Data::Whole(whole),
            },
        ) => found.as_str() == name && *whole == number,
        _ => false,
    }
}

/// Whether a head is that of `Cart`.
fn is_head_of_cart(head: &ClassHead) -> bool {
    let contents = &head.contents;
    is_marked(
        head.marks.as_slice(),
        &[
            (Access::Read, Target::Itself, "a"),
            (Access::Write, Target::Itself, "b"),
            (Access::Read, Target::Itself, "a"),
        ],
    ) && contents.disabled.is_none()
        && (contents.statics.len(), contents.fields.len()) == (2, 2)
        && is_number(contents.statics.get(0), "price", 7)
        && is_number(contents.fields.get(0), "count", -3)
        && is_number(contents.fields.get(1), "size", 4)
        && (contents.before_all.len(), contents.after_each.len()) == (2, 0)
}

/// Whether a class is `Cart`, its members aside.
fn is_cart(class: &Class) -> bool {
    class.name.as_str() == "Cart"
        && matches!(&class.display, Some(text) if text.as_str() == "The cart")
        && class.isolated
        && class.mode == Some(Mode::SameThread)
        && is_head_of_cart(&class.head)
}

/// The one member of `Full`, where this is that class.
fn member_of_full(class: &Class) -> Option<&Member> {
    let is_full = class.name.as_str() == "Full"
        && class.display.is_none()
        && class.mode.is_none()
        && !class.isolated
        && class.members.len() == 1;
    if is_full { class.members.get(0) } else { None }
}

/// Whether a test is that of `Full`.
fn is_total(test: &Test) -> bool {
    test.name.as_str() == "total"
        && test.mode == Some(Mode::Concurrent)
        && (test.head.marks.len(), test.head.contents.body.len()) == (1, 1)
}

/// Whether the first member of `Cart` is `Full`, with its test.
fn has_full(cart: &Class) -> bool {
    match cart.members.get(0) {
        Some(Member::Class(full)) =>
            matches!(member_of_full(full), Some(Member::Test(total)) if is_total(total)),
        _ => false,
    }
}

/// Whether a script has the class `Cart`, with its members.
fn has_cart(script: &Script) -> bool {
    match script.classes.get(0) {
        Some(cart) => is_cart(cart) && cart.members.len() == 2 && has_full(cart),
        None => false,
    }
}

#[test]
fn whole_class_is_read(rt: HostRuntime) -> Result<(), ScriptError> {
    check_script(&rt, rt.alloc(), CART.as_bytes(), has_cart)
}

/// Two nested classes with lifecycle blocks, marks and a chain, in few bytes.
const SHORT: &str = "team t
isolated class A \"a\" { static x = -1; before_all { x = 2; }
class B { after_each { } read \"k\" test c { print x - 2 - 3; } } }";

/// Whether bytes are read or have a fault.
fn is_answered(alloc: Global, bytes: &[u8]) -> bool {
    !matches!(read_script(alloc, bytes), Err(ScriptError::OutOfMemory))
}

/// A prefix and a change of one byte are read or have a fault.
#[test]
fn prefixes_and_changed_bytes_have_an_answer(rt: HostRuntime) -> Result<(), AllocError> {
    let bytes = SHORT.as_bytes();
    assert!(rt; read_script(rt.alloc(), bytes).is_ok());
    check_fronts(&rt, rt.alloc(), bytes, is_answered);
    check_changes(&rt, rt.alloc(), bytes, is_answered)
}

/// Whether a script has three classes.
fn has_three_classes(script: &Script) -> bool {
    script.classes.len() == 3
}

/// A name is taken in the classes under its own, and in no other.
#[test]
fn names_are_free_again(rt: HostRuntime) -> Result<(), ScriptError> {
    let text = "team shop
class C { class D { static x = 1; test t { } } class E { field x = 2; test x { } } }
class F { static x = 3; test x { } }
class F { static x = 4; test x { } }
";
    check_script(&rt, rt.alloc(), text.as_bytes(), has_three_classes)
}

/// Adds numbers from 0 on, each between two pieces.
fn add_numbered(
    alloc: Global,
    script: &mut String,
    before: &str,
    count: u32,
    after: &str,
) -> Result<(), AllocError> {
    for number in 0..count {
        script.push_str(format!(in alloc; "{before}{number}{after}")?.as_str())?;
    }
    Ok(())
}

/// As many members as a plan can have, and as many statics, fields and marks as a script has room
/// for.
fn full_script(alloc: Global) -> Result<String, AllocError> {
    let mut script = made(
        alloc,
        &[
            ("team shop ", 1),
            ("read \"k\" ", 38_000),
            ("class C { ", 1),
        ],
    )?;
    add_numbered(alloc, &mut script, "static s", 17_000, " = 1; ")?;
    add_numbered(alloc, &mut script, "field f", 17_000, " = 1; ")?;
    add_numbered(alloc, &mut script, "test t", 4094, " { } ")?;
    add(&mut script, &[("}", 1)])?;
    Ok(script)
}

/// How many marks, statics, fields and members a class has.
fn sizes(class: &Class) -> (usize, usize, usize, usize) {
    let head = &class.head;
    (
        head.marks.len(),
        head.contents.statics.len(),
        head.contents.fields.len(),
        class.members.len(),
    )
}

/// Whether the first class of a script is full.
fn is_full(script: &Script) -> bool {
    matches!(script.classes.get(0), Some(class) if sizes(class) == (38_000, 17_000, 17_000, 4094))
}

#[test]
fn full_classes_are_read(rt: HostRuntime) -> Result<(), ScriptError> {
    let script = full_script(rt.alloc())?;
    assert!(rt; script.len() <= 1_048_576 && script.len() > 1_000_000);
    check_script(&rt, rt.alloc(), script.as_bytes(), is_full)
}

/// Whether a script has four thousand classes.
fn has_four_thousand_classes(script: &Script) -> bool {
    script.classes.len() == 4000
}

#[test]
fn four_thousand_classes_are_read(rt: HostRuntime) -> Result<(), ScriptError> {
    let mut script = made(rt.alloc(), &[("team shop", 1)])?;
    add_numbered(rt.alloc(), &mut script, " class C", 4000, " { test t { } }")?;
    check_script(
        &rt,
        rt.alloc(),
        script.as_bytes(),
        has_four_thousand_classes,
    )
}
