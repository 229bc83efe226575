//! Whole scripts: the tree of one, and its fronts up to the team.
use crate::script::made::check_script;
use iso_model::script::{Class, Member, Script, Test};
use iso_model::tree::{Expr, Form, OneOperand, TwoOperands};
use iso_script::fault::ScriptError;
use iso_script::reader::read_script;
use std::alloc::{AllocError, Global};

/// A class by its place and its name.
fn class<'a>(script: &'a Script, index: usize, name: &str) -> Option<&'a Class> {
    script
        .classes
        .get(index)
        .filter(|class| class.name.as_str() == name)
}

/// Whether a test has this name and `statements` statements.
fn is_named(test: &Test, name: &str, statements: usize) -> bool {
    test.name.as_str() == name && test.head.contents.body.len() == statements
}

/// A test by its place and its name, with `statements` statements.
fn test<'a>(class: &'a Class, index: usize, name: &str, statements: usize) -> Option<&'a Test> {
    match class.members.get(index)? {
        Member::Test(test) if is_named(test, name, statements) => Some(test),
        _ => None,
    }
}

/// What a statement does, where it has this row.
fn statement(test: &Test, index: usize, row: u32) -> Option<&Form> {
    let statement = test.head.contents.body.get(index)?;
    (statement.row == row).then_some(&statement.form)
}

/// The expression that a statement at this row prints.
fn printed(test: &Test, index: usize, row: u32) -> Option<&Expr> {
    match statement(test, index, row)? {
        Form::One(OneOperand::Print, printed) => Some(printed),
        _ => None,
    }
}

fn is_whole(expression: Option<&Expr>, expected: i64) -> bool {
    matches!(expression, Some(Expr::Whole(whole)) if *whole == expected)
}

fn is_text(expression: Option<&Expr>, expected: &str) -> bool {
    matches!(expression, Some(Expr::Text(text)) if text.as_str() == expected)
}

/// Whether a form compares `true` with the least number.
fn compares(form: &Form) -> bool {
    match form {
        Form::Two(TwoOperands::AssertEqual, Expr::Flag(true), Expr::Whole(least)) => *least
            == i64::MIN,
        _ => false,
    }
}

const SHOP: &str = "team shop
class Cart {
  test adds
  {
    print 007; print \"a\\\"b\\\\\";
    // the first token of a statement gives its row
    assert_equal
      true, - 9223372036854775808;
    print
    false; }
  test empty { }
}
class Desk { test adds { print 9223372036854775807; } }
class Desk { test t { print \"\"; } }
";

/// Whether a test is the first of `Cart`.
fn is_adds(test: &Test) -> bool {
    test.display.is_none()
        && test.mode.is_none()
        && test.head.marks.is_empty()
        && is_whole(printed(test, 0, 2), 7)
        && is_text(printed(test, 1, 2), "a\"b\\")
        && matches!(statement(test, 2, 4), Some(form) if compares(form))
        && matches!(printed(test, 3, 6), Some(Expr::Flag(false)))
}

/// Whether a class is `Cart`.
fn is_cart(class: &Class) -> bool {
    class.members.len() == 2
        && class.display.is_none()
        && class.mode.is_none()
        && !class.isolated
        && matches!(test(class, 0, "adds", 4), Some(adds) if is_adds(adds))
        && test(class, 1, "empty", 0).is_some()
}

/// Whether a class is the first `Desk`.
fn is_first_desk(class: &Class) -> bool {
    matches!(test(class, 0, "adds", 1), Some(adds) if is_whole(printed(adds, 0, 1), i64::MAX))
}

/// Whether a class is the second `Desk`.
fn is_second_desk(class: &Class) -> bool {
    matches!(test(class, 0, "t", 1), Some(last) if is_text(printed(last, 0, 1), ""))
}

/// Whether a script is `SHOP`.
fn is_shop(script: &Script) -> bool {
    script.team.as_str() == "shop"
        && script.classes.len() == 3
        && matches!(class(script, 0, "Cart"), Some(cart) if is_cart(cart))
        && matches!(class(script, 1, "Desk"), Some(desk) if is_first_desk(desk))
        && matches!(class(script, 2, "Desk"), Some(desk) if is_second_desk(desk))
}

#[test]
fn reads_classes_tests_and_statements(rt: HostRuntime) -> Result<(), ScriptError> {
    check_script(&rt, rt.alloc(), SHOP.as_bytes(), is_shop)
}

/// How long the name of a script's team is and how many classes it has, where it is read.
fn team_and_classes(alloc: Global, bytes: &[u8]) -> Result<Option<(usize, usize)>, AllocError> {
    match read_script(alloc, bytes) {
        Ok(script) => Ok(Some((script.team.as_str().len(), script.classes.len()))),
        Err(ScriptError::Fault(_)) => Ok(None),
        Err(ScriptError::OutOfMemory) => Err(AllocError),
    }
}

#[test]
fn prefixes_up_to_the_team_are_scripts_without_classes(rt: HostRuntime) -> Result<(), AllocError> {
    let whole = "team shop\nclass Out { test t { print \"t\"; } }\n".as_bytes();
    for length in 0..=45 {
        let expected = match length {
            6..=10 => Some(((length - 5).min(4), 0)),
            45 => Some((4, 1)),
            _ => None,
        };
        assert_eq!(rt;
            team_and_classes(rt.alloc(), &whole[..length])?,
            expected,
            "at {length}"
        );
    }
    Ok(())
}

/// Where a growth is refused, as by `rt try --test --fail-alloc N`, there is no answer but that
/// memory ran out.
#[test]
fn memory_makes_no_fault(rt: HostRuntime) {
    match read_script(rt.alloc(), SHOP.as_bytes()) {
        Ok(script) => assert_eq!(rt; script.classes.len(), 3),
        Err(error) => assert_eq!(rt; error, ScriptError::OutOfMemory),
    }
}
