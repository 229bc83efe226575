//! Statements and expressions: what the tree tells of them.
use crate::script::made::check_script;
use crate::shared::made;
use iso_model::script::{Member, Script};
use iso_model::tree::{Expr, Form, OneOperand, Operator, Stmt};
use iso_script::fault::ScriptError;

/// What stands before a body that begins at line 2, column 20, and after it.
const BEFORE: &str = "team shop\nclass C { test t { ";

const AFTER: &str = " } }";

/// The statements of the first test of the first class.
fn body_of(script: &Script) -> Option<&[Stmt]> {
    match script.classes.get(0)?.members.get(0)? {
        Member::Test(test) => Some(&test.head.contents.body),
        Member::Class(_) => None,
    }
}

/// The first statement of the first test of the first class.
fn first_of(script: &Script) -> Option<&Stmt> {
    body_of(script)?.get(0)
}

/// The rows of the first statement, an `if` with `else`, and of the first statements of its bodies.
fn rows_of_if(script: &Script) -> Option<(u32, u32, u32)> {
    let statement = first_of(script)?;
    match &statement.form {
        Form::IfElse(_, bodies) => {
            Some((
                statement.row,
                bodies.first.get(0)?.row,
                bodies.second.get(0)?.row,
            ))
        }
        _ => None,
    }
}

/// Whether the rows of an `if` and its bodies count from the brace of the test.
fn counts_from_the_test(script: &Script) -> bool {
    rows_of_if(script) == Some((2, 4, 6))
}

/// Rows count from the line of the test's own brace, in the bodies of an `if` too.
#[test]
fn rows_count_from_the_outermost_brace(rt: HostRuntime) -> Result<(), ScriptError> {
    let text = "team shop
class C {
  test t
  {
    if true
    {
      print 1;
    }
    else { print 2; }
  }
}
";
    check_script(&rt, rt.alloc(), text.as_bytes(), counts_from_the_test)
}

/// Whether a form prints a first operand less two others.
fn is_subtraction_of_three(form: &Form) -> bool {
    match form {
        Form::One(OneOperand::Print, Expr::Chain(Operator::Subtract, operands)) => {
            operands.rest.len() == 2
        }
        _ => false,
    }
}

/// Whether the first statement prints a first operand less two others.
fn subtracts_two(script: &Script) -> bool {
    matches!(first_of(script), Some(first) if is_subtraction_of_three(&first.form))
}

/// The operands of a chain stand in one row of the tree, which groups them to the left.
#[test]
fn operands_stay_in_order(rt: HostRuntime) -> Result<(), ScriptError> {
    let script = made(
        rt.alloc(),
        &[(BEFORE, 1), ("print 1 - 2 - 3;", 1), (AFTER, 1)],
    )?;
    check_script(&rt, rt.alloc(), script.as_bytes(), subtracts_two)
}

/// Whether the first test has the most statements.
fn has_the_largest_body(script: &Script) -> bool {
    matches!(body_of(script), Some(body) if body.len() == 131_067)
}

/// A body of 1 MiB, the largest there is.
#[test]
fn the_largest_body_is_read(rt: HostRuntime) -> Result<(), ScriptError> {
    let script = made(
        rt.alloc(),
        &[(BEFORE, 1), ("print 1;", 131_067), (AFTER, 1)],
    )?;
    assert!(rt; script.len() <= 1_048_576 && script.len() + 16 > 1_048_576);
    check_script(&rt, rt.alloc(), script.as_bytes(), has_the_largest_body)
}
