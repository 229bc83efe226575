//! The statements that test values, and the one that fails.
ghost use Rattle.std.specs.Prelude.{◌≡◌, Ok, OnOk, IfOk};
ghost use Rattle.iso_model.specs.Statements.{upon, value};
ghost use Rattle.iso_model.specs.Syntax.{assert, assert_equal, assume};
ghost use Rattle.iso_model.specs.SyntaxView.{term_of};
ghost use Rattle.iso_model.specs.Texts.{difference_message};
ghost use Rattle.iso_model.specs.Touch.{HasKeys};
ghost use Rattle.iso_interp.specs.Runs.{Performs, SameWork, failed, local_of, run_rights, said, state_of};
ghost use Rattle.iso_interp.specs.Values.{data_of, difference};

use crate::operators::is_equal;
use crate::run::BlockRun;
use crate::value::Value;
use iso_model::fault::Fault;
use iso_model::text::Text;
use iso_model::touch::Touch;
use iso_model::tree::Expr;
use iso_model::tree_text::TreeText;
use std::alloc::{AllocError, Global};

impl<'a> BlockRun<'a> {
    /// `assert EXPRESSION;`
    pub(super) fn assert<T: Touch>(
        &mut self,
        touch: &T,
        row: u32,
        expression: &Expr,
    ) -> Result<(), AllocError>
        requires { HasKeys (run_rights self.old) (T.content touch.now) (T.writes touch.now) }
        ensures done { Performs self.old self.new (T.content touch.now) (T.content touch.now) row
            (assert (term_of expression.now)) result }
        ensures work { SameWork self.old self.new }
    {
        match self.flag(touch, expression)? {
            Ok(true) => Ok(()),
            Ok(false) => {
                let message = Text::copied(self.alloc, "assertion failed")?;
                self.fail(row, message);
                Ok(())
            }
            Err(fault) => self.fault(row, fault),
        }
    }

    /// `assert_equal EXPECTED, ACTUAL;`
    pub(super) fn assert_equal<T: Touch>(
        &mut self,
        touch: &T,
        row: u32,
        expected: &Expr,
        actual: &Expr,
    ) -> Result<(), AllocError>
        requires { HasKeys (run_rights self.old) (T.content touch.now) (T.writes touch.now) }
        ensures done { Performs self.old self.new (T.content touch.now) (T.content touch.now) row
            (assert_equal (term_of expected.now) (term_of actual.now)) result }
        ensures work { SameWork self.old self.new }
    {
        self.expect(touch, row, expected, actual)
    }

    /// Fails with the difference of two values, where they have one.
    fn expect<T: Touch>(
        &mut self,
        touch: &T,
        row: u32,
        expected: &Expr,
        actual: &Expr,
    ) -> Result<(), AllocError>
        requires { HasKeys (run_rights self.old) (T.content touch.now) (T.writes touch.now) }
        ensures done { OnOk result (state_of self.new (T.content touch.now) ≡ upon row
            (difference
            (value (run_rights self.old) (state_of self.old (T.content touch.now))
            (term_of expected.now))
            (value (run_rights self.old) (state_of self.old (T.content touch.now))
            (term_of actual.now)))
            (state_of self.old (T.content touch.now))
            (said row (state_of self.old (T.content touch.now)))) }
        ensures work { SameWork self.old self.new }
    {
        match self.difference(touch, expected, actual)? {
            Ok(None) => Ok(()),
            Ok(Some(message)) => {
                self.fail(row, message);
                Ok(())
            }
            Err(fault) => self.fault(row, fault),
        }
    }

    /// What an `assert_equal` says, where the values differ.
    fn difference<T: Touch>(
        &self,
        touch: &T,
        expected: &Expr,
        actual: &Expr,
    ) -> Result<Result<Option<Text>, Fault>, AllocError>
        requires { HasKeys (run_rights self.now) (T.content touch.now) (T.writes touch.now) }
        ensures { IfOk result (λ g. g ≡ difference
            (value (run_rights self.now) (state_of self.now (T.content touch.now))
            (term_of expected.now))
            (value (run_rights self.now) (state_of self.now (T.content touch.now))
            (term_of actual.now))) }
    {
        let expected = match self.value(touch, expected)? {
            Ok(value) => value,
            Err(fault) => return Ok(Err(fault)),
        };
        let actual = match self.value(touch, actual)? {
            Ok(value) => value,
            Err(fault) => return Ok(Err(fault)),
        };
        let difference = difference_of(self.alloc, &expected, &actual);
        drop(expected);
        drop(actual);
        difference
    }

    /// `assume EXPRESSION, REASON;`
    pub(super) fn assume<T: Touch>(
        &mut self,
        touch: &T,
        row: u32,
        expression: &Expr,
        reason: &TreeText,
    ) -> Result<(), AllocError>
        requires { HasKeys (run_rights self.old) (T.content touch.now) (T.writes touch.now) }
        ensures done { Performs self.old self.new (T.content touch.now) (T.content touch.now) row
            (assume (term_of expression.now) reason.now) result }
        ensures work { SameWork self.old self.new }
    {
        match self.flag(touch, expression)? {
            Ok(true) => Ok(()),
            Ok(false) => {
                let reason = reason.copy(self.alloc)?;
                self.skip(row, reason);
                Ok(())
            }
            Err(fault) => self.fault(row, fault),
        }
    }

    /// `fail MESSAGE;`
    pub(super) fn fail_with(&mut self, row: u32, message: &TreeText) -> Result<(), AllocError>
        ensures done { OnOk result (local_of self.new
            ≡ failed row message.now (local_of self.old)) }
        ensures work { SameWork self.old self.new }
    {
        let message = message.copy(self.alloc)?;
        self.fail(row, message);
        Ok(())
    }
}

/// What an `assert_equal` says of two values, where they differ.
fn difference_of(
    alloc: Global,
    expected: &Value<'_>,
    actual: &Value<'_>,
) -> Result<Result<Option<Text>, Fault>, AllocError>
    ensures { IfOk result (λ g. g ≡ difference (Ok (data_of expected.now))
        (Ok (data_of actual.now))) }
{
    match is_equal(expected, actual) {
        Ok(true) => Ok(Ok(None)),
        Ok(false) => Ok(Ok(Some(difference_message(alloc, expected, actual)?))),
        Err(fault) => Ok(Err(fault)),
    }
}

/// What an `assert_equal` says of two values that differ.
fn difference_message(
    alloc: Global,
    expected: &Value<'_>,
    actual: &Value<'_>,
) -> Result<Text, AllocError>
    ensures { IfOk result (λ t. t ≡ difference_message (data_of expected.now)
        (data_of actual.now)) }
{
    let expected = expected.shown(alloc)?;
    let actual = actual.shown(alloc)?;
    let (expected, actual) = (expected.as_str(), actual.as_str());
    Ok(Text::new(format!(in alloc; "expected: <{expected}> but was: <{actual}>")?))
}
