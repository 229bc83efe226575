//! The statement that prints a line.
ghost use Rattle.std.specs.Prelude.{◌≡◌, OnOk};
ghost use Rattle.iso_model.specs.Resources.{Resources};
ghost use Rattle.iso_model.specs.Statements.{prints};
ghost use Rattle.iso_model.specs.Syntax.{print};
ghost use Rattle.iso_model.specs.SyntaxView.{term_of};
ghost use Rattle.iso_model.specs.Touch.{HasKeys};
ghost use Rattle.iso_interp.specs.Runs.{Performs, SameWork, run_rights, state_of};

use crate::run::BlockRun;
use iso_model::fault::Fault;
use iso_model::touch::Touch;
use iso_model::tree::Expr;
use std::alloc::AllocError;

impl<'a> BlockRun<'a> {
    /// `print EXPRESSION;`
    pub(super) fn print<T: Touch>(
        &mut self,
        touch: &T,
        row: u32,
        expression: &Expr,
    ) -> Result<(), AllocError>
        requires { HasKeys (run_rights self.old) (T.content touch.now) (T.writes touch.now) }
        ensures done { Performs self.old self.new (T.content touch.now) (T.content touch.now) row
            (print (term_of expression.now)) result }
        ensures work { SameWork self.old self.new }
    {
        if let Expr::Text(line) = expression {
            // The block lends it, so that it needs no copy.
            return self.write(row, line.as_str());
        }
        match self.value(touch, expression)? {
            Ok(value) => {
                let line = value.text(self.alloc)?.into_text(self.alloc)?;
                self.write(row, line.as_str())
            }
            Err(fault) => self.fault(row, fault),
        }
    }

    /// Prints a line, where it fits into the output.
    fn write(&mut self, row: u32, line: &str) -> Result<(), AllocError>
        ensures done { OnOk result ((m : Resources) → state_of self.new m
            ≡ prints row line.now (state_of self.old m)) }
        ensures work { SameWork self.old self.new }
    {
        if !self.names.count_line(line.len()) {
            return self.fault(row, Fault::OutputFull);
        }
        self.lines.push(line)
    }
}
