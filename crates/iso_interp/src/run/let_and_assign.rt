//! The statements that name and assign values.
ghost use Rattle.std.specs.Prelude.{◌≡◌, Err, IfOk, OnOk};
ghost use Rattle.iso_model.specs.Names.{assigned, assignment};
ghost use Rattle.iso_model.specs.Resources.{Resources};
ghost use Rattle.iso_model.specs.Statements.{declares, locally, upon, value, with_names};
ghost use Rattle.iso_model.specs.Syntax.{assign, let_name};
ghost use Rattle.iso_model.specs.SyntaxView.{term_of};
ghost use Rattle.iso_model.specs.Touch.{HasKeys};
ghost use Rattle.iso_interp.specs.Runs.{Performs, SameWork, run_rights, state_of};

use crate::expression::{chain_at_once, worked_out};
use crate::interrupt::Interrupt;
use crate::run::BlockRun;
use iso_model::data::Data;
use iso_model::fault::Fault;
use iso_model::names::AssignFault;
use iso_model::touch::Touch;
use iso_model::tree::Expr;
use iso_model::tree_text::TreeText;
use std::alloc::AllocError;

impl<'a> BlockRun<'a> {
    /// `let NAME = EXPRESSION;`
    pub(super) fn let_name<T: Touch>(
        &mut self,
        touch: &T,
        row: u32,
        name: &TreeText,
        expression: &Expr,
    ) -> Result<(), AllocError>
        requires { HasKeys (run_rights self.old) (T.content touch.now) (T.writes touch.now) }
        ensures done { Performs self.old self.new (T.content touch.now) (T.content touch.now) row
            (let_name name.now (term_of expression.now)) result }
        ensures work { SameWork self.old self.new }
    {
        match self.own_value(touch, expression)? {
            Ok(value) => self.declare(row, name, value),
            Err(fault) => self.fault(row, fault),
        }
    }

    /// Adds a local, unless its name is visible already.
    fn declare(&mut self, row: u32, name: &TreeText, value: Data) -> Result<(), AllocError>
        ensures done { OnOk result ((m : Resources) → state_of self.new m
            ≡ declares row name.now value (state_of self.old m)) }
        ensures work { SameWork self.old self.new }
    {
        let name = name.copy(self.alloc)?;
        if self.names.get(name.as_str()).is_some() {
            drop(value);
            return self.fault(row, Fault::DoubleName(name));
        }
        self.names.declare(name, value)
    }

    /// `NAME = EXPRESSION;`
    pub(super) fn assign<T: Touch>(
        &mut self,
        touch: &T,
        row: u32,
        name: &TreeText,
        expression: &Expr,
    ) -> Result<(), AllocError>
        requires { HasKeys (run_rights self.old) (T.content touch.now) (T.writes touch.now) }
        ensures done { Performs self.old self.new (T.content touch.now) (T.content touch.now) row
            (assign name.now (term_of expression.now)) result }
        ensures work { SameWork self.old self.new }
    {
        // Most assign a number: then no value is handed on.
        if let Some(number) = chain_at_once(&self.names, expression) {
            return self.set(row, name, Data::Whole(number));
        }
        match self.other_value(touch, expression)? {
            Ok(value) => self.set_value(row, name, value),
            Err(fault) => self.fault(row, fault),
        }
    }

    /// The value of an expression that is no number at once, with a text of its own. That isn't
    /// asked again.
    fn other_value<T: Touch>(
        &self,
        touch: &T,
        expression: &Expr,
    ) -> Result<Result<Data, Fault>, AllocError>
        requires { HasKeys (run_rights self.now) (T.content touch.now) (T.writes touch.now) }
        ensures { IfOk result (λ g. g ≡ value (run_rights self.now)
            (state_of self.now (T.content touch.now)) (term_of expression.now)) }
    {
        match worked_out(self.alloc, &self.names, self.rights, touch, expression) {
            Ok(value) => Ok(Ok(value.into_data(self.alloc)?)),
            Err(Interrupt::Fault(fault)) => Ok(Err(fault)),
            Err(Interrupt::OutOfMemory) => Err(AllocError),
        }
    }

    /// Sets a name to any value. Most assign a number, so this stays out of what each assignment
    /// does.
    #[inline(never)]
    fn set_value(&mut self, row: u32, name: &TreeText, value: Data) -> Result<(), AllocError>
        ensures done { OnOk result ((m : Resources) → state_of self.new m
            ≡ upon row (assigned self.old.names.names name.now value) (state_of self.old m)
            (λ names. locally (with_names names) (state_of self.old m))) }
        ensures work { SameWork self.old self.new }
    {
        self.set(row, name, value)
    }

    /// Sets a name that is visible and isn't frozen.
    #[inline(always)]
    fn set(&mut self, row: u32, name: &TreeText, value: Data) -> Result<(), AllocError>
        ensures done { OnOk result ((m : Resources) → state_of self.new m
            ≡ upon row (assigned self.old.names.names name.now value) (state_of self.old m)
            (λ names. locally (with_names names) (state_of self.old m))) }
        ensures work { SameWork self.old self.new }
    {
        match self.names.assign(name.as_str(), value)? {
            Ok(()) => Ok(()),
            Err(fault) => self.refuse(row, name, fault),
        }
    }

    /// Ends the block, since a name can't be assigned. Few do, so this stays out of what each
    /// assignment does.
    #[inline(never)]
    fn refuse(&mut self, row: u32, name: &TreeText, fault: AssignFault) -> Result<(), AllocError>
        ensures ended { OnOk result ((m : Resources) → state_of self.new m
            ≡ upon row (assignment (Err fault) name.now self.old.names.names)
            (state_of self.old m)
            (λ names. locally (with_names names) (state_of self.old m))) }
        ensures work { SameWork self.old self.new }
    {
        let name = name.copy(self.alloc)?;
        let fault = match fault {
            AssignFault::UnknownName => Fault::UnknownName(name),
            AssignFault::Frozen => Fault::Frozen(name),
        };
        self.fault(row, fault)
    }
}
