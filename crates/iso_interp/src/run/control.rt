//! What a step does first: statements, turns, and the bodies that they choose.
ghost use Rattle.std.specs.Prelude.{◌≡◌, ◌∷◌, ℕ, Some, None, length, OnOk};
ghost use Rattle.iso_model.specs.Resources.{Resources};
ghost use Rattle.iso_model.specs.Rights.{Rights};
ghost use Rattle.iso_model.specs.Steps.{begin, followed_by, machine, machine_at, next_point, point, rest as rest_of, step_at, turning};
ghost use Rattle.iso_model.specs.Syntax.{act, choice, repeat};
ghost use Rattle.iso_model.specs.SyntaxView.{stmt_of, term_of};
ghost use Rattle.iso_model.specs.Touch.{HasKeys};
ghost use Rattle.iso_interp.specs.Runs.{Begins, SameBlock, local_of, machine_of, pieces_in, pieces_of, point_of_run, run_rights, state_of};
ghost use Rattle.iso_interp.specs.declared.run.Pending.TheVariants.{Rest, Turning};

use crate::block::Block;
use crate::run::{BlockRun, Pending};
use iso_model::touch::Touch;
use iso_model::tree::{Expr, Form, Stmt};
use std::alloc::AllocError;

impl<'a> BlockRun<'a> {
    /// Does the first statement of a body, and leaves the rest of it.
    pub(super) fn first_of<T: Touch>(
        &mut self,
        touch: &mut T,
        names: usize,
        first: &'a Stmt,
        rest: Block<'a>,
    ) -> Result<(), AllocError>
        requires top { self.old.top ≡ Some
            (Rest names (act (stmt_of first.now).0 (stmt_of first.now).1 rest)) }
        requires keys { HasKeys (run_rights self.old) (T.content touch.old) (T.writes touch.old) }
        ensures done { OnOk result (machine_of self.new (T.content touch.new)
            ≡ step_at (run_rights self.old) (pieces_of self.old) (local_of self.old).env.steps
            (state_of self.old (T.content touch.old))) }
        ensures block { SameBlock self.old self.new }
        ensures goes_on { T.goes_on touch.old touch.new }
    {
        if !self.names.take_step() {
            return self.run_out(first.row);
        }
        self.statement(touch, names, first, rest)
    }

    /// Does a statement whose step is taken, and puts the rest of its body behind it.
    fn statement<T: Touch>(
        &mut self,
        touch: &mut T,
        names: usize,
        first: &'a Stmt,
        rest: Block<'a>,
    ) -> Result<(), AllocError>
        requires { HasKeys (run_rights self.old) (T.content touch.old) (T.writes touch.old) }
        ensures done { OnOk result
            (let s = stmt_of first.now in
            machine_of self.new (T.content touch.new) ≡ followed_by
            (begin (run_rights self.old) s.0 s.1 (state_of self.old (T.content touch.old)))
            (rest_of names rest.entry ∷ pieces_in None self.old.below.items)) }
        ensures block { SameBlock self.old self.new }
        ensures goes_on { T.goes_on touch.old touch.new }
    {
        self.count_looks(first)?;
        self.top = Some(Pending::Rest(names, rest));
        self.begin(touch, first)?;
        self.reach_next_point();
        Ok(())
    }

    /// Does what a statement does in its step, and puts its pieces before the rest.
    fn begin<T: Touch>(&mut self, touch: &mut T, statement: &'a Stmt) -> Result<(), AllocError>
        requires { HasKeys (run_rights self.old) (T.content touch.old) (T.writes touch.old) }
        ensures begun { let s = stmt_of statement.now in
            Begins self.old self.new (T.content touch.old) (T.content touch.new) s.0 s.1 result }
        ensures block { SameBlock self.old self.new }
        ensures goes_on { T.goes_on touch.old touch.new }
    {
        let row = statement.row;
        match &statement.form {
            Form::Let(name, value) => self.let_name(touch, row, name, value),
            Form::Assign(name, value) => self.assign(touch, row, name, value),
            Form::One(what, operand) => self.perform_one(touch, row, *what, operand),
            Form::Two(what, first, second) => self.perform_two(touch, row, *what, first, second),
            Form::Assume(condition, reason) => self.assume(touch, row, condition, reason),
            Form::Fail(message) => self.fail_with(row, message),
            Form::If(condition, body) => {
                self.choose(touch, row, condition, Block::of(body), Block::of(&[]))
            }
            Form::IfElse(condition, bodies) => {
                let (first, second) = (Block::of(&bodies.first), Block::of(&bodies.second));
                self.choose(touch, row, condition, first, second)
            }
            Form::Repeat(count, body) => self.repeat(touch, row, count, Block::of(body)),
        }
    }

    /// `if CONDITION { .. } else { .. }`: puts the chosen body before the rest.
    fn choose<T: Touch>(
        &mut self,
        touch: &T,
        row: u32,
        condition: &Expr,
        first: Block<'a>,
        second: Block<'a>,
    ) -> Result<(), AllocError>
        requires { HasKeys (run_rights self.old) (T.content touch.now) (T.writes touch.now) }
        ensures begun { Begins self.old self.new (T.content touch.now) (T.content touch.now) row
            (choice (term_of condition.now) first.entry second.entry) result }
        ensures block { SameBlock self.old self.new }
    {
        match self.flag(touch, condition)? {
            Ok(holds) => {
                let names = self.names.len();
                self.push(Pending::Rest(names, if holds { first } else { second }))
            }
            Err(fault) => self.fault(row, fault),
        }
    }

    /// `repeat COUNT { .. }`: puts the turns before the rest.
    fn repeat<T: Touch>(
        &mut self,
        touch: &T,
        row: u32,
        count: &Expr,
        body: Block<'a>,
    ) -> Result<(), AllocError>
        requires { HasKeys (run_rights self.old) (T.content touch.now) (T.writes touch.now) }
        ensures begun { Begins self.old self.new (T.content touch.now) (T.content touch.now) row
            (repeat (term_of count.now) body.entry) result }
        ensures block { SameBlock self.old self.new }
    {
        match self.count(touch, count)? {
            Ok(turns) => self.push(Pending::Turning(row, turns, body)),
            Err(fault) => self.fault(row, fault),
        }
    }

    /// Does the first turn that is left of a `repeat`.
    #[inline(always)]
    pub(super) fn turn_of(
        &mut self,
        row: u32,
        turns: u64,
        body: Block<'a>,
    ) -> Result<(), AllocError>
        requires top { self.old.top ≡ Some (Turning row turns body) }
        ensures done { OnOk result ((r : Rights) (m : Resources) → machine_of self.new m
            ≡ step_at r (pieces_of self.old) (local_of self.old).env.steps (state_of self.old m)) }
        ensures block { SameBlock self.old self.new }
    {
        if turns == 0 {
            return Ok(());
        }
        if !self.names.take_step() {
            return self.run_out(row);
        }
        self.turn(row, turns - 1, body)
    }

    /// Does a turn whose step is taken: its body, and behind it the turns that are left.
    #[inline(always)]
    fn turn(&mut self, row: u32, left: u64, body: Block<'a>) -> Result<(), AllocError>
        ensures done { OnOk result (point_of_run self.new ≡ next_point
            (rest_of (length self.old.names.names) body.entry ∷ turning row left body.entry
            ∷ pieces_in None self.old.below.items)
            (local_of self.old)) }
        ensures block { SameBlock self.old self.new }
    {
        self.below.push(Pending::Turning(row, left, body.again()))?;
        self.top = Some(Pending::Rest(self.names.len(), body));
        self.reach_next_point();
        Ok(())
    }
}
