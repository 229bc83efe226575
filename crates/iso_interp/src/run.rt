//! A run of a block, one step at a time: the pieces that are still to be done stand on a stack, and
//! a step does the first.
ghost use Rattle.std.specs.Prelude.{◌≡◌, ◌∷◌, [], true, None, OnOk, IfOk};
ghost use Rattle.iso_model.specs.declared.limits.TheConstants.{BLOCK_STEPS};

mod assertions;
mod changes;
mod control;
mod let_and_assign;
mod name_index;
mod output;

use crate::block::Block;
use crate::expression::evaluate;
use crate::interrupt::Interrupt;
use crate::run::name_index::LOOKS;
use crate::value::{Given, as_count, as_flag, own_text, own_texts};
use iso_model::data::Data;
use iso_model::fault::{Fault, FaultKind, out_of_steps_message};
use iso_model::lines::Lines;
use iso_model::names::Names;
use iso_model::outcome::{Ending, Note};
use iso_model::place::Place;
use iso_model::rights::Rights;
use iso_model::text::Text;
use iso_model::touch::Touch;
use iso_model::tree::{Expr, Stmt};
use std::alloc::{AllocError, Global};

/// An environment with all the steps of a block left.
fn restarted(names: Names) -> Names
    ensures { result ≡ record names { steps = BLOCK_STEPS } }
{
    let printed = names.printed();
    let block = names.block();
    Names::new(names.into_bindings(), printed, block)
}

/// A piece of work, borrowed from the block.
#[derive(Drop)]
enum Pending<'a> {
    /// The rest of a body, after which this number of names is kept.
    Rest(usize, Block<'a>),
    /// The turns that are left of a `repeat`, with its row and its body.
    Turning(u32, u64, Block<'a>),
}

/// Whether something is left to do.
#[derive(Clone, Copy)]
pub enum Progress {
    More,
    Ended,
}

/// What an ended block leaves: its ending, the lines that it printed, and its environment, which
/// has the names that it began with.
#[derive(Drop)]
pub struct BlockEnd {
    pub ending: Ending,
    pub output: Lines,
    pub names: Names,
}

/// A run of a block (JUnit 5, a method of a test's life cycle), one step at a time.
/// After running out of memory it can only be dropped.
pub struct BlockRun<'a> {
    alloc: Global,
    rights: &'a Rights,
    names: Names,
    lines: Lines,
    ending: Ending,
    before: usize,
    looks: u32,
    top: Option<Pending<'a>>,
    below: Vec<Pending<'a>>,
    ghost stacked: { top ≡ None → below.items ≡ [] },
}

impl<'a> Drop for BlockRun<'a> {
    fn drop(self) {
        let BlockRun {
            alloc: _,
            rights: _,
            names: _,
            lines: _,
            ending: _,
            before: _,
            looks: _,
            top: _,
            below: _,
        } = self;
    }
}

impl<'a> BlockRun<'a> {
    ghost use Rattle.std.specs.Prelude.{ℕ, List, take, length, ◌++◌};
    ghost use Rattle.iso_model.specs.Evaluation.{then};
    ghost use Rattle.iso_model.specs.Rights.{access_in};
    ghost use Rattle.iso_model.specs.Statements.{count_value, flag_value, is_well, note, text_value, text_values, value, with_ending, with_names};
    ghost use Rattle.iso_model.specs.Steps.{begin, first_point, followed_by, is_done, leave_done, machine, next_point, point, rest as rest_of, step, step_at, turning};
    ghost use Rattle.iso_model.specs.SyntaxView.{block_of, stmt_of, term_of};
    ghost use Rattle.iso_model.specs.Texts.{fault_message, kind_of, out_of_steps_message};
    ghost use Rattle.iso_model.specs.Touch.{HasKeys};
    ghost use Rattle.iso_model.specs.declared.fault.FaultKind.TheVariants as FaultKinds;
    ghost use Rattle.iso_model.specs.declared.outcome.Ending.TheVariants as Endings;
    ghost use Rattle.iso_interp.specs.Values.{given_of};
    ghost use Rattle.iso_interp.specs.Runs.{SameBlock, SameWork, end_local, failed, faulted, first_piece, local_of, machine_of, names_before, piece_of, pieces_in, pieces_of, point_of_run, progress_of, run_rights, skipped, state_of};
    ghost use Rattle.iso_interp.specs.declared.run.Pending.TheVariants.{Rest, Turning};

    /// A run of a block at its beginning: it has all its steps, whatever were left before. An empty
    /// block has ended.
    #[inline(always)]
    pub fn new(alloc: Global, block: &'a [Stmt], names: Names, rights: &'a Rights) -> BlockRun<'a>
        ensures point { point_of_run result ≡ first_point (block_of block.now) names }
        ensures names { names_before result ≡ length names.names }
        ensures rights { run_rights result ≡ access_in rights.now }
    {
        let before = names.len();
        BlockRun {
            alloc,
            rights,
            names: restarted(names),
            lines: Lines::new(alloc),
            ending: Ending::Well,
            before,
            looks: LOOKS,
            top: BlockRun::first_piece(before, block),
            below: Vec::new(alloc),
        }
    }

    /// The piece that is a whole block, after which this number of names is kept; none of an empty
    /// one.
    #[inline(always)]
    fn first_piece(names: usize, block: &'a [Stmt]) -> Option<Pending<'a>>
        ensures { result ≡ first_piece names (block_of block.now) }
    {
        let block = Block::of(block);
        if block.is_empty() {
            None
        } else {
            Some(Pending::Rest(names, block))
        }
    }

    /// Does the first piece that is left, and tells whether something is left then. A run that has
    /// ended stays as it is.
    pub fn step<T: Touch>(&mut self, touch: &mut T) -> Result<Progress, AllocError>
        requires { HasKeys (run_rights self.old) (T.content touch.old) (T.writes touch.old) }
        ensures step { OnOk result (machine_of self.new (T.content touch.new)
            ≡ step (run_rights self.old) (machine_of self.old (T.content touch.old))) }
        ensures progress { IfOk result (λ p. p ≡ progress_of (pieces_of self.new)) }
        ensures names { names_before self.new ≡ names_before self.old }
        ensures rights { run_rights self.new ≡ run_rights self.old }
        ensures keys { OnOk result (HasKeys (run_rights self.new) (T.content touch.new)
            (T.writes touch.new)) }
        ensures goes_on { T.goes_on touch.old touch.new }
    {
        if !self.is_live() {
            return Ok(self.progress());
        }
        self.advance(touch)?;
        Ok(self.progress())
    }

    /// Whether nothing is left to do.
    pub fn is_ended(&self) -> bool
        ensures { result ≡ is_done (pieces_of self.now) }
    {
        self.top.is_none()
    }

    /// What the block leaves, once it has ended. Takes no memory.
    pub fn finish(self) -> BlockEnd
        requires { is_done (pieces_of self) ≡ true }
        ensures { end_local result ≡ with_names
            (take (names_before self.entry) (local_of self.entry).env.names) (local_of self.entry) }
    {
        let BlockRun {
            alloc: _,
            rights: _,
            names,
            lines,
            ending,
            before,
            looks: _,
            top: _,
            below: _,
        } = self;
        let mut names = names;
        names.keep(before);
        BlockEnd {
            ending,
            output: lines,
            names,
        }
    }

    /// Whether something is left to do.
    fn progress(&self) -> Progress
        ensures { result ≡ progress_of (pieces_of self.now) }
    {
        match &self.top {
            None => Progress::Ended,
            Some(_) => Progress::More,
        }
    }

    /// Whether the block goes on.
    fn is_live(&self) -> bool
        ensures { result ≡ is_well (local_of self.now).ending }
    {
        matches!(&self.ending, Ending::Well)
    }

    /// Leaves the pieces in which nothing is left to do, and all of them once the block has ended.
    #[inline(always)]
    fn reach_next_point(&mut self)
        ensures settled { point_of_run self.new
            ≡ next_point (pieces_of self.old) (local_of self.old) }
        ensures block { SameBlock self.old self.new }
    {
        if self.is_live() {
            self.leave_done();
        } else {
            self.top = None;
            self.below.clear();
        }
    }

    /// Leaves the pieces at the front in which nothing is left to do.
    #[inline(always)]
    fn leave_done(&mut self)
        ensures left { point_of_run self.new ≡ leave_done (pieces_of self.old) (local_of self.old) }
        ensures block { SameBlock self.old self.new }
    {
        loop {
            match &self.top {
                None => return,
                Some(Pending::Rest(names, statements)) => {
                    if !statements.is_empty() {
                        return;
                    }
                    let names = *names;
                    self.keep_names(names);
                }
                Some(Pending::Turning(_, turns, _)) => {
                    if *turns > 0 {
                        return;
                    }
                }
            }
            self.top = self.below.pop();
        }
    }

    /// Drops the names past the first `count`.
    #[inline(always)]
    fn keep_names(&mut self, count: usize)
        ensures names { local_of self.new
            ≡ with_names (take count (local_of self.old).env.names) (local_of self.old) }
        ensures work { SameWork self.old self.new }
    {
        if count < self.names.len() {
            self.drop_names(count);
        }
    }

    /// Drops names. Few steps do, so this stays out of what each step does.
    #[inline(never)]
    fn drop_names(&mut self, count: usize)
        ensures names { local_of self.new
            ≡ with_names (take count (local_of self.old).env.names) (local_of self.old) }
        ensures work { SameWork self.old self.new }
    {
        self.names.keep(count);
    }

    /// Puts a piece before the others.
    fn push(&mut self, piece: Pending<'a>) -> Result<(), AllocError>
        ensures pieces { OnOk result (pieces_of self.new ≡ piece_of piece.entry
            ∷ pieces_of self.old) }
        ensures local { local_of self.new ≡ local_of self.old }
        ensures block { SameBlock self.old self.new }
    {
        if let Some(top) = self.top.replace(piece) {
            self.below.push(top)?;
        }
        Ok(())
    }

    /// Does the first piece that is left, in a block that goes on.
    fn advance<T: Touch>(&mut self, touch: &mut T) -> Result<(), AllocError>
        requires { HasKeys (run_rights self.old) (T.content touch.old) (T.writes touch.old) }
        ensures done { OnOk result (machine_of self.new (T.content touch.new)
            ≡ step_at (run_rights self.old) (pieces_of self.old) (local_of self.old).env.steps
            (state_of self.old (T.content touch.old))) }
        ensures block { SameBlock self.old self.new }
        ensures goes_on { T.goes_on touch.old touch.new }
    {
        match &self.top {
            None => Ok(()),
            Some(Pending::Rest(names, statements)) => {
                let names = *names;
                match statements.split_first() {
                    None => Ok(()),
                    Some((first, rest)) => self.first_of(touch, names, first, rest),
                }
            }
            Some(Pending::Turning(row, turns, body)) => {
                let (row, turns, body) = (*row, *turns, body.again());
                self.turn_of(row, turns, body)
            }
        }
    }

    /// Ends the block, since no step is left.
    fn run_out(&mut self, row: u32) -> Result<(), AllocError>
        ensures out { OnOk result (point_of_run self.new
            ≡ point [] (with_ending (Endings.Fault FaultKinds.OutOfSteps
            (note out_of_steps_message row (local_of self.old))) (local_of self.old))) }
        ensures block { SameBlock self.old self.new }
    {
        let message = out_of_steps_message(self.alloc)?;
        let note = self.note(message, row);
        self.end(Ending::Fault(FaultKind::OutOfSteps, note));
        self.top = None;
        self.below.clear();
        Ok(())
    }

    /// Ends the block by a fault.
    fn fault(&mut self, row: u32, fault: Fault) -> Result<(), AllocError>
        ensures ended { OnOk result (local_of self.new ≡ faulted row fault (local_of self.old)) }
        ensures work { SameWork self.old self.new }
    {
        let kind = fault.kind();
        let message = fault.message(self.alloc);
        drop(fault);
        let note = self.note(message?, row);
        self.end(Ending::Fault(kind, note));
        Ok(())
    }

    /// Ends the block by a fail.
    fn fail(&mut self, row: u32, message: Text)
        ensures ended { local_of self.new ≡ failed row message (local_of self.old) }
        ensures work { SameWork self.old self.new }
    {
        let note = self.note(message, row);
        self.end(Ending::Fail(note));
    }

    /// Ends the block by a false assumption.
    fn skip(&mut self, row: u32, reason: Text)
        ensures ended { local_of self.new ≡ skipped row reason (local_of self.old) }
        ensures work { SameWork self.old self.new }
    {
        let note = self.note(reason, row);
        self.end(Ending::Assumed(note));
    }

    /// Ends the block.
    fn end(&mut self, ending: Ending)
        ensures ended { local_of self.new ≡ with_ending ending (local_of self.old) }
        ensures work { SameWork self.old self.new }
    {
        self.ending = ending;
    }

    /// A message, with the row where it arose.
    fn note(&self, message: Text, row: u32) -> Note
        ensures { result ≡ note message row (local_of self.now) }
    {
        Note {
            message,
            place: Place::Row(self.names.block(), row),
        }
    }

    /// The value of an expression.
    fn value<'s, T: Touch>(
        &'s self,
        touch: &'s T,
        expression: &'s Expr,
    ) -> Result<Given<'s>, AllocError>
        requires { HasKeys (run_rights self.now) (T.content touch.now) (T.writes touch.now) }
        ensures { IfOk result (λ g. given_of g ≡ value (run_rights self.now)
            (state_of self.now (T.content touch.now)) (term_of expression.now)) }
    {
        match evaluate(self.alloc, &self.names, self.rights, touch, expression) {
            Ok(value) => Ok(Ok(value)),
            Err(Interrupt::Fault(fault)) => Ok(Err(fault)),
            Err(Interrupt::OutOfMemory) => Err(AllocError),
        }
    }

    /// A text that is the value's own, of an expression that has to be a text.
    fn own_text<T: Touch>(
        &self,
        touch: &T,
        expression: &Expr,
    ) -> Result<Result<Text, Fault>, AllocError>
        requires { HasKeys (run_rights self.now) (T.content touch.now) (T.writes touch.now) }
        ensures { IfOk result (λ g. g ≡ text_value (run_rights self.now)
            (state_of self.now (T.content touch.now)) (term_of expression.now)) }
    {
        match self.own_value(touch, expression)? {
            Ok(value) => Ok(own_text(value)),
            Err(fault) => Ok(Err(fault)),
        }
    }

    /// Texts that are the values' own, of two expressions that have to be texts. Both have values
    /// before one that isn't a text counts.
    fn own_texts<T: Touch>(
        &self,
        touch: &T,
        first: &Expr,
        second: &Expr,
    ) -> Result<Result<(Text, Text), Fault>, AllocError>
        requires { HasKeys (run_rights self.now) (T.content touch.now) (T.writes touch.now) }
        ensures { IfOk result (λ g. g ≡ text_values (run_rights self.now)
            (state_of self.now (T.content touch.now)) (term_of first.now) (term_of second.now)) }
    {
        let first = match self.own_value(touch, first)? {
            Ok(value) => value,
            Err(fault) => return Ok(Err(fault)),
        };
        match self.own_value(touch, second)? {
            Ok(second) => Ok(own_texts(first, second)),
            Err(fault) => Ok(Err(fault)),
        }
    }

    /// The value of an expression, with a text of its own.
    fn own_value<T: Touch>(
        &self,
        touch: &T,
        expression: &Expr,
    ) -> Result<Result<Data, Fault>, AllocError>
        requires { HasKeys (run_rights self.now) (T.content touch.now) (T.writes touch.now) }
        ensures { IfOk result (λ g. g ≡ value (run_rights self.now)
            (state_of self.now (T.content touch.now)) (term_of expression.now)) }
    {
        match self.value(touch, expression)? {
            Ok(value) => Ok(Ok(value.into_data(self.alloc)?)),
            Err(fault) => Ok(Err(fault)),
        }
    }

    /// The value of an expression that has to be a truth value.
    fn flag<T: Touch>(
        &self,
        touch: &T,
        expression: &Expr,
    ) -> Result<Result<bool, Fault>, AllocError>
        requires { HasKeys (run_rights self.now) (T.content touch.now) (T.writes touch.now) }
        ensures { IfOk result (λ g. g ≡ flag_value (run_rights self.now)
            (state_of self.now (T.content touch.now)) (term_of expression.now)) }
    {
        match self.value(touch, expression)? {
            Ok(value) => Ok(as_flag(value)),
            Err(fault) => Ok(Err(fault)),
        }
    }

    /// The value of an expression that has to be a count.
    fn count<T: Touch>(
        &self,
        touch: &T,
        expression: &Expr,
    ) -> Result<Result<u64, Fault>, AllocError>
        requires { HasKeys (run_rights self.now) (T.content touch.now) (T.writes touch.now) }
        ensures { IfOk result (λ g. g ≡ count_value (run_rights self.now)
            (state_of self.now (T.content touch.now)) (term_of expression.now)) }
    {
        match self.value(touch, expression)? {
            Ok(value) => Ok(as_count(value)),
            Err(fault) => Ok(Err(fault)),
        }
    }
}
