//! A run of a whole body, one step at a time: its blocks, in the order of their jobs.
ghost use Rattle.std.specs.Prelude.{◌≡◌, ◌<◌, ◌∷◌, ◌^◌, [], length, true, false, None, OnOk, OnErr, IfOk};
ghost use Rattle.iso_model.specs.Bodies.{account_after, body_step, disabled_account, ended, fresh_account, going, is_ended, stage_from, stage_unless};
ghost use Rattle.iso_model.specs.Disabled.{disabled_ending};
ghost use Rattle.iso_model.specs.ChainView.{innermost_first};
ghost use Rattle.iso_model.specs.Jobs.{job, test_jobs};
ghost use Rattle.iso_model.specs.Rights.{access_in};
ghost use Rattle.iso_model.specs.ScriptView.{test_head_of};
ghost use Rattle.iso_model.specs.SyntaxView.{block_of};
ghost use Rattle.iso_model.specs.Touch.{HasKeys};
ghost use Rattle.iso_lifecycle.specs.DueBlocks.{HaveRights, HaveRights-prop, jobs_left};

use crate::due_blocks::Rest;
use crate::endings::Endings;
use crate::job::Job;
use iso_interp::block::Block;
use iso_interp::run::{BlockRun, Progress};
use iso_model::bindings::Bindings;
use iso_model::heads::{ClassContents, ClassHead, TestHead};
use iso_model::lines::Lines;
use iso_model::names::Names;
use iso_model::outcome::{Ending, Note};
use iso_model::place::{BlockName, Place};
use iso_model::rights::Rights;
use iso_model::text::Text;
use iso_model::touch::Touch;
use iso_model::tree::Stmt;
use std::alloc::{AllocError, Global};
use std::sync::Arc;

/// What an ended body leaves: the endings of the blocks that were done, in order, and the lines
/// that they printed.
#[derive(Drop)]
pub(crate) struct BodyEnd {
    pub endings: Endings,
    pub output: Lines,
}

/// A run of a body (JUnit 5, test lifecycle), one step at a time. After running out of memory it
/// can only be dropped.
#[derive(Drop)]
pub(crate) struct BodyRun<'a> {
    rest: Rest<'a>,
    block: Option<BlockRun<'a>>,
    ghost same: { HaveRights block rest } by { HaveRights-prop block rest },
}

impl<'a> BodyRun<'a> {
    ghost use Rattle.iso_lifecycle.specs.BodyRuns.{account_in_run, end_account, rights_of, settled_stage, stage_of};

    /// A whole test at its beginning, in these classes: its blocks, or where it is disabled its
    /// end. The names are those that the innermost block sees, the outer classes' first.
    pub(crate) fn of_test(
        alloc: Global,
        classes: &'a [Arc<ClassHead>],
        test: &'a TestHead,
        names: Bindings,
        rights: &'a Rights,
    ) -> Result<Box<BodyRun<'a>>, AllocError>
        requires { length classes.now < 2 ^ 32 }
        ensures stage { IfOk result (λ run. stage_of run.value
            ≡ stage_unless (test_head_of test.now).disabled names
            (test_jobs (test_head_of test.now) (innermost_first classes.now))) }
        ensures rights { IfOk result (λ run. rights_of run.value ≡ access_in rights.now) }
    {
        match &test.contents.disabled {
            Some(reason) => BodyRun::of_disabled(alloc, reason, names, rights),
            None => BodyRun::of_blocks(alloc, classes, test, names, rights),
        }
    }

    /// The `before_all` of a class at its beginning, which sees all these names, or where the class
    /// is disabled its end.
    pub(crate) fn of_opening(
        alloc: Global,
        class: &'a ClassContents,
        words: BlockName,
        names: Bindings,
        rights: &'a Rights,
    ) -> Result<Box<BodyRun<'a>>, AllocError>
        ensures stage { IfOk result (λ run. stage_of run.value
            ≡ stage_unless class.now.disabled names
            (job words (block_of class.now.before_all.items) (length names) false ∷ [])) }
        ensures rights { IfOk result (λ run. rights_of run.value ≡ access_in rights.now) }
    {
        match &class.disabled {
            Some(reason) => BodyRun::of_disabled(alloc, reason, names, rights),
            None => BodyRun::of_block(alloc, &class.before_all, words, names, rights),
        }
    }

    /// A body of a disabled node: it has ended where it begins, as by a false assumption of this
    /// reason.
    fn of_disabled(
        alloc: Global,
        reason: &Text,
        names: Bindings,
        rights: &'a Rights,
    ) -> Result<Box<BodyRun<'a>>, AllocError>
        ensures stage { IfOk result (λ run. stage_of run.value
            ≡ ended (disabled_account reason.now names)) }
        ensures rights { IfOk result (λ run. rights_of run.value ≡ access_in rights.now) }
    {
        let endings = match endings_of_disabled(alloc, reason) {
            Ok(endings) => endings,
            Err(error) => {
                drop(names);
                return Err(error);
            }
        };
        let rest = Rest {
            alloc,
            rights,
            classes: &[],
            test: Block::of(&[]),
            next: None,
            names,
            printed: 0,
            lines: Lines::new(alloc),
            endings,
        };
        let run = Box::new(alloc, BodyRun { rest, block: None })?;
        Ok(run)
    }

    /// The blocks of a test at their beginning: the `before_each` blocks of these classes,
    /// outermost first, its own block, and the `after_each` blocks, innermost first.
    fn of_blocks(
        alloc: Global,
        classes: &'a [Arc<ClassHead>],
        test: &'a TestHead,
        names: Bindings,
        rights: &'a Rights,
    ) -> Result<Box<BodyRun<'a>>, AllocError>
        requires { length classes.now < 2 ^ 32 }
        ensures stage { IfOk result (λ run. stage_of run.value
            ≡ stage_from (test_jobs (test_head_of test.now) (innermost_first classes.now))
            (fresh_account names)) }
        ensures rights { IfOk result (λ run. rights_of run.value ≡ access_in rights.now) }
    {
        let rest = Rest {
            alloc,
            rights,
            classes,
            test: Block::of(&test.contents.body),
            next: Some(Job::first(classes.len())),
            names,
            printed: 0,
            lines: Lines::new(alloc),
            endings: Endings::new(alloc),
        };
        let mut run = Box::new(alloc, BodyRun { rest, block: None })?;
        match run.follow() {
            Ok(()) => Ok(run),
            Err(error) => {
                // A call drops the run: its parts then stand in the proof of that call alone.
                drop(run);
                Err(error)
            }
        }
    }

    /// A body of one block at its beginning, which sees all these names.
    pub(crate) fn of_block(
        alloc: Global,
        block: &'a [Stmt],
        words: BlockName,
        names: Bindings,
        rights: &'a Rights,
    ) -> Result<Box<BodyRun<'a>>, AllocError>
        ensures stage { IfOk result (λ run. stage_of run.value ≡ stage_from
            (job words (block_of block.now) (length names) false ∷ []) (fresh_account names)) }
        ensures rights { IfOk result (λ run. rights_of run.value ≡ access_in rights.now) }
    {
        let first = BlockRun::new(alloc, block, Names::new(names, 0, words), rights);
        let rest = Rest {
            alloc,
            rights,
            classes: &[],
            test: Block::of(block),
            next: None,
            names: Bindings::new(alloc, Vec::new(alloc)),
            printed: 0,
            lines: Lines::new(alloc),
            endings: Endings::new(alloc),
        };
        let mut run = Box::new(
            alloc,
            BodyRun {
                rest,
                block: Some(first),
            },
        )?;
        match run.reach_next_block() {
            Ok(()) => Ok(run),
            Err(error) => {
                drop(run);
                Err(error)
            }
        }
    }

    /// Begins the first block that has something to do, if there is one, where none is under way.
    fn follow(&mut self) -> Result<(), AllocError>
        requires { self.old.block ≡ None }
        ensures stage { OnOk result (stage_of self.new
            ≡ stage_from (jobs_left self.old.rest) (account_in_run self.old)) }
        ensures rights { rights_of self.new ≡ rights_of self.old }
    {
        self.rest.follow(&mut self.block)
    }

    /// Does the first piece that is left; where its block has then ended, the next begins that has
    /// something to do. Tells whether the body has ended then. One that has ended stays as it is,
    /// and one that was out of memory never ends.
    #[inline(always)]
    pub(crate) fn step<T: Touch>(&mut self, touch: &mut T) -> Result<bool, AllocError>
        requires { HasKeys (rights_of self.old) (T.content touch.old) (T.writes touch.old) }
        ensures step { OnOk result (going (stage_of self.new) (T.content touch.new)
            ≡ body_step (rights_of self.old) (going (stage_of self.old) (T.content touch.old))) }
        ensures ended { IfOk result (λ ended. ended ≡ is_ended (stage_of self.new)) }
        ensures stopped { OnErr result (is_ended (stage_of self.new) ≡ false) }
        ensures rights { rights_of self.new ≡ rights_of self.old }
        ensures keys { OnOk result (HasKeys (rights_of self.new) (T.content touch.new)
            (T.writes touch.new)) }
        ensures goes_on { T.goes_on touch.old touch.new }
    {
        let Some(run) = &mut self.block else {
            return Ok(true);
        };
        match run.step(touch)? {
            Progress::More => Ok(false),
            Progress::Ended => {
                self.reach_next_block()?;
                Ok(self.is_ended())
            }
        }
    }

    /// Stops the body where it is, so that it never ends: what it came to is lost.
    pub(crate) fn stop(&mut self)
        ensures stopped { is_ended (stage_of self.new) ≡ false }
        ensures rights { rights_of self.new ≡ rights_of self.old }
    {
        let idle = self.rest.idle();
        drop(self.block.replace(idle));
    }

    /// Its names, while no block is under way.
    pub(crate) fn names(&self) -> &Bindings
        ensures { result.now ≡ (account_in_run self.now).names }
    {
        &self.rest.names
    }

    /// Whether nothing is left to do.
    pub(crate) fn is_ended(&self) -> bool
        ensures { result ≡ is_ended (stage_of self.now) }
    {
        self.block.is_none()
    }

    /// What the body leaves, once it has ended. Takes no memory.
    #[inline(always)]
    pub(crate) fn finish(self) -> BodyEnd
        requires { is_ended (stage_of self) ≡ true }
        ensures { stage_of self.entry ≡ ended (end_account result (account_in_run self.entry)) }
    {
        let BodyRun { rest, block } = self;
        // No block is under way, so the memory of one is neither copied nor looked through.
        let None = block else {
            unreachable!();
        };
        let mut output = rest.lines;
        // What a body came to is kept until the end of the run.
        output.shrink_to_fit();
        drop(rest.names);
        BodyEnd {
            endings: rest.endings,
            output,
        }
    }

    /// Leaves a block of which nothing is left, and begins the next that has something to do.
    fn reach_next_block(&mut self) -> Result<(), AllocError>
        ensures stage { OnOk result (stage_of self.new ≡ settled_stage self.old) }
        ensures stopped { OnErr result (is_ended (stage_of self.new) ≡ false) }
        ensures rights { rights_of self.new ≡ rights_of self.old }
    {
        match self.rest.settle(&mut self.block) {
            Ok(()) => Ok(()),
            Err(error) => {
                self.stop();
                Err(error)
            }
        }
    }
}

/// The endings of a disabled body: one, as by a false assumption of this reason.
fn endings_of_disabled(alloc: Global, reason: &Text) -> Result<Endings, AllocError>
    ensures { IfOk result (λ endings. endings ≡ disabled_ending reason.now ∷ []) }
{
    let note = Note {
        message: reason.copy(alloc)?,
        place: Place::Disabled,
    };
    let mut endings = Endings::new(alloc);
    endings.add(Ending::Assumed(note))?;
    Ok(endings)
}
