//! What the body of a node begins with.
ghost use Rattle.std.specs.Prelude.{◌≡◌, IfOk};
ghost use Rattle.std.specs.List.{All};
ghost use Rattle.iso_model.specs.Openings.{statics_of};
ghost use Rattle.iso_lifecycle.specs.BodyRuns.{rights_of, stage_of};
ghost use Rattle.iso_lifecycle.specs.BodyViews.{IsBeginning};
ghost use Rattle.iso_lifecycle.specs.OriginViews.{AreFrames, kind_of_origin, subject_of_origin};
ghost use Rattle.iso_lifecycle.specs.Origins.{HasRights, outer_names};
ghost use Rattle.iso_lifecycle.specs.Subjects.{IsOfClass, begun, frames_of, opened_before};

use crate::blocks::closing_statements;
use crate::body_run::BodyRun;
use crate::frame::{Frame, are_of_classes};
use crate::kind::BodyKind;
use crate::names::{add_variables, statics_of, test_names};
use crate::opening::LeftFrame;
use crate::origin::Origin;
use iso_model::bindings::Bindings;
use iso_model::heads::ClassContents;
use iso_model::names::Sort;
use iso_model::place::{BlockName, Lifecycle};
use iso_plan::laws;
use std::alloc::{AllocError, Global};

/// What a body begins with: its run, how many of its names are of the enclosing classes, and the
/// frame that an empty `before_all` leaves.
#[derive(Drop)]
pub(crate) struct Beginning<'a> {
    pub(crate) run: Box<BodyRun<'a>>,
    pub(crate) outer: usize,
    pub(crate) frame: Option<LeftFrame>,
}

impl<'a> Origin<'a> {
    /// What a body of its kind begins with.
    pub(crate) fn beginning(
        &self,
        alloc: Global,
        frames: &[Frame],
    ) -> Result<Beginning<'a>, AllocError>
        requires { AreFrames self.now frames.now }
        ensures { IfOk result (IsBeginning self.now) }
    {
        match self.kind {
            BodyKind::BeforeAll => self.opening(alloc, frames),
            BodyKind::Test => self.testing(alloc, frames),
            BodyKind::AfterAll => self.closing(alloc, frames),
        }
    }

    /// The `before_all` of a class.
    fn opening(&self, alloc: Global, frames: &[Frame]) -> Result<Beginning<'a>, AllocError>
        requires kind { kind_of_origin self.now ≡ BodyKind.BeforeAll }
        requires frames { AreFrames self.now frames.now }
        ensures { IfOk result (IsBeginning self.now) }
    {
        let (class, depth) = self.class();
        let mut names = self.statics_before(alloc, frames)?;
        let outer = names.len();
        let contents: &'a ClassContents = &class.contents;
        add_variables(alloc, &mut names, &contents.statics, Sort::Static)?;
        let words = BlockName::Class(depth, Lifecycle::BeforeAll);
        let run = BodyRun::of_opening(alloc, contents, words, names, self.rights())?;
        self.with_frame(alloc, run, outer)
    }

    /// A whole test.
    fn testing(&self, alloc: Global, frames: &[Frame]) -> Result<Beginning<'a>, AllocError>
        requires kind { kind_of_origin self.now ≡ BodyKind.Test }
        requires frames { AreFrames self.now frames.now }
        ensures { IfOk result (IsBeginning self.now) }
    {
        self.frames_are_left_before(frames);
        laws::paths_lead_up(self.plan);
        laws::chains_grow_down(self.plan);
        let chain = self.plan.chain(self.node);
        let Some(test) = chain.test else {
            unreachable!();
        };
        let names = test_names(alloc, frames)?;
        let run = BodyRun::of_test(alloc, chain.classes, test, names, self.rights())?;
        self.with_frame(alloc, run, 0)
    }

    /// The `after_all` of a class.
    fn closing(&self, alloc: Global, frames: &[Frame]) -> Result<Beginning<'a>, AllocError>
        requires kind { kind_of_origin self.now ≡ BodyKind.AfterAll }
        requires frames { AreFrames self.now frames.now }
        ensures { IfOk result (IsBeginning self.now) }
    {
        let (class, depth) = self.class();
        let names = self.statics_before(alloc, frames)?;
        let words = BlockName::Class(depth, Lifecycle::AfterAll);
        let block = closing_statements(&class.contents);
        let run = BodyRun::of_block(alloc, block, words, names, self.rights())?;
        self.with_frame(alloc, run, 0)
    }

    /// The statics that the openings before the body left, outermost first.
    fn statics_before(&self, alloc: Global, frames: &[Frame]) -> Result<Bindings, AllocError>
        requires { AreFrames self.now frames.now }
        ensures { IfOk result (λ names. names
            ≡ statics_of (opened_before (kind_of_origin self.now)
            (subject_of_origin self.now)).frames) }
    {
        self.frames_are_left_before(frames);
        statics_of(alloc, frames)
    }

    /// The frames that a body begins with are what the openings before it left, one of each class.
    fn frames_are_left_before(&self, frames: &[Frame])
        requires { AreFrames self.now frames.now }
        ensures classes { All IsOfClass frames.now }
        ensures left { frames_of frames.now
            ≡ (opened_before (kind_of_origin self.now) (subject_of_origin self.now)).frames }
    {
        are_of_classes(frames);
        laws::paths_lead_up(self.plan);
        laws::chains_grow_down(self.plan);
    }

    /// What a body begins with whose run is at its beginning, with `outer` names of the enclosing
    /// classes.
    fn with_frame(
        &self,
        alloc: Global,
        run: Box<BodyRun<'a>>,
        outer: usize,
    ) -> Result<Beginning<'a>, AllocError>
        requires outer { outer ≡ outer_names (kind_of_origin self.now)
            (subject_of_origin self.now) }
        requires rights { HasRights (subject_of_origin self.now) (rights_of run.value) }
        requires begun { stage_of run.value
            ≡ (begun (kind_of_origin self.now) (subject_of_origin self.now)).stage }
        ensures { IfOk result (IsBeginning self.now) }
    {
        match self.frame(alloc, &run, outer) {
            Ok(frame) => Ok(Beginning { run, outer, frame }),
            Err(error) => {
                // A call drops the run: its parts then stand in the proof of that call alone.
                drop(run);
                Err(error)
            }
        }
    }
}
