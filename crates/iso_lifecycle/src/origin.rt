//! What a body is of.
ghost use Rattle.std.specs.Prelude.{◌≡◌, ◌<◌, ◌^◌, ◌∷◌, IfOk, length, true};
ghost use Rattle.iso_model.specs.Bodies.{is_ended};
ghost use Rattle.iso_model.specs.Rights.{access_in};
ghost use Rattle.iso_model.specs.ScriptView.{class_head_of};
ghost use Rattle.iso_plan.specs.Paths.{row_at};
ghost use Rattle.iso_plan.specs.RowView.{tree_of};
ghost use Rattle.iso_lifecycle.specs.BodyRuns.{stage_of};
ghost use Rattle.iso_lifecycle.specs.Origins.{HasCome, HasLeft, outer_names};
ghost use Rattle.iso_lifecycle.specs.Subjects.{IsFrame, IsOfClass, classes_of, enclosing, is_kind_of, opening_of, own_fields, rights_of_subject, subject};

use crate::blocks::head;
use crate::body_run::BodyRun;
use crate::done::{Done, What};
use crate::frame::Frame;
use crate::kind::BodyKind;
use crate::names::{at_literals, frozen_past};
use crate::opening::LeftFrame;
use iso_model::heads::ClassHead;
use iso_model::names::Sort;
use iso_model::rights::Rights;
use iso_model::shared_names::SharedNames;
use iso_plan::laws;
use iso_plan::plan::Plan;
use iso_settings::world::World;
use std::alloc::{AllocError, Global};
use std::snapshot::Snapshot;

/// The node and kind of a body, whose enclosing classes were opened well.
#[derive(Drop)]
pub(crate) struct Origin<'a> {
    pub(crate) plan: &'a Plan,
    pub(crate) start: Snapshot<World>,
    pub(crate) node: u32,
    pub(crate) kind: BodyKind,
    ghost inner: { 0 < node },
    ghost small: { node < 2 ^ 32 },
    ghost within: { node < length plan.now.rows },
    ghost fits: { is_kind_of kind (row_at (tree_of plan.now) node).kind ≡ true },
    ghost enclosed: { (opening_of (enclosing (subject plan.now start.value node))).well ≡ true },
}

impl<'a> Origin<'a> {
    ghost use Rattle.iso_lifecycle.specs.OriginViews.{kind_of_origin, subject_of_origin};
    ghost use Rattle.iso_lifecycle.specs.Ends.{IsEnd, kind_of_what};

    /// The access rights of the body: its node's.
    pub(crate) fn rights(&self) -> &'a Rights
        ensures { access_in result.now ≡ rights_of_subject (subject_of_origin self.now) }
    {
        self.plan.rights(self.node)
    }

    /// The class that the body is of, and how deep it stands: a class at the top level stands at
    /// depth 1.
    pub(crate) fn class(&self) -> (&'a ClassHead, u32)
        requires { IsOfClass (subject_of_origin self.now) }
        ensures class { let s = subject_of_origin self.now in
            classes_of s ≡ class_head_of result.0.now ∷ classes_of (enclosing s) }
        ensures depth { result.1 ≡ length (classes_of (subject_of_origin self.now)) }
    {
        laws::chains_grow_down(self.plan);
        let classes = self.plan.chain(self.node).classes;
        (head(classes, classes.len() - 1), classes.len() as u32)
    }

    /// The frame that an ended `before_all` leaves, `outer` names of which are of the enclosing
    /// classes. No other body leaves one.
    #[inline(always)]
    pub(crate) fn frame(
        &self,
        alloc: Global,
        run: &BodyRun<'_>,
        outer: usize,
    ) -> Result<Option<LeftFrame>, AllocError>
        requires outer { outer ≡ outer_names (kind_of_origin self.now)
            (subject_of_origin self.now) }
        requires come { HasCome (kind_of_origin self.now) (subject_of_origin self.now)
            (stage_of run.now) }
        ensures { IfOk result (λ frame. HasLeft (kind_of_origin self.now)
            (subject_of_origin self.now) (stage_of run.now) frame) }
    {
        match self.kind {
            BodyKind::Test | BodyKind::AfterAll => Ok(None),
            BodyKind::BeforeAll => self.opened_frame(alloc, run, outer),
        }
    }

    /// The same of a `before_all`. Most bodies are tests, so this stays out of what each body does.
    #[inline(never)]
    fn opened_frame(
        &self,
        alloc: Global,
        run: &BodyRun<'_>,
        outer: usize,
    ) -> Result<Option<LeftFrame>, AllocError>
        requires kind { kind_of_origin self.now ≡ BodyKind.BeforeAll }
        requires outer { outer ≡ outer_names (kind_of_origin self.now)
            (subject_of_origin self.now) }
        requires come { HasCome (kind_of_origin self.now) (subject_of_origin self.now)
            (stage_of run.now) }
        ensures { IfOk result (λ frame. HasLeft (kind_of_origin self.now)
            (subject_of_origin self.now) (stage_of run.now) frame) }
    {
        if !run.is_ended() {
            return Ok(None);
        }
        let statics = self.statics(alloc, run, outer)?;
        let fields = self.fields(alloc)?;
        let frame = Frame::new(alloc, self.plan, &self.start, self.node, statics, fields)?;
        Ok(Some(LeftFrame::new(alloc, frame)?))
    }

    /// The statics that an ended `before_all` leaves.
    fn statics(
        &self,
        alloc: Global,
        run: &BodyRun<'_>,
        outer: usize,
    ) -> Result<SharedNames, AllocError>
        requires kind { kind_of_origin self.now ≡ BodyKind.BeforeAll }
        requires ended { is_ended (stage_of run.now) ≡ true }
        requires outer { outer ≡ outer_names (kind_of_origin self.now)
            (subject_of_origin self.now) }
        requires come { HasCome (kind_of_origin self.now) (subject_of_origin self.now)
            (stage_of run.now) }
        ensures { IfOk result (λ statics. IsFrame (subject_of_origin self.now) statics) }
    {
        laws::chains_grow_down(self.plan);
        SharedNames::new(alloc, frozen_past(alloc, run.names(), outer)?)
    }

    /// The fields of the class that the body is of, at their literals.
    fn fields(&self, alloc: Global) -> Result<SharedNames, AllocError>
        requires { IsOfClass (subject_of_origin self.now) }
        ensures { IfOk result (λ fields. fields ≡ own_fields (subject_of_origin self.now)) }
    {
        let (class, _) = self.class();
        SharedNames::new(
            alloc,
            at_literals(alloc, &class.contents.fields, Sort::Field)?,
        )
    }

    /// The body's end, which it came to.
    pub(crate) fn done(self, what: What) -> Done
        requires kind { kind_of_what what ≡ kind_of_origin self }
        requires end { IsEnd (subject_of_origin self) what }
        ensures subject { result.subject ≡ subject_of_origin self.entry }
        ensures kind { result.kind ≡ kind_of_origin self.entry }
    {
        Done {
            plan: Snapshot::of(self.plan),
            start: self.start,
            node: self.node,
            what,
        }
    }
}
