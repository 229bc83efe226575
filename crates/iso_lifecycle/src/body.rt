//! The body of a node, one step at a time.
ghost use Rattle.std.specs.Prelude.{◌≡◌, IfOk, OnErr, OnOk, true, false};
ghost use Rattle.iso_model.specs.Bodies.{body_step, going, is_ended};
ghost use Rattle.iso_model.specs.Touch.{HasKeys};
ghost use Rattle.iso_lifecycle.specs.BodyRuns.{rights_of, stage_of};
ghost use Rattle.iso_lifecycle.specs.OriginViews.{kind_of_origin, subject_of_origin};
ghost use Rattle.iso_lifecycle.specs.Origins.{HasCome, HasCome-prop, HasLeft, HasLeft-prop, HasRights, HasRights-prop, outer_names};
ghost use Rattle.iso_lifecycle.specs.Subjects.{begun, rights_of_subject, subject};
ghost use Rattle.iso_lifecycle.specs.WholeBodies.{CanBegin, IsAfterBody};

use crate::beginning::Beginning;
use crate::body_run::BodyRun;
use crate::done::{Closed, Done, What};
use crate::frame::Frame;
use crate::gate::Gate;
use crate::kept::KeptOutcome;
use crate::kind::BodyKind;
use crate::opening::LeftFrame;
use crate::origin::Origin;
use iso_model::touch::Touch;
use iso_plan::laws;
use iso_plan::plan::Plan;
use iso_settings::world::World;
use std::alloc::{AllocError, Global};
use std::snapshot::Snapshot;

/// A body of a node of a plan: a class's `before_all` or `after_all`, or a whole test (JUnit 5,
/// test lifecycle). Once out of memory in a step it never ends, and can only be dropped.
pub struct Body<'a> {
    alloc: Global,
    pub(crate) origin: Origin<'a>,
    pub(crate) run: Box<BodyRun<'a>>,
    outer: usize,
    frame: Option<LeftFrame>,
    ghost outer_is: { outer ≡ outer_names (kind_of_origin origin) (subject_of_origin origin) },
    ghost rights: { HasRights (subject_of_origin origin) (rights_of run.value) } by { HasRights-prop (subject_of_origin origin) (rights_of run.value) },
    ghost come: { HasCome (kind_of_origin origin) (subject_of_origin origin) (stage_of run.value) } by { HasCome-prop (kind_of_origin origin) (subject_of_origin origin) (stage_of run.value) },
    ghost left: { HasLeft (kind_of_origin origin) (subject_of_origin origin) (stage_of run.value) frame } by { HasLeft-prop (kind_of_origin origin) (subject_of_origin origin) (stage_of run.value) frame },
}

impl<'a> Drop for Body<'a> {
    fn drop(self) {
        let Body {
            alloc: _,
            origin: _,
            run: _,
            outer: _,
            frame: _,
        } = self;
    }
}

impl<'a> Body<'a> {
    ghost use Rattle.iso_lifecycle.specs.BodyViews.{Stands, kind_of_body, stage_of_body, subject_of};

    /// A body at its beginning, with the frames of the enclosing classes of its node, outermost
    /// first, and for an `after_all` its own.
    pub fn begin(
        alloc: Global,
        plan: &'a Plan,
        node: u32,
        kind: BodyKind,
        frames: &[Frame],
        start: Snapshot<World>,
    ) -> Result<Body<'a>, AllocError>
        requires { CanBegin (subject plan.now start.value node) kind frames.now }
        ensures subject { IfOk result (λ b. subject_of b ≡ subject plan.now start.value node) }
        ensures kind { IfOk result (λ b. kind_of_body b ≡ kind) }
        ensures begun { IfOk result (λ b. stage_of_body b
            ≡ (begun kind (subject plan.now start.value node)).stage) }
    {
        let origin = Origin {
            plan,
            start,
            node,
            kind,
        };
        let Beginning { run, outer, frame } = origin.beginning(alloc, frames)?;
        Ok(Body {
            alloc,
            origin,
            run,
            outer,
            frame,
        })
    }

    /// Does the first piece that is left, on what the body's last step left, and at first on what
    /// the openings before it left, at the keys of its rights.
    #[inline(always)]
    pub fn step<T: Touch>(&mut self, touch: &mut T) -> Result<(), AllocError>
        requires under_way { is_ended (stage_of_body self.old) ≡ false }
        requires keys { HasKeys (rights_of_subject (subject_of self.old)) (T.content touch.old)
            (T.writes touch.old) }
        requires stands { Stands self.old (T.content touch.old) }
        ensures step { OnOk result (going (stage_of_body self.new) (T.content touch.new)
            ≡ body_step (rights_of_subject (subject_of self.old))
            (going (stage_of_body self.old) (T.content touch.old))) }
        ensures stands { OnOk result (Stands self.new (T.content touch.new)) }
        ensures stopped { OnErr result (is_ended (stage_of_body self.new) ≡ false) }
        ensures keys { OnOk result (HasKeys (rights_of_subject (subject_of self.old))
            (T.content touch.new) (T.writes touch.new)) }
        ensures subject { subject_of self.new ≡ subject_of self.old }
        ensures kind { kind_of_body self.new ≡ kind_of_body self.old }
        ensures goes_on { T.goes_on touch.old touch.new }
    {
        self.advance(touch)?;
        Ok(())
    }

    /// The same step, which tells whether the body has ended then: a run asks that after each.
    #[inline(always)]
    fn advance<T: Touch>(&mut self, touch: &mut T) -> Result<bool, AllocError>
        requires under_way { is_ended (stage_of_body self.old) ≡ false }
        requires keys { HasKeys (rights_of_subject (subject_of self.old)) (T.content touch.old)
            (T.writes touch.old) }
        requires stands { Stands self.old (T.content touch.old) }
        ensures ended { IfOk result (λ ended. ended ≡ is_ended (stage_of_body self.new)) }
        ensures step { OnOk result (going (stage_of_body self.new) (T.content touch.new)
            ≡ body_step (rights_of_subject (subject_of self.old))
            (going (stage_of_body self.old) (T.content touch.old))) }
        ensures stands { OnOk result (Stands self.new (T.content touch.new)) }
        ensures stopped { OnErr result (is_ended (stage_of_body self.new) ≡ false) }
        ensures keys { OnOk result (HasKeys (rights_of_subject (subject_of self.old))
            (T.content touch.new) (T.writes touch.new)) }
        ensures subject { subject_of self.new ≡ subject_of self.old }
        ensures kind { kind_of_body self.new ≡ kind_of_body self.old }
        ensures goes_on { T.goes_on touch.old touch.new }
    {
        let ended = self.run.step(touch)?;
        if !ended {
            return Ok(false);
        }
        let run: &BodyRun<'a> = &self.run;
        match self.origin.frame(self.alloc, run, self.outer) {
            Ok(frame) => {
                self.frame = frame;
                Ok(true)
            }
            Err(error) => {
                self.run.stop();
                Err(error)
            }
        }
    }

    /// Does all steps that are left, and answers what the body came to. The gate is told that the
    /// body begins and, once it has ended, how. After each step the worker meets the gate; whoever
    /// began the body lets it meet the gate before the first.
    pub fn run<T: Touch, G: Gate>(
        self,
        worker: u32,
        gate: &G,
        touch: &mut T,
    ) -> Result<Done, AllocError>
        requires keys { HasKeys (rights_of_subject (subject_of self)) (T.content touch.old)
            (T.writes touch.old) }
        requires stands { Stands self (T.content touch.old) }
        ensures subject { IfOk result (λ d. d.subject ≡ subject_of self.entry) }
        ensures kind { IfOk result (λ d. d.kind ≡ kind_of_body self.entry) }
        ensures goes_on { T.goes_on touch.old touch.new }
        ensures values { OnOk result (IsAfterBody (subject_of self.entry) (kind_of_body self.entry)
            (T.content touch.old) (T.content touch.new)) }
    {
        let mut body = self;
        gate.begins(worker, body.origin.node, body.origin.kind);
        match body.go_to_end(worker, gate, touch) {
            Ok(()) => {
                let done = body.into_done();
                gate.ends(worker, done.node(), done.kind(), done.is_well());
                Ok(done)
            }
            Err(error) => {
                drop(body);
                Err(error)
            }
        }
    }

    /// Does all steps that are left. After each the worker meets the gate.
    fn go_to_end<T: Touch, G: Gate>(
        &mut self,
        worker: u32,
        gate: &G,
        touch: &mut T,
    ) -> Result<(), AllocError>
        requires keys { HasKeys (rights_of_subject (subject_of self.old)) (T.content touch.old)
            (T.writes touch.old) }
        requires stands { Stands self.old (T.content touch.old) }
        ensures subject { subject_of self.new ≡ subject_of self.old }
        ensures kind { kind_of_body self.new ≡ kind_of_body self.old }
        ensures ended { OnOk result (is_ended (stage_of_body self.new) ≡ true) }
        ensures goes_on { T.goes_on touch.old touch.new }
        ensures values { OnOk result (IsAfterBody (subject_of self.old) (kind_of_body self.old)
            (T.content touch.old) (T.content touch.new)) }
    {
        let mut ended = self.is_ended();
        'steps: while !ended {
            ended = self.advance(touch)?;
            gate.at_body(worker, self.origin.node);
        }
        Ok(())
    }

    /// Whether nothing is left to do.
    pub fn is_ended(&self) -> bool
        ensures { result ≡ is_ended (stage_of_body self.now) }
    {
        self.run.is_ended()
    }

    /// What the body came to, once it has ended. That this is what the definitions say of its subject
    /// is kept by the type `Done` (`IsDone`). Takes no memory.
    pub fn into_done(self) -> Done
        requires { is_ended (stage_of_body self) ≡ true }
        ensures subject { result.subject ≡ subject_of self.entry }
        ensures kind { result.kind ≡ kind_of_body self.entry }
    {
        let Body {
            alloc: _,
            origin,
            run,
            outer: _,
            frame,
        } = self;
        laws::chains_grow_down(origin.plan);
        let end = Box::into_inner(run).finish();
        match origin.kind {
            BodyKind::BeforeAll => {
                let Some(frame) = frame else {
                    unreachable!();
                };
                let opening = frame.opened(end.endings.into_first(), end.output);
                origin.done(What::Opened(opening))
            }
            BodyKind::Test => {
                // A call drops it: its parts then stand in the proof of that call alone.
                drop(frame);
                let outcome = KeptOutcome::new(end.endings.into_others(), end.output);
                origin.done(What::Tested(outcome))
            }
            BodyKind::AfterAll => {
                drop(frame);
                origin.done(What::Closed(Closed {
                    ending: end.endings.into_first(),
                    lines: end.output,
                }))
            }
        }
    }
}
