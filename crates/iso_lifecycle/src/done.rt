//! What an ended body came to.
ghost use Rattle.std.specs.Prelude.{◌≡◌};
ghost use Rattle.iso_lifecycle.specs.Ends.{ends_well};

use crate::frame::Frame;
use crate::kept::{KeptEnding, KeptOutcome};
use crate::kind::BodyKind;
use crate::opening::KeptOpening;
use crate::verdict::is_unfailed;
use iso_model::lines::Lines;
use iso_plan::plan::Plan;
use iso_settings::world::World;
use std::marker::Model;
use std::snapshot::Snapshot;

/// The frame that a `before_all` left, how it ended, and what it printed.
pub(crate) struct Opened {
    pub(crate) frame: Frame,
    pub(crate) ending: KeptEnding,
    pub(crate) lines: Lines,
}

impl Drop for Opened {
    fn drop(self) {
        let Opened {
            frame: _,
            ending: _,
            lines: _,
        } = self;
    }
}

/// How an `after_all` ended, and what it printed.
pub(crate) struct Closed {
    pub(crate) ending: KeptEnding,
    pub(crate) lines: Lines,
}

impl Drop for Closed {
    fn drop(self) {
        let Closed {
            ending: _,
            lines: _,
        } = self;
    }
}

/// What a body came to.
#[derive(Drop)]
pub(crate) enum What {
    Opened(KeptOpening),
    Tested(KeptOutcome),
    Closed(Closed),
}

/// What an ended body came to: of a `before_all` its ending, lines and statics, of a test its
/// outcome, of an `after_all` its ending and lines.
///
/// Contracts see what the body was for. That it came to what the definitions say of that is kept by
/// the type.
#[derive(Drop)]
pub struct Done {
    pub(crate) plan: Snapshot<Plan>,
    pub(crate) start: Snapshot<World>,
    pub(crate) node: u32,
    pub(crate) what: What,
}

impl Model for Done {
    ghost use Rattle.iso_lifecycle.specs.DoneViews.{DoneView, done_code};

    ghost Value = { DoneView };

    ghost coded = { done_code };

    ghost use Rattle.iso_lifecycle.specs.Ends.{IsDone, kind_of_what};
    ghost use Rattle.iso_lifecycle.specs.Subjects.{subject};

    ghost view = { λ d. record {
      subject = subject d.plan.value d.start.value d.node;
      kind = kind_of_what d.what;
    } };

    ghost invariant = { λ d. IsDone (subject d.plan.value d.start.value d.node) d.what };
}

impl Done {
    /// The node that it is of.
    pub fn node(&self) -> u32
        ensures { result ≡ self.now.subject.node }
    {
        self.node
    }

    /// Which of its node's bodies has ended.
    pub fn kind(&self) -> BodyKind
        ensures { result ≡ self.now.kind }
    {
        match &self.what {
            What::Opened(_) => BodyKind::BeforeAll,
            What::Tested(_) => BodyKind::Test,
            What::Closed(_) => BodyKind::AfterAll,
        }
    }

    /// Whether it ended well: a class's block without a fail, fault or false assumption, a test
    /// without a fail or fault.
    pub fn is_well(&self) -> bool
        ensures { result ≡ ends_well self.now.kind self.now.subject }
    {
        match &self.what {
            What::Opened(opening) => opening.opened().ending.is_well(),
            What::Tested(outcome) => is_unfailed(outcome.verdict()),
            What::Closed(closed) => closed.ending.is_well(),
        }
    }
}
