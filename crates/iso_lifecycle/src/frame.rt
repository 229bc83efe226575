//! What an opened class lends to its descendants.
ghost use Rattle.std.specs.Prelude.{◌≡◌, IfOk};
ghost use Rattle.std.specs.List.{All};
ghost use Rattle.iso_lifecycle.specs.Subjects.{IsOfClass};

use iso_model::shared_names::SharedNames;
use iso_plan::plan::Plan;
use iso_settings::world::World;
use std::alloc::{AllocError, Global};
use std::marker::Model;
use std::snapshot::Snapshot;
use std::sync::Arc;

/// The frozen statics of a class, and its fields at their literals. The start is a snapshot of its
/// body's, since one makes no second snapshot of a world.
pub(crate) struct Statics {
    pub(crate) plan: Snapshot<Plan>,
    pub(crate) start: Snapshot<Snapshot<World>>,
    pub(crate) node: u32,
    pub(crate) names: SharedNames,
    pub(crate) fields: SharedNames,
}

impl Drop for Statics {
    fn drop(self) {
        let Statics {
            plan: _,
            start: _,
            node: _,
            names: _,
            fields: _,
        } = self;
    }
}

impl Model for Statics {
    ghost use Rattle.std.specs.Prelude.{◌≡◌};
    ghost use Rattle.iso_lifecycle.specs.Subjects.{IsFrame, Subject, own_fields, subject, subject_code};

    ghost Value = { Subject };

    ghost coded = { subject_code };

    ghost view = { λ s. subject s.plan.value s.start.value.value s.node };

    ghost invariant = { λ s. IsFrame (subject s.plan.value s.start.value.value s.node) s.names
        × (s.fields ≡ own_fields (subject s.plan.value s.start.value.value s.node)) };
}

/// The statics of a class whose `before_all` has ended, which nothing assigns from then on. All its
/// owners share them.
///
/// Contracts see the class, its plan and the start.
pub struct Frame {
    pub(crate) statics: Arc<Statics>,
}

impl Drop for Frame {
    fn drop(self) {
        let Frame { statics: _ } = self;
    }
}

impl Model for Frame {
    ghost use Rattle.std.specs.Arc.{arc_value};
    ghost use Rattle.iso_lifecycle.specs.Subjects.{Subject, subject_code};

    ghost Value = { Subject };

    ghost coded = { subject_code };

    ghost view = { λ f. arc_value f.statics };
}

impl Frame {
    ghost use Rattle.iso_lifecycle.specs.Subjects.{IsFrame, own_fields, own_frame, subject};

    /// The frame of a class, with these statics and fields.
    pub(crate) fn new(
        alloc: Global,
        plan: &Plan,
        start: &Snapshot<World>,
        node: u32,
        names: SharedNames,
        fields: SharedNames,
    ) -> Result<Frame, AllocError>
        requires frame { IsFrame (subject plan.now start.now.value node) names }
        requires fields { fields ≡ own_fields (subject plan.now start.now.value node) }
        ensures { IfOk result (λ f. f ≡ subject plan.now start.now.value node) }
    {
        let statics = Statics {
            plan: Snapshot::of(plan),
            start: Snapshot::of(start),
            node,
            names,
            fields,
        };
        Ok(Frame {
            statics: Arc::new(alloc, statics)?,
        })
    }

    /// It is of a class, as the type keeps.
    fn is_of_class(&self)
        ensures { IsOfClass self.now }
    {
        let statics: &Statics = &self.statics;
        let _ = &statics.node;
    }

    /// The statics, as nothing may assign them.
    pub(crate) fn names(&self) -> &SharedNames
        ensures { result.now ≡ (own_frame self.now).statics }
    {
        let statics: &Statics = &self.statics;
        &statics.names
    }

    /// The fields at their literals, with which each test in the class begins.
    pub(crate) fn fields(&self) -> &SharedNames
        ensures { result.now ≡ own_fields self.now }
    {
        let statics: &Statics = &self.statics;
        &statics.fields
    }

    /// A further owner of the same statics. Refused where `Arc` refuses one.
    pub fn share(&self) -> Result<Frame, AllocError>
        ensures { IfOk result (λ f. f ≡ self.now) }
    {
        Ok(Frame {
            statics: Arc::try_clone(&self.statics)?,
        })
    }
}

/// Frames are of classes, as their types keep.
pub(crate) fn are_of_classes(frames: &[Frame])
    ensures { All IsOfClass frames.now }
{
    'frames: for frame in frames {
        frame.is_of_class();
    }
}
