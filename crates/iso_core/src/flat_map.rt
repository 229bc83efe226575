//! The flat map of a run: all resources, and what each entered node saved of them.
ghost use Rattle.std.specs.Prelude.{◌≡◌, ◌<◌, ℕ, None, IfOk, OnErr, OnOk, false, is_some, length, replicate, true};
ghost use Rattle.iso_core.specs.FlatMaps.{IsFlatOf, IsInnermost, OfSameMap, mark_at};
ghost use Rattle.iso_suites.specs.ScriptLanguage.{scripts};
ghost use Rattle.iso_suites.specs.SuiteStates.{RunNodes, suite_at};
ghost use Rattle.iso_isolation.specs.Events as E;
ghost use Rattle.iso_isolation.specs.Restoring.{finishing};
ghost use Rattle.iso_isolation.specs.States.{first};
ghost use Rattle.iso_lifecycle.specs.BodyViews.{Stands, kind_of_body, stage_of_body, subject_of};
ghost use Rattle.iso_lifecycle.specs.Subjects.{rights_of_subject, subject};
ghost use Rattle.iso_locks.specs.Flats.{flat};
ghost use Rattle.iso_model.specs.Bodies.{body_step, going, is_ended};
ghost use Rattle.iso_model.specs.declared.outcome.Outcome.{Outcome};

use iso_lifecycle::body::Body;
use iso_locks::tray::{Savepoint, Tray};
use iso_model::resource::{Ask, Change};
use iso_model::resource_key::ResourceKey;
use iso_model::touch::Touch;
use iso_plan::laws;
use iso_plan::plan::Plan;
use iso_settings::world::World;
use std::alloc::{AllocError, Global};
use std::marker::Model;

/// The flat map of a run: a tray that has every value, and by node the values that it may change as
/// they stood at its Enter, while it is entered. Contracts see both.
#[derive(Drop)]
pub(crate) struct FlatMap<'a> {
    tray: Tray<'a>,
    marks: Vec<Option<Savepoint>>,
}

impl<'a> Model for FlatMap<'a> {
    ghost use Rattle.iso_core.specs.FlatMaps.{FlatView, IsFlatMap, flat_code};

    ghost Value = { FlatView };

    ghost coded = { flat_code };

    ghost view = { λ m. record { tray = m.tray; marks = m.marks.items } };

    ghost invariant = { λ m. IsFlatMap (record { tray = m.tray; marks = m.marks.items }) };
}

/// `count` nodes that saved nothing.
fn no_marks(alloc: Global, count: usize) -> Result<Vec<Option<Savepoint>>, AllocError>
    ensures { IfOk result (λ v. v.items ≡ replicate count None) }
{
    let mut marks = Vec::new(alloc);
    'marks: for _n in 0..count {
        marks.push(None)?;
    }
    Ok(marks)
}

impl<'a> FlatMap<'a> {
    /// The flat map of the first state: every value at its start, and no node entered.
    pub(crate) fn new(
        alloc: Global,
        plan: &'a Plan,
        world: &'a World,
    ) -> Result<FlatMap<'a>, AllocError>
        ensures plan { IfOk result (λ v. v.tray.plan ≡ plan.now) }
        ensures world { IfOk result (λ v. v.tray.world ≡ world.now) }
        ensures state { IfOk result
            (λ v. IsFlatOf v (first scripts (suite_at plan.now world.now)).nodes) }
    {
        let tray = Tray::flat(alloc, plan, world)?;
        let marks = no_marks(alloc, plan.len() as usize)?;
        Ok(FlatMap { tray, marks })
    }

    /// Saves the values that a node may change, as it is entered. After running out of memory
    /// nothing has changed.
    pub(crate) fn enter(&mut self, alloc: Global, node: u32) -> Result<(), AllocError>
        requires inner { 0 < node }
        requires within { node < length self.old.tray.plan.rows }
        requires innermost { IsInnermost self.old node }
        ensures same { OfSameMap self.old self.new }
        ensures state { OnOk result ((s : RunNodes) → IsFlatOf self.old s → IsFlatOf self.new
            (E.entering scripts (suite_at self.old.tray.plan self.old.tray.world) node s)) }
        ensures unchanged { OnErr result (self.new ≡ self.old) }
    {
        laws::nodes_are_a_tree(self.tray.plan());
        let mark = self.tray.mark(alloc, node)?;
        self.marks[node as usize] = Some(mark);
        Ok(())
    }

    /// Does one step of a body that stands where its steps so far have left it. After running out
    /// of memory the map may be changed in part.
    pub(crate) fn step(&mut self, body: &mut Body<'_>) -> Result<(), AllocError>
        requires under_way { is_ended (stage_of_body body.old) ≡ false }
        requires of_map { subject_of body.old
            ≡ subject self.old.tray.plan self.old.tray.world (subject_of body.old).node }
        requires stands { Stands body.old (flat self.old.tray) }
        ensures same { OfSameMap self.old self.new }
        ensures subject { subject_of body.new ≡ subject_of body.old }
        ensures kind { kind_of_body body.new ≡ kind_of_body body.old }
        ensures stage { OnOk result (stage_of_body body.new
            ≡ (body_step (rights_of_subject (subject_of body.old))
            (going (stage_of_body body.old) (flat self.old.tray))).stage) }
        ensures state { OnOk result ((s : RunNodes) → IsFlatOf self.old s
            → IsFlatOf self.new
            (E.stepping scripts (suite_at self.old.tray.plan self.old.tray.world)
            (subject_of body.old).node s (stage_of_body body.old))) }
    {
        laws::nodes_are_a_tree(self.tray.plan());
        body.step(self)
    }

    /// Lets the values that a node may change stand as they stood when it was entered, as it is
    /// finished. Takes no memory.
    pub(crate) fn leave(&mut self, node: u32)
        requires within { node < length self.old.tray.plan.rows }
        requires marked { is_some (mark_at self.old.marks node) ≡ true }
        requires innermost { IsInnermost self.old node }
        ensures same { OfSameMap self.old self.new }
        ensures state { (s : RunNodes) (r : Outcome) → IsFlatOf self.old s → IsFlatOf self.new
            (finishing scripts (suite_at self.old.tray.plan self.old.tray.world) node r s) }
    {
        laws::nodes_are_a_tree(self.tray.plan());
        if let Some(mark) = self.marks[node as usize].take() {
            self.tray.undo(mark);
        }
    }
}

impl<'a> Touch for FlatMap<'a> {
    ghost use Rattle.std.specs.Prelude.{◌≡◌};
    ghost use Rattle.std.proofs.Common.{refl, ◌∙◌};
    ghost use Rattle.iso_core.specs.FlatMaps.{MapGoesOn};
    ghost use Rattle.iso_locks.specs.Onward.{onward-further, onward-still, onward-writes};
    ghost use Rattle.iso_locks.specs.Trays.{content, has_value};

    ghost content = { λ v. content v.tray };

    ghost writes = { λ v. has_value v.tray };

    ghost goes_on = { MapGoesOn };

    fn look(&self, key: ResourceKey<'_>, ask: Ask<'_>) -> Option<&str> {
        self.tray.look(key, ask)
    }

    fn change(&mut self, key: ResourceKey<'_>, change: Change) -> Result<(), AllocError> {
        self.tray.change(key, change)
    }

    ghost still = { λ v. record { tray = onward-still v.tray; marks = refl } };

    ghost further = { λ t u v a b. record {
      tray = onward-further t.tray u.tray v.tray a.tray b.tray;
      marks = b.marks ∙ a.marks;
    } };

    ghost same_writes = { λ t u on. onward-writes t.tray u.tray on.tray };
}
