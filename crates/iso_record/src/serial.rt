//! Runs by worker 0 alone, node by node in the order in which they are written.
ghost use Rattle.std.specs.Prelude.{◌≡◌, ◌<◌, IfOk, OnOk, false, length, true};
ghost use Rattle.iso_plan.specs.Paths.{is_test, row_at};
ghost use Rattle.iso_plan.specs.RowView.{tree_of};
ghost use Rattle.iso_record.specs.Recordings.{HasTaken, OfSameSuite, history_in};
ghost use Rattle.iso_record.specs.SerialRuns.{AreSerialRecordOf, HasClosed, HasOpened, HasRun, HasRunInside, HasRunTest, MayClose, MayRun, MayRunInside};

use crate::recording::Recording;
use iso_plan::laws;
use iso_plan::plan::Plan;
use iso_settings::world::World;
use iso_standing::event::Event;
use std::alloc::{AllocError, Global};

/// The one worker.
const WORKER: u32 = 0;

/// The events of a run of a plan by worker 0 alone, of `workers` workers: each class and test in
/// the order in which they are written, depth first. A core takes them, so it does each step. Out
/// of memory is the only error.
pub fn record_serial(
    alloc: Global,
    plan: &Plan,
    world: &World,
    workers: u32,
) -> Result<Vec<Event>, AllocError>
    requires { 0 < workers }
    ensures { IfOk result (λ es. AreSerialRecordOf plan.now world.now workers es.items) }
{
    laws::nodes_are_a_tree(plan);
    let mut recording = Recording::new(alloc, plan, world, workers)?;
    recording.children(plan, 0)?;
    Ok(recording.into_events())
}

impl Recording<'_> {
    /// Worker 0 runs a node that comes next in its class, and all its descendants.
    #[cycle(depth)]
    fn node(&mut self, plan: &Plan, node: u32) -> Result<(), AllocError>
        requires of { plan.now ≡ self.old.plan }
        requires taken { HasTaken self.old (history_in self.old) }
        requires may { MayRun self.old.plan self.old.world self.old.workers node
            (history_in self.old) }
        ensures same { OfSameSuite self.old self.new }
        ensures taken { OnOk result (HasTaken self.new (history_in self.new)) }
        ensures run { OnOk result (HasRun self.old.plan self.old.world self.old.workers node
            (history_in self.old) (history_in self.new)) }
    {
        laws::nodes_are_a_tree(plan);
        self.first_body(plan, node)?;
        if plan.is_test(node) {
            return Ok(());
        }
        self.children(plan, node)?;
        self.last_body(plan, node)
    }

    /// Worker 0 runs what stands directly in a class, each node in its turn. Of a class that is
    /// barred each is finished, and left out.
    #[cycle(depth)]
    pub(crate) fn children(&mut self, plan: &Plan, class: u32) -> Result<(), AllocError>
        requires of { plan.now ≡ self.old.plan }
        requires taken { HasTaken self.old (history_in self.old) }
        requires may { MayRunInside self.old.plan self.old.world self.old.workers class
            (history_in self.old) }
        ensures same { OfSameSuite self.old self.new }
        ensures taken { OnOk result (HasTaken self.new (history_in self.new)) }
        ensures run { OnOk result (HasRunInside self.old.plan self.old.world self.old.workers class
            (history_in self.old) (history_in self.new)) }
    {
        laws::nodes_are_a_tree(plan);
        laws::children_have_their_parent(plan);
        'children: for child in plan.children(class) {
            if !self.is_finished(*child) {
                self.node(plan, *child)?;
            }
        }
        Ok(())
    }

    /// Worker 0 enters a node that comes next in its class, and leaves its first body.
    fn first_body(&mut self, plan: &Plan, node: u32) -> Result<(), AllocError>
        requires of { plan.now ≡ self.old.plan }
        requires taken { HasTaken self.old (history_in self.old) }
        requires may { MayRun self.old.plan self.old.world self.old.workers node
            (history_in self.old) }
        ensures same { OfSameSuite self.old self.new }
        ensures taken { OnOk result (HasTaken self.new (history_in self.new)) }
        ensures test { is_test (row_at (tree_of plan.now) node).kind ≡ true
            → OnOk result (HasRunTest self.old.plan self.old.world self.old.workers node
            (history_in self.old) (history_in self.new)) }
        ensures class { is_test (row_at (tree_of plan.now) node).kind ≡ false
            → OnOk result (HasOpened self.old.plan self.old.world self.old.workers node
            (history_in self.old) (history_in self.new)) }
    {
        laws::nodes_are_a_tree(plan);
        self.go_on_by(Event::Enter {
            worker: WORKER,
            node,
        })?;
        self.go_on_by(Event::Leave { worker: WORKER })
    }

    /// Worker 0 shuts a class in which all is finished, and leaves its last body.
    fn last_body(&mut self, plan: &Plan, node: u32) -> Result<(), AllocError>
        requires of { plan.now ≡ self.old.plan }
        requires taken { HasTaken self.old (history_in self.old) }
        requires may { MayClose self.old.plan self.old.world self.old.workers node
            (history_in self.old) }
        ensures same { OfSameSuite self.old self.new }
        ensures taken { OnOk result (HasTaken self.new (history_in self.new)) }
        ensures closed { OnOk result (HasClosed self.old.plan self.old.world self.old.workers node
            (history_in self.old) (history_in self.new)) }
    {
        laws::nodes_are_a_tree(plan);
        self.go_on_by(Event::Shut {
            worker: WORKER,
            node,
        })?;
        self.go_on_by(Event::Leave { worker: WORKER })
    }
}
