//! Where all nodes and workers stand.
ghost use Rattle.std.specs.Prelude.{◌≡◌, ◌<◌, ◌||◌, ℕ, IfOk, cond, is_some, length, slice_set};
ghost use Rattle.iso_standing.specs.Phases.{bare};
ghost use Rattle.iso_standing.specs.declared.phase.Phase.TheVariants.{Finished};
ghost use Rattle.iso_standing.specs.CodeEvents.{event_of};
ghost use Rattle.iso_standing.specs.Holding.{with_held};
ghost use Rattle.iso_suites.specs.SuiteStates.{RunState};
ghost use Rattle.iso_standing.specs.Passed.{ArePassed};
ghost use Rattle.iso_standing.specs.Standings.{CanTake, EndsWellAs, Fits, HasBody, IsBarred, LooksLike, OfSame, TellsWell, after_in, body_under_way, first_in, has_body_at, is_complete_in, node_of, nodes_in, owner_at, phase_at, with_phase, workers_in};
ghost use Rattle.iso_isolation.specs.Events as E;
ghost use Rattle.iso_isolation.specs.Events.{stop};
ghost use Rattle.iso_isolation.specs.States.{is_closing, is_held, is_waiting};
ghost use Rattle.iso_model.specs.Resources.{Resources};
ghost use Rattle.iso_plan.specs.Conflicts.{lowest_in_the_way};
ghost use Rattle.iso_plan.specs.HeldNodes.{is_held as is_held_node};
ghost use Rattle.iso_plan.specs.Paths.{is_test, parent, row_at};
ghost use Rattle.iso_plan.specs.RowView.{tree_of};

use crate::event::Event;
use crate::phase::Phase;
use iso_plan::held_nodes::HeldNodes;
use iso_plan::laws;
use iso_plan::plan::Plan;
use std::alloc::{AllocError, Global};
use std::marker::Model;

/// Where all nodes and workers stand: what decides whether an event is refused, but for whether a
/// body has ended.
pub struct Standing<'a> {
    plan: &'a Plan,
    phases: Vec<Phase>,
    owners: Vec<u32>,
    busy: Vec<Option<u32>>,
    stopped: bool,
    /// By node, how many of its first children are passed: none of these is due, that is
    /// SAME_THREAD and not finished. It only shortens a search, so contracts don't see it.
    passed: Vec<u32>,
    /// The nodes that hold their locks: those that were entered and aren't finished. Their phases
    /// say it too, so contracts don't see it.
    held: HeldNodes<'a>,
}

impl<'a> Drop for Standing<'a> {
    fn drop(self) {
        let Standing {
            plan: _,
            phases: _,
            owners: _,
            busy: _,
            stopped: _,
            passed: _,
            held: _,
        } = self;
    }
}

impl<'a> Model for Standing<'a> {
    ghost use Rattle.iso_standing.specs.Standings as standings;
    ghost use Rattle.iso_standing.specs.Standings.{IsStanding, standing_code};
    ghost use Rattle.iso_standing.specs.Holding.{KeepsHeld};
    ghost use Rattle.iso_standing.specs.Passed.{KeepsPassed};

    ghost Value = { standings.Standing };

    ghost coded = { standing_code };

    ghost view = { λ s. record {
      plan = s.plan.now;
      phases = s.phases.items;
      owners = s.owners.items;
      busy = s.busy.items;
      stopped = s.stopped;
    } };

    ghost invariant = { λ s. IsStanding (record {
      plan = s.plan.now;
      phases = s.phases.items;
      owners = s.owners.items;
      busy = s.busy.items;
      stopped = s.stopped;
    })
        × KeepsPassed s.plan.now s.phases.items s.passed.items
        × KeepsHeld s.plan.now s.phases.items s.held };
}

impl<'a> Standing<'a> {
    /// The standing of the first state: the root is open and worker 0 owns it, all other nodes
    /// wait, and no worker has a body.
    pub fn new(alloc: Global, plan: &'a Plan, workers: u32) -> Result<Standing<'a>, AllocError>
        ensures plan { IfOk result (λ v. v.plan ≡ plan.now) }
        ensures workers { IfOk result (λ v. workers_in v ≡ workers) }
        ensures state { IfOk result (λ v. (start : Resources) → LooksLike v (first_in v start)) }
    {
        let nodes = plan.len() as usize;
        let mut phases = vec![in alloc; Phase::Waiting; nodes]?;
        let mut held = HeldNodes::new(alloc, plan)?;
        if nodes > 0 {
            phases[0] = Phase::Open;
            held.hold(0);
        }
        Ok(Standing {
            plan,
            phases,
            owners: vec![in alloc; 0; nodes]?,
            busy: vec![in alloc; None; workers as usize]?,
            stopped: false,
            passed: vec![in alloc; 0; nodes]?,
            held,
        })
    }

    /// Takes an event whose worker and node are there, or whose worker has a body; whether it is
    /// accepted isn't looked at. `well` tells of a Leave whether the body has ended well, where it
    /// is a `before_all`. Takes no memory.
    pub fn take(&mut self, event: Event, well: bool)
        requires { CanTake self.old event }
        ensures same { OfSame self.old self.new }
        ensures state { (start : Resources) (s : RunState) → LooksLike self.old s
            → TellsWell self.old s event well
            → LooksLike self.new (after_in self.old start s (event_of event)) }
    {
        match event {
            Event::Enter { worker, node } => self.enter(worker, node),
            Event::Step { .. } => {}
            Event::Leave { worker } => self.leave(worker, well),
            Event::Shut { worker, node } => self.shut(worker, node),
        }
    }

    /// Takes an Enter that is accepted. Takes no memory.
    pub fn enter(&mut self, worker: u32, node: u32)
        requires { Fits self.old worker node }
        ensures same { OfSame self.old self.new }
        ensures state { (start : Resources) (s : RunState) → LooksLike self.old s
            → LooksLike self.new (after_in self.old start s (E.Enter worker node)) }
    {
        self.set_phase(node, Phase::Begun);
        self.owners[node as usize] = worker;
        self.busy[worker as usize] = Some(node);
    }

    /// Takes a Leave that is accepted. `well` tells whether the body has ended well, where it is a
    /// `before_all`. Takes no memory. Where a class is barred it goes over the descendants of
    /// it, once each.
    pub fn leave(&mut self, worker: u32, well: bool)
        requires { HasBody self.old worker }
        ensures same { OfSame self.old self.new }
        ensures state { (start : Resources) (s : RunState) → LooksLike self.old s
            → EndsWellAs self.old s worker well
            → LooksLike self.new (after_in self.old start s (E.Leave worker)) }
    {
        if let Some(node) = self.busy[worker as usize] {
            self.busy[worker as usize] = None;
            if self.has_last_body(node) {
                self.finish(node);
            } else if well {
                self.set_phase(node, Phase::Open);
            } else {
                self.bar(node);
            }
        }
    }

    /// Takes a Shut that is accepted. Takes no memory.
    pub fn shut(&mut self, worker: u32, node: u32)
        requires { Fits self.old worker node }
        ensures same { OfSame self.old self.new }
        ensures state { (start : Resources) (s : RunState) → LooksLike self.old s
            → LooksLike self.new (after_in self.old start s (E.Shut worker node)) }
    {
        self.set_phase(node, Phase::Closing);
        self.busy[worker as usize] = Some(node);
    }

    /// Stops: every event is refused from now on. Takes no memory.
    pub fn stop(&mut self)
        ensures same { OfSame self.old self.new }
        ensures state { (s : RunState) → LooksLike self.old s → LooksLike self.new (stop s) }
    {
        self.stopped = true;
    }

    /// Whether it was stopped.
    pub fn is_stopped(&self) -> bool
        ensures { result ≡ self.now.stopped }
    {
        self.stopped
    }

    /// Whether every node but the root is finished. It goes over all nodes.
    pub fn is_complete(&self) -> bool
        ensures { (start : Resources) (s : RunState) → LooksLike self.now s
            → is_complete_in self.now start s ≡ result }
    {
        'nodes: for node in 1..self.plan.len() {
            if !self.phase(node).is_finished() {
                return false;
            }
        }
        true
    }

    /// The plan that it is of.
    pub(crate) fn plan(&self) -> &'a Plan
        ensures { result.now ≡ self.now.plan }
    {
        self.plan
    }

    /// The node of a worker's body, if it has one.
    pub fn node_of(&self, worker: u32) -> Option<u32>
        requires { worker < workers_in self.now }
        ensures { result ≡ node_of self.now worker }
    {
        self.busy[worker as usize]
    }

    /// The number of workers.
    pub fn workers(&self) -> usize
        ensures { result ≡ workers_in self.now }
    {
        self.busy.len()
    }

    /// How far a node has come.
    pub fn phase(&self, node: u32) -> Phase
        requires { node < nodes_in self.now }
        ensures { result ≡ phase_at self.now node }
    {
        self.phases[node as usize]
    }

    /// Whether a node that holds its locks conflicts with a node. It looks at that node's own
    /// locks, however many hold theirs.
    pub(crate) fn excludes(&self, node: u32) -> bool
        requires { node < nodes_in self.now }
        ensures { result ≡ is_some (lowest_in_the_way (tree_of self.now.plan)
            (λ n. is_held (bare (phase_at self.now n))) node) }
    {
        self.held.excludes(node)
    }

    /// The nodes that hold their locks: those that were entered and aren't finished, and the root,
    /// which is open from the start and takes no key.
    pub fn held(&self) -> &HeldNodes<'a>
        ensures plan { result.now.plan ≡ self.now.plan }
        ensures held { (n : ℕ) → is_held_node result.now.held n
            ≡ is_held (bare (phase_at self.now n)) }
    {
        &self.held
    }

    /// The worker that owns a node.
    pub fn owner(&self, node: u32) -> u32
        requires { node < nodes_in self.now }
        ensures { result ≡ owner_at self.now node }
    {
        self.owners[node as usize]
    }

    /// A node's parent; the root's is the root.
    pub(crate) fn parent(&self, node: u32) -> u32
        requires { node < nodes_in self.now }
        ensures parent { 0 < node → result ≡ parent (tree_of self.now.plan) node }
        ensures before { 0 < node → result < node }
        ensures known { result < nodes_in self.now }
    {
        laws::parents_come_first(self.plan);
        self.plan.parent(node).unwrap_or(0)
    }

    /// Whether a worker has a body.
    pub(crate) fn has_body(&self, worker: u32) -> bool
        requires { worker < workers_in self.now }
        ensures there { result ≡ has_body_at self.now worker }
        ensures state { (start : Resources) (s : RunState) → LooksLike self.now s
            → is_some (body_under_way self.now start s worker) ≡ result }
    {
        match self.busy[worker as usize] {
            None => false,
            Some(node) => self.phase(node).has_body(),
        }
    }

    /// Whether the body that is under way at a node is its last: a whole test, or an `after_all`.
    fn has_last_body(&self, node: u32) -> bool
        requires { node < nodes_in self.now }
        ensures { result ≡ (is_closing (bare (phase_at self.now node))
            || is_test (row_at (tree_of self.now.plan) node).kind) }
    {
        self.phase(node).is_closing() || self.plan.is_test(node)
    }

    /// Finishes a node, and passes those children of its parent that come next and aren't due.
    fn finish(&mut self, node: u32)
        requires node { node < nodes_in self.old }
        requires inner { 0 < node }
        ensures { self.new ≡ with_phase self.old node Finished }
    {
        self.set_phase(node, Phase::Finished);
        let parent = self.parent(node);
        let passed = self.passable(parent);
        self.passed[parent as usize] = passed;
    }

    /// Sets how far a node but the root has come.
    fn set_phase(&mut self, node: u32, phase: Phase)
        requires node { node < nodes_in self.old }
        requires inner { 0 < node }
        ensures { self.new ≡ with_phase self.old node phase }
    {
        let parent = self.parent(node);
        let passed = self.still_passed(node, phase);
        self.passed[parent as usize] = passed;
        self.phases[node as usize] = phase;
        set_held(&mut self.held, node, phase.is_held());
    }

    /// How many first children of a node's parent stay passed where the node comes to a phase.
    fn still_passed(&self, node: u32, phase: Phase) -> u32
        requires node { node < nodes_in self.now }
        requires inner { 0 < node }
        ensures { ArePassed self.now.plan (slice_set self.now.phases node phase)
            (parent (tree_of self.now.plan) node) result }
    {
        // No event that is accepted leads here, but the contracts of `enter` and `shut` don't rule
        // it out.
        if self.phase(node).is_finished() && !phase.is_finished() {
            return 0;
        }
        self.passed(self.parent(node))
    }

    /// How many first children of a class can be passed: those before the first that is due. It
    /// begins after those that are passed, so that it goes over each child once.
    fn passable(&self, class: u32) -> u32
        requires { class < nodes_in self.now }
        ensures { ArePassed self.now.plan self.now.phases class result }
    {
        let children = self.plan.children(class);
        let mut next = self.passed(class);
        'children: while (next as usize) < children.len() && !self.is_due(children[next as usize]) {
            next += 1;
        }
        next
    }

    /// How many first children of a class are passed: none of them is due.
    pub(crate) fn passed(&self, class: u32) -> u32
        requires { class < nodes_in self.now }
        ensures { ArePassed self.now.plan self.now.phases class result }
    {
        self.passed[class as usize]
    }

    /// Bars a class: what waits in it is finished. Its descendants follow it, so it ends at the
    /// first node that isn't one of them.
    fn bar(&mut self, class: u32)
        requires class { class < nodes_in self.old }
        requires inner { 0 < class }
        ensures { IsBarred class self.old self.new }
    {
        laws::parents_come_first(self.plan);
        laws::nodes_stand_in_preorder(self.plan);
        self.set_phase(class, Phase::Barred);
        let nodes = self.plan.len();
        let mut node = class + 1;
        'inside: while node < nodes && self.parent(node) >= class {
            let next = self.phase_inside(node);
            self.set_phase(node, next);
            node += 1;
        }
    }

    /// What becomes of a descendant of a class that is barred.
    fn phase_inside(&self, node: u32) -> Phase
        requires { node < nodes_in self.now }
        ensures { result ≡ cond (is_waiting (bare (phase_at self.now node))) Finished
            (phase_at self.now node) }
    {
        let phase = self.phase(node);
        if phase.is_waiting() {
            return Phase::Finished;
        }
        phase
    }
}

/// Holds a node or releases it.
fn set_held(nodes: &mut HeldNodes<'_>, node: u32, held: bool)
    requires { node < length nodes.old.plan.rows }
    ensures { nodes.new ≡ with_held nodes.old node held }
{
    if held {
        nodes.hold(node);
    } else {
        nodes.release(node);
    }
}
