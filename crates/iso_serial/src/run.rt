//! A plan run on one thread.
ghost use Rattle.std.specs.Prelude.{◌≡◌, ◌<◌, ℕ, IfOk, None, OnOk, false, length, true};
ghost use Rattle.iso_lifecycle.specs.ResultViews.{AreComplete, has_result, no_results, with_done_of};
ghost use Rattle.iso_lifecycle.specs.Subjects.{is_kind_of};
ghost use Rattle.iso_locks.specs.Slots.{slot};
ghost use Rattle.iso_locks.specs.Trays.{empty_tray, is_lent};
ghost use Rattle.iso_locks.specs.Vaults.{whole_vault};
ghost use Rattle.iso_plan.specs.Paths.{is_test, parent, row_at};
ghost use Rattle.iso_plan.specs.RowView.{tree_of};
ghost use Rattle.iso_serial.specs.OpenedTrays.{IsTrayAfter};
ghost use Rattle.iso_serial.specs.Walks.{AreDone, AtEntry, AtExit, BetweenNodes, CanPerform, GoesFurther, innermost};

use iso_lifecycle::body::Body;
use iso_lifecycle::gate::{Gate, OpenGate};
use iso_lifecycle::kind::BodyKind;
use iso_lifecycle::results::Results;
use iso_locks::tray::Tray;
use iso_locks::vault::Vault;
use iso_plan::laws;
use iso_plan::plan::Plan;
use iso_settings::world::World;
use std::alloc::{AllocError, Global};
use std::snapshot::Snapshot;

/// For a runner of one's own: runs every class and test of a plan on one thread, depth first, and
/// answers their results. That of each node is the one of the node run alone, which the type
/// `Results` keeps. Out of memory is the only error.
pub fn run<'a>(alloc: Global, plan: &'a Plan, world: &'a World) -> Result<Results<'a>, AllocError>
    ensures plan { IfOk result (λ r. r.plan ≡ plan.now) }
    ensures start { IfOk result (λ r. r.start ≡ world.now) }
    ensures complete { IfOk result (λ r. AreComplete r) }
{
    run_at(alloc, plan, world, &OpenGate)
}

/// The same run at a gate, which is told of each body and met before its first step and after each,
/// as by worker 0.
pub fn run_at<'a, G: Gate>(
    alloc: Global,
    plan: &'a Plan,
    world: &'a World,
    gate: &G,
) -> Result<Results<'a>, AllocError>
    ensures plan { IfOk result (λ r. r.plan ≡ plan.now) }
    ensures start { IfOk result (λ r. r.start ≡ world.now) }
    ensures complete { IfOk result (λ r. AreComplete r) }
{
    let serial = Serial {
        alloc,
        plan,
        world,
        gate,
    };
    let walk = serial.to_end()?;
    Ok(walk.results)
}

/// The number of the one worker.
const WORKER: u32 = 0;

/// What is run: a plan, over the starting values of a world, at a gate.
#[derive(Clone, Copy)]
pub struct Serial<'g, 'a, G> {
    pub alloc: Global,
    pub plan: &'a Plan,
    pub world: &'a World,
    pub gate: &'g G,
}

/// How far a run is: where the values are, and the results so far. After running out of memory it
/// is only dropped.
#[derive(Drop)]
pub struct Walk<'a> {
    pub vault: Vault<'a>,
    pub tray: Tray<'a>,
    pub results: Results<'a>,
}

impl<'g, 'a, G: Gate> Serial<'g, 'a, G> {
    /// A run before its first node: every value is home, nothing is lent, and nothing has a result.
    pub fn begin(&self) -> Result<Walk<'a>, AllocError>
        ensures vault { IfOk result (λ w. w.vault
            ≡ whole_vault self.now.plan.now self.now.world.now) }
        ensures tray { IfOk result (λ w. w.tray ≡ empty_tray self.now.plan.now self.now.world.now) }
        ensures results { IfOk result (λ w. w.results
            ≡ no_results self.now.plan.now self.now.world.now) }
        ensures between { IfOk result (λ w. BetweenNodes self.now.plan.now self.now.world.now 0 w) }
    {
        laws::nodes_are_a_tree(self.plan);
        Ok(Walk {
            vault: Vault::new(self.alloc, self.plan, self.world)?,
            tray: Tray::new(self.alloc, self.plan, self.world)?,
            results: Results::new(self.alloc, self.plan, Snapshot::of(self.world))?,
        })
    }

    /// A whole run: every class and test, depth first. At its end every value is home, and the tray
    /// has none.
    pub fn to_end(&self) -> Result<Walk<'a>, AllocError>
        ensures vault { IfOk result (λ w. w.vault
            ≡ whole_vault self.now.plan.now self.now.world.now) }
        ensures lent { IfOk result (λ w. (n : ℕ) → is_lent w.tray.lent n ≡ false) }
        ensures empty { IfOk result (λ w. (i : ℕ) → slot w.tray.values i ≡ None) }
        ensures plan { IfOk result (λ w. w.results.plan ≡ self.now.plan.now) }
        ensures start { IfOk result (λ w. w.results.start ≡ self.now.world.now) }
        ensures complete { IfOk result (λ w. AreComplete w.results) }
    {
        let mut walk = self.begin()?;
        self.children(&mut walk, 0)?;
        Ok(walk)
    }

    /// Runs what stands directly in a class that was opened, or in the root. Of a class whose
    /// `before_all` didn't end well each such node has its result, and isn't entered.
    #[cycle(depth)]
    fn children(&self, walk: &mut Walk<'a>, class: u32) -> Result<(), AllocError>
        requires { BetweenNodes self.now.plan.now self.now.world.now class walk.old }
        ensures between { OnOk result
            (BetweenNodes self.now.plan.now self.now.world.now class walk.new) }
        ensures done { OnOk result (AreDone self.now.plan.now class walk.new.results) }
        ensures further { OnOk result (GoesFurther walk.old walk.new) }
    {
        'children: for child in self.plan.children(class) {
            if walk.results.get(*child).is_none() {
                self.node(walk, *child)?;
            }
        }
        Ok(())
    }

    /// Runs a node that has no result, between two nodes of the root or of a class that was opened:
    /// lends it, does its bodies, runs its children, lets the values that it may change stand as
    /// they stood, and takes it back. Then the vault is as it was, and what the tray holds stands
    /// as the opening of that class left it again, for the next node to begin on.
    #[cycle(depth)]
    pub fn node(&self, walk: &mut Walk<'a>, node: u32) -> Result<(), AllocError>
        requires positive { 0 < node }
        requires within { node < length self.now.plan.now.rows }
        requires between { BetweenNodes self.now.plan.now self.now.world.now
            (parent (tree_of self.now.plan.now) node) walk.old }
        requires waits { has_result walk.old.results node ≡ false }
        ensures vault { OnOk result (walk.new.vault ≡ walk.old.vault) }
        ensures between { OnOk result (BetweenNodes self.now.plan.now self.now.world.now
            (parent (tree_of self.now.plan.now) node) walk.new) }
        ensures done { OnOk result (has_result walk.new.results node ≡ true) }
        ensures further { OnOk result (GoesFurther walk.old walk.new) }
    {
        walk.vault.lend(node, &mut walk.tray).unwrap();
        let mark = walk.tray.mark(self.alloc, node)?;
        self.bodies(walk, node)?;
        walk.tray.undo(mark);
        walk.vault.take_back(node, &mut walk.tray);
        Ok(())
    }

    /// Does the bodies of a node that was lent, and of all its descendants.
    #[cycle(depth)]
    fn bodies(&self, walk: &mut Walk<'a>, node: u32) -> Result<(), AllocError>
        requires { AtEntry self.now.plan.now self.now.world.now node walk.old }
        ensures exit { OnOk result (AtExit self.now.plan.now self.now.world.now node walk.new) }
        ensures further { OnOk result (GoesFurther walk.old walk.new) }
    {
        if self.plan.is_test(node) {
            self.test(walk, node)
        } else {
            self.class(walk, node)
        }
    }

    /// Runs a test that was lent.
    fn test(&self, walk: &mut Walk<'a>, node: u32) -> Result<(), AllocError>
        requires entry { AtEntry self.now.plan.now self.now.world.now node walk.old }
        requires test { is_test (row_at (tree_of self.now.plan.now) node).kind ≡ true }
        ensures exit { OnOk result (AtExit self.now.plan.now self.now.world.now node walk.new) }
        ensures further { OnOk result (GoesFurther walk.old walk.new) }
    {
        self.perform(walk, node, BodyKind::Test)
    }

    /// Runs a class that was lent: its `before_all`, its children, and its `after_all`.
    #[cycle(depth)]
    fn class(&self, walk: &mut Walk<'a>, node: u32) -> Result<(), AllocError>
        requires entry { AtEntry self.now.plan.now self.now.world.now node walk.old }
        requires class { is_test (row_at (tree_of self.now.plan.now) node).kind ≡ false }
        ensures exit { OnOk result (AtExit self.now.plan.now self.now.world.now node walk.new) }
        ensures further { OnOk result (GoesFurther walk.old walk.new) }
    {
        self.open(walk, node)?;
        self.children(walk, node)?;
        self.close(walk, node)
    }

    /// Runs the `before_all` of a class that was lent.
    fn open(&self, walk: &mut Walk<'a>, node: u32) -> Result<(), AllocError>
        requires entry { AtEntry self.now.plan.now self.now.world.now node walk.old }
        requires class { is_test (row_at (tree_of self.now.plan.now) node).kind ≡ false }
        ensures between { OnOk result
            (BetweenNodes self.now.plan.now self.now.world.now node walk.new) }
        ensures further { OnOk result (GoesFurther walk.old walk.new) }
    {
        self.perform(walk, node, BodyKind::BeforeAll)
    }

    /// Runs the `after_all` of a class when all its descendants have results.
    fn close(&self, walk: &mut Walk<'a>, node: u32) -> Result<(), AllocError>
        requires positive { 0 < node }
        requires class { is_test (row_at (tree_of self.now.plan.now) node).kind ≡ false }
        requires between { BetweenNodes self.now.plan.now self.now.world.now node walk.old }
        requires done { AreDone self.now.plan.now node walk.old.results }
        ensures exit { OnOk result (AtExit self.now.plan.now self.now.world.now node walk.new) }
        ensures further { OnOk result (GoesFurther walk.old walk.new) }
    {
        self.perform(walk, node, BodyKind::AfterAll)
    }

    /// Runs a body of a node, with the frames of the classes around it, and puts what it came to.
    /// The worker meets its gate before the first step and after each.
    fn perform(&self, walk: &mut Walk<'a>, node: u32, kind: BodyKind) -> Result<(), AllocError>
        requires { CanPerform self.now.plan.now self.now.world.now kind node walk.old }
        ensures vault { walk.new.vault ≡ walk.old.vault }
        ensures results { OnOk result (walk.new.results ≡ with_done_of kind node walk.old.results) }
        ensures values { OnOk result (IsTrayAfter self.now.plan.now self.now.world.now kind node
            walk.old.tray walk.new.tray) }
    {
        let class = self.innermost(node, kind);
        walk.tray.hand_own_path(&walk.results, class)?;
        let frames = walk.tray.frames();
        let start = Snapshot::of(self.world);
        let body = Body::begin(self.alloc, self.plan, node, kind, frames, start)?;
        self.gate.at_body(WORKER, node);
        let done = body.run(WORKER, self.gate, &mut walk.tray)?;
        walk.results.put(done);
        Ok(())
    }

    /// The innermost class whose frame a body begins with; the root where its node is in no class.
    fn innermost(&self, node: u32, kind: BodyKind) -> u32
        requires positive { 0 < node }
        requires within { node < length self.now.plan.now.rows }
        requires fits { is_kind_of kind (row_at (tree_of self.now.plan.now) node).kind ≡ true }
        ensures is { result ≡ innermost (tree_of self.now.plan.now) kind node }
        ensures within { result < length self.now.plan.now.rows }
        ensures class { is_test (row_at (tree_of self.now.plan.now) result).kind ≡ false }
    {
        laws::nodes_are_a_tree(self.plan);
        match kind {
            BodyKind::BeforeAll | BodyKind::Test => self.plan.parent(node).unwrap(),
            BodyKind::AfterAll => node,
        }
    }
}
