//! The core of a run: events of several workers on one map of resources, each accepted or refused.
ghost use Rattle.std.specs.Prelude.{◌≡◌, ◌<◌, ◌++◌, ◌∷◌, [], ℕ, IfOk, IfSome, MatchResult, None, OnErr, OnOk, Some, false, is_some, length, map, replicate, reverse, set, true};
ghost use Rattle.std.specs.Option.{option_map};
ghost use Rattle.std.specs.Vec.{vec_capacity, vec_len};
ghost use Rattle.iso_standing.specs.CodeEvents.{events_of, refused_of, worker_of};
ghost use Rattle.iso_core.specs.Cores.{Accepted, NotAccepted, is_complete, new_core, outcome_in, refusal_in, state_in, suite_in, with_event};
ghost use Rattle.iso_core.specs.FlatMaps.{IsFlatOf, IsInnermost, OfSameMap, mark_at};
ghost use Rattle.iso_core.specs.Isolation.{AreUnaffected, IsIsolated};
ghost use Rattle.iso_suites.specs.ScriptLanguage.{scripts};
ghost use Rattle.iso_suites.specs.SuiteStates.{RunNodes, suite_at};
ghost use Rattle.iso_standing.specs.UnderWay.{IsUnderWay, body_at, is_after_all};
ghost use Rattle.iso_isolation.specs.Events as E;
ghost use Rattle.iso_isolation.specs.Events.{where_some};
ghost use Rattle.iso_isolation.specs.Runs.{is_run};
ghost use Rattle.iso_isolation.specs.States.{body_in, first, is_at_rest, is_closing, is_open};
ghost use Rattle.iso_lifecycle.specs.BodyViews.{stage_of_body};
ghost use Rattle.iso_lifecycle.specs.ResultViews.{AreComplete, AreOpened, is_barring, outcome_of_view, result_in};
ghost use Rattle.iso_lifecycle.specs.Subjects.{is_kind_of, outcome_alone, started, subject};
ghost use Rattle.iso_model.specs.Bodies.{Stage, is_ended};
ghost use Rattle.iso_plan.specs.Paths.{IsTree, is_test, parent, path, row_at};
ghost use Rattle.iso_plan.specs.RowView.{tree_of};

use crate::beside::entered_nodes_are_apart;
use crate::flat_map::FlatMap;
use iso_lifecycle::body::Body;
use iso_lifecycle::frame::Frame;
use iso_lifecycle::kind::BodyKind;
use iso_lifecycle::results::Results;
use iso_lifecycle::view::View;
use iso_plan::laws;
use iso_plan::plan::Plan;
use iso_settings::world::World;
use iso_standing::event::Event;
use iso_standing::following::{
    bodies_follow_events, bodies_stand_as_alone, results_follow_leaves, results_follow_nodes,
};
use iso_standing::refused::{CoreFault, Refused};
use iso_standing::standing::Standing;
use std::alloc::{AllocError, Global};
use std::marker::Model;
use std::snapshot::Snapshot;

/// The core of a run: where its nodes and workers stand, all resources in one flat map, a body for
/// each worker at most, and the results.
///
/// Contracts see the plan and the world that it was made for, the number of workers, the events
/// that it has accepted, in order, and whether it was stopped. That it stands in the state that
/// these events lead to is kept by the type.
#[derive(Drop)]
pub struct Core<'a> {
    alloc: Global,
    plan: &'a Plan,
    world: &'a World,
    standing: Standing<'a>,
    flat: FlatMap<'a>,
    /// The body of each worker, if it has one.
    bodies: Vec<Option<Body<'a>>>,
    results: Results<'a>,
    events: Vec<Event>,
}

impl<'a> Model for Core<'a> {
    ghost use Rattle.iso_core.specs.Cores.{CoreView, IsCore, core_code};
    ghost use Rattle.iso_standing.specs.Standings.{workers_in};

    ghost Value = { CoreView };

    ghost coded = { core_code };

    ghost view = { λ c. record {
      plan = c.plan.now;
      world = c.world.now;
      workers = workers_in c.standing;
      events = c.events.items;
      stopped = c.standing.stopped;
    } };

    ghost invariant = { λ c. IsCore (record {
      plan = c.plan.now;
      world = c.world.now;
      workers = workers_in c.standing;
      events = c.events.items;
      stopped =
          c.standing.stopped;
    })
        c.standing c.flat c.bodies.items c.results };
}

/// The worker that an event is of.
fn worker_of(event: Event) -> u32
    ensures { result ≡ worker_of event }
{
    match event {
        Event::Enter { worker, .. }
        | Event::Step { worker }
        | Event::Leave { worker }
        | Event::Shut { worker, .. } => worker,
    }
}

/// Which body a node is entered with: a test's own, or the `before_all` of a class.
fn first_kind(plan: &Plan, node: u32) -> BodyKind
    requires inner { 0 < node }
    requires within { node < length plan.now.rows }
    ensures fits { is_kind_of result (row_at (tree_of plan.now) node).kind ≡ true }
    ensures first { is_after_all result ≡ false }
{
    laws::nodes_are_a_tree(plan);
    if plan.is_test(node) {
        BodyKind::Test
    } else {
        BodyKind::BeforeAll
    }
}

/// How many classes there are on the path of a class: it and its enclosing classes.
fn class_count(plan: &Plan, class: u32) -> usize
    requires within { class < length plan.now.rows }
    requires class { is_test (row_at (tree_of plan.now) class).kind ≡ false }
    ensures { result ≡ length (path (tree_of plan.now) class) }
{
    laws::nodes_are_a_tree(plan);
    plan.chain(class).classes.len()
}

/// The frames of a class that was opened and of its enclosing classes, outermost first; of
/// the root there are none.
fn opened_frames(
    alloc: Global,
    plan: &Plan,
    results: &Results<'_>,
    class: u32,
) -> Result<Vec<Frame>, AllocError>
    requires within { class < length plan.now.rows }
    requires plan { results.now.plan ≡ plan.now }
    requires class { is_test (row_at (tree_of plan.now) class).kind ≡ false }
    requires opened { AreOpened results.now (path (tree_of plan.now) class) }
    ensures { IfOk result (λ v. v.items ≡ map (subject plan.now results.now.start)
        (reverse (path (tree_of plan.now) class))) }
{
    laws::nodes_are_a_tree(plan);
    let mut frames = Vec::with_capacity(alloc, class_count(plan, class))?;
    results.share_frames(class, &mut frames)?;
    Ok(frames)
}

/// What the Leave of a body does to the flat map: the last body of a node lets the values that it
/// may change stand as at its Enter.
fn leave_values(flat: &mut FlatMap<'_>, node: u32, kind: BodyKind)
    requires within { node < length flat.old.tray.plan.rows }
    requires fits { is_kind_of kind (row_at (tree_of flat.old.tray.plan) node).kind ≡ true }
    requires marked { is_some (mark_at flat.old.marks node) ≡ true }
    requires innermost { IsInnermost flat.old node }
    ensures same { OfSameMap flat.old flat.new }
    ensures state { (s : RunNodes) (b : Stage) → IsFlatOf flat.old s → body_in (s.status node)
        ≡ Some b → is_after_all kind ≡ is_closing (s.status node)
        → IsFlatOf flat.new (E.leaving scripts
        (suite_at flat.old.tray.plan flat.old.tray.world) node s (s.status node)) }
{
    match kind {
        BodyKind::BeforeAll => {}
        BodyKind::Test => flat.leave(node),
        BodyKind::AfterAll => flat.leave(node),
    }
}

/// No body for each of `workers` workers.
fn no_bodies<'a>(alloc: Global, workers: usize) -> Result<Vec<Option<Body<'a>>>, AllocError>
    ensures { IfOk result (λ v. v.items ≡ replicate workers None) }
{
    let mut bodies = Vec::new(alloc);
    'workers: for _worker in 0..workers {
        add_worker(&mut bodies)?;
    }
    Ok(bodies)
}

/// No body for one worker more.
fn add_worker(bodies: &mut Vec<Option<Body<'_>>>) -> Result<(), AllocError>
    ensures { OnOk result (bodies.new.items ≡ bodies.old.items ++ None ∷ []) }
{
    bodies.push(None)?;
    Ok(())
}

/// Gives a worker a body.
fn give_body<'a>(bodies: &mut Vec<Option<Body<'a>>>, worker: u32, body: Body<'a>)
    requires { worker < length bodies.old.items }
    ensures { bodies.new.items ≡ set bodies.old.items worker (Some body.entry) }
{
    drop(bodies[worker as usize].replace(body));
}

/// Makes room for one event more, and saves the values that a node may change, as it is entered.
/// After running out of memory nothing has changed.
fn enter_values(
    alloc: Global,
    events: &mut Vec<Event>,
    flat: &mut FlatMap<'_>,
    node: u32,
) -> Result<(), AllocError>
    requires inner { 0 < node }
    requires within { node < length flat.old.tray.plan.rows }
    requires innermost { IsInnermost flat.old node }
    ensures events { events.new.items ≡ events.old.items }
    ensures room { OnOk result (vec_len events.new < vec_capacity events.new) }
    ensures same { OfSameMap flat.old flat.new }
    ensures state { OnOk result ((s : RunNodes) → IsFlatOf flat.old s → IsFlatOf flat.new
        (E.entering scripts (suite_at flat.old.tray.plan flat.old.tray.world) node s)) }
    ensures unchanged { OnErr result (flat.new ≡ flat.old) }
{
    events.reserve(1)?;
    flat.enter(alloc, node)
}

/// Whether the body of a worker has ended; no body has not.
fn has_ended(bodies: &[Option<Body<'_>>], worker: u32) -> bool
    ensures { result ≡ where_some (body_at bodies.now worker) false
        (λ b. is_ended (stage_of_body b)) }
{
    match bodies.get(worker as usize) {
        Some(Some(body)) => body.is_ended(),
        _ => false,
    }
}

impl<'a> Core<'a> {
    /// The core of a plan and a world on `workers` workers, which has accepted no event.
    pub fn new(
        alloc: Global,
        plan: &'a Plan,
        world: &'a World,
        workers: u32,
    ) -> Result<Core<'a>, AllocError>
        ensures { IfOk result (λ c. c ≡ new_core plan.now world.now workers) }
    {
        results_follow_nodes(plan);
        bodies_follow_events(plan);
        Ok(Core {
            alloc,
            plan,
            world,
            standing: Standing::new(alloc, plan, workers)?,
            flat: FlatMap::new(alloc, plan, world)?,
            bodies: no_bodies(alloc, workers as usize)?,
            results: Results::new(alloc, plan, Snapshot::of(world))?,
            events: Vec::new(alloc),
        })
    }

    /// Takes an event where nothing refuses it. A refusal is of the first kind that applies.
    /// Running out of memory comes last.
    pub fn apply(&mut self, event: Event) -> Result<(), CoreFault>
        ensures { MatchResult result (λ _. Accepted event self.old self.new)
            (λ fault. NotAccepted fault event self.old self.new) }
    {
        if let Some(refused) = self.refusal(event) {
            return Err(CoreFault::Refused(refused));
        }
        match event {
            Event::Enter { worker, node } => self.enter(worker, node)?,
            Event::Step { worker } => self.step(worker)?,
            Event::Leave { worker } => self.leave(worker)?,
            Event::Shut { worker, node } => self.shut(worker, node)?,
        }
        Ok(())
    }

    /// Why an event is refused, if it is: the first kind that applies. Takes no memory.
    pub(crate) fn refusal(&self, event: Event) -> Option<Refused>
        ensures { option_map refused_of result ≡ refusal_in self.now event }
    {
        // The bodies of a stopped core tell nothing.
        if self.standing.is_stopped() {
            return Some(Refused::Stopped);
        }
        let ended = has_ended(&self.bodies, worker_of(event));
        self.standing.refusal(event, ended)
    }

    /// Takes an Enter that nothing refuses. After running out of memory nothing has changed.
    fn enter(&mut self, worker: u32, node: u32) -> Result<(), AllocError>
        requires { refusal_in self.old (Event.Enter worker node) ≡ None }
        ensures taken { OnOk result (self.new ≡ with_event self.old (Event.Enter worker node)) }
        ensures unchanged { OnErr result (self.new ≡ self.old) }
    {
        let body = self.first_body(node)?;
        entered_nodes_are_apart(self.plan);
        results_follow_nodes(self.plan);
        bodies_follow_events(self.plan);
        enter_values(self.alloc, &mut self.events, &mut self.flat, node)?;
        give_body(&mut self.bodies, worker, body);
        self.standing.enter(worker, node);
        self.events.push_reserved(Event::Enter { worker, node });
        Ok(())
    }

    /// Takes a Step that nothing refuses. After running out of memory it is stopped.
    fn step(&mut self, worker: u32) -> Result<(), AllocError>
        requires { refusal_in self.old (Event.Step worker) ≡ None }
        ensures taken { OnOk result (self.new ≡ with_event self.old (Event.Step worker)) }
        ensures stopped { OnErr result (self.new ≡ record self.old { stopped = true }) }
    {
        laws::nodes_are_a_tree(self.plan);
        bodies_stand_as_alone(self.plan);
        results_follow_nodes(self.plan);
        bodies_follow_events(self.plan);
        if let Err(error) = self.events.reserve(1) {
            self.standing.stop();
            return Err(error);
        }
        let Some(body) = &mut self.bodies[worker as usize] else {
            unreachable!();
        };
        if let Err(error) = self.flat.step(body) {
            self.standing.stop();
            return Err(error);
        }
        self.events.push_reserved(Event::Step { worker });
        Ok(())
    }

    /// Takes a Leave that nothing refuses. After running out of memory nothing has changed.
    fn leave(&mut self, worker: u32) -> Result<(), AllocError>
        requires { refusal_in self.old (Event.Leave worker) ≡ None }
        ensures taken { OnOk result (self.new ≡ with_event self.old (Event.Leave worker)) }
        ensures unchanged { OnErr result (self.new ≡ self.old) }
    {
        entered_nodes_are_apart(self.plan);
        bodies_stand_as_alone(self.plan);
        results_follow_leaves(self.plan);
        bodies_follow_events(self.plan);
        self.events.reserve(1)?;
        let Some(body) = self.bodies[worker as usize].take() else {
            unreachable!();
        };
        let done = body.into_done();
        let node = done.node();
        let kind = done.kind();
        self.results.put(done);
        leave_values(&mut self.flat, node, kind);
        let well = !self.results.bars(node);
        self.standing.leave(worker, well);
        self.events.push_reserved(Event::Leave { worker });
        Ok(())
    }

    /// Takes a Shut that nothing refuses. After running out of memory nothing has changed.
    fn shut(&mut self, worker: u32, node: u32) -> Result<(), AllocError>
        requires { refusal_in self.old (Event.Shut worker node) ≡ None }
        ensures taken { OnOk result (self.new ≡ with_event self.old (Event.Shut worker node)) }
        ensures unchanged { OnErr result (self.new ≡ self.old) }
    {
        let body = self.last_body(node)?;
        results_follow_nodes(self.plan);
        bodies_follow_events(self.plan);
        self.events.reserve(1)?;
        give_body(&mut self.bodies, worker, body);
        self.standing.shut(worker, node);
        self.events.push_reserved(Event::Shut { worker, node });
        Ok(())
    }

    /// The body with which a node is entered, at its beginning.
    fn first_body(&self, node: u32) -> Result<Body<'a>, AllocError>
        requires inner { 0 < node }
        requires within { node < length self.now.plan.rows }
        requires open { is_open
            ((state_in self.now).nodes.status (parent (tree_of self.now.plan) node)) ≡ true }
        ensures { IfOk result (λ b. IsUnderWay self.now.plan self.now.world node b
            (E.entering scripts (suite_in self.now) node (state_in self.now).nodes)) }
    {
        laws::nodes_are_a_tree(self.plan);
        bodies_stand_as_alone(self.plan);
        let class = self.plan.parent(node).unwrap_or(0);
        let kind = first_kind(self.plan, node);
        let frames = opened_frames(self.alloc, self.plan, &self.results, class)?;
        let start = Snapshot::of(self.world);
        Body::begin(self.alloc, self.plan, node, kind, &frames, start)
    }

    /// The `after_all` of a class, at its beginning.
    fn last_body(&self, node: u32) -> Result<Body<'a>, AllocError>
        requires inner { 0 < node }
        requires within { node < length self.now.plan.rows }
        requires class { is_test (row_at (tree_of self.now.plan) node).kind ≡ false }
        requires rests { is_at_rest ((state_in self.now).nodes.status node) ≡ true }
        ensures { IfOk result (λ b. IsUnderWay self.now.plan self.now.world node b
            (E.shutting scripts (suite_in self.now) node (state_in self.now).nodes)) }
    {
        laws::nodes_are_a_tree(self.plan);
        bodies_stand_as_alone(self.plan);
        let kind = BodyKind::AfterAll;
        let frames = opened_frames(self.alloc, self.plan, &self.results, node)?;
        let start = Snapshot::of(self.world);
        Body::begin(self.alloc, self.plan, node, kind, &frames, start)
    }

    /// The outcome of a node, if it is finished: that of the node run alone, whatever else has run.
    pub fn outcome(&self, node: u32) -> Option<View<'_>>
        requires { node < length self.now.plan.rows }
        ensures finished { option_map outcome_of_view result ≡ outcome_in self.now node }
        ensures alone { IfSome result (λ v. outcome_of_view v
            ≡ outcome_alone (tree_of self.now.plan) (started self.now.world) node) }
    {
        results_follow_leaves(self.plan);
        self.results.get(node)
    }

    /// The results of all finished nodes: those of tests and classes run alone, whatever else has
    /// run.
    pub fn results(&self) -> &Results<'a>
        ensures plan { result.now.plan ≡ self.now.plan }
        ensures start { result.now.start ≡ self.now.world }
        ensures outcomes { (n : ℕ) → n < length self.now.plan.rows → result_in result.now n
            ≡ outcome_in self.now n }
        ensures complete { is_complete self.now ≡ true → AreComplete result.now }
        ensures isolated { IsIsolated self.now }
    {
        results_follow_leaves(self.plan);
        self.is_isolated();
        &self.results
    }

    /// Whether every node but the root is finished. It goes over all nodes.
    pub fn is_complete(&self) -> bool
        ensures { result ≡ is_complete self.now }
    {
        self.standing.is_complete()
    }

    /// Its plan.
    pub(crate) fn plan(&self) -> &'a Plan
        ensures { result.now ≡ self.now.plan }
    {
        self.plan
    }

    /// The number of its workers.
    pub(crate) fn workers(&self) -> u32
        ensures { result ≡ self.now.workers }
    {
        self.standing.workers() as u32
    }

    /// The worker that owns a node.
    pub(crate) fn owner(&self, node: u32) -> u32
        requires { node < length self.now.plan.rows }
        ensures { result ≡ (state_in self.now).owner node }
    {
        self.standing.owner(node)
    }

    /// Its events are a run of its suite, as the type keeps.
    pub(crate) fn is_of_a_run(&self)
        ensures tree { IsTree (tree_of self.now.plan) }
        ensures run { is_run scripts (suite_in self.now) self.now.workers
            (first scripts (suite_in self.now)) (events_of self.now.events) ≡ true }
    {
        laws::nodes_are_a_tree(self.plan);
    }

    /// What its finished nodes came to is theirs alone, as the type keeps.
    fn is_isolated(&self)
        ensures { IsIsolated self.now }
    {
        laws::nodes_are_a_tree(self.plan);
    }
}

/// Two cores, of whatever plans, worlds, workers and events, have equal outcomes of nodes that
/// agree on their heads, on those of the classes around them and on the starting values of the keys
/// that these are marked with. It does nothing: its contract is the law.
pub fn agreeing_nodes_have_equal_outcomes(left: &Core<'_>, right: &Core<'_>)
    ensures { AreUnaffected left.now right.now }
{
    left.is_isolated();
    right.is_isolated();
}
