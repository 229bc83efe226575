//! What is to be tried, and by whom. Its rules, each of which is one step under the lock:
//!
//! 1. Each node has one place in the table, and the table alone says which. Worker 0 owns the root,
//!    and of every other class that is opened up the worker that entered it is the owner.
//! 2. A node that any worker may enter belongs to everyone, one that its class's owner alone may
//!    enter to that worker.
//! 3. At first the root is open: its CONCURRENT children lie in worker 0's deque, and its first
//!    SAME_THREAD child stands in worker 0's own line.
//! 4. A key is in a node's way where a held node takes it, one of the two for READ_WRITE. Which key
//!    that is follows from the book's counts alone, and is stored nowhere. Of keys that all nodes
//!    take alike the lowest alone is looked at, their lead.
//! 5. A node that was taken out of a deque or a line is in a hand. It is attempted: where no key is
//!    in its way, it is entered. Else it stands at the end of a line of that key: it waits for the
//!    key, and behind no node.
//! 6. A node that waits is on offer where its key isn't in its way any more. No call makes it so.
//! 7. A turn answers first that the run was stopped, or is over. Then, until an event is taken: a
//!    class that this worker has just opened is shut, or opened up where a child is left; the node
//!    that was found in a deque is attempted; the first of this worker's own line is attempted or
//!    shut; the first of a line on offer is attempted, of this worker's lines before everyone's,
//!    at the lowest key. Of its two lines the one whose first came first.
//! 8. A class is opened up: its CONCURRENT children go to the back of its owner's deque, in order,
//!    and its first SAME_THREAD child stands in the owner's own line.
//! 9. A node is over when its last body was left. In an open class the next SAME_THREAD child then
//!    stands in the owner's own line, and so does the class itself after its last child.
//! 10. A worker waits while the run goes on, no node is with it, nothing stands in its own line,
//!     nothing of its own or of everyone's is on offer, and no node lies in a deque, as far as it
//!     has seen.
//! 11. Every turn, Leave and stop ends with a call, a Leave and the turn in the same hold of the
//!     lock with one: one worker that waits, wasn't called, and has something to wake for.
ghost use Rattle.std.specs.Prelude.{◌≡◌, ◌≢◌, ◌<◌, ◌≤◌, ◌+◌, ◌^◌, ◌==◌, ℕ, List, [], IfOk, IfSome, IsTrue, MatchOption, None, OnErr, OnOk, Some, cond, false, length, not, slice_set, true, ◌||◌, ◌-◌, is_some, slice_index_or};
ghost use Rattle.std.specs.Bool.{Decides};
ghost use Rattle.iso_desk.specs.Crews.{awaits, called, looking, member_of, waiting};
ghost use Rattle.iso_desk.specs.Lines.{IsLineOf};
ghost use Rattle.iso_desk.specs.Marking.{has, room};
ghost use Rattle.iso_desk.specs.Places.{StandsIn, headed, line_in, lined_up, place_of};
ghost use Rattle.iso_desk.specs.declared.line.KeyLine.{KeyLine};
ghost use Rattle.iso_desk.specs.declared.line.Line.TheVariants.{Key};
ghost use Rattle.iso_desk.specs.declared.place.Place.TheVariants.{Closed, Loose, Open, Over, With};
ghost use Rattle.iso_floor.specs.KeyMarks.{AreRenewed};
ghost use Rattle.iso_floor.specs.Nexts.{HasNone, IsNextNode};
ghost use Rattle.iso_floor.specs.Schedulers.{HasNothingIn, IsFor, IsFree, IsMoved, KeepsLines, KeepsPlaces, KeepsSizes, KeepsStands, WaitRightly, is_entered, is_loose, loose_in, besides, next_taken, put, waiting_line, with_in, without};
ghost use Rattle.iso_floor.specs.Parties.{IsOwned, MayTry, StandRightly, owner_of};
ghost use Rattle.iso_floor.specs.Postings.{ClosesNone};
ghost use Rattle.iso_floor.specs.Remainders.{HaveLeft, HaveLeftBut, left_in};
ghost use Rattle.iso_floor.specs.Successions.{ComeInTurn, ComeInTurnBut, HasOwner, is_open, passed_in};
ghost use Rattle.iso_lifecycle.specs.declared.kind.BodyKind.TheVariants.{BeforeAll};
ghost use Rattle.iso_model.specs.declared.script.Mode.TheVariants.{Concurrent};
ghost use Rattle.iso_plan.specs.HeldNodes.{takes_in};
ghost use Rattle.iso_plan.specs.KeyGroups.{lead_locks};
ghost use Rattle.iso_plan.specs.KeyTable.{keys};
ghost use Rattle.iso_plan.specs.Modes.{mode};
ghost use Rattle.iso_plan.specs.Paths.{children, column};
ghost use Rattle.iso_plan.specs.Planned.{Planned};
ghost use Rattle.iso_plan.specs.RowView.{tree_of};
ghost use Rattle.iso_plan.specs.Tree.{Row};

use crate::keys::{HeldKeys, KEYS};
use crate::nodes::{children_of, is_concurrent, next_alone, parent_of};
use crate::offers::line_for;
use iso_desk::count::recounted;
use iso_desk::crew::Crew;
use iso_desk::line::{KeyLine, Line, Party};
use iso_desk::place::Place;
use iso_desk::scene::{Scene, has_nothing_for};
use iso_desk::table::Table;
use iso_lifecycle::kind::BodyKind;
use iso_model::access::Access;
use iso_plan::held_nodes::HeldNodes;
use iso_plan::lock::Lock;
use iso_plan::plan::Plan;
use std::alloc::{AllocError, Global};
use std::marker::Model;

/// The worker that owns the root.
const FIRST_WORKER: u32 = 0;

/// Where each node stands, who waits, and which keys are held.
#[derive(Drop)]
pub(crate) struct Scheduler {
    table: Table,
    crew: Crew,
    keys: HeldKeys,
    /// By node, how many of its children aren't over.
    left: Vec<usize>,
    /// By node, how many of its children were looked at for the next that its owner alone may enter.
    passed: Vec<usize>,
    /// By node, of a class that was opened up, its owner.
    owners: Vec<Option<u32>>,
    /// By node, whether it is a class that was entered in a turn, to be left open.
    shared: Vec<bool>,
    /// By worker, how many nodes are with it.
    busy: Vec<usize>,
    /// By worker, the class that it has just opened.
    opening: Vec<Option<u32>>,
    /// How many nodes are `Loose`.
    loose: usize,
    /// How many nodes stand in lines: mostly none, and then none is asked for what it calls.
    lined: usize,
    /// How often a class was opened up of which nodes were posted.
    rounds: u64,
    /// Whether a node was entered while it stood in a line: somebody came from outside.
    bypassed: bool,
}

impl Model for Scheduler {
    ghost use Rattle.std.specs.Prelude.{◌≡◌, ◌<◌, ℕ, length, slice_index_or, true};
    ghost use Rattle.iso_desk.specs.Crews.{member_of};
    ghost use Rattle.iso_floor.specs.Schedulers.{SchedulerView, loose_in, with_in};

    ghost Value = { SchedulerView };

    ghost view = { λ s. record {
      table = s.table;
      members = s.crew.members.items;
      keys = s.keys;
      rounds = s.rounds;
      owners = s.owners.items;
      passed = s.passed.items;
      left = s.left.items;
      bypassed = s.bypassed;
    } };

    ghost invariant = { λ s. record {
      crew : length s.crew.members.items ≡ s.table.workers;
      loose_are : s.loose ≡ loose_in s.table.places;
      busy_long : length s.busy.items ≡ s.table.workers;
      busy_are : (w : ℕ) → w < s.table.workers → slice_index_or s.busy.items w 0
          ≡ with_in s.table.places w;
      idle : (w : ℕ) → (member_of s.crew.members.items w).waits ≡ true
          → with_in s.table.places w ≡ 0;
    } };
}

impl Scheduler {
    /// Of a plan, whose root is open: its first SAME_THREAD child is worker 0's. It takes all
    /// memory that its calls need.
    pub(crate) fn new(alloc: Global, plan: &Plan, workers: u32) -> Result<Scheduler, AllocError>
        ensures sizes { IfOk result (IsFor (length plan.now.rows) workers) }
        ensures held { IfOk result (λ s. (k : ℕ) → has s.keys.held k ≡ false) }
        ensures written { IfOk result (λ s. (k : ℕ) → has s.keys.written k ≡ false) }
        ensures lines { IfOk result (λ s. (tree : List Row) → WaitRightly tree s.table.places) }
        ensures places { IfOk result (λ s. IsMoved 0 Open [] s.table.places) }
        ensures stands { IfOk result (λ s. StandRightly plan.now s.owners s.table.places) }
        ensures owners { IfOk result (λ s. (n v : ℕ) → owner_of s.owners n ≡ Some v
            → (n ≡ 0) × (v ≡ 0)) }
        ensures root { IfOk result (λ s. 0 < length plan.now.rows
            → place_of s.table.places 0 ≢ Closed) }
        ensures turns { IfOk result (λ s. 0 < length plan.now.rows → 0 < workers
            → ComeInTurn plan.now s) }
        ensures left { IfOk result (λ s. 0 < length plan.now.rows → 0 < workers
            → HaveLeft plan.now s) }
        ensures bypassed { IfOk result (λ s. s.bypassed ≡ false) }
    {
        let mut scheduler = Scheduler::closed(alloc, plan, workers)?;
        scheduler.open(plan, 0, FIRST_WORKER)?;
        Ok(scheduler)
    }

    /// Of a plan, whose nodes are all closed.
    fn closed(alloc: Global, plan: &Plan, workers: u32) -> Result<Scheduler, AllocError>
        ensures sizes { IfOk result (IsFor (length plan.now.rows) workers) }
        ensures held { IfOk result (λ s. (k : ℕ) → has s.keys.held k ≡ false) }
        ensures written { IfOk result (λ s. (k : ℕ) → has s.keys.written k ≡ false) }
        ensures lines { IfOk result (λ s. (tree : List Row) → WaitRightly tree s.table.places) }
        ensures places { IfOk result (λ s. (n : ℕ) → is_entered (place_of s.table.places n)
            ≡ false) }
        ensures stands { IfOk result (λ s. (p : Planned)
            → StandRightly p s.owners s.table.places) }
        ensures owners { IfOk result (λ s. (n : ℕ) → owner_of s.owners n ≡ None) }
        ensures turns { IfOk result (λ s. ComeInTurn plan.now s) }
        ensures left { IfOk result (λ s. HaveLeft plan.now s) }
        ensures bypassed { IfOk result (λ s. s.bypassed ≡ false) }
    {
        let nodes = plan.len() as usize;
        Ok(Scheduler {
            table: Table::new(alloc, plan.len(), workers)?,
            crew: Crew::new(alloc, workers)?,
            keys: HeldKeys::new(alloc)?,
            left: left_of(alloc, plan)?,
            passed: vec![in alloc; 0; nodes]?,
            owners: vec![in alloc; None; nodes]?,
            shared: vec![in alloc; false; nodes]?,
            busy: vec![in alloc; 0; workers as usize]?,
            opening: vec![in alloc; None; workers as usize]?,
            loose: 0,
            lined: 0,
            rounds: 0,
            bypassed: false,
        })
    }

    /// Whether every child of the root is over.
    pub(crate) fn is_done(&self) -> bool {
        self.left(0) == 0
    }

    /// How often a class was opened up of which nodes were posted.
    pub(crate) fn rounds(&self) -> u64
        ensures { result ≡ self.now.rounds }
    {
        self.rounds
    }

    /// Opens a class up for its owner: its next SAME_THREAD child is the owner's. Out of memory is
    /// answered only after 2^63 nodes were put in lines.
    pub(crate) fn open(&mut self, plan: &Plan, class: u32, owner: u32) -> Result<(), AllocError>
        ensures rest { self.new ≡ record self.old {
          table = self.new.table;
          owners = slice_set self.old.owners class (Some owner);
          passed = self.new.passed;
        } }
        ensures sizes { KeepsSizes self.old self.new }
        ensures lines { KeepsLines self.old self.new }
        ensures places { IsMoved class Open self.old.table.places
            self.new.table.places }
        ensures stands { ((v : ℕ) → owner_of self.old.owners class ≡ Some v → v ≡ owner)
            → StandRightly plan.now self.old.owners self.old.table.places
            → StandRightly plan.now self.new.owners self.new.table.places }
        ensures closes { ClosesNone self.old.table.places self.new.table.places }
        ensures opened { class < length self.old.table.places
            → place_of self.new.table.places class ≢ Closed }
        ensures turns { OnOk result (class < length plan.now.rows → owner < self.old.table.workers
            → ComeInTurn plan.now self.old → ComeInTurn plan.now self.new) }
        ensures left { OnOk result (class < length plan.now.rows → owner < self.old.table.workers
            → ComeInTurn plan.now self.old → HaveLeft plan.now self.old
            → HaveLeft plan.now self.new) }
    {
        self.own(class, owner);
        self.put(class, Place::Open);
        self.go_on_in(plan, class)?;
        // A child is left, which no contract says.
        self.end_after_last(class)
    }

    /// A node lies in a deque from now on.
    pub(crate) fn post(&mut self, node: u32)
        ensures step { self.new ≡ record self.old { table = put node Loose self.old.table } }
        ensures sizes { KeepsSizes self.old self.new }
        ensures lines { KeepsLines self.old self.new }
        ensures places { KeepsPlaces self.old self.new }
        ensures stands { KeepsStands self.old self.new }
    {
        self.put(node, Place::Loose);
    }

    /// Nodes of a class were posted.
    pub(crate) fn count_round(&mut self)
        ensures counted { self.old.rounds + 1 < 2 ^ 64 → self.new.rounds ≡ self.old.rounds + 1 }
        ensures same { self.new ≡ record self.old { rounds = self.new.rounds } }
        ensures sizes { KeepsSizes self.old self.new }
    {
        self.rounds = self.rounds.saturating_add(1);
    }

    /// Whether a node lies in a deque, or is in the hand of who took it there or out of a line.
    pub(crate) fn is_loose(&self, node: u32) -> bool
        ensures { result ≡ is_loose (place_of self.now.table.places node) }
    {
        is_loose(self.place(node))
    }

    /// The class that a worker has just opened, which is asked for once.
    pub(crate) fn take_opening(&mut self, worker: u32) -> Option<u32>
        ensures { self.new ≡ self.old }
    {
        self.opening.get_mut(worker as usize)?.take()
    }

    /// Whether a node is a class that was entered in a turn, to be left open.
    pub(crate) fn is_shared(&self, node: u32) -> bool {
        self.shared.get(node as usize).copied().unwrap_or(false)
    }

    /// A class was entered in a turn, to be left open.
    pub(crate) fn share(&mut self, class: u32)
        ensures { self.new ≡ self.old }
    {
        if let Some(shared) = self.shared.get_mut(class as usize) {
            *shared = true;
        }
    }

    /// The next node that waits for a worker, which leaves its line to be attempted or shut, and is
    /// in the worker's hand until then: the first of the worker's own line, else of one on offer.
    pub(crate) fn next_for(&mut self, worker: u32) -> Option<u32>
        ensures node { worker < self.old.table.workers
            → MatchOption result (HasNone self.old.table.places self.old.keys worker)
            (IsNextNode self.old.table.places self.old.keys worker) }
        ensures known { IfSome result (λ _. worker < self.old.table.workers) }
        ensures left { self.new ≡ record self.old { table = next_taken result self.old.table } }
        ensures sizes { KeepsSizes self.old self.new }
        ensures lines { KeepsLines self.old self.new }
        ensures places { KeepsPlaces self.old self.new }
    {
        if worker >= self.table.workers() {
            return None;
        }
        let line = line_for(&self.table, &self.keys, worker)?;
        let node = self.table.first(line)?;
        let _nodes = self.table.nodes();
        self.loose = recounted(self.loose, false, true);
        self.table.leave(node, line, Place::Loose);
        self.lined = self.lined.saturating_sub(1);
        Some(node)
    }

    /// A node that stands in no line waits for a key that is in its way. Out of memory is answered
    /// only after 2^63 nodes were put in lines.
    pub(crate) fn wait_for(
        &mut self,
        plan: &Plan,
        node: u32,
        lock: Lock,
        worker: u32,
    ) -> Result<(), AllocError>
        ensures waits { OnOk result (IsFree self.old.table.places node → node < length plan.now.rows
            → lock.key < 256 → worker < self.old.table.workers → self.new.table
            ≡ lined_up node (waiting_line (mode (tree_of plan.now) plan.now.settings node) worker
            lock) self.old.table) }
        ensures same { OnErr result (self.new ≡ self.old) }
        ensures rest { self.new ≡ record self.old { table = self.new.table } }
        ensures sizes { KeepsSizes self.old self.new }
        ensures lines { (tree : List Row)
            → takes_in lock.access lock.key (lead_locks tree node) ≡ true
            → WaitRightly tree self.old.table.places → WaitRightly tree self.new.table.places }
        ensures joins { (n : ℕ) (l : KeyLine) → n ≢ node
            → StandsIn self.new.table.places (Key l) n → StandsIn self.old.table.places (Key l) n }
        ensures places { KeepsPlaces self.old self.new }
        ensures stands { MayTry plan.now self.old.owners node worker
            → StandRightly plan.now self.old.owners self.old.table.places
            → StandRightly plan.now self.new.owners self.new.table.places }
        ensures closes { ClosesNone self.old.table.places self.new.table.places }
    {
        let party = if is_concurrent(plan, node) {
            Party::Everyone
        } else {
            Party::Worker(worker)
        };
        let line = KeyLine {
            party,
            key: lock.key,
            writes: lock.access == Access::Write,
        };
        if lock.key as usize >= KEYS || worker >= self.table.workers() || !self.is_free(node) {
            return Ok(());
        }
        self.line_up(node, Line::Key(line))
    }

    /// A worker entered a node: its keys are held.
    pub(crate) fn enter(&mut self, plan: &Plan, held: &HeldNodes<'_>, node: u32, worker: u32)
        requires { plan.now ≡ held.now.plan }
        ensures place { self.new ≡ record self.old {
          table = put node (With worker) self.old.table;
          keys = self.new.keys;
          members = self.new.members;
          bypassed = self.old.bypassed
              || is_some (line_in (place_of self.old.table.places node));
        } }
        ensures keys { node < length plan.now.rows → AreRenewed (tree_of plan.now) held.now.held
            (lead_locks (tree_of plan.now) node) self.old.keys self.new.keys }
        ensures past { length plan.now.rows ≤ node → self.new.keys ≡ self.old.keys }
        ensures sizes { KeepsSizes self.old self.new }
        ensures lines { KeepsLines self.old self.new }
    {
        self.bypassed = self.bypassed || self.place(node).is_in_line();
        self.rouse(worker);
        self.put(node, Place::With(worker));
        self.renew(plan, held, node);
    }

    /// A worker shut a class.
    pub(crate) fn shut(&mut self, class: u32, worker: u32)
        ensures step { self.new ≡ record self.old {
          table = put class (With worker) self.old.table;
          members = self.new.members;
        } }
        ensures sizes { KeepsSizes self.old self.new }
        ensures lines { KeepsLines self.old self.new }
    {
        self.rouse(worker);
        self.put(class, Place::With(worker));
    }

    /// A worker that has a node waits no more.
    fn rouse(&mut self, worker: u32)
        ensures awake { (member_of self.new.members worker).waits ≡ false }
        ensures rest { self.new ≡ record self.old { members = self.new.members } }
        ensures sizes { KeepsSizes self.old self.new }
    {
        if worker < self.table.workers() && self.crew.member(worker).waits {
            self.crew.wake(worker);
        }
    }

    /// A worker left a body of this kind: after the `before_all` of a class that is to be left open
    /// its worker opens it up or shuts it next, after the last body of a node the node is over. Out
    /// of memory is answered only after 2^63 nodes were put in lines.
    pub(crate) fn leave(
        &mut self,
        plan: &Plan,
        held: &HeldNodes<'_>,
        kind: BodyKind,
        node: u32,
        worker: u32,
    ) -> Result<(), AllocError>
        requires { plan.now ≡ held.now.plan }
        ensures stays { kind ≡ BeforeAll → self.new ≡ self.old }
        ensures keys { kind ≢ BeforeAll → node < length plan.now.rows
            → AreRenewed (tree_of plan.now) held.now.held
            (lead_locks (tree_of plan.now) node) self.old.keys self.new.keys }
        ensures past { length plan.now.rows ≤ node → self.new.keys ≡ self.old.keys }
        ensures sizes { KeepsSizes self.old self.new }
        ensures lines { KeepsLines self.old self.new }
        ensures places { kind ≢ BeforeAll → IsMoved node Over self.old.table.places
            self.new.table.places }
        ensures owners { self.new.owners ≡ self.old.owners }
        ensures stands { StandRightly plan.now self.old.owners self.old.table.places
            → StandRightly plan.now self.new.owners self.new.table.places }
        ensures closes { ClosesNone self.old.table.places self.new.table.places }
        ensures turns { OnOk result (ComeInTurn plan.now self.old → ComeInTurn plan.now self.new) }
        ensures left { OnOk result (ComeInTurn plan.now self.old → HaveLeft plan.now self.old
            → HaveLeft plan.now self.new) }
        ensures bypassed { self.new.bypassed ≡ self.old.bypassed }
    {
        match kind {
            BodyKind::BeforeAll => {
                self.leave_open(node, worker);
                Ok(())
            }
            BodyKind::Test | BodyKind::AfterAll => self.finish(plan, held, node),
        }
    }

    /// A worker left the `before_all` of a class: where it is to be left open, its worker shuts it
    /// or opens it up next.
    fn leave_open(&mut self, class: u32, worker: u32)
        ensures { self.new ≡ self.old }
    {
        if self.is_shared(class)
            && let Some(opening) = self.opening.get_mut(worker as usize)
        {
            *opening = Some(class);
        }
    }

    /// A node's last body was left: it is over, and its keys are as the nodes hold them that are
    /// held still. In a class that is open the next child is the owner's, and so is the class
    /// after its last. Out of memory is answered only after 2^63 nodes were put in lines.
    fn finish(&mut self, plan: &Plan, held: &HeldNodes<'_>, node: u32) -> Result<(), AllocError>
        requires { plan.now ≡ held.now.plan }
        ensures keys { node < length plan.now.rows → AreRenewed (tree_of plan.now) held.now.held
            (lead_locks (tree_of plan.now) node) self.old.keys self.new.keys }
        ensures past { length plan.now.rows ≤ node → self.new.keys ≡ self.old.keys }
        ensures rest { self.new ≡ record self.old {
          table = self.new.table;
          keys = self.new.keys;
          passed = self.new.passed;
          left = self.new.left;
        } }
        ensures sizes { KeepsSizes self.old self.new }
        ensures lines { KeepsLines self.old self.new }
        ensures places { IsMoved node Over self.old.table.places
            self.new.table.places }
        ensures stands { StandRightly plan.now self.old.owners self.old.table.places
            → StandRightly plan.now self.new.owners self.new.table.places }
        ensures closes { ClosesNone self.old.table.places self.new.table.places }
        ensures turns { OnOk result (ComeInTurn plan.now self.old → ComeInTurn plan.now self.new) }
        ensures left { OnOk result (ComeInTurn plan.now self.old → HaveLeft plan.now self.old
            → HaveLeft plan.now self.new) }
    {
        let class = parent_of(plan, node);
        self.end(plan, held, node, class);
        self.go_on_after(plan, node, class)
    }

    /// A child of a class is over.
    fn end(&mut self, plan: &Plan, held: &HeldNodes<'_>, node: u32, class: u32)
        requires { plan.now ≡ held.now.plan }
        ensures keys { node < length plan.now.rows → AreRenewed (tree_of plan.now) held.now.held
            (lead_locks (tree_of plan.now) node) self.old.keys self.new.keys }
        ensures past { length plan.now.rows ≤ node → self.new.keys ≡ self.old.keys }
        ensures rest { self.new ≡ record self.old {
          table = self.new.table;
          keys = self.new.keys;
          left = slice_set self.old.left class (left_in self.old.left class - 1);
        } }
        ensures sizes { KeepsSizes self.old self.new }
        ensures lines { KeepsLines self.old self.new }
        ensures places { IsMoved node Over self.old.table.places
            self.new.table.places }
        ensures stands { KeepsStands self.old self.new }
        ensures closes { ClosesNone self.old.table.places self.new.table.places }
    {
        self.put(node, Place::Over);
        self.renew(plan, held, node);
        self.count_child(class);
    }

    /// What comes after a child of a class that is open: the next one that its owner alone may
    /// enter, where the child was one, and the class itself after its last.
    fn go_on_after(&mut self, plan: &Plan, node: u32, class: u32) -> Result<(), AllocError>
        ensures rest { self.new ≡ record self.old {
          table = self.new.table;
          passed = self.new.passed;
        } }
        ensures sizes { KeepsSizes self.old self.new }
        ensures lines { KeepsLines self.old self.new }
        ensures places { KeepsPlaces self.old self.new }
        ensures stands { StandRightly plan.now self.old.owners self.old.table.places
            → StandRightly plan.now self.new.owners self.new.table.places }
        ensures closes { ClosesNone self.old.table.places self.new.table.places }
        ensures turns { OnOk result (ComeInTurnBut (λ m. m ≡ class) plan.now self.old
            → (mode (tree_of plan.now) plan.now.settings node ≡ Concurrent
            → ComeInTurn plan.now self.old) → ComeInTurn plan.now self.new) }
        ensures left { OnOk result (ComeInTurnBut (λ m. m ≡ class) plan.now self.old
            → HaveLeftBut (λ m. m ≡ class) plan.now self.old → HaveLeft plan.now self.new) }
    {
        if !is_open(self.place(class)) {
            return Ok(());
        }
        if is_concurrent(plan, node) {
            return self.end_after_last(class);
        }
        self.go_on_in(plan, class)?;
        self.end_after_last(class)
    }

    /// A class of which no child is left is its owner's.
    fn end_after_last(&mut self, class: u32) -> Result<(), AllocError>
        ensures rest { self.new ≡ record self.old { table = self.new.table } }
        ensures sizes { KeepsSizes self.old self.new }
        ensures lines { KeepsLines self.old self.new }
        ensures places { KeepsPlaces self.old self.new }
        ensures stands { KeepsStands self.old self.new }
        ensures closes { ClosesNone self.old.table.places self.new.table.places }
        ensures ended { OnOk result (HasOwner self.old.owners self.old.table.workers class
            → place_of self.old.table.places class ≡ Open → 0 < class
            → left_in self.old.left class ≡ 0 → place_of self.new.table.places class ≢ Open) }
    {
        if class > 0 && self.left(class) == 0 {
            self.give_to_owner(class, class)
        } else {
            Ok(())
        }
    }

    /// Whether something waits for a worker that needs no look into the deques: a class that it has
    /// just opened, or a node in its own line or on offer.
    pub(crate) fn calls_for(&self, worker: u32) -> bool {
        if worker >= self.table.workers() {
            return false;
        }
        let opened = self.opening.get(worker as usize).copied().flatten();
        if opened.is_some() {
            return true;
        }
        self.lined > 0 && line_for(&self.table, &self.keys, worker).is_some()
    }

    /// A worker begins to wait with what it has seen, if no node is with it.
    pub(crate) fn begin_wait(&mut self, worker: u32, seen: Option<u64>)
        ensures waits { worker < self.old.table.workers → self.new.members
            ≡ cond (with_in self.old.table.places worker == 0)
            (waiting worker seen self.old.members) self.old.members }
        ensures rest { self.new ≡ record self.old { members = self.new.members } }
        ensures sizes { KeepsSizes self.old self.new }
    {
        if worker < self.table.workers() && self.busy[worker as usize] == 0 {
            self.crew.wait(worker, seen);
        }
    }

    /// A worker waits no more.
    pub(crate) fn end_wait(&mut self, worker: u32)
        ensures looks { worker < self.old.table.workers → self.new.members
            ≡ looking worker self.old.members }
        ensures rest { self.new ≡ record self.old { members = self.new.members } }
        ensures sizes { KeepsSizes self.old self.new }
    {
        if worker < self.table.workers() {
            self.crew.wake(worker);
        }
    }

    /// Whether a worker that waits goes on to wait, where the run is over or isn't: it has nothing
    /// to wake for, and no node is with it. Then it may be called again.
    pub(crate) fn stays(&mut self, worker: u32, is_over: bool) -> bool
        ensures nothing { worker < self.old.table.workers → Decides result
            ((with_in self.old.table.places worker ≡ 0)
            × HasNothingIn self.old is_over worker (member_of self.old.members worker).seen) }
        ensures waits { worker < self.old.table.workers → self.new.members
            ≡ cond result (waiting worker (member_of self.old.members worker).seen self.old.members)
            self.old.members }
        ensures rest { self.new ≡ record self.old { members = self.new.members } }
        ensures sizes { KeepsSizes self.old self.new }
    {
        if worker >= self.table.workers() {
            return false;
        }
        let seen = self.crew.member(worker).seen;
        let stays = self.busy[worker as usize] == 0
            && has_nothing_for(&self.scene(is_over), worker, seen);
        if stays {
            self.crew.wait(worker, seen);
        }
        stays
    }

    /// Calls a worker that waits, wasn't called, and has something to wake for, if there is one,
    /// where the run is over or isn't.
    #[inline(always)]
    pub(crate) fn call(&mut self, is_over: bool) -> Option<u32>
        ensures whom { MatchOption result ((w : ℕ) → w < length self.old.members
            → awaits (member_of self.old.members w) ≡ true
            → HasNothingIn self.old is_over w (member_of self.old.members w).seen)
            (λ w. (awaits (member_of self.old.members w) ≡ true)
            × ¬ HasNothingIn self.old is_over w (member_of self.old.members w).seen) }
        ensures marked { self.new ≡ record self.old { members = called result self.old.members } }
        ensures idle { (w : ℕ) → (member_of self.old.members w).waits ≡ true
            → with_in self.old.table.places w ≡ 0 }
        ensures sizes { KeepsSizes self.old self.new }
    {
        let scene = Scene {
            table: &self.table,
            held: self.keys.held(),
            written: self.keys.written(),
            is_over,
            is_loose: self.loose != 0,
            rounds: self.rounds,
        };
        self.crew.call(&scene)
    }

    /// What is to be seen of it.
    fn scene(&self, is_over: bool) -> Scene<'_>
        ensures table { result.table.now ≡ self.now.table }
        ensures held { result.held.now ≡ self.now.keys.held }
        ensures written { result.written.now ≡ self.now.keys.written }
        ensures held_room { 256 ≤ room result.held.now }
        ensures written_room { 256 ≤ room result.written.now }
        ensures over { result.is_over ≡ is_over }
        ensures loose { result.is_loose ≡ not (loose_in self.now.table.places == 0) }
        ensures rounds { result.rounds ≡ self.now.rounds }
    {
        Scene {
            table: &self.table,
            held: self.keys.held(),
            written: self.keys.written(),
            is_over,
            is_loose: self.loose != 0,
            rounds: self.rounds,
        }
    }

    /// Where a node stands; one that isn't of the plan is closed.
    fn place(&self, node: u32) -> Place
        ensures { result ≡ place_of self.now.table.places node }
    {
        if (node as usize) < self.table.nodes() {
            self.table.place(node)
        } else {
            Place::Closed
        }
    }

    /// Whether a node is of the plan and stands in no line.
    fn is_free(&self, node: u32) -> bool
        ensures free { Decides result (IsFree self.now.table.places node) }
        ensures few { length self.now.table.places < 2 ^ 64 }
    {
        (node as usize) < self.table.nodes() && !self.table.place(node).is_in_line()
    }

    /// Gives a node that stands in no line a place in none.
    fn put(&mut self, node: u32, place: Place)
        requires line { line_in place ≡ None }
        requires awake { (w : ℕ) → place ≡ With w
            → (member_of self.old.members w).waits ≡ false }
        ensures step { self.new ≡ record self.old { table = put node place self.old.table } }
        ensures sizes { KeepsSizes self.old self.new }
        ensures lines { KeepsLines self.old self.new }
        ensures places { IsMoved node place self.old.table.places
            self.new.table.places }
        ensures stands { KeepsStands self.old self.new }
    {
        if self.is_free(node) {
            let was = self.table.place(node);
            self.loose = recounted(self.loose, is_loose(was), is_loose(place));
            leave_worker(&mut self.busy, was);
            join_worker(&mut self.busy, place);
            self.table.put(node, place);
        }
    }

    /// Puts a node that stands in no line at the end of one.
    fn line_up(&mut self, node: u32, line: Line) -> Result<(), AllocError>
        requires free { IsFree self.old.table.places node }
        requires line { IsLineOf self.old.table.workers line }
        ensures stands { OnOk result (self.new.table ≡ lined_up node line self.old.table) }
        ensures same { OnErr result (self.new ≡ self.old) }
        ensures rest { self.new ≡ record self.old { table = self.new.table } }
        ensures sizes { KeepsSizes self.old self.new }
    {
        let was = self.table.place(node);
        self.table.line_up(node, line)?;
        self.lined = self.lined.saturating_add(1);
        self.loose = recounted(self.loose, is_loose(was), false);
        leave_worker(&mut self.busy, was);
        Ok(())
    }

    /// Puts a node that stands in no line at the front of one.
    fn line_up_first(&mut self, node: u32, line: Line) -> Result<(), AllocError>
        requires free { IsFree self.old.table.places node }
        requires line { IsLineOf self.old.table.workers line }
        ensures stands { OnOk result (self.new.table ≡ headed node line self.old.table) }
        ensures same { OnErr result (self.new ≡ self.old) }
        ensures rest { self.new ≡ record self.old { table = self.new.table } }
        ensures sizes { KeepsSizes self.old self.new }
    {
        let was = self.table.place(node);
        self.table.line_up_first(node, line)?;
        self.lined = self.lined.saturating_add(1);
        self.loose = recounted(self.loose, is_loose(was), false);
        leave_worker(&mut self.busy, was);
        Ok(())
    }

    /// The leads of a node that was entered or is over are as the nodes hold them that are held.
    fn renew(&mut self, plan: &Plan, held: &HeldNodes<'_>, node: u32)
        requires { plan.now ≡ held.now.plan }
        ensures keys { node < length plan.now.rows → AreRenewed (tree_of plan.now) held.now.held
            (lead_locks (tree_of plan.now) node) self.old.keys self.new.keys }
        ensures past { length plan.now.rows ≤ node → self.new.keys ≡ self.old.keys }
        ensures rest { self.new ≡ record self.old { keys = self.new.keys } }
        ensures sizes { KeepsSizes self.old self.new }
    {
        if node < plan.len() {
            self.keys.renew(held, plan.lead_locks(node));
        }
    }

    /// A worker owns a class from now on.
    fn own(&mut self, class: u32, owner: u32)
        ensures { self.new ≡ record self.old {
          owners = slice_set self.old.owners class (Some owner);
        } }
    {
        if let Some(kept) = self.owners.get_mut(class as usize) {
            *kept = Some(owner);
        }
    }

    /// The owner of a class that was opened up.
    fn owner(&self, class: u32) -> Option<u32>
        ensures { result ≡ owner_of self.now.owners class }
    {
        let class = class as usize;
        if class < self.owners.len() {
            self.owners[class]
        } else {
            None
        }
    }

    /// One child of a class more is over.
    fn count_child(&mut self, class: u32)
        ensures { self.new ≡ record self.old {
          left = slice_set self.old.left class (left_in self.old.left class - 1);
        } }
    {
        if let Some(left) = self.left.get_mut(class as usize) {
            *left = left.saturating_sub(1);
        }
    }

    /// How many children of a class aren't over.
    fn left(&self, class: u32) -> usize
        ensures { result ≡ left_in self.now.left class }
    {
        let class = class as usize;
        if class < self.left.len() {
            self.left[class]
        } else {
            0
        }
    }

    /// How many children of a class were looked at for the next that its owner alone may enter.
    fn passed(&self, class: u32) -> usize
        ensures { result ≡ passed_in self.now.passed class }
    {
        let class = class as usize;
        if class < self.passed.len() {
            self.passed[class]
        } else {
            0
        }
    }

    /// The first `count` children of a class were looked at.
    fn pass(&mut self, class: u32, count: usize)
        ensures { self.new ≡ record self.old {
          passed = slice_set self.old.passed class count;
        } }
    {
        if let Some(passed) = self.passed.get_mut(class as usize) {
            *passed = count;
        }
    }

    /// The next child of a class that its owner alone may enter, if there is one, is the owner's.
    fn go_on_in(&mut self, plan: &Plan, class: u32) -> Result<(), AllocError>
        ensures rest { self.new ≡ record self.old {
          table = self.new.table;
          passed = self.new.passed;
        } }
        ensures sizes { KeepsSizes self.old self.new }
        ensures lines { KeepsLines self.old self.new }
        ensures places { KeepsPlaces self.old self.new }
        ensures stands { StandRightly plan.now self.old.owners self.old.table.places
            → StandRightly plan.now self.new.owners self.new.table.places }
        ensures closes { ClosesNone self.old.table.places self.new.table.places }
        ensures turns { OnOk result (class < length plan.now.rows
            → HasOwner self.old.owners self.old.table.workers class
            → ComeInTurnBut (λ m. m ≡ class) plan.now self.old → ComeInTurn plan.now self.new) }
    {
        let children = children_of(plan, class);
        match next_alone(plan, children, self.passed(class)) {
            Some(place) => {
                self.pass(class, place + 1);
                self.give_to_owner(class, children[place])
            }
            None => {
                self.pass(class, children.len());
                Ok(())
            }
        }
    }

    /// A node that stands in no line is for a class's owner to attempt or to shut.
    fn give_to_owner(&mut self, class: u32, node: u32) -> Result<(), AllocError>
        ensures rest { self.new ≡ record self.old { table = self.new.table } }
        ensures sizes { KeepsSizes self.old self.new }
        ensures lines { KeepsLines self.old self.new }
        ensures places { KeepsPlaces self.old self.new }
        ensures stands { (p : Planned) → ((v : ℕ) → owner_of self.old.owners class ≡ Some v
            → IsOwned p self.old.owners node v)
            → StandRightly p self.old.owners self.old.table.places
            → StandRightly p self.new.owners self.new.table.places }
        ensures closes { ClosesNone self.old.table.places self.new.table.places }
        ensures given { OnOk result (node < length self.old.table.places
            → HasOwner self.old.owners self.old.table.workers class
            → line_in (place_of self.new.table.places node) ≢ None) }
    {
        let Some(owner) = self.owner(class) else {
            return Ok(())
        };
        if owner >= self.table.workers() || !self.is_free(node) {
            return Ok(());
        }
        self.line_up_first(node, Line::Own(owner))
    }
}

/// How many children each node has.
fn left_of(alloc: Global, plan: &Plan) -> Result<Vec<usize>, AllocError>
    ensures { IfOk result (λ left. left.items
        ≡ column (λ n. length (children (tree_of plan.now) n)) (length plan.now.rows)) }
{
    let mut left = Vec::with_capacity(alloc, plan.len() as usize)?;
    'nodes: for node in 0..plan.len() {
        left.push(plan.children(node).len())?;
    }
    Ok(left)
}

/// A node leaves this place: if it was with a worker, one less is.
fn leave_worker(busy: &mut Vec<usize>, place: Place)
    ensures { busy.new.items ≡ without place busy.old.items }
{
    if let Place::With(worker) = place {
        let worker = worker as usize;
        if worker < busy.len() {
            busy[worker] = busy[worker].saturating_sub(1);
        }
    }
}

/// A node gets this place: if it is with a worker, one more is.
fn join_worker(busy: &mut Vec<usize>, place: Place)
    requires { (w : ℕ) → place ≡ With w → slice_index_or busy.old.items w 0 + 1 < 2 ^ 64 }
    ensures { busy.new.items ≡ besides place busy.old.items }
{
    if let Place::With(worker) = place {
        let worker = worker as usize;
        if worker < busy.len() {
            busy[worker] += 1;
        }
    }
}

/// Whether a place is an open class's.
fn is_open(place: Place) -> bool
    ensures { result ≡ is_open place }
{
    matches!(place, Place::Open)
}

/// Whether a place is a loose node's.
fn is_loose(place: Place) -> bool
    ensures { result ≡ is_loose place }
{
    matches!(place, Place::Loose)
}
