//! Which event is refused where all nodes and workers stand so, and why: the kinds of refusal, each
//! a test of its own.
ghost use Rattle.std.specs.Prelude.{◌≡◌, ◌<◌, None, false, option_map};
ghost use Rattle.iso_isolation.specs.Events as E;
ghost use Rattle.iso_isolation.specs.Refusals as Why;
ghost use Rattle.iso_model.specs.Resources.{Resources};
ghost use Rattle.iso_plan.specs.Modes.{mode};
ghost use Rattle.iso_plan.specs.RowView.{tree_of};
ghost use Rattle.iso_standing.specs.CodeEvents.{event_of, refused_of};
ghost use Rattle.iso_standing.specs.KindsAt.{Refuses, at, before_locks, booking_kinds, first_kinds};
ghost use Rattle.iso_standing.specs.Passed.{is_due};
ghost use Rattle.iso_standing.specs.Standings.{CanTake, EndsAs, Fits, HasBody, LooksLike, TellsEnd, nodes_in, phase_at, refusal_in, workers_in};
ghost use Rattle.iso_suites.specs.PlanSuites.{is_same_thread};
ghost use Rattle.iso_suites.specs.ScriptLanguage.{scripts};
ghost use Rattle.iso_suites.specs.SuiteStates.{RunState};

use crate::event::Event;
use crate::refused::Refused;
use crate::standing::Standing;
use iso_model::script::Mode;
use iso_plan::conflict::{Holders, lowest_in_the_way};

impl<'a> Standing<'a> {
    /// Why an event is refused, if it is: of the kinds that the event tests, the first that
    /// applies. `ended` tells of a Step and a Leave whether the worker's body has ended, where it
    /// has one. Takes no memory.
    pub fn refusal(&self, event: Event, ended: bool) -> Option<Refused>
        ensures fits { result ≡ None → CanTake self.now event }
        ensures kind { (start : Resources) (s : RunState) → LooksLike self.now s
            → TellsEnd self.now s event ended
            → refusal_in self.now start s (event_of event) ≡ option_map refused_of result }
    {
        match event {
            Event::Enter { worker, node } => self.refusal_of_enter(worker, node),
            Event::Step { worker } => self.refusal_of_step(worker, ended),
            Event::Leave { worker } => self.refusal_of_leave(worker, ended),
            Event::Shut { worker, node } => self.refusal_of_shut(worker, node),
        }
    }

    /// Why an Enter is refused, if it is. Takes no memory.
    pub fn refusal_of_enter(&self, worker: u32, node: u32) -> Option<Refused>
        ensures fits { result ≡ None → Fits self.now worker node }
        ensures kind { (start : Resources) (s : RunState) → LooksLike self.now s
            → refusal_in self.now start s (E.Enter worker node) ≡ option_map refused_of result }
    {
        if let Some(refused) = self.refusal_before_locks(worker, node) {
            return Some(refused);
        }
        self.lock_held(node)
    }

    /// Why an Enter is refused before locks are compared, if it is: of the kinds that it tests
    /// before them, the first that applies. Takes no memory.
    pub fn refusal_before_locks(&self, worker: u32, node: u32) -> Option<Refused>
        ensures fits { result ≡ None → Fits self.now worker node }
        ensures kind { (start : Resources) (s : RunState) → LooksLike self.now s
            → before_locks self.now start s worker node ≡ option_map refused_of result }
    {
        if let Some(refused) = self.refusal_of_place(worker, node) {
            return Some(refused);
        }
        if self.parent_closed(node) {
            return Some(Refused::ParentClosed);
        }
        if self.already_entered(node) {
            return Some(Refused::AlreadyEntered);
        }
        if self.not_owner_of_parent(worker, node) {
            return Some(Refused::NotOwner);
        }
        if self.earlier_sibling(node) {
            return Some(Refused::EarlierSibling);
        }
        None
    }

    /// Why a Step is refused, if it is. `ended` tells whether the worker's body has ended, where it
    /// has one.
    fn refusal_of_step(&self, worker: u32, ended: bool) -> Option<Refused>
        ensures fits { result ≡ None → HasBody self.now worker }
        ensures kind { (start : Resources) (s : RunState) → LooksLike self.now s
            → EndsAs self.now s worker ended
            → refusal_in self.now start s (E.Step worker) ≡ option_map refused_of result }
    {
        if let Some(refused) = self.refusal_of_booking(worker) {
            return Some(refused);
        }
        if ended {
            return Some(Refused::BodyEnded);
        }
        None
    }

    /// Why a Leave is refused, if it is. `ended` tells whether the worker's body has ended, where
    /// it has one.
    fn refusal_of_leave(&self, worker: u32, ended: bool) -> Option<Refused>
        ensures fits { result ≡ None → HasBody self.now worker }
        ensures kind { (start : Resources) (s : RunState) → LooksLike self.now s
            → EndsAs self.now s worker ended
            → refusal_in self.now start s (E.Leave worker) ≡ option_map refused_of result }
    {
        if let Some(refused) = self.refusal_of_booking(worker) {
            return Some(refused);
        }
        if !ended {
            return Some(Refused::BodyNotEnded);
        }
        None
    }

    /// Why what a worker's body came to can't be booked, if it can't: of the kinds that a Leave
    /// tests but for the end of the body, the first that applies. A Step tests them first, too.
    /// Takes no memory.
    pub fn refusal_of_booking(&self, worker: u32) -> Option<Refused>
        ensures fits { result ≡ None → HasBody self.now worker }
        ensures kind { (start : Resources) (s : RunState) → LooksLike self.now s
            → booking_kinds self.now start s worker ≡ option_map refused_of result }
    {
        if self.is_stopped() {
            return Some(Refused::Stopped);
        }
        if worker as usize >= self.workers() {
            return Some(Refused::NoWorker);
        }
        if !self.has_body(worker) {
            return Some(Refused::NoBody);
        }
        None
    }

    /// Why a Shut is refused, if it is. Takes no memory.
    pub fn refusal_of_shut(&self, worker: u32, node: u32) -> Option<Refused>
        ensures fits { result ≡ None → Fits self.now worker node }
        ensures kind { (start : Resources) (s : RunState) → LooksLike self.now s
            → refusal_in self.now start s (E.Shut worker node) ≡ option_map refused_of result }
    {
        if let Some(refused) = self.refusal_of_place(worker, node) {
            return Some(refused);
        }
        if self.not_class(node) {
            return Some(Refused::NotClass);
        }
        if !self.phase(node).is_at_rest() {
            return Some(Refused::NotOpen);
        }
        if self.not_owner(worker, node) {
            return Some(Refused::NotOwner);
        }
        if self.children_left(node) {
            return Some(Refused::ChildrenLeft);
        }
        None
    }

    /// What Enter and Shut test first: the run, the worker and the node by themselves.
    fn refusal_of_place(&self, worker: u32, node: u32) -> Option<Refused>
        ensures kinds { (start : Resources) (s : RunState) → LooksLike self.now s
            → first_kinds self.now start s worker node ≡ option_map refused_of result }
        ensures worker { result ≡ None → worker < workers_in self.now }
        ensures node { result ≡ None → node < nodes_in self.now }
    {
        if self.is_stopped() {
            return Some(Refused::Stopped);
        }
        if worker as usize >= self.workers() {
            return Some(Refused::NoWorker);
        }
        if node >= self.plan().len() {
            return Some(Refused::NoNode);
        }
        if self.has_body(worker) {
            return Some(Refused::WorkerBusy);
        }
        None
    }

    /// Whether a node has a parent that isn't open.
    fn parent_closed(&self, node: u32) -> bool
        requires { node < nodes_in self.now }
        ensures { Refuses self.now (Why.parent_closed scripts) node result Why.ParentClosed }
    {
        node != 0 && !self.phase(self.parent(node)).is_open()
    }

    /// Whether a node is the root, or doesn't wait any more.
    fn already_entered(&self, node: u32) -> bool
        requires { node < nodes_in self.now }
        ensures kind { Refuses self.now (Why.already_entered scripts) node result
            Why.AlreadyEntered }
        ensures inner { result ≡ false → 0 < node }
    {
        node == 0 || !self.phase(node).is_waiting()
    }

    /// Whether a node is SAME_THREAD and another worker owns its parent.
    fn not_owner_of_parent(&self, worker: u32, node: u32) -> bool
        requires node { node < nodes_in self.now }
        requires inner { 0 < node }
        ensures { Refuses self.now (λ x workers s. Why.not_owner_of_parent scripts x workers s
            worker) node result Why.NotOwner }
    {
        self.is_same_thread(node) && self.owner(self.parent(node)) != worker
    }

    /// Whether a node is SAME_THREAD and an earlier SAME_THREAD sibling isn't finished.
    fn earlier_sibling(&self, node: u32) -> bool
        requires node { node < nodes_in self.now }
        requires inner { 0 < node }
        ensures { Refuses self.now (Why.earlier_sibling scripts) node result Why.EarlierSibling }
    {
        self.is_same_thread(node) && self.has_unfinished_sibling(node)
    }

    /// Whether an earlier SAME_THREAD sibling of a node isn't finished. It goes over the siblings
    /// that aren't passed, up to the node, since they come in order, or the first that is due.
    fn has_unfinished_sibling(&self, node: u32) -> bool
        requires node { node < nodes_in self.now }
        requires inner { 0 < node }
        ensures { (start : Resources) (s : RunState) → LooksLike self.now s
            → at self.now start s (Why.has_unfinished_sibling scripts) node ≡ result }
    {
        let parent = self.parent(node);
        let first = self.passed(parent) as usize;
        let left = &self.plan().children(parent)[first..];
        for sibling in left {
            if *sibling >= node {
                return false;
            }
            if self.is_due(*sibling) {
                return true;
            }
        }
        false
    }

    /// Whether a node is SAME_THREAD and isn't finished.
    pub(crate) fn is_due(&self, node: u32) -> bool
        requires { node < nodes_in self.now }
        ensures { result ≡ is_due self.now.plan self.now.phases node }
    {
        self.is_same_thread(node) && !self.phase(node).is_finished()
    }

    /// Whether a node is SAME_THREAD.
    fn is_same_thread(&self, node: u32) -> bool
        requires { node < nodes_in self.now }
        ensures { result ≡ is_same_thread
            (mode (tree_of self.now.plan) self.now.plan.settings node) }
    {
        matches!(self.plan().mode(node), Mode::SameThread)
    }

    /// The lowest entered, unfinished node that conflicts with a node, as what refuses it.
    fn lock_held(&self, node: u32) -> Option<Refused>
        requires { node < nodes_in self.now }
        ensures { (start : Resources) (s : RunState) → LooksLike self.now s
            → at self.now start s (Why.lock_held scripts) node ≡ option_map refused_of result }
    {
        if !self.excludes(node) {
            return None;
        }
        match lowest_in_the_way(self.plan(), self, node) {
            Some(held) => Some(Refused::LockHeld(held)),
            None => None,
        }
    }

    /// Whether a node is the root or a test.
    fn not_class(&self, node: u32) -> bool
        requires { node < nodes_in self.now }
        ensures kind { Refuses self.now (Why.not_class scripts) node result Why.NotClass }
        ensures inner { result ≡ false → 0 < node }
    {
        node == 0 || self.plan().is_test(node)
    }

    /// Whether another worker owns a class.
    fn not_owner(&self, worker: u32, node: u32) -> bool
        requires { node < nodes_in self.now }
        ensures { Refuses self.now (λ x workers s. Why.not_owner scripts x workers s worker) node
            result Why.NotOwner }
    {
        self.owner(node) != worker
    }

    /// Whether a class is open and a child isn't finished.
    fn children_left(&self, node: u32) -> bool
        requires { node < nodes_in self.now }
        ensures { Refuses self.now (Why.children_left scripts) node result Why.ChildrenLeft }
    {
        self.phase(node).is_open() && self.has_unfinished_child(node)
    }

    /// Whether a child of a class isn't finished. It goes over the children.
    fn has_unfinished_child(&self, node: u32) -> bool
        requires { node < nodes_in self.now }
        ensures { (start : Resources) (s : RunState) → LooksLike self.now s
            → at self.now start s (Why.has_unfinished_child scripts) node ≡ result }
    {
        for child in self.plan().children(node) {
            if !self.phase(*child).is_finished() {
                return true;
            }
        }
        false
    }
}

impl<'a> Holders for Standing<'a> {
    ghost use Rattle.iso_isolation.specs.States.{is_held};
    ghost use Rattle.iso_standing.specs.Phases.{bare};
    ghost use Rattle.iso_standing.specs.Standings.{nodes_in, phase_at};

    ghost nodes = { nodes_in };

    ghost held = { λ v node. is_held (bare (phase_at v node)) };

    fn is_held(&self, node: u32) -> bool {
        self.phase(node).is_held()
    }
}
