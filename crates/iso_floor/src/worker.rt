//! What a worker does with the nodes that it enters, outside the lock.
ghost use Rattle.std.specs.Prelude.{◌≡◌, ◌<◌, ◌||◌, IfOk, OnOk, false, length, true};
ghost use Rattle.iso_book.specs.Leaves.{MayBring, after_leave};
ghost use Rattle.iso_floor.specs.Turning.{GoesOnFree};
ghost use Rattle.iso_floor.specs.Workers.{CanPerform, FurtherFromEntry, IsAtEntry, IsEnclosed, IsEnteredFree, IsFree, IsInside, IsLastOf, IsShutFree};
ghost use Rattle.iso_lifecycle.specs.Subjects.{subject};
ghost use Rattle.iso_locks.specs.Trays.{GoesOn};
ghost use Rattle.iso_plan.specs.Locks.{takes_write};
ghost use Rattle.iso_plan.specs.Paths.{is_test, parent, row_at};
ghost use Rattle.iso_plan.specs.RowView.{tree_of};
ghost use Rattle.iso_serial.specs.OpenedTrays.{IsTrayAfter, StandsApart};

use crate::floor::Floor;
use crate::ground::Ground;
use crate::halt::Halt;
use crate::refusal::{Meaning, meant_by};
use crate::seat::Seat;
use crate::turn::Turn;
use iso_lifecycle::body::Body;
use iso_lifecycle::done::Done;
use iso_lifecycle::gate::Gate;
use iso_lifecycle::kind::BodyKind;
use iso_plan::laws;
use iso_plan::plan::Plan;
use iso_standing::refused::CoreFault;
use std::alloc::Global;
use std::snapshot::Snapshot;
use std::sync::Wait;

/// A worker at its floor.
///
/// A node that takes no key for READ_WRITE is opened and left open, so that any worker may take
/// its children. One that does is done whole, depth first, by the worker that entered it: all its
/// descendants look at what it changes.
#[derive(Clone, Copy)]
pub(crate) struct Worker<'w, 'a, G: Ground, R, T> {
    pub(crate) rt: &'w R,
    pub(crate) alloc: Global,
    pub(crate) floor: &'w Floor<'a, G>,
    pub(crate) gate: &'w T,
}

impl<'w, 'a, G: Ground, R: Wait, T: Gate> Worker<'w, 'a, G, R, T> {
    /// Goes on with a node that was entered with a tray that had no value: does a node whole that
    /// takes a key for READ_WRITE, else a test, or opens a class. The tray has no value again,
    /// unless the worker has found what to do next.
    pub(crate) fn begin_entered(
        &self,
        seat: &mut Seat<'a, G>,
        node: u32,
    ) -> Result<Option<Turn>, Halt>
        requires { IsEnteredFree node seat.old.tray }
        ensures { IfOk result (λ next. GoesOnFree next seat.new) }
    {
        let plan = self.floor.plan();
        laws::nodes_are_a_tree(plan);
        iso_locks::laws::lent_nodes_find_their_values(seat.tray());
        if plan.is_writer(node) {
            self.finish(seat, node)?;
            return Ok(None);
        }
        if plan.is_test(node) {
            self.perform_and_turn(seat, node, BodyKind::Test)
        } else {
            self.perform_and_turn(seat, node, BodyKind::BeforeAll)
        }
    }

    /// Ends a class that was shut with a tray that has no value. The tray has none still, unless
    /// the worker has found what to do next.
    pub(crate) fn end_shut(&self, seat: &mut Seat<'a, G>, class: u32) -> Result<Option<Turn>, Halt>
        requires { IsShutFree class seat.old.tray }
        ensures { IfOk result (λ next. GoesOnFree next seat.new) }
    {
        laws::nodes_are_a_tree(self.floor.plan());
        iso_locks::laws::lent_nodes_find_their_values(seat.tray());
        self.perform_and_turn(seat, class, BodyKind::AfterAll)
    }

    /// Does a body with a tray that has no value, leaves it, and looks for what to do next while
    /// the lock is held. No value is marked, since there is none that the body could change.
    fn perform_and_turn(
        &self,
        seat: &mut Seat<'a, G>,
        node: u32,
        kind: BodyKind,
    ) -> Result<Option<Turn>, Halt>
        requires can { CanPerform G.plan G.start kind node seat.old.tray }
        requires free { IsFree seat.old.tray }
        ensures { IfOk result (λ next. GoesOnFree next seat.new) }
    {
        let _tray = seat.tray();
        let done = self.perform(seat, node, kind)?;
        self.floor.leave_and_turn(self.rt, seat, done)
    }

    /// Does what stands directly in a class that this worker does whole.
    #[cycle(depth)]
    fn children(&self, seat: &mut Seat<'a, G>, class: u32) -> Result<(), Halt>
        requires { IsInside G.plan G.start class seat.old.tray }
        ensures inside { OnOk result (IsInside G.plan G.start class seat.new.tray) }
        ensures further { OnOk result (GoesOn seat.old.tray seat.new.tray) }
    {
        'children: for child in self.floor.plan().children(class) {
            self.node(seat, *child)?;
        }
        Ok(())
    }

    /// Enters a node and does it whole. Where its class didn't open well it has its result already,
    /// and isn't entered.
    #[cycle(depth)]
    fn node(&self, seat: &mut Seat<'a, G>, node: u32) -> Result<(), Halt>
        requires positive { 0 < node }
        requires within { node < length G.plan.rows }
        requires inside { IsInside G.plan G.start (parent (tree_of G.plan) node) seat.old.tray }
        ensures inside { OnOk result
            (IsInside G.plan G.start (parent (tree_of G.plan) node) seat.new.tray) }
        ensures further { OnOk result (GoesOn seat.old.tray seat.new.tray) }
    {
        match self.floor.enter(self.rt, seat, node) {
            Ok(()) => self.finish(seat, node),
            Err(CoreFault::Refused(refused)) => match meant_by(refused) {
                Meaning::Over => Ok(()),
                Meaning::Entered | Meaning::TooEarly | Meaning::Never => Err(Halt::Stopped),
            },
            Err(CoreFault::OutOfMemory) => Err(Halt::OutOfMemory),
        }
    }

    /// Does a node that was entered, whole, and leaves it: what it may change stands as it stood.
    #[cycle(depth)]
    fn finish(&self, seat: &mut Seat<'a, G>, node: u32) -> Result<(), Halt>
        requires { IsAtEntry G.plan G.start node seat.old.tray }
        ensures inside { OnOk result
            (IsInside G.plan G.start (parent (tree_of G.plan) node) seat.new.tray) }
        ensures further { OnOk result
            (FurtherFromEntry G.plan G.start node seat.old.tray seat.new.tray) }
    {
        let mark = seat.mark(self.alloc, node)?;
        let last = self.bodies(seat, node)?;
        seat.undo(mark);
        self.leave(seat, last)
    }

    /// Does the bodies of a node that was entered, and all its descendants. Answers what the last
    /// of its bodies came to.
    #[cycle(depth)]
    fn bodies(&self, seat: &mut Seat<'a, G>, node: u32) -> Result<Done, Halt>
        requires { IsAtEntry G.plan G.start node seat.old.tray }
        ensures last { IfOk result (IsLastOf G.plan G.start node) }
        ensures apart { OnOk result (StandsApart G.plan G.start node seat.new.tray) }
        ensures further { OnOk result (GoesOn seat.old.tray seat.new.tray) }
    {
        if self.floor.plan().is_test(node) {
            self.test(seat, node)
        } else {
            self.class(seat, node)
        }
    }

    /// Does a test that was entered.
    fn test(&self, seat: &mut Seat<'a, G>, node: u32) -> Result<Done, Halt>
        requires entry { IsAtEntry G.plan G.start node seat.old.tray }
        requires test { is_test (row_at (tree_of G.plan) node).kind ≡ true }
        ensures last { IfOk result (IsLastOf G.plan G.start node) }
        ensures apart { OnOk result (StandsApart G.plan G.start node seat.new.tray) }
        ensures further { OnOk result (GoesOn seat.old.tray seat.new.tray) }
    {
        self.perform(seat, node, BodyKind::Test)
    }

    /// Opens a class that was entered, does its children, and closes it.
    #[cycle(depth)]
    fn class(&self, seat: &mut Seat<'a, G>, class: u32) -> Result<Done, Halt>
        requires entry { IsAtEntry G.plan G.start class seat.old.tray }
        requires class { is_test (row_at (tree_of G.plan) class).kind ≡ false }
        ensures last { IfOk result (IsLastOf G.plan G.start class) }
        ensures apart { OnOk result (StandsApart G.plan G.start class seat.new.tray) }
        ensures further { OnOk result (GoesOn seat.old.tray seat.new.tray) }
    {
        self.open(seat, class)?;
        self.children(seat, class)?;
        self.close(seat, class)
    }

    /// Does the `before_all` of a class that was entered, and leaves the class open.
    fn open(&self, seat: &mut Seat<'a, G>, class: u32) -> Result<(), Halt>
        requires entry { IsAtEntry G.plan G.start class seat.old.tray }
        requires class { is_test (row_at (tree_of G.plan) class).kind ≡ false }
        ensures inside { OnOk result (IsInside G.plan G.start class seat.new.tray) }
        ensures further { OnOk result (GoesOn seat.old.tray seat.new.tray) }
    {
        let done = self.perform(seat, class, BodyKind::BeforeAll)?;
        self.leave(seat, done)
    }

    /// Does the `after_all` of a class when its descendants are done, and answers what it came
    /// to.
    fn close(&self, seat: &mut Seat<'a, G>, class: u32) -> Result<Done, Halt>
        requires enclosed { IsEnclosed G.plan G.start class }
        requires class { is_test (row_at (tree_of G.plan) class).kind ≡ false }
        requires inside { IsInside G.plan G.start class seat.old.tray }
        ensures last { IfOk result (IsLastOf G.plan G.start class) }
        ensures apart { OnOk result (StandsApart G.plan G.start class seat.new.tray) }
        ensures further { OnOk result (GoesOn seat.old.tray seat.new.tray) }
    {
        self.floor.shut(self.rt, seat, class)?;
        self.perform(seat, class, BodyKind::AfterAll)
    }

    /// Does a body of a node over the values of the worker's tray. The worker meets its gate before
    /// the first step and after each.
    fn perform(&self, seat: &mut Seat<'a, G>, node: u32, kind: BodyKind) -> Result<Done, Halt>
        requires { CanPerform G.plan G.start kind node seat.old.tray }
        ensures done { IfOk result (λ d. d
            ≡ record { subject = subject G.plan G.start node; kind = kind }) }
        ensures after { OnOk result
            (IsTrayAfter G.plan G.start kind node seat.old.tray seat.new.tray) }
    {
        let worker = seat.worker();
        let frames = seat.tray().frames();
        let start = Snapshot::of(self.floor.world());
        let body = Body::begin(self.alloc, self.floor.plan(), node, kind, frames, start)?;
        self.gate.at_body(worker, node);
        let done = body.run(worker, self.gate, seat)?;
        Ok(done)
    }

    /// Books what a body came to.
    fn leave(&self, seat: &mut Seat<'a, G>, done: Done) -> Result<(), Halt>
        requires { MayBring done seat.old.tray }
        ensures { OnOk result (seat.new.tray
            ≡ after_leave done.kind done.subject.node seat.old.tray) }
    {
        match self.floor.leave(self.rt, seat, done) {
            Ok(()) => Ok(()),
            Err(_) => Err(Halt::Stopped),
        }
    }
}

/// Whether the worker that enters a node does it whole: it is a test, or takes a key for
/// READ_WRITE.
pub(crate) fn is_done_whole(plan: &Plan, node: u32) -> bool
    ensures { node < length plan.now.rows → result
        ≡ (is_test (row_at (tree_of plan.now) node).kind || takes_write (tree_of plan.now) node) }
{
    node < plan.len() && (plan.is_test(node) || plan.is_writer(node))
}
