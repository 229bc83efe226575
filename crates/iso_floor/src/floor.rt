//! A book round which workers sit.
ghost use Rattle.std.specs.Prelude.{◌≡◌, ◌<◌, ℕ, IfErr, IfOk, OnErr, OnOk, true};
ghost use Rattle.iso_book.specs.Leaves.{MayBring};
ghost use Rattle.iso_book.specs.Turns.{IsEntered, IsShut, ReadsStart};
ghost use Rattle.iso_floor.specs.Answering.{EndsWait, HasRoom, IsFull, OfSomeBook, RefusesEnter, RefusesLeave, RefusesShut, TakesEnter, TakesLeave, TakesShut};
ghost use Rattle.iso_floor.specs.Closing.{IsCloseFault, IsSeatFault, IsWhole};
ghost use Rattle.iso_floor.specs.Grounds.{IsBookOf};
ghost use Rattle.iso_floor.specs.Seats.{HasLeft, SeatView, lists_of, new_seat};
ghost use Rattle.iso_floor.specs.Turning.{IsNextTurn, IsTurn};
ghost use Rattle.iso_locks.specs.Trays.{is_lent};

use crate::close::settle;
use crate::desk::{Desk, Wakes};
use crate::fault::{CloseFault, SeatFault};
use crate::ground::Ground;
use crate::halt::Halt;
use crate::seat::Seat;
use crate::turn::Turn;
use iso_book::book::Book;
use iso_lifecycle::done::Done;
use iso_plan::plan::Plan;
use iso_settings::world::World;
use iso_standing::refused::{CoreFault, Refused};
use std::alloc::{AllocError, Global};
use std::marker::Model;
use std::sync::{Condvar, Mutex, Wait};

/// A book under one lock, round which workers sit. What a call says of the book is known while the
/// lock is held alone; its clauses tell what it does to the worker's seat.
///
/// Contracts see the number of workers; the plan and the starting values are those of the ground.
pub struct Floor<'a, G: Ground> {
    plan: &'a Plan,
    world: &'a World,
    workers: u32,
    desk: Mutex<Desk<'a, G>>,
    /// For those who wait for an event.
    changed: Condvar,
    /// By worker, for the one that waits for something to try.
    called: Vec<Condvar>,
    /// A place for each event that a history may have, for the comparison with the receipts.
    marks: Vec<bool>,
}

impl<'a, G: Ground> Drop for Floor<'a, G> {
    fn drop(self) {
        let Floor {
            plan: _,
            world: _,
            workers: _,
            desk: _,
            changed: _,
            called: _,
            marks: _,
        } = self;
    }
}

impl<'a, G: Ground> Model for Floor<'a, G> {
    ghost use Rattle.std.specs.Prelude.{◌≡◌, ◌*◌, ℕ, false, length, replicate};

    ghost Value = { ℕ };

    ghost view = { λ f. f.workers };

    ghost invariant = { λ f. record {
      plan_is : f.plan.now ≡ G.plan;
      world_is : f.world.now ≡ G.start;
      workers_are : f.workers ≡ G.workers;
      clear : f.marks.items ≡ replicate (4 * length G.plan.rows) false;
    } };
}

impl<'a, G: Ground> Floor<'a, G> {
    /// A floor on which nobody sits yet, with a book that has taken no event. It takes all memory
    /// that book and comparison need, and that of the starting values, which all seats share.
    pub fn new(
        alloc: Global,
        plan: &'a Plan,
        world: &'a World,
        workers: u32,
    ) -> Result<Floor<'a, G>, AllocError>
        requires plan { plan.now ≡ G.plan }
        requires start { world.now ≡ G.start }
        requires workers { workers ≡ G.workers }
        ensures { IfOk result (λ f. f ≡ workers) }
    {
        let events = plan.len() as usize * 4;
        Ok(Floor {
            plan,
            world,
            workers,
            desk: Mutex::new(Desk::new(alloc, plan, world, workers)?),
            changed: Condvar::new(),
            called: condvars(alloc, workers)?,
            marks: vec![in alloc; false; events]?,
        })
    }

    /// The seat of a worker, who has none yet: its tray is empty, and it has no receipt.
    pub fn seat<R: Wait>(
        &self,
        rt: &R,
        alloc: Global,
        worker: u32,
    ) -> Result<Seat<'a, G>, SeatFault>
        ensures seat { IfOk result (λ s. s ≡ new_seat G.plan G.start worker) }
        ensures worker { OnOk result (worker < self.now) }
        ensures fault { IfErr result (IsSeatFault self.now worker) }
    {
        let mut desk = self.desk.lock(rt);
        if worker >= self.workers {
            return Err(SeatFault::NoWorker);
        }
        let desk = &mut *desk;
        let place = &mut desk.places[worker as usize];
        Seat::new(alloc, &desk.first, worker, place)
    }

    /// A seat's worker enters a node, as `Book::enter` does with the seat's tray. A refusal and
    /// running out of memory change nothing. It may wait for the lock.
    pub fn enter<R: Wait>(&self, rt: &R, seat: &mut Seat<'a, G>, node: u32) -> Result<(), CoreFault>
        ensures entered { OnOk result (IsEntered node seat.old.tray seat.new.tray) }
        ensures taken { OnOk result
            (OfSomeBook G.plan G.start G.workers (TakesEnter seat.old node)) }
        ensures refused { IfErr result
            (λ fault. OfSomeBook G.plan G.start G.workers (RefusesEnter seat.old node fault)) }
        ensures seat { seat.new ≡ record seat.old { tray = seat.new.tray } }
        ensures same { OnErr result (seat.new ≡ seat.old) }
    {
        let (entered, wakes) = {
            let mut desk = self.desk.lock(rt);
            let entered = seat.enter_at(&mut *desk, node);
            (entered, desk.wakes())
        };
        self.tell(wakes);
        entered
    }

    /// A seat's worker begins the closing of a class, as `Book::shut` does with the seat's tray. A
    /// refusal and running out of memory change nothing. It may wait for the lock.
    pub fn shut<R: Wait>(&self, rt: &R, seat: &mut Seat<'a, G>, node: u32) -> Result<(), CoreFault>
        ensures shut { OnOk result (IsShut node seat.old.tray seat.new.tray) }
        ensures taken { OnOk result
            (OfSomeBook G.plan G.start G.workers (TakesShut seat.old node)) }
        ensures refused { IfErr result
            (λ fault. OfSomeBook G.plan G.start G.workers (RefusesShut seat.old node fault)) }
        ensures seat { seat.new ≡ record seat.old { tray = seat.new.tray } }
        ensures same { OnErr result (seat.new ≡ seat.old) }
    {
        let (shut, wakes) = {
            let mut desk = self.desk.lock(rt);
            let shut = seat.shut_at(&mut *desk, node);
            (shut, desk.wakes())
        };
        self.tell(wakes);
        shut
    }

    /// Books what the body of a seat's worker came to, as `Book::leave` does with the seat's tray,
    /// and puts the receipt last into the seat. Where the seat has no room for it, as after Leaves
    /// on another floor, it is a Stranger's before all else. A refusal changes nothing, and hands
    /// back what was brought. It may wait for the lock. Takes no memory.
    pub fn leave<R: Wait>(
        &self,
        rt: &R,
        seat: &mut Seat<'a, G>,
        done: Done,
    ) -> Result<(), (Refused, Done)>
        requires { MayBring done seat.old.tray }
        ensures left { OnOk result (HasLeft done seat.old seat.new) }
        ensures reads { OnOk result ((n : ℕ) → is_lent seat.new.tray.lent n ≡ true
            → ReadsStart n seat.new.tray) }
        ensures room { OnOk result (HasRoom seat.old) }
        ensures taken { OnOk result
            (OfSomeBook G.plan G.start G.workers (TakesLeave seat.old done)) }
        ensures full { IfErr result (λ refusal. IsFull seat.old → refusal.0 ≡ Refused.Stranger) }
        ensures refused { IfErr result (λ refusal. HasRoom seat.old
            → OfSomeBook G.plan G.start G.workers (RefusesLeave seat.old done refusal.0)) }
        ensures same { OnErr result (seat.new ≡ seat.old) }
        ensures done { IfErr result (λ refusal. refusal.1 ≡ done) }
    {
        let (left, wakes) = {
            let mut desk = self.desk.lock(rt);
            let left = seat.leave_at(&mut *desk, done);
            (left, desk.wakes())
        };
        self.tell(wakes);
        left
    }

    /// Stops the book: it refuses every event from now on. It may wait for the lock. Takes no
    /// memory.
    pub fn stop<R: Wait>(&self, rt: &R) {
        let wakes = {
            let mut desk = self.desk.lock(rt);
            desk.stop();
            desk.wakes()
        };
        self.tell(wakes);
    }

    /// For a runner of one's own: waits until the history is longer than `seen`, the run complete
    /// or stopped, and answers the history's length.
    pub fn wait_change<R: Wait>(&self, rt: &R, seen: u64) -> u64
        ensures { OfSomeBook G.plan G.start G.workers (EndsWait seen result) }
    {
        let mut desk = self.desk.lock(rt);
        desk.begin_wait();
        let mut desk = self
            .changed
            .wait_while(rt, desk, |desk| desk.is_unchanged(seen));
        desk.end_wait();
        desk.keep_run();
        desk.length()
    }

    /// Hands out the book, where every node but the root is finished and the receipts of these
    /// seats are those of its history. It spends floor and seats in any case. Takes no memory.
    pub fn close(self, seats: Vec<Seat<'a, G>>) -> Result<Book<'a>, CloseFault>
        ensures ground { IfOk result (IsBookOf G.plan G.start G.workers) }
        ensures whole { IfOk result (λ b. IsWhole b (lists_of seats.entry.items)) }
        ensures fault { IfErr result (λ fault. OfSomeBook G.plan G.start G.workers
            (λ b. IsCloseFault b (lists_of seats.entry.items) fault)) }
    {
        let Floor {
            plan: _,
            world: _,
            workers: _,
            desk,
            changed: _,
            called: _,
            mut marks,
        } = self;
        let book = desk.into_inner().into_book();
        settle(book, &seats, &mut marks)
    }

    /// The plan that is run on it.
    pub(crate) fn plan(&self) -> &'a Plan
        ensures { result.now ≡ G.plan }
    {
        self.plan
    }

    /// The values that it starts with.
    pub(crate) fn world(&self) -> &'a World
        ensures { result.now ≡ G.start }
    {
        self.world
    }

    /// A seat's worker, who found this node in a deque or none, looks for something to do, and
    /// enters a node or shuts a class where there is one. It may wait for the lock.
    pub(crate) fn turn<R: Wait>(&self, rt: &R, seat: &mut Seat<'a, G>, found: Option<u32>) -> Turn
        ensures { IsTurn result seat.old seat.new }
    {
        let (turn, wakes) = {
            let mut desk = self.desk.lock(rt);
            let turn = seat.turn_at(&mut *desk, found);
            (turn, desk.wakes())
        };
        self.tell(wakes);
        turn
    }

    /// Books what a body of a seat's worker came to, and looks for something to do next, as `turn`
    /// does, unless a look into other workers' deques has to come before. It may wait for the lock.
    pub(crate) fn leave_and_turn<R: Wait>(
        &self,
        rt: &R,
        seat: &mut Seat<'a, G>,
        done: Done,
    ) -> Result<Option<Turn>, Halt>
        requires { MayBring done seat.old.tray }
        ensures { IfOk result (λ next. IsNextTurn done next seat.old seat.new) }
    {
        let (next, wakes) = {
            let mut desk = self.desk.lock(rt);
            let next = seat.leave_and_turn_at(&mut *desk, done);
            (next, desk.wakes())
        };
        self.tell(wakes);
        next
    }

    /// Waits until there is something for a worker to try, or nothing more is to be done; not at
    /// all unless the worker has seen that all deques were empty after nodes had been posted so
    /// often. Answers how often they were posted.
    pub(crate) fn wait_turn<R: Wait>(&self, rt: &R, worker: u32, seen: Option<u64>) -> u64 {
        let mut desk = self.desk.lock(rt);
        let Some(called) = self.called.get(worker as usize) else {
            return desk.rounds();
        };
        desk.begin_idle(worker, seen);
        let mut desk = called.wait_while(rt, desk, |desk| desk.stays(worker));
        desk.end_idle(worker);
        desk.rounds()
    }

    // Wakes those who wait and have something to wake for.
    fn tell(&self, wakes: Wakes) {
        if wakes.watchers {
            self.changed.notify_all();
        }
        if let Some(worker) = wakes.worker
            && let Some(called) = self.called.get(worker as usize)
        {
            called.notify_one();
        }
    }
}

// A place to wait for each of `workers` workers.
fn condvars(alloc: Global, workers: u32) -> Result<Vec<Condvar>, AllocError> {
    let mut places = Vec::with_capacity(alloc, workers as usize)?;
    for _ in 0..workers {
        places.push(Condvar::new())?;
    }
    Ok(places)
}
