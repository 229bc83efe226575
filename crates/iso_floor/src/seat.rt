//! A worker's place on a floor.
ghost use Rattle.std.specs.Prelude.{◌≡◌, ◌<◌, ℕ, IfErr, IfOk, None, OnErr, OnOk, length, true};
ghost use Rattle.iso_book.specs.Leaves.{MayBring, ReceiptView};
ghost use Rattle.iso_book.specs.Turns.{IsEntered, IsShut, ReadsStart};
ghost use Rattle.iso_floor.specs.Answering.{HasRoom, IsFull, OfSomeBook, RefusesEnter, RefusesLeave, RefusesShut, TakesEnter, TakesLeave, TakesShut};
ghost use Rattle.iso_floor.specs.Closing.{IsPlaceFault};
ghost use Rattle.iso_floor.specs.Desks.{IsOpenFor};
ghost use Rattle.iso_floor.specs.Grounds.{IsTrayOf};
ghost use Rattle.iso_floor.specs.Seats.{HasLeft, SeatView, new_seat};
ghost use Rattle.iso_locks.specs.Trays.{CanUndo, is_lent, marked, undone};

use crate::desk::Desk;
use crate::fault::SeatFault;
use crate::ground::Ground;
use crate::steal::{Look, steal_from};
use iso_book::receipt::Receipt;
use iso_lifecycle::done::Done;
use iso_locks::tray::{Savepoint, Tray};
use iso_model::resource::{Ask, Change};
use iso_model::resource_key::ResourceKey;
use iso_model::touch::Touch;
use iso_posts::posts::PostSeat;
use iso_standing::refused::{CoreFault, Refused};
use std::alloc::{AllocError, Global};
use std::marker::{Model, PhantomData};
use std::mem;
use std::sync::Wait;

/// A worker's number, its tray, the receipts of its Leaves, and what it has of the deques.
pub struct Seat<'a, G: Ground> {
    worker: u32,
    tray: Tray<'a>,
    /// In the order of its Leaves, with room for every Leave of the plan.
    receipts: Vec<Receipt>,
    pub(crate) posts: PostSeat,
    /// Whether the scheduler had something for this worker after its last Leave.
    is_called: bool,
    of: PhantomData<G>,
}

impl<'a, G: Ground> Drop for Seat<'a, G> {
    fn drop(self) {
        let Seat {
            worker: _,
            tray: _,
            receipts: _,
            posts: _,
            is_called: _,
            of: _,
        } = self;
    }
}

impl<'a, G: Ground> Model for Seat<'a, G> {
    ghost use Rattle.std.specs.Vec.{vec_capacity};
    ghost use Rattle.iso_floor.specs.Grounds.{IsTrayOf};
    ghost use Rattle.iso_floor.specs.Seats.{SeatView, seat_code};

    ghost Value = { SeatView };

    ghost coded = { seat_code };

    ghost view = { λ s. record {
      worker = s.worker;
      tray = s.tray;
      receipts = s.receipts.items;
      room = vec_capacity s.receipts;
    } };

    ghost invariant = { λ s. IsTrayOf G.plan G.start s.tray };
}

impl<'a, G: Ground> Seat<'a, G> {
    /// The seat of a worker, to whose tray nothing is lent, if the worker's place has its deques
    /// still: it takes them, and all memory that the worker's Leaves need. Else the place is as it
    /// was. Its tray shares the starting values of `first`.
    pub(crate) fn new(
        alloc: Global,
        first: &Tray<'a>,
        worker: u32,
        place: &mut Option<PostSeat>,
    ) -> Result<Seat<'a, G>, SeatFault>
        requires { IsTrayOf G.plan G.start first.now }
        ensures seat { IfOk result (λ s. s ≡ new_seat G.plan G.start worker) }
        ensures taken { OnOk result (place.new ≡ None) }
        ensures fault { IfErr result (IsPlaceFault place.old) }
        ensures same { OnErr result (place.new ≡ place.old) }
    {
        if place.is_none() {
            return Err(SeatFault::Taken);
        }
        let leaves = first.plan().len() as usize * 2;
        let tray = first.another(alloc)?;
        let receipts = Vec::with_capacity(alloc, leaves)?;
        match place.take() {
            Some(posts) => Ok(Seat {
                worker,
                tray,
                receipts,
                posts,
                is_called: false,
                of: PhantomData,
            }),
            None => Err(SeatFault::Taken),
        }
    }

    /// Takes a node out of a deque, if it finds one: out of the worker's own, else out of another
    /// worker's. It looks into none where the scheduler had something for this worker after its
    /// last Leave, since that comes first. It may wait for others who steal.
    pub(crate) fn look_into_deques<R: Wait>(&mut self, rt: &R) -> Look
        ensures { self.new ≡ self.old }
    {
        if mem::replace(&mut self.is_called, false) {
            return Look::Skipped;
        }
        match self.posts.owner.take() {
            Some(node) => Look::Found(node),
            None => steal_from(rt, &mut self.posts.thieves),
        }
    }

    /// Takes a node out of the worker's own deque, as `look_into_deques` does first. It answers none
    /// where the other deques are to be looked into.
    pub(crate) fn look_into_own_deque(&mut self) -> Option<Look>
        ensures { self.new ≡ self.old }
    {
        if mem::replace(&mut self.is_called, false) {
            return Some(Look::Skipped);
        }
        match self.posts.owner.take() {
            Some(node) => Some(Look::Found(node)),
            None => None,
        }
    }

    /// The worker whose seat it is.
    pub fn worker(&self) -> u32
        ensures { result ≡ self.now.worker }
    {
        self.worker
    }

    /// Its tray, which is of the ground's plan and starting values.
    pub fn tray(&self) -> &Tray<'a>
        ensures tray { result.now ≡ self.now.tray }
        ensures ground { IsTrayOf G.plan G.start self.now.tray }
    {
        &self.tray
    }

    /// For a runner of one's own: the receipts of its Leaves, in their order.
    pub fn receipts(&self) -> &[Receipt]
        ensures { result.now ≡ self.now.receipts }
    {
        &self.receipts
    }

    /// The values of its tray that a node's rights let it change, as they stand now.
    pub fn mark(&self, alloc: Global, node: u32) -> Result<Savepoint, AllocError>
        requires { node < length self.now.tray.plan.rows }
        ensures { IfOk result (λ m. m ≡ marked self.now.tray node) }
    {
        self.tray.mark(alloc, node)
    }

    /// Sets these values of its tray back to where they stood. Takes no memory.
    pub fn undo(&mut self, mark: Savepoint)
        requires { CanUndo mark self.old.tray }
        ensures { self.new ≡ record self.old { tray = undone mark self.old.tray } }
    {
        self.tray.undo(mark);
    }

    // Enters a node at a desk.
    #[inline(always)]
    pub(crate) fn enter_at(&mut self, desk: &mut Desk<'a, G>, node: u32) -> Result<(), CoreFault>
        ensures entered { OnOk result (IsEntered node self.old.tray self.new.tray) }
        ensures taken { OnOk result
            (OfSomeBook G.plan G.start G.workers (TakesEnter self.old node)) }
        ensures refused { IfErr result
            (λ fault. OfSomeBook G.plan G.start G.workers (RefusesEnter self.old node fault)) }
        ensures seat { self.new ≡ record self.old { tray = self.new.tray } }
        ensures same { OnErr result (self.new ≡ self.old) }
    {
        desk.keep_run();
        desk.enter(self.worker, node, &mut self.tray)
    }

    // Shuts a class at a desk.
    pub(crate) fn shut_at(&mut self, desk: &mut Desk<'a, G>, node: u32) -> Result<(), CoreFault>
        ensures shut { OnOk result (IsShut node self.old.tray self.new.tray) }
        ensures taken { OnOk result
            (OfSomeBook G.plan G.start G.workers (TakesShut self.old node)) }
        ensures refused { IfErr result
            (λ fault. OfSomeBook G.plan G.start G.workers (RefusesShut self.old node fault)) }
        ensures seat { self.new ≡ record self.old { tray = self.new.tray } }
        ensures same { OnErr result (self.new ≡ self.old) }
        ensures open { IfErr result (λ fault. fault ≡ CoreFault.Refused Refused.ChildrenLeft
            → IsOpenFor desk.new.book node self.new.worker) }
    {
        desk.keep_run();
        desk.shut(self.worker, node, &mut self.tray)
    }

    // Books at a desk what a body came to, where there is room for its receipt.
    #[inline(always)]
    pub(crate) fn leave_at(
        &mut self,
        desk: &mut Desk<'a, G>,
        done: Done,
    ) -> Result<(), (Refused, Done)>
        requires { MayBring done self.old.tray }
        ensures left { OnOk result (HasLeft done self.old self.new) }
        ensures reads { OnOk result ((n : ℕ) → is_lent self.new.tray.lent n ≡ true
            → ReadsStart n self.new.tray) }
        ensures room { OnOk result (HasRoom self.old) }
        ensures taken { OnOk result
            (OfSomeBook G.plan G.start G.workers (TakesLeave self.old done)) }
        ensures full { IfErr result (λ refusal. IsFull self.old → refusal.0 ≡ Refused.Stranger) }
        ensures refused { IfErr result (λ refusal. HasRoom self.old
            → OfSomeBook G.plan G.start G.workers (RefusesLeave self.old done refusal.0)) }
        ensures same { OnErr result (self.new ≡ self.old) }
        ensures done { IfErr result (λ refusal. refusal.1 ≡ done) }
    {
        if self.receipts.len() >= self.receipts.capacity() {
            return Err((Refused::Stranger, done));
        }
        desk.keep_run();
        let receipt = desk.leave(self.worker, done, &mut self.tray)?;
        self.receipts.push_reserved(receipt);
        self.is_called = desk.calls_for(self.worker);
        Ok(())
    }
}

/// A body runs over the values of a seat's tray.
impl<'a, G: Ground> Touch for Seat<'a, G> {
    ghost use Rattle.iso_floor.specs.Seats.{seat-further, seat-still, seat-writes, SeatGoesOn, seat_content, seat_has_value};

    ghost content = { seat_content };

    ghost writes = { seat_has_value };

    ghost goes_on = { SeatGoesOn };

    fn look(&self, key: ResourceKey<'_>, ask: Ask<'_>) -> Option<&str> {
        self.tray.look(key, ask)
    }

    fn change(&mut self, key: ResourceKey<'_>, change: Change) -> Result<(), AllocError> {
        self.tray.change(key, change)
    }

    ghost still = { seat-still };

    ghost further = { seat-further };

    ghost same_writes = { seat-writes };
}
