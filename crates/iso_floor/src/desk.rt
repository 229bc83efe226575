//! What lies under the lock of a floor.
ghost use Rattle.std.specs.Prelude.{◌≡◌, ◌≢◌, ◌<◌, ◌⊎◌, ℕ, IfOk, IfSome, IsTrue, MatchResult, None, OnOk, false, length, not, true};
ghost use Rattle.iso_book.specs.Books.{BookView};
ghost use Rattle.iso_book.specs.Leaves.{IsLeft, IsNotLeft, MayBring, after_leave};
ghost use Rattle.iso_book.specs.Progress.{phase_in};
ghost use Rattle.iso_book.specs.Turns.{GoesOnWith, IsEntered, IsNotTaken, IsShut, IsTaken, MayEnterWith, ReadsStart};
ghost use Rattle.iso_desk.specs.Crews.{awaits, member_of};
ghost use Rattle.iso_desk.specs.Places.{place_of};
ghost use Rattle.iso_desk.specs.declared.place.Place.TheVariants.{With};
ghost use Rattle.iso_floor.specs.Answering.{HasRun, has_changed};
ghost use Rattle.iso_floor.specs.Asleep.{AreWorkers, CanShutNone, IsAsleep, IsEnterLeft, IsShutLeft};
ghost use Rattle.iso_floor.specs.Desks.{CanEnterNone, IsOpenFor};
ghost use Rattle.iso_floor.specs.Grounds.{IsBookOf, IsTrayOf};
ghost use Rattle.iso_floor.specs.Parties.{MayTry};
ghost use Rattle.iso_floor.specs.Postings.{ClosesNone, IsPosted};
ghost use Rattle.iso_floor.specs.Schedulers.{KeepsLines, KeepsPlaces, KeepsSizes, KeepsStands, loose_in};
ghost use Rattle.iso_floor.specs.Successions.{ArePreceded};
ghost use Rattle.iso_locks.specs.Trays.{is_lent};
ghost use Rattle.iso_plan.specs.HeldNodes.{takes_in};
ghost use Rattle.iso_plan.specs.KeyGroups.{lead_locks};
ghost use Rattle.iso_standing.specs.CodeEvents.{refused_of};
ghost use Rattle.iso_standing.specs.declared.phase.Phase.TheVariants.{Waiting};

use crate::ground::Ground;
use crate::hints::Hints;
use crate::nodes::is_concurrent;
use crate::posting::post_children;
use crate::scheduler::Scheduler;
use iso_book::book::Book;
use iso_book::receipt::Receipt;
use iso_lifecycle::done::Done;
use iso_locks::tray::Tray;
use iso_plan::laws;
use iso_plan::lock::Lock;
use iso_plan::plan::Plan;
use iso_posts::owner::Owner;
use iso_posts::posts::{PostSeat, Posts};
use iso_settings::world::World;
use iso_standing::event::Event;
use iso_standing::refused::{CoreFault, Refused};
use std::alloc::{AllocError, Global};
use std::marker::{Model, PhantomData};

/// Whom an event wakes.
#[derive(Clone, Copy)]
pub(crate) struct Wakes {
    /// Whether somebody waits for a change.
    pub(crate) watchers: bool,
    /// The worker that has something to wake for, if one is called.
    pub(crate) worker: Option<u32>,
}

/// The book, the deques of those who have no seat yet, what is to be tried next, and how many wait
/// for a change.
#[derive(Drop)]
pub(crate) struct Desk<'a, G: Ground> {
    book: Book<'a>,
    /// By worker, what it has of the deques, until it has a seat.
    pub(crate) places: Vec<Option<PostSeat>>,
    /// The tray whose starting values those of all seats share.
    pub(crate) first: Tray<'a>,
    scheduler: Scheduler,
    hints: Hints,
    watching: u32,
    of: PhantomData<G>,
}

impl<'a, G: Ground> Model for Desk<'a, G> {
    ghost use Rattle.std.specs.Prelude.{◌≡◌, ◌<◌, false, length};
    ghost use Rattle.std.specs.Coded.{codes};
    ghost use Rattle.iso_book.specs.Books.{book_code};
    ghost use Rattle.iso_floor.specs.Desks.{DeskView, IsDesk};
    ghost use Rattle.iso_floor.specs.Grounds.{IsTrayOf};
    ghost use Rattle.iso_floor.specs.Remainders.{HaveLeft};
    ghost use Rattle.iso_floor.specs.Successions.{ComeInTurn};
    ghost use Rattle.iso_floor.specs.Untouched.{AreUntouched};

    ghost Value = { DeskView };

    ghost coded = { Prim.hlevel (codes, book_code) };

    ghost view = { λ d. record { book = d.book; scheduler = d.scheduler } };

    ghost invariant = { λ d. record {
      desk : IsDesk G.plan G.start G.workers d.book d.scheduler;
      turns : 0 < G.workers → d.book.stopped ≡ false → ComeInTurn G.plan d.scheduler;
      left : 0 < G.workers → d.book.stopped ≡ false → HaveLeft G.plan d.scheduler;
      fresh : d.scheduler.bypassed ≡ false → AreUntouched d.book d.scheduler.table.places;
      seats : length d.places.items ≡ G.workers;
      first : IsTrayOf G.plan G.start d.first;
    } };
}

impl<'a, G: Ground> Desk<'a, G> {
    /// A desk with a book that has taken no event. What may run beside others in the root is posted
    /// in the first worker's deque.
    pub(crate) fn new(
        alloc: Global,
        plan: &'a Plan,
        world: &'a World,
        workers: u32,
    ) -> Result<Desk<'a, G>, AllocError>
        requires plan { plan.now ≡ G.plan }
        requires start { world.now ≡ G.start }
        requires workers { workers ≡ G.workers }
    {
        laws::nodes_are_a_tree(plan);
        let mut seats = Posts::new(alloc, workers as usize)?;
        let mut scheduler = Scheduler::new(alloc, plan, workers)?;
        post_root(&mut scheduler, plan, &mut seats)?;
        Ok(Desk {
            book: Book::new(alloc, plan, world, workers)?,
            places: places_of(alloc, seats, workers)?,
            first: Tray::new(alloc, plan, world)?,
            scheduler,
            hints: Hints::new(alloc, plan)?,
            watching: 0,
            of: PhantomData,
        })
    }

    /// Whom the event that was booked wakes: those who wait for a change, where somebody does, and
    /// one worker that waits and has something to wake for, which is called by it. Where nobody is
    /// called, no worker that waits and wasn't called could enter a node in its own lines or in
    /// everyone's, or one that was entered, or shut a class in its own line; and where all wait, no
    /// body is under way and the run isn't over, something is left that one of them could enter or
    /// shut: if none was entered while it stood in a line, a node is `Loose`: it lies in a deque, or
    /// is in a hand. No node is with a worker that waits.
    #[inline(always)]
    pub(crate) fn wakes(&mut self) -> Wakes
        ensures book { self.new.book ≡ self.old.book }
        ensures nobody { result.worker ≡ None → (w : ℕ) → w < length self.old.scheduler.members
            → awaits (member_of self.old.scheduler.members w) ≡ true → CanEnterNone self.old w }
        ensures shuts { result.worker ≡ None → (w : ℕ) → w < length self.old.scheduler.members
            → awaits (member_of self.old.scheduler.members w) ≡ true → CanShutNone self.old w }
        ensures asleep { result.worker ≡ None → IsAsleep self.old
            → IsEnterLeft self.old ⊎ IsShutLeft self.old }
        ensures free { (n w : ℕ) → (member_of self.old.scheduler.members w).waits ≡ true
            → place_of self.old.scheduler.table.places n ≢ With w }
        ensures never { result.worker ≡ None → IsAsleep self.old
            → self.old.scheduler.bypassed ≡ false → 0 < loose_in self.old.scheduler.table.places }
    {
        laws::nodes_are_a_tree(self.book.plan());
        let _history = self.book.history();
        let is_over = self.is_over();
        Wakes {
            watchers: self.watching > 0,
            worker: self.scheduler.call(is_over),
        }
    }

    /// The plan that is run.
    pub(crate) fn plan(&self) -> &'a Plan
        ensures { result.now ≡ G.plan }
    {
        self.book.plan()
    }

    /// Whether the run was stopped.
    pub(crate) fn is_stopped(&self) -> bool {
        self.book.is_stopped()
    }

    /// Whether every child of the root is over.
    pub(crate) fn is_done(&self) -> bool {
        self.scheduler.is_done()
    }

    // Whether nothing more is to be done.
    fn is_over(&self) -> bool {
        self.book.is_stopped() || self.scheduler.is_done()
    }

    /// A worker begins to wait with what it has seen: how often nodes had been posted before its
    /// last look into the deques, if that found each of them empty.
    pub(crate) fn begin_idle(&mut self, worker: u32, seen: Option<u64>)
        ensures { self.new.book ≡ self.old.book }
    {
        self.scheduler.begin_wait(worker, seen);
    }

    /// A worker waits no more.
    pub(crate) fn end_idle(&mut self, worker: u32)
        ensures { self.new.book ≡ self.old.book }
    {
        self.scheduler.end_wait(worker);
    }

    /// Whether a worker goes on to wait, since it has nothing to wake for.
    ///
    /// Where nodes weren't posted since it has seen all deques empty, none lies in a deque: one
    /// that was taken out is never posted again. It was tried, or the worker that took it will try
    /// it. So no node is left in the deque of a worker that sleeps or has ended.
    ///
    /// Where it answers true, the worker could enter no node now of its own lines or of everyone's,
    /// and shut no class of its own line.
    pub(crate) fn stays(&mut self, worker: u32) -> bool
        ensures book { self.new.book ≡ self.old.book }
        ensures nothing { worker < G.workers → result ≡ true → CanEnterNone self.old worker }
        ensures shuts { worker < G.workers → result ≡ true → CanShutNone self.old worker }
    {
        laws::nodes_are_a_tree(self.book.plan());
        let is_over = self.is_over();
        self.scheduler.stays(worker, is_over)
    }

    /// Whether something waits for a worker that needs no look into the deques.
    pub(crate) fn calls_for(&self, worker: u32) -> bool {
        self.scheduler.calls_for(worker)
    }

    /// The class that a worker has just opened, which is asked for once.
    pub(crate) fn take_opening(&mut self, worker: u32) -> Option<u32>
        ensures { self.new ≡ self.old }
    {
        self.scheduler.take_opening(worker)
    }

    /// Whether a CONCURRENT node lies in a deque, or is in the hand of who took it there, so that
    /// any worker may attempt it.
    pub(crate) fn is_loose(&self, node: u32) -> bool
        ensures { IsTrue result
            → (w : ℕ) → MayTry G.plan self.now.scheduler.owners node w }
    {
        self.scheduler.is_loose(node) && is_concurrent(self.book.plan(), node)
    }

    /// The next node that waits for a worker, which leaves its line to be attempted or shut.
    pub(crate) fn next_for(&mut self, worker: u32) -> Option<u32>
        ensures book { self.new.book ≡ self.old.book }
        ensures node { IfSome result
            (λ n. MayTry G.plan self.new.scheduler.owners n worker) }
    {
        self.scheduler.next_for(worker)
    }

    /// Whether a node is a class that was entered in a turn, to be left open.
    pub(crate) fn is_shared(&self, node: u32) -> bool {
        self.scheduler.is_shared(node)
    }

    /// A class was entered in a turn, to be left open.
    pub(crate) fn share(&mut self, class: u32)
        ensures { self.new ≡ self.old }
    {
        self.scheduler.share(class);
    }

    /// How often a class was opened up of which nodes were posted.
    pub(crate) fn rounds(&self) -> u64 {
        self.scheduler.rounds()
    }

    /// How many nodes a worker tries at most before it is asked again: more than wait.
    pub(crate) fn tries(&self) -> u32 {
        self.book.plan().len().saturating_add(1)
    }

    /// A lock of a node whose key is in its way, if there is one: it makes the book refuse it.
    pub(crate) fn lock_in_the_way(&mut self, node: u32) -> Option<Lock>
        ensures book { self.new ≡ self.old }
        ensures own { IfSome result
            (λ l. takes_in l.access l.key (lead_locks G.plan.rows node) ≡ true) }
    {
        let plan = self.book.plan();
        if node >= plan.len() {
            return None;
        }
        self.hints.lock_in_the_way(plan, self.book.held(), node)
    }

    /// A node waits for the key of one of its locks that is in its way, for a worker to attempt it
    /// later.
    pub(crate) fn wait_for(&mut self, node: u32, lock: Lock, worker: u32) -> Result<(), AllocError>
        requires takes { takes_in lock.access lock.key (lead_locks G.plan.rows node) ≡ true }
        requires own { MayTry G.plan self.old.scheduler.owners node worker }
        ensures { self.new.book ≡ self.old.book }
    {
        if !self.is_waiting(node) {
            return Ok(());
        }
        self.scheduler
            .wait_for(self.book.plan(), node, lock, worker)
    }

    // Whether a node waits to be entered: it isn't held, and has no outcome.
    fn is_waiting(&self, node: u32) -> bool
        ensures { result ≡ true → phase_in self.now.book node ≡ Waiting }
    {
        node < self.book.plan().len()
            && !self.book.held().is_held(node)
            && self.book.outcome(node).is_none()
    }

    /// Opens a class up for its owner, that is open in the book, and posts what may run beside
    /// others in it. It stops the run once 2^63 nodes have been put in lines.
    pub(crate) fn open_up(
        &mut self,
        class: u32,
        worker: u32,
        owner: &mut Owner,
    ) -> Result<(), AllocError>
        requires { IsOpenFor self.old.book class worker }
        ensures opened { OnOk result (self.new.book ≡ self.old.book) }
        ensures book { self.new.book
            ≡ record self.old.book { stopped = self.new.book.stopped } }
    {
        let plan = self.book.plan();
        post_children(&mut self.scheduler, plan, class, owner)?;
        let opened = self.scheduler.open(plan, class, worker);
        if opened.is_err() {
            self.book.stop();
        }
        opened
    }

    /// A worker enters a node with a tray, as `Book::enter_own` has it.
    pub(crate) fn enter(
        &mut self,
        worker: u32,
        node: u32,
        tray: &mut Tray<'_>,
    ) -> Result<(), CoreFault>
        requires { IsTrayOf G.plan G.start tray.old }
        ensures event { MatchResult result
            (λ _. IsTaken (Event.Enter worker node)
            (MayEnterWith self.old.book node tray.old) self.old.book self.new.book)
            (λ fault. IsNotTaken fault (Event.Enter worker node)
            (MayEnterWith self.old.book node tray.old) self.old.book self.new.book
            tray.old tray.new) }
        ensures tray { OnOk result (IsEntered node tray.old tray.new) }
    {
        laws::nodes_are_a_tree(self.book.plan());
        self.book.enter_own(worker, node, tray)?;
        self.scheduler
            .enter(self.book.plan(), self.book.held(), node, worker);
        Ok(())
    }

    /// A worker shuts a class with a tray, as `Book::shut_own` has it.
    pub(crate) fn shut(
        &mut self,
        worker: u32,
        class: u32,
        tray: &mut Tray<'_>,
    ) -> Result<(), CoreFault>
        requires { IsTrayOf G.plan G.start tray.old }
        ensures event { MatchResult result
            (λ _. IsTaken (Event.Shut worker class)
            (GoesOnWith self.old.book class tray.old) self.old.book self.new.book)
            (λ fault. IsNotTaken fault (Event.Shut worker class)
            (GoesOnWith self.old.book class tray.old) self.old.book self.new.book
            tray.old tray.new) }
        ensures tray { OnOk result (IsShut class tray.old tray.new) }
    {
        laws::nodes_are_a_tree(self.book.plan());
        self.book.shut_own(worker, class, tray)?;
        self.scheduler.shut(class, worker);
        Ok(())
    }

    /// Books what a worker's body came to with a tray, as `Book::leave_own` has it. It stops the
    /// run once 2^63 nodes have been put in lines.
    pub(crate) fn leave(
        &mut self,
        worker: u32,
        done: Done,
        tray: &mut Tray<'_>,
    ) -> Result<Receipt, (Refused, Done)>
        requires ground { IsTrayOf G.plan G.start tray.old }
        requires brought { MayBring done tray.old }
        ensures event { MatchResult result
            (λ receipt. (c : BookView) × IsLeft worker done receipt self.old.book c tray.old)
            (λ refusal. IsNotLeft (refused_of refusal.0) refusal.1 worker done self.old.book
            self.new.book tray.old tray.new) }
        ensures tray { OnOk result (tray.new ≡ after_leave done.kind done.subject.node tray.old) }
        ensures reads { OnOk result ((n : ℕ) → is_lent tray.new.lent n ≡ true
            → ReadsStart n tray.new) }
    {
        laws::nodes_are_a_tree(self.book.plan());
        let (kind, node) = (done.kind(), done.node());
        let receipt = self.book.leave_own(worker, done, tray)?;
        let left = self
            .scheduler
            .leave(self.book.plan(), self.book.held(), kind, node, worker);
        if left.is_err() {
            self.book.stop();
        }
        Ok(receipt)
    }

    /// One more waits for a change.
    pub(crate) fn begin_wait(&mut self)
        ensures { self.new ≡ self.old }
    {
        self.watching = self.watching.saturating_add(1);
    }

    /// One waits for a change no more.
    pub(crate) fn end_wait(&mut self)
        ensures { self.new ≡ self.old }
    {
        self.watching = self.watching.saturating_sub(1);
    }

    /// Stops the book.
    pub(crate) fn stop(&mut self)
        ensures { self.new.book ≡ record self.old.book { stopped = true } }
    {
        self.book.stop();
    }

    /// How many events the history has.
    pub(crate) fn length(&self) -> u64
        ensures { result ≡ length self.now.book.history }
    {
        self.book.history().len() as u64
    }

    /// Whether the history is no longer than `seen`, and the run neither stopped nor complete.
    pub(crate) fn is_unchanged(&self, seen: u64) -> bool
        ensures { result ≡ not (has_changed seen self.now.book) }
    {
        self.length() <= seen && !self.book.is_stopped() && !self.book.complete()
    }

    /// The history of its book in full is a run, and the book is of the floor's ground; who is named
    /// in the table, or owns a class, is one of the floor's workers; and unless the run was stopped,
    /// a SAME_THREAD child of an open class is Closed only where one before it isn't over.
    pub(crate) fn keep_run(&self)
        ensures run { HasRun self.now.book }
        ensures ground { IsBookOf G.plan G.start G.workers self.now.book }
        ensures workers { 0 < G.workers → AreWorkers G.workers self.now.scheduler }
        ensures turns { 0 < G.workers → self.now.book.stopped ≡ false
            → ArePreceded G.plan self.now.scheduler.table.places }
    {
        laws::nodes_are_a_tree(self.book.plan());
        let _history = self.book.history();
    }

    /// Its book.
    pub(crate) fn into_book(self) -> Book<'a>
        ensures ground { IsBookOf G.plan G.start G.workers result }
        ensures run { HasRun result }
    {
        let Desk { book, .. } = self;
        let _history = book.history();
        book
    }
}

// Posts the children of the root that may run beside others in the first worker's deque.
fn post_root(
    scheduler: &mut Scheduler,
    plan: &Plan,
    seats: &mut Vec<PostSeat>,
) -> Result<(), AllocError>
    ensures sizes { KeepsSizes scheduler.old scheduler.new }
    ensures lines { KeepsLines scheduler.old scheduler.new }
    ensures places { KeepsPlaces scheduler.old scheduler.new }
    ensures keys { scheduler.new.keys ≡ scheduler.old.keys }
    ensures owners { scheduler.new.owners ≡ scheduler.old.owners }
    ensures passed { scheduler.new.passed ≡ scheduler.old.passed }
    ensures left { scheduler.new.left ≡ scheduler.old.left }
    ensures bypassed { scheduler.new.bypassed ≡ scheduler.old.bypassed }
    ensures stands { KeepsStands scheduler.old scheduler.new }
    ensures closes { ClosesNone scheduler.old.table.places scheduler.new.table.places }
    ensures posted { OnOk result (0 < length seats.old.items → 0 < length plan.now.rows
        → length scheduler.old.table.places ≡ length plan.now.rows
        → IsPosted plan.now 0 scheduler.new.table.places) }
{
    match seats.first_mut() {
        Some(first) => post_children(scheduler, plan, 0, &mut first.owner),
        None => Ok(()),
    }
}

// What the workers have of the deques, each in the place of its worker.
fn places_of(
    alloc: Global,
    seats: Vec<PostSeat>,
    workers: u32,
) -> Result<Vec<Option<PostSeat>>, AllocError>
    ensures { IfOk result (λ places. length places.items ≡ workers) }
{
    let mut seats = seats.into_iter();
    let mut places = Vec::with_capacity(alloc, workers as usize)?;
    'workers: for _ in 0..workers {
        places.push(seats.next())?;
    }
    Ok(places)
}
