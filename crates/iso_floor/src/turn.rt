//! What a worker finds to do.
ghost use Rattle.std.specs.Prelude.{◌≡◌, IfOk, MatchOption, OnOk};
ghost use Rattle.iso_book.specs.Leaves.{MayBring, after_leave};
ghost use Rattle.iso_floor.specs.Desks.{IsOpenFor};
ghost use Rattle.iso_floor.specs.Parties.{MayTry};
ghost use Rattle.iso_floor.specs.Turning.{IsNextTurn, IsTurn};

use crate::desk::Desk;
use crate::ground::Ground;
use crate::halt::Halt;
use crate::refusal::{Meaning, meant_by};
use crate::seat::Seat;
use crate::worker::is_done_whole;
use iso_lifecycle::done::Done;
use iso_standing::refused::CoreFault;

/// What a worker finds to do.
#[derive(Clone, Copy)]
pub(crate) enum Turn {
    /// A node was entered.
    Entered(u32),
    /// A class was shut.
    Shut(u32),
    /// Nothing, until another worker has booked an event.
    Wait,
    /// Nothing more: every child of the root is finished.
    Finished,
    /// It goes on no further.
    Halted(Halt),
}

impl<'a, G: Ground> Seat<'a, G> {
    /// Shuts or opens up the class that this seat's worker has just opened, attempts a node that
    /// was found in a deque, if one was, and then what waits for this worker, one node after
    /// another, until an event was taken or nothing is left to try.
    #[inline(always)]
    pub(crate) fn turn_at(&mut self, desk: &mut Desk<'a, G>, found: Option<u32>) -> Turn
        ensures { IsTurn result self.old self.new }
    {
        if desk.is_stopped() {
            return Turn::Halted(Halt::Stopped);
        }
        if desk.is_done() {
            return Turn::Finished;
        }
        if let Some(turn) = self.try_opened(desk) {
            return turn;
        }
        if let Some(turn) = self.try_found(desk, found) {
            return turn;
        }
        'tries: for _ in 0..desk.tries() {
            let Some(node) = desk.next_for(self.worker()) else {
                return Turn::Wait;
            };
            if let Some(turn) = self.try_at(desk, node) {
                return turn;
            }
        }
        Turn::Wait
    }

    /// Books what a body of this seat's worker came to, and looks for something to do next, as
    /// `turn_at` does. It answers none where other workers' deques are to be looked into before.
    pub(crate) fn leave_and_turn_at(
        &mut self,
        desk: &mut Desk<'a, G>,
        done: Done,
    ) -> Result<Option<Turn>, Halt>
        requires { MayBring done self.old.tray }
        ensures { IfOk result (λ next. IsNextTurn done next self.old self.new) }
    {
        self.leave_or_halt_at(desk, done)?;
        Ok(self.next_turn_at(desk))
    }

    // Books what a body came to. Where that is refused, the worker goes on no further.
    fn leave_or_halt_at(&mut self, desk: &mut Desk<'a, G>, done: Done) -> Result<(), Halt>
        requires { MayBring done self.old.tray }
        ensures { OnOk result (self.new.tray
            ≡ after_leave done.kind done.subject.node self.old.tray) }
    {
        match self.leave_at(desk, done) {
            Ok(()) => Ok(()),
            Err(_) => Err(Halt::Stopped),
        }
    }

    // Looks for something to do after a Leave, unless other workers' deques come first.
    fn next_turn_at(&mut self, desk: &mut Desk<'a, G>) -> Option<Turn>
        ensures { MatchOption result (self.new ≡ self.old) (λ turn. IsTurn turn self.old self.new) }
    {
        let look = self.look_into_own_deque()?;
        Some(self.turn_at(desk, look.node()))
    }

    // Shuts the class that the worker has just opened, or opens it up where a child is left.
    fn try_opened(&mut self, desk: &mut Desk<'a, G>) -> Option<Turn>
        ensures { MatchOption result (self.new ≡ self.old) (λ turn. IsTurn turn self.old self.new) }
    {
        let class = desk.take_opening(self.worker())?;
        self.try_shut(desk, class)
    }

    // Attempts a node that was found in a deque, unless somebody else has entered it.
    fn try_found(&mut self, desk: &mut Desk<'a, G>, found: Option<u32>) -> Option<Turn>
        ensures { MatchOption result (self.new ≡ self.old) (λ turn. IsTurn turn self.old self.new) }
    {
        let node = found?;
        if !desk.is_loose(node) {
            return None;
        }
        self.attempt(desk, node)
    }

    // Attempts a node that waited, or shuts a class whose children are over.
    fn try_at(&mut self, desk: &mut Desk<'a, G>, node: u32) -> Option<Turn>
        requires { MayTry G.plan desk.old.scheduler.owners node self.old.worker }
        ensures { MatchOption result (self.new ≡ self.old) (λ turn. IsTurn turn self.old self.new) }
    {
        if desk.is_shared(node) {
            self.try_shut(desk, node)
        } else {
            self.attempt(desk, node)
        }
    }

    // Enters a node, unless a key is in its way: then it waits for that key.
    fn attempt(&mut self, desk: &mut Desk<'a, G>, node: u32) -> Option<Turn>
        requires { MayTry G.plan desk.old.scheduler.owners node self.old.worker }
        ensures { MatchOption result (self.new ≡ self.old) (λ turn. IsTurn turn self.old self.new) }
    {
        let Some(lock) = desk.lock_in_the_way(node) else {
            return self.try_enter(desk, node);
        };
        match desk.wait_for(node, lock, self.worker()) {
            Ok(()) => None,
            Err(fault) => Some(Turn::Halted(Halt::from(fault))),
        }
    }

    fn try_enter(&mut self, desk: &mut Desk<'a, G>, node: u32) -> Option<Turn>
        ensures { MatchOption result (self.new ≡ self.old) (λ turn. IsTurn turn self.old self.new) }
    {
        match self.enter_at(desk, node) {
            Ok(()) => {
                if !is_done_whole(desk.plan(), node) {
                    desk.share(node);
                }
                Some(Turn::Entered(node))
            }
            Err(CoreFault::Refused(refused)) => match meant_by(refused) {
                Meaning::Entered => None,
                Meaning::TooEarly | Meaning::Over | Meaning::Never => {
                    Some(Turn::Halted(Halt::Stopped))
                }
            },
            Err(CoreFault::OutOfMemory) => Some(Turn::Halted(Halt::OutOfMemory)),
        }
    }

    fn try_shut(&mut self, desk: &mut Desk<'a, G>, class: u32) -> Option<Turn>
        ensures { MatchOption result (self.new ≡ self.old) (λ turn. IsTurn turn self.old self.new) }
    {
        match self.shut_at(desk, class) {
            Ok(()) => Some(Turn::Shut(class)),
            Err(CoreFault::Refused(refused)) => match meant_by(refused) {
                Meaning::TooEarly => self.open_up(desk, class),
                Meaning::Entered | Meaning::Over | Meaning::Never => {
                    Some(Turn::Halted(Halt::Stopped))
                }
            },
            Err(CoreFault::OutOfMemory) => Some(Turn::Halted(Halt::OutOfMemory)),
        }
    }

    // Opens a class up to the other workers, whose children aren't done.
    fn open_up(&mut self, desk: &mut Desk<'a, G>, class: u32) -> Option<Turn>
        requires { IsOpenFor desk.old.book class self.old.worker }
        ensures { MatchOption result (self.new ≡ self.old) (λ turn. IsTurn turn self.old self.new) }
    {
        let worker = self.worker();
        match desk.open_up(class, worker, &mut self.posts.owner) {
            Ok(()) => None,
            Err(fault) => Some(Turn::Halted(Halt::from(fault))),
        }
    }
}
