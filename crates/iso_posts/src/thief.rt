//! The end of a deque that a thief has.
ghost use Rattle.std.specs.Prelude.{◌≡◌};
ghost use Rattle.crossbeam_deque.specs.Handles.{IsPassOf, stealer_deque, view as pass_view};
ghost use Rattle.iso_posts.specs.Accounts.{HasStolen};
ghost use Rattle.iso_posts.specs.Rules.{IsOfThief, thief_view};

use crate::rule::{Fair, Hand, Taking};
use crossbeam_deque::{Pass, Steal, Stealer};
use std::alloc::Global;
use std::marker::Model;

/// An end of another worker's deque, at which a thief steals nodes.
#[derive(Drop)]
pub struct Thief {
    stealer: Stealer<u32, Global, Hand, Fair>,
    pass: Pass<u32, Hand>,
}

impl Model for Thief {
    ghost use Rattle.crossbeam_deque.specs.Handles.{IsPassOf, stealer_deque, view as pass_view};
    ghost use Rattle.iso_posts.specs.Accounts.{ThiefView};
    ghost use Rattle.iso_posts.specs.Rules.{IsOfThief, thief_view};

    ghost Value = { ThiefView };

    ghost view = { λ t. thief_view (stealer_deque t.stealer).0 (pass_view t.pass) };

    ghost invariant = { λ t. IsPassOf (stealer_deque t.stealer) t.pass
        × IsOfThief (pass_view t.pass) };
}

/// What an attempt to steal gives.
#[derive(Clone, Copy, Debug, PartialEq, Eq)]
pub enum Stolen {
    Node(u32),
    /// No node lay in the deque at one moment.
    Empty,
    /// Somebody else was quicker: it may be tried again.
    Again,
}

impl Thief {
    pub(crate) fn new(stealer: Stealer<u32, Global, Hand, Fair>, pass: Pass<u32, Hand>) -> Thief
        requires pass { IsPassOf (stealer_deque stealer) pass }
        requires role { IsOfThief (pass_view pass) }
        ensures { result ≡ thief_view (stealer_deque stealer).0 (pass_view pass) }
    {
        Thief { stealer, pass }
    }

    /// Steals the node at the front.
    pub fn steal(&mut self) -> Stolen
        ensures { HasStolen result self.old self.new }
    {
        match self.stealer.steal_as::<Taking>(&mut self.pass) {
            Steal::Success(node) => Stolen::Node(node),
            Steal::Empty => Stolen::Empty,
            Steal::Retry => Stolen::Again,
        }
    }

    // Its pass alone.
    pub(crate) fn into_pass(self) -> Pass<u32, Hand>
        ensures pass { IsPassOf (self.deque, result.heap) result }
        ensures role { IsOfThief (pass_view result) }
        ensures stolen { (pass_view result).taken ≡ self.stolen }
    {
        self.pass
    }
}
