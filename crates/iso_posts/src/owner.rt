//! The end of a deque that its owner has.
ghost use Rattle.std.specs.Prelude.{◌≡◌, ◌≤◌, ◌+◌, ◌-◌, [], ◌∷◌, ◌++◌, length, IfErr, IfOk, IfSome, None, OnErr, OnOk};
ghost use Rattle.iso_posts.specs.Accounts.{AddsUp, new_owner, new_thief};

use crate::rule::{Accounting, Fair, Hand, Posting, Taking, Thieving};
use crate::thief::Thief;
use crossbeam_deque::Worker;
use std::alloc::{AllocError, Global};
use std::marker::Model;

type Deque = Worker<u32, Global, Hand, Fair>;

/// The slots that a deque begins with.
const FIRST_SLOTS: usize = 64;

/// The end of a deque at which its owner posts and takes nodes, first in, first out.
#[derive(Drop)]
pub struct Owner {
    deque: Deque,
}

impl Model for Owner {
    ghost use Rattle.crossbeam_deque.specs.Handles.{worker_capacity, worker_deque, worker_flavor, worker_index, worker_view};
    ghost use Rattle.iso_posts.specs.Accounts.{OwnerView};
    ghost use Rattle.iso_posts.specs.Rules.{IsOwnersEnd, owner_view};

    ghost Value = { OwnerView };

    ghost view = { λ o. owner_view (worker_deque o.deque).0 (worker_view o.deque) };

    ghost invariant = { λ o. IsOwnersEnd (worker_flavor o.deque) (worker_capacity o.deque)
        (worker_index o.deque) (worker_view o.deque) };
}

impl Owner {
    /// The owner's end of a new deque, in which nothing lies.
    pub fn new(alloc: Global) -> Result<Owner, AllocError>
        ensures { IfOk result (λ o. o ≡ new_owner o.deque 0) }
    {
        Ok(Owner {
            deque: Deque::fifo_as(alloc, FIRST_SLOTS)?,
        })
    }

    /// An end for a thief, which has stolen nothing. It takes no memory, and is refused only where
    /// the ends of a deque can't be counted.
    pub fn thief(&mut self) -> Result<Thief, AllocError>
        ensures thief { IfOk result (λ t. t ≡ new_thief self.old.deque) }
        ensures counted { OnOk result (self.new
            ≡ record self.old { thieves = self.old.thieves + 1 }) }
        ensures same { OnErr result (self.new ≡ self.old) }
    {
        let stealer = self.deque.stealer()?;
        let pass = self.deque.another::<Thieving>();
        Ok(Thief::new(stealer, pass))
    }

    /// Posts a node at the back. Where the deque couldn't grow it hands the node back, and not
    /// before 64 nodes were posted.
    pub fn post(&mut self, node: u32) -> Result<(), (u32, AllocError)>
        ensures posted { OnOk result (self.new
            ≡ record self.old { posted = self.old.posted ++ node ∷ [] }) }
        ensures refused { IfErr result (λ refusal. refusal.0 ≡ node) }
        ensures room { OnErr result (64 ≤ length self.old.posted) }
        ensures same { OnErr result (self.new ≡ self.old) }
    {
        match self.deque.push_as::<Posting>(node) {
            Ok(()) => Ok(()),
            Err(node) => Err((node, AllocError)),
        }
    }

    /// Takes a node, or none where at one moment no node lay in the deque. It is the one at the
    /// front, of which no contract tells: the account of a deque is the same in any order.
    pub fn take(&mut self) -> Option<u32>
        ensures taken { IfSome result (λ node. self.new
            ≡ record self.old { taken = self.old.taken ++ node ∷ [] }) }
        ensures none { result ≡ None → AddsUp self.old 0 }
        ensures same { result ≡ None → self.new ≡ self.old }
    {
        self.deque.pop_as::<Taking>()
    }

    /// For a runner of one's own: how many nodes lay in the deque at one moment. Then each was
    /// posted as often as it was taken, was stolen and lay there.
    pub fn balance(&mut self) -> usize
        ensures account { AddsUp self.old result }
        ensures same { self.new ≡ self.old }
    {
        self.deque.len_as::<Accounting>()
    }

    /// For a runner of one's own: takes back the end of a thief of this deque, with the account of
    /// what it has stolen.
    pub fn join(&mut self, thief: Thief)
        requires { thief.deque ≡ self.old.deque }
        ensures { self.new ≡ record self.old {
          returned = self.old.returned ++ thief.stolen;
          thieves = self.old.thieves - 1;
        } }
    {
        self.deque.absorb::<Thieving>(thief.into_pass());
    }
}
