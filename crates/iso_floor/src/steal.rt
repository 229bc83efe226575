//! How a worker looks into the deques.
ghost use Rattle.std.specs.Prelude.{◌≡◌, IfSome};
ghost use Rattle.iso_floor.specs.declared.steal.Look.TheVariants.{Nothing};

use iso_posts::thief::{Stolen, Thief};
use std::sync::Wait;

/// What a look into the deques gave.
#[derive(Clone, Copy)]
pub(crate) enum Look {
    Found(u32),
    /// No node lay in any deque, each at its moment.
    Nothing,
    /// It was left out, since the scheduler had something for the worker.
    Skipped,
}

impl Look {
    /// The node that was found.
    pub(crate) fn node(self) -> Option<u32> {
        match self {
            Look::Found(node) => Some(node),
            Look::Nothing | Look::Skipped => None,
        }
    }

    /// How often nodes had been posted before the look, if it has shown that none of them lay in a
    /// deque any more.
    pub(crate) fn seen(self, rounds: u64) -> Option<u64>
        ensures { IfSome result (λ seen. (self ≡ Nothing) × (seen ≡ rounds)) }
    {
        match self {
            Look::Nothing => Some(rounds),
            Look::Found(_) | Look::Skipped => None,
        }
    }
}

/// Steals a node from the first deque in which one is found. It may wait for others who take from
/// the same deque.
pub(crate) fn steal_from<R: Wait>(rt: &R, thieves: &mut Vec<Thief>) -> Look {
    for thief in thieves.iter_mut() {
        if let Some(node) = steal_node(rt, thief) {
            return Look::Found(node);
        }
    }
    Look::Nothing
}

// Steals a node from a deque, or finds that none lies in it. Who is told to try again was beaten by
// somebody who got one.
fn steal_node<R: Wait>(rt: &R, thief: &mut Thief) -> Option<u32> {
    for _ in rt.forever() {
        match thief.steal() {
            Stolen::Node(node) => return Some(node),
            Stolen::Empty => return None,
            Stolen::Again => {}
        }
    }
    None
}
