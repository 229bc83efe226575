//! How a run goes on: an event that is accepted.
ghost use Rattle.std.specs.Prelude.{◌≡◌, ◌<◌, ◌||◌, ℕ, IfSome, None, is_some, length, not};
ghost use Rattle.iso_core.specs.Cores.{is_complete, refusal_in};
ghost use Rattle.iso_core.specs.Progress.{Refuses, entered_by_owner, shut_by_owner};

use crate::machine::Core;
use iso_plan::laws;
use iso_standing::event::Event;

impl Core<'_> {
    /// An event that `apply` refuses only where memory runs out, if there is one: there is, exactly
    /// while a node but the root is unfinished and the core isn't stopped. Takes no memory. It goes
    /// over the workers, and where none has a body over all nodes.
    pub fn allowed_event(&self) -> Option<Event>
        ensures allowed { IfSome result (λ e. refusal_in self.now e ≡ None) }
        ensures some { 0 < self.now.workers → is_some result
            ≡ not (self.now.stopped || is_complete self.now) }
    {
        self.is_of_a_run();
        if let Some(event) = self.going_on() {
            return Some(event);
        }
        if let Some(event) = self.shutting() {
            return Some(event);
        }
        self.entering()
    }

    /// The event by which the body of the lowest worker goes on that has one.
    fn going_on(&self) -> Option<Event>
        ensures allowed { IfSome result (λ e. refusal_in self.now e ≡ None) }
        ensures none { result ≡ None → (w : ℕ) → w < self.now.workers
            → Refuses self.now (Event.Step w) × Refuses self.now (Event.Leave w) }
    {
        'workers: for worker in 0..self.workers() {
            let step = Event::Step { worker };
            if self.refusal(step).is_none() {
                return Some(step);
            }
            let leave = Event::Leave { worker };
            if self.refusal(leave).is_none() {
                return Some(leave);
            }
        }
        None
    }

    /// The event by which the lowest class that may be shut is shut by its owner.
    fn shutting(&self) -> Option<Event>
        ensures allowed { IfSome result (λ e. refusal_in self.now e ≡ None) }
        ensures none { result ≡ None → (n : ℕ) → 0 < n → n < length self.now.plan.rows
            → Refuses self.now (shut_by_owner self.now n) }
    {
        'nodes: for node in 1..self.plan().len() {
            let worker = self.owner(node);
            let shut = Event::Shut { worker, node };
            if self.refusal(shut).is_none() {
                return Some(shut);
            }
        }
        None
    }

    /// The event by which the lowest node that may be entered is entered by the owner of its
    /// parent.
    fn entering(&self) -> Option<Event>
        ensures allowed { IfSome result (λ e. refusal_in self.now e ≡ None) }
        ensures none { result ≡ None → (n : ℕ) → 0 < n → n < length self.now.plan.rows
            → Refuses self.now (entered_by_owner self.now n) }
    {
        laws::nodes_are_a_tree(self.plan());
        'nodes: for node in 1..self.plan().len() {
            let worker = self.owner(self.plan().parent(node).unwrap_or(0));
            let enter = Event::Enter { worker, node };
            if self.refusal(enter).is_none() {
                return Some(enter);
            }
        }
        None
    }
}
