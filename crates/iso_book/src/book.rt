//! The book of a run.
ghost use Rattle.std.specs.Prelude.{◌≡◌, ◌<◌, ◌≤◌, ◌↔◌, ◌*◌, ℕ, IfOk, IfSome, IsTrue, length, true};
ghost use Rattle.std.specs.Option.{option_map};
ghost use Rattle.iso_book.specs.Books.{is_complete, new_book, outcome_in, state_in, suite_in};
ghost use Rattle.iso_isolation.specs.Histories.{IsHistory};
ghost use Rattle.iso_isolation.specs.States.{is_held};
ghost use Rattle.iso_lifecycle.specs.ResultViews.{AreComplete, outcome_of_view, result_in};
ghost use Rattle.iso_lifecycle.specs.Subjects.{outcome_alone, started};
ghost use Rattle.iso_plan.specs.HeldNodes.{is_held as is_held_node};
ghost use Rattle.iso_plan.specs.RowView.{tree_of};
ghost use Rattle.iso_standing.specs.CodeEvents.{events_of};
ghost use Rattle.iso_suites.specs.ScriptLanguage.{scripts};

mod entering;
mod leaving;
mod shutting;

use iso_lifecycle::results::Results;
use iso_lifecycle::view::View;
use iso_locks::tray::Tray;
use iso_locks::vault::Vault;
use iso_plan::held_nodes::HeldNodes;
use iso_plan::laws;
use iso_plan::plan::Plan;
use iso_settings::world::World;
use iso_standing::event::Event;
use iso_standing::following::{results_follow_leaves, results_follow_nodes};
use iso_standing::standing::Standing;
use std::alloc::{AllocError, Global};
use std::marker::Model;
use std::snapshot::Snapshot;

/// The book of a run: where its nodes and workers stand, the values that are lent to nobody, the
/// results, and the Enters, Leaves and Shuts that it has taken.
///
/// Contracts see the plan and the world that it was made for, the number of workers, the history,
/// and whether it was stopped. That the history in full is a run, and that all else is of the state
/// that this run gives, is kept by the type.
pub struct Book<'a> {
    plan: &'a Plan,
    world: &'a World,
    workers: u32,
    standing: Standing<'a>,
    vault: Vault<'a>,
    results: Results<'a>,
    /// It has room for every event of the plan.
    history: Vec<Event>,
}

impl<'a> Drop for Book<'a> {
    fn drop(self) {
        let Book {
            plan: _,
            world: _,
            workers: _,
            standing: _,
            vault: _,
            results: _,
            history: _,
        } = self;
    }
}

impl<'a> Model for Book<'a> {
    ghost use Rattle.std.specs.Vec.{vec_capacity};
    ghost use Rattle.iso_book.specs.Books.{BookView, IsBook, book_code};

    ghost Value = { BookView };

    ghost coded = { book_code };

    ghost view = { λ b. record {
      plan = b.plan.now;
      world = b.world.now;
      workers = b.workers;
      history = b.history.items;
      stopped = b.standing.stopped;
    } };

    ghost invariant = { λ b. IsBook (record {
      plan = b.plan.now;
      world = b.world.now;
      workers = b.workers;
      history = b.history.items;
      stopped = b.standing.stopped;
    })
        b.standing b.vault b.results (vec_capacity b.history) };
}

impl<'a> Book<'a> {
    /// The book of a plan and a world on `workers` workers, which has taken no event. It takes all
    /// memory that the history and the results need.
    pub fn new(
        alloc: Global,
        plan: &'a Plan,
        world: &'a World,
        workers: u32,
    ) -> Result<Book<'a>, AllocError>
        ensures { IfOk result (λ b. b ≡ new_book plan.now world.now workers) }
    {
        laws::nodes_are_a_tree(plan);
        results_follow_nodes(plan);
        let nodes = plan.len() as usize;
        Ok(Book {
            plan,
            world,
            workers,
            standing: Standing::new(alloc, plan, workers)?,
            vault: Vault::new(alloc, plan, world)?,
            results: Results::new(alloc, plan, Snapshot::of(world))?,
            history: Vec::with_capacity(alloc, nodes * 4)?,
        })
    }

    /// The plan that it was made for.
    pub fn plan(&self) -> &'a Plan
        ensures { result.now ≡ self.now.plan }
    {
        self.plan
    }

    /// The world that it was made for.
    pub fn world(&self) -> &'a World
        ensures { result.now ≡ self.now.world }
    {
        self.world
    }

    /// The number of workers that it was made for.
    pub fn workers(&self) -> u32
        ensures { result ≡ self.now.workers }
    {
        self.workers
    }

    /// The Enters, Leaves and Shuts that it has taken, in order: four of each node at most. In full
    /// they are a run.
    pub fn history(&self) -> &[Event]
        ensures events { result.now ≡ self.now.history }
        ensures run { IsHistory scripts (suite_in self.now) self.now.workers
            (events_of self.now.history) }
        ensures bounded { length result.now ≤ 4 * length self.now.plan.rows }
    {
        &self.history
    }

    /// Whether it was stopped.
    pub fn is_stopped(&self) -> bool
        ensures { result ≡ self.now.stopped }
    {
        self.standing.is_stopped()
    }

    /// The nodes that hold their locks: those that were entered and aren't finished, and the root,
    /// which is open from the start and takes no key.
    pub fn held(&self) -> &HeldNodes<'a>
        ensures plan { result.now.plan ≡ self.now.plan }
        ensures held { (n : ℕ) → n < length self.now.plan.rows → is_held_node result.now.held n
            ≡ is_held ((state_in self.now).nodes.status n) }
    {
        self.standing.held()
    }

    /// Stops: it refuses every event from now on. Takes no memory.
    pub fn stop(&mut self)
        ensures { self.new ≡ record self.old { stopped = true } }
    {
        self.standing.stop();
    }

    /// For a runner of one's own: the outcome of a node, if it is finished, which is that of the
    /// node run alone, whatever else has run.
    pub fn outcome(&self, node: u32) -> Option<View<'_>>
        requires { node < length self.now.plan.rows }
        ensures finished { option_map outcome_of_view result ≡ outcome_in self.now node }
        ensures alone { IfSome result (λ v. outcome_of_view v
            ≡ outcome_alone (tree_of self.now.plan) (started self.now.world) node) }
    {
        results_follow_leaves(self.plan);
        self.results.get(node)
    }

    /// The results of all finished nodes: those of tests and classes run alone, whatever else has
    /// run.
    pub fn results(&self) -> &Results<'a>
        ensures plan { result.now.plan ≡ self.now.plan }
        ensures start { result.now.start ≡ self.now.world }
        ensures outcomes { (n : ℕ) → n < length self.now.plan.rows → result_in result.now n
            ≡ outcome_in self.now n }
        ensures complete { is_complete self.now ≡ true → AreComplete result.now }
    {
        results_follow_leaves(self.plan);
        &self.results
    }

    /// Whether a tray was made for a plan and a world that say the same as those of this book. It
    /// goes over both.
    fn is_made_for(&self, tray: &Tray<'_>) -> bool
        ensures { IsTrue result
            ↔ ((tray.now.plan ≡ self.now.plan) × (tray.now.world ≡ self.now.world)) }
    {
        tray.plan().same(self.plan) && tray.world().same(self.world)
    }

    /// Whether every node but the root is finished. It goes over all nodes.
    pub fn complete(&self) -> bool
        ensures { result ≡ is_complete self.now }
    {
        self.standing.is_complete()
    }
}
