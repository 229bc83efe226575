//! The results of a run.
ghost use Rattle.std.specs.Prelude.{◌≡◌, ◌<◌, ◌≤◌, [], ℕ, IfOk, IfSome, OnErr, OnOk, cond, is_some, None, Some, false, length, map, option_copied, replicate, reverse, slice_set, true, vec_capacity};
ghost use Rattle.std.specs.Option.{option_map};
ghost use Rattle.iso_lifecycle.specs.Ends.{IsOpening};
ghost use Rattle.iso_lifecycle.specs.declared.entry.Entry.TheVariants.{Empty};
ghost use Rattle.iso_plan.specs.Paths.{path};
ghost use Rattle.iso_plan.specs.RowView.{tree_of};
ghost use Rattle.iso_lifecycle.specs.ResultViews.{AreOpened, CanPut, is_opened, no_results, outcome_of_view, result_in, with_done};
ghost use Rattle.iso_lifecycle.specs.Subjects.{subject};

mod barred;

use crate::done::{Done, Opened};
use crate::entry::Entry;
use crate::frame::Frame;
use crate::view::View;
use iso_plan::laws;
use iso_plan::plan::Plan;
use iso_settings::world::World;
use std::alloc::{AllocError, Global};
use std::marker::Model;
use std::snapshot::Snapshot;

/// The results of a run: what the bodies of the nodes of a plan came to.
///
/// Contracts see the plan, the start, and which bodies' ends were put. That each result is what the
/// definitions say is kept by the type.
#[derive(Drop)]
pub struct Results<'a> {
    plan: &'a Plan,
    start: Snapshot<World>,
    entries: Vec<Entry>,
}

impl<'a> Model for Results<'a> {
    ghost use Rattle.iso_lifecycle.specs.ResultViews.{ResultsView, results_code};

    ghost Value = { ResultsView };

    ghost coded = { results_code };

    ghost use Rattle.iso_lifecycle.specs.Entries.{AreKept, seen};

    ghost view = { λ r. seen r.plan.now r.start.value r.entries.items };

    ghost invariant = { λ r. AreKept r.plan.now r.start.value r.entries.items };
}

/// `count` entries of which nothing was put.
fn empty(alloc: Global, count: usize) -> Result<Vec<Entry>, AllocError>
    ensures { IfOk result (λ v. v.items ≡ replicate count Empty) }
{
    let mut entries = Vec::with_capacity(alloc, count)?;
    'entries: for _n in 0..count {
        entries.push(Entry::Empty)?;
    }
    Ok(entries)
}

impl<'a> Results<'a> {
    /// No results of a plan. It takes all memory that `put` needs.
    pub fn new(
        alloc: Global,
        plan: &'a Plan,
        start: Snapshot<World>,
    ) -> Result<Results<'a>, AllocError>
        ensures { IfOk result (λ r. r ≡ no_results plan.now start.value) }
    {
        let entries = empty(alloc, plan.len() as usize)?;
        Ok(Results {
            plan,
            start,
            entries,
        })
    }

    /// Puts what a body came to. Takes no memory.
    #[inline(always)]
    pub fn put(&mut self, done: Done)
        requires { CanPut done self.old }
        ensures { self.new ≡ with_done done self.old }
    {
        let Done { node, what, .. } = done;
        self.entries[node as usize].put(what);
    }

    /// The result of a node: of a test once its end was put, of a class once both its ends were
    /// put, and of each descendant of a class whose `before_all` was put and didn't end well. That
    /// it is the one of the node run alone is kept by the type (`AreKept`), which `result_in` tells.
    pub fn get(&self, node: u32) -> Option<View<'_>>
        requires { node < length self.now.plan.rows }
        ensures { option_map outcome_of_view result ≡ result_in self.now node }
    {
        match &self.entries[node as usize] {
            Entry::Tested(outcome) => Some(View::of_test(outcome)),
            Entry::Closed(opening, closed) => Some(View::of_class(opening.opened(), closed)),
            Entry::Empty | Entry::Opened(_) => {
                let opened = self.barred_by(node)?;
                Some(View::barred(&opened.ending))
            }
        }
    }

    /// The `before_all` of a class, where it was put.
    fn opened(&self, node: u32) -> Option<&Opened>
        requires { node < length self.now.plan.rows }
        ensures put { is_some result ≡ is_opened self.now node }
        ensures opening { IfSome result
            (λ o. IsOpening (subject self.now.plan self.now.start node) o.now) }
    {
        match &self.entries[node as usize] {
            Entry::Opened(opening) | Entry::Closed(opening, _) => Some(opening.opened()),
            Entry::Empty | Entry::Tested(_) => None,
        }
    }

    /// The frame of a class whose `before_all` was put.
    pub fn frame(&self, node: u32) -> Option<&Frame>
        requires { node < length self.now.plan.rows }
        ensures { option_copied result ≡ cond (is_opened self.now node)
            (Some (subject self.now.plan self.now.start node)) None }
    {
        Some(&self.opened(node)?.frame)
    }

    /// Shares the frames of a class and of its enclosing classes into a list that has room for
    /// them, outermost first; of the root there are none. It takes the memory of `Frame::share`
    /// alone, and once out of memory the list is empty again.
    pub fn share_frames(&self, node: u32, frames: &mut Vec<Frame>) -> Result<(), AllocError>
        requires node { node < length self.now.plan.rows }
        requires opened { AreOpened self.now (path (tree_of self.now.plan) node) }
        requires empty { frames.old.items ≡ [] }
        requires room { length (path (tree_of self.now.plan) node) ≤ vec_capacity frames.old }
        ensures frames { OnOk result (frames.new.items ≡ map (subject self.now.plan self.now.start)
            (reverse (path (tree_of self.now.plan) node))) }
        ensures none { OnErr result (frames.new.items ≡ []) }
        ensures capacity { vec_capacity frames.new ≡ vec_capacity frames.old }
    {
        let shared = self.share_upwards(node, frames);
        match shared {
            Ok(()) => frames.reverse(),
            Err(_) => frames.clear(),
        }
        shared
    }

    /// Shares the frames of a class and of its enclosing classes, innermost first.
    fn share_upwards(&self, node: u32, frames: &mut Vec<Frame>) -> Result<(), AllocError>
        requires node { node < length self.now.plan.rows }
        requires opened { AreOpened self.now (path (tree_of self.now.plan) node) }
        requires empty { frames.old.items ≡ [] }
        requires room { length (path (tree_of self.now.plan) node) ≤ vec_capacity frames.old }
        ensures frames { OnOk result (frames.new.items
            ≡ map (subject self.now.plan self.now.start) (path (tree_of self.now.plan) node)) }
        ensures capacity { vec_capacity frames.new ≡ vec_capacity frames.old }
    {
        laws::nodes_are_a_tree(self.plan);
        let mut at = node;
        'up: while let Some(class) = self.plan.parent(at) {
            let frame = self.frame(at).unwrap().share()?;
            frames.push_reserved(frame);
            at = class;
        }
        Ok(())
    }
}
