//! Which classes bar their descendants, which have their results by this.
ghost use Rattle.std.specs.Prelude.{◌≡◌, ◌<◌, [], IfSome, is_some, length};
ghost use Rattle.iso_model.specs.Verdicts.{barred_verdict};
ghost use Rattle.iso_lifecycle.specs.Ends.{IsOpening};
ghost use Rattle.iso_lifecycle.specs.ResultViews.{is_barred, is_barring, outcome_in};
ghost use Rattle.iso_lifecycle.specs.Subjects.{subject};

use crate::done::Opened;
use crate::results::Results;
use iso_plan::laws;

impl<'a> Results<'a> {
    /// What bars a node: the `before_all` of an enclosing class, where that was put and
    /// didn't end well.
    pub(super) fn barred_by(&self, node: u32) -> Option<&Opened>
        requires { node < length self.now.plan.rows }
        ensures barred { is_some result ≡ is_barred self.now node }
        ensures outcome { IfSome result (λ o. outcome_in self.now node
            ≡ record { verdict = barred_verdict o.now.ending; output = [] }) }
    {
        laws::nodes_are_a_tree(self.plan);
        let mut at = node;
        'up: while let Some(class) = self.plan.parent(at) {
            if let Some(opened) = self.barring(class) {
                return Some(opened);
            }
            if self.opened(class).is_some() {
                // It was opened well, and so were its enclosing classes.
                return None;
            }
            at = class;
        }
        None
    }

    /// Whether the `before_all` of a class was put and didn't end well. Takes no memory.
    pub fn bars(&self, node: u32) -> bool
        requires { node < length self.now.plan.rows }
        ensures { result ≡ is_barring self.now node }
    {
        self.barring(node).is_some()
    }

    /// The `before_all` of a class, where it was put and didn't end well.
    fn barring(&self, node: u32) -> Option<&Opened>
        requires { node < length self.now.plan.rows }
        ensures barring { is_some result ≡ is_barring self.now node }
        ensures opening { IfSome result
            (λ o. IsOpening (subject self.now.plan self.now.start node) o.now) }
    {
        let opened = self.opened(node)?;
        if opened.ending.is_well() {
            None
        } else {
            Some(opened)
        }
    }
}
