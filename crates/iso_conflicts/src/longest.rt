//! The longest chain of a plan.
ghost use Rattle.std.specs.Prelude.{◌≡◌, length, nat_lt, cond};
ghost use Rattle.std.specs.List.{fold};
ghost use Rattle.iso_conflicts.specs.Chains.{IsOf, class_chains, key_chains, longer, longest, no_chain, tests_in};
ghost use Rattle.iso_plan.specs.KeyTable.{keys};
ghost use Rattle.iso_plan.specs.Paths.{column};
ghost use Rattle.iso_plan.specs.RowView.{tree_of};

use crate::chains::{class_chain, key_chain};
use iso_plan::laws;
use iso_plan::plan::Plan;

/// What the tests of a chain share.
#[derive(Clone, Copy)]
pub enum Shared {
    /// The thread of a class; the root's is worker 0.
    Class(u32),
    /// A key that nodes take.
    Key(u32),
}

/// Tests that wait for one another.
#[derive(Clone, Copy)]
pub struct Chain {
    pub tests: u64,
    pub shared: Shared,
}

impl Chain {
    /// The longer of two, this one where they are equal.
    fn or_longer(self, other: Chain) -> Chain
        ensures { result ≡ longer self other }
    {
        if self.tests < other.tests {
            other
        } else {
            self
        }
    }
}

/// The longest chain of a plan, of its classes and keys. Of several that are equal it is the first,
/// and a class's before a key's.
pub(crate) fn longest(plan: &Plan, tests: &[u32]) -> Chain
    requires { tests.now ≡ column (tests_in (tree_of plan.now)) (length plan.now.rows) }
    ensures longest { result ≡ longest (tree_of plan.now) plan.now.settings }
    ensures known { IsOf (tree_of plan.now) result.shared }
{
    let class = longest_class(plan, tests);
    longest_key(plan, tests, class)
}

/// The longest of the root and all classes.
fn longest_class(plan: &Plan, tests: &[u32]) -> Chain
    requires { tests.now ≡ column (tests_in (tree_of plan.now)) (length plan.now.rows) }
    ensures longest { result ≡ fold longer no_chain
        (class_chains (tree_of plan.now) plan.now.settings (length plan.now.rows) 0) }
    ensures known { IsOf (tree_of plan.now) result.shared }
{
    laws::nodes_are_a_tree(plan);
    let mut best = Chain {
        tests: 0,
        shared: Shared::Class(0),
    };
    'nodes: for node in 0..plan.len() {
        best = best.or_longer(Chain {
            tests: class_chain(plan, tests, node),
            shared: Shared::Class(node),
        });
    }
    best
}

/// The longest of this one and those of all keys.
fn longest_key(plan: &Plan, tests: &[u32], class: Chain) -> Chain
    requires tests { tests.now ≡ column (tests_in (tree_of plan.now)) (length plan.now.rows) }
    requires class { IsOf (tree_of plan.now) class.shared }
    ensures longest { result ≡ fold longer class
        (key_chains (tree_of plan.now) (length (keys (tree_of plan.now))) 0) }
    ensures known { IsOf (tree_of plan.now) result.shared }
{
    let mut best = class;
    'keys: for key in 0..plan.key_count() {
        best = best.or_longer(Chain {
            tests: key_chain(plan, tests, key),
            shared: Shared::Key(key),
        });
    }
    best
}
