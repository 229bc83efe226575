//! The chains of keys and classes.
ghost use Rattle.std.specs.Prelude.{◌≡◌, ◌<◌, ◌≤◌, ◌+◌, ◌^◌, cond, length, map};
ghost use Rattle.std.specs.List.{sum_by};
ghost use Rattle.iso_conflicts.specs.Chains.{class_chain, is_same_thread, key_chain, tests_in};
ghost use Rattle.iso_conflicts.specs.Takers.{takers, takes};
ghost use Rattle.iso_model.specs.declared.access.Access.TheVariants.{Read, Write};
ghost use Rattle.iso_plan.specs.Modes.{mode};
ghost use Rattle.iso_plan.specs.NodeChains.{largest};
ghost use Rattle.iso_plan.specs.Paths.{column};
ghost use Rattle.iso_plan.specs.RowView.{tree_of};

use crate::takers::takes;
use crate::tests::hold_few_nodes;
use iso_model::access::Access;
use iso_model::script::Mode;
use iso_plan::laws;
use iso_plan::plan::Plan;

/// The chain of a key.
pub(crate) fn key_chain(plan: &Plan, tests: &[u32], key: u32) -> u64
    requires { tests.now ≡ column (tests_in (tree_of plan.now)) (length plan.now.rows) }
    ensures { result ≡ key_chain (tree_of plan.now) key }
{
    written(plan, tests, key) + u64::from(most_read(plan, tests, key))
}

/// The tests of all nodes that take a key for READ_WRITE.
fn written(plan: &Plan, tests: &[u32], key: u32) -> u64
    requires { tests.now ≡ column (tests_in (tree_of plan.now)) (length plan.now.rows) }
    ensures written { result ≡ sum_by (tests_in (tree_of plan.now))
        (takers (tree_of plan.now) Write key) }
    ensures fits { result + length plan.now.rows < 2 ^ 64 }
{
    let mut sum: u64 = 0;
    'nodes: for node in 1..plan.len() {
        sum += u64::from(taker_tests(plan, tests, Access::Write, key, node));
    }
    sum
}

/// The tests of the largest node that takes a key for READ.
fn most_read(plan: &Plan, tests: &[u32], key: u32) -> u32
    requires { tests.now ≡ column (tests_in (tree_of plan.now)) (length plan.now.rows) }
    ensures largest { result
        ≡ largest (map (tests_in (tree_of plan.now)) (takers (tree_of plan.now) Read key)) }
    ensures fits { result ≤ length plan.now.rows }
{
    let mut most = 0;
    'nodes: for node in 1..plan.len() {
        most = most.max(taker_tests(plan, tests, Access::Read, key, node));
    }
    most
}

/// The tests of a node where it takes a key with this access, and else none.
fn taker_tests(plan: &Plan, tests: &[u32], access: Access, key: u32, node: u32) -> u32
    requires tests { tests.now ≡ column (tests_in (tree_of plan.now)) (length plan.now.rows) }
    requires node { node < length plan.now.rows }
    ensures { result ≡ cond (takes (tree_of plan.now) access key node)
        (tests_in (tree_of plan.now) node) 0 }
{
    if takes(plan, access, key, node) {
        tests[node as usize]
    } else {
        0
    }
}

/// The chain of a class, or of the root.
pub(crate) fn class_chain(plan: &Plan, tests: &[u32], class: u32) -> u64
    requires tests { tests.now ≡ column (tests_in (tree_of plan.now)) (length plan.now.rows) }
    requires class { class < length plan.now.rows }
    ensures { result ≡ class_chain (tree_of plan.now) plan.now.settings class }
{
    hold_few_nodes(plan);
    laws::children_have_their_parent(plan);
    let mut sum: u64 = 0;
    'children: for child in plan.children(class) {
        sum += u64::from(child_tests(plan, tests, *child));
    }
    sum
}

/// The tests of a node where it is on the thread of its class, and else none.
fn child_tests(plan: &Plan, tests: &[u32], node: u32) -> u32
    requires tests { tests.now ≡ column (tests_in (tree_of plan.now)) (length plan.now.rows) }
    requires node { node < length plan.now.rows }
    ensures { result ≡ cond (is_same_thread (mode (tree_of plan.now) plan.now.settings node))
        (tests_in (tree_of plan.now) node) 0 }
{
    match plan.mode(node) {
        Mode::SameThread => tests[node as usize],
        Mode::Concurrent => 0,
    }
}
