//! How many tests of two suites have which fate.
ghost use Rattle.std.specs.Prelude.{◌≡◌, ◌<◌, ◌≤◌, ◌^◌, count_by, length};
ghost use Rattle.std.specs.List.{All};
ghost use Rattle.iso_affected.specs.Counting.{AreFew, counts, is_kind, is_test_at, is_test_of, tests_of};
ghost use Rattle.iso_affected.specs.Fates.{IsNode, gone};
ghost use Rattle.iso_plan.specs.RowView.{tree_of};

use crate::affected::Fate;
use iso_plan::plan::Plan;

/// The kinds of fates.
#[derive(Clone, Copy)]
pub enum FateKind {
    Same,
    Changed,
    New,
}

/// How many tests of the new suite agree with their namesakes, don't, and have none; and how many
/// of the old suite have none in the new one.
#[derive(Clone, Copy)]
pub struct Counts {
    pub same: u64,
    pub changed: u64,
    pub new: u64,
    pub gone: u64,
}

/// Counts the tests of two suites, of which the fates of the nodes of the new one, and those nodes
/// of the old one that are gone. Takes no memory.
pub fn count(old: &Plan, new: &Plan, fates: &[Fate], lost: &[u32]) -> Counts
    requires count { length fates.now ≡ length new.now.rows }
    requires gone { lost.now ≡ gone (tree_of old.now) (tree_of new.now) }
    ensures counts { result ≡ counts (tree_of old.now) (tree_of new.now) fates.now lost.now }
    ensures few { AreFew result }
{
    Counts {
        same: tests_of(new, fates, FateKind::Same),
        changed: tests_of(new, fates, FateKind::Changed),
        new: tests_of(new, fates, FateKind::New),
        gone: tests_among(old, lost),
    }
}

/// How many tests have a fate of this kind.
fn tests_of(plan: &Plan, fates: &[Fate], kind: FateKind) -> u64
    requires { length fates.now ≡ length plan.now.rows }
    ensures tests { result ≡ tests_of (tree_of plan.now) fates.now kind }
    ensures few { result < 2 ^ 32 }
{
    let mut tests = 0;
    'nodes: for node in 0..plan.len() {
        if is_test_of(plan, fates, kind, node) {
            tests += 1;
        }
    }
    tests
}

/// Whether a node is a test with a fate of this kind.
fn is_test_of(plan: &Plan, fates: &[Fate], kind: FateKind, node: u32) -> bool
    requires count { length fates.now ≡ length plan.now.rows }
    requires within { node < length plan.now.rows }
    ensures { result ≡ is_test_of (tree_of plan.now) fates.now kind node }
{
    plan.is_test(node) && is_kind(kind, fates[node as usize])
}

/// Whether a fate is of this kind.
fn is_kind(kind: FateKind, fate: Fate) -> bool
    ensures { result ≡ is_kind kind fate }
{
    match (kind, fate) {
        (FateKind::Same, Fate::Same(_))
        | (FateKind::Changed, Fate::Changed(_))
        | (FateKind::New, Fate::New) => true,
        _ => false,
    }
}

/// How many of some nodes are tests.
fn tests_among(plan: &Plan, nodes: &[u32]) -> u64
    requires nodes { All (IsNode (tree_of plan.now)) nodes.now }
    requires few { length nodes.now ≤ length plan.now.rows }
    ensures tests { result ≡ count_by (is_test_at (tree_of plan.now)) nodes.now }
    ensures few { result < 2 ^ 32 }
{
    // It is asked for what it proves: that 32 bits number the nodes.
    let _count = plan.len();
    let mut tests = 0;
    'nodes: for node in nodes {
        if plan.is_test(*node) {
            tests += 1;
        }
    }
    tests
}
