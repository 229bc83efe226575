//! When nodes were ready.
ghost use Rattle.std.specs.Prelude.{◌≡◌, ◌<◌, length};
ghost use Rattle.iso_plan.specs.RowView.{tree_of};
ghost use Rattle.iso_waits.specs.Waits.{earlier, finished, highest, is_sibling, opened, ready};

use crate::stay::stayed;
use iso_lifecycle::kind::BodyKind;
use iso_model::script::Mode;
use iso_plan::laws;
use iso_plan::plan::Plan;
use iso_times::times::Times;

/// When a node other than the root was ready: its class was open and, where it is SAME_THREAD, its
/// earlier SAME_THREAD sibling had finished. None where its class's `before_all` has no time.
pub(crate) fn ready(plan: &Plan, times: &Times, node: u32) -> Option<u64>
    requires above { 0 < node }
    requires within { node < length plan.now.rows }
    ensures { result ≡ ready (tree_of plan.now) plan.now.settings times.now node }
{
    let open = opened(times, plan.parent(node)?)?;
    Some(open.max(finished(times, earlier(plan, times, node))))
}

/// When a class was open; the root from the start on.
fn opened(times: &Times, class: u32) -> Option<u64>
    ensures { result ≡ opened times.now class }
{
    if class == 0 {
        return Some(0);
    }
    Some(times.body(class, BodyKind::BeforeAll)?.end)
}

/// When a node had finished; from the start on where there is none.
fn finished(times: &Times, node: Option<u32>) -> u64
    ensures { result ≡ finished times.now node }
{
    match node {
        Some(node) => match stayed(times, node) {
            Some(stay) => stay.end,
            None => 0,
        },
        None => 0,
    }
}

/// The last SAME_THREAD sibling before a node that was entered, where the node is SAME_THREAD too.
pub(crate) fn earlier(plan: &Plan, times: &Times, node: u32) -> Option<u32>
    requires above { 0 < node }
    requires within { node < length plan.now.rows }
    ensures { result ≡ earlier (tree_of plan.now) plan.now.settings times.now node }
{
    match plan.mode(node) {
        Mode::SameThread => last_sibling(plan, times, node),
        Mode::Concurrent => None,
    }
}

/// The last SAME_THREAD sibling before a node that was entered. Siblings have higher numbers than
/// their class.
fn last_sibling(plan: &Plan, times: &Times, node: u32) -> Option<u32>
    requires above { 0 < node }
    requires within { node < length plan.now.rows }
    ensures { result ≡ highest
        (is_sibling (tree_of plan.now) plan.now.settings times.now node) node }
{
    laws::parents_come_first(plan);
    let first = plan.parent(node)? + 1;
    let mut at = node;
    'siblings: while first < at {
        at -= 1;
        if is_sibling(plan, times, node, at) {
            return Some(at);
        }
    }
    None
}

/// Whether another node but the root is a SAME_THREAD sibling that was entered.
fn is_sibling(plan: &Plan, times: &Times, node: u32, other: u32) -> bool
    requires above { 0 < node }
    requires within { node < length plan.now.rows }
    requires other_above { 0 < other }
    requires other_within { other < length plan.now.rows }
    ensures { result ≡ is_sibling (tree_of plan.now) plan.now.settings times.now node other }
{
    plan.parent(other) == plan.parent(node)
        && matches!(plan.mode(other), Mode::SameThread)
        && stayed(times, other).is_some()
}
