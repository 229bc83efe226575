//! What had to end before a body.
ghost use Rattle.std.specs.Prelude.{◌≡◌, ◌<◌, length};
ghost use Rattle.iso_critical.specs.Needs.{comes_before, ended_by, had_to_end, is_needed, is_node, lets_in, needs};
ghost use Rattle.iso_critical.specs.Paths.{run_with};
ghost use Rattle.iso_plan.specs.RowView.{tree_of};

use crate::body::Body;
use crate::holders::holder_of;
use crate::under::is_under;
use iso_plan::plan::Plan;
use iso_times::times::BodyTime;
use iso_waits::waits::Waits;

/// A body, and whose bodies had to end before it: its class, the sibling that its node had to let
/// finish, and the node that its node waited for last.
#[derive(Clone, Copy)]
pub(crate) struct Needs {
    pub body: Body,
    pub class: Option<u32>,
    pub earlier: Option<u32>,
    pub holder: Option<u32>,
}

/// What a body needs, where nodes waited last for these.
pub(crate) fn needs_of(plan: &Plan, waits: &Waits<'_>, holders: &[Option<u32>], body: Body) -> Needs
    requires above { 0 < body.node }
    requires within { body.node < length plan.now.rows }
    requires plan { waits.now.plan ≡ plan.now }
    ensures { result ≡ needs (run_with plan.now waits.now.bodies holders.now) body }
{
    Needs {
        body,
        class: plan.parent(body.node),
        earlier: waits.earlier(body.node),
        holder: holder_of(holders, body.node),
    }
}

/// Whether a body had to end before the one that needs this, or before the end of the run.
pub(crate) fn comes_before(plan: &Plan, next: Option<Needs>, body: Body) -> bool
    requires { body.node < length plan.now.rows }
    ensures { result ≡ comes_before (tree_of plan.now) next body }
{
    match next {
        Some(needs) => had_to_end(plan, needs, body),
        None => true,
    }
}

/// Whether a body had to end before the one that needs this.
fn had_to_end(plan: &Plan, needs: Needs, body: Body) -> bool
    requires { body.node < length plan.now.rows }
    ensures { result ≡ had_to_end (tree_of plan.now) needs body }
{
    ended_by(body.time, needs.body.time)
        && (body.time.worker == needs.body.time.worker || is_needed(plan, needs, body))
}

/// Whether a body had to end before a class closes, or before a node is entered.
fn is_needed(plan: &Plan, needs: Needs, body: Body) -> bool
    requires { body.node < length plan.now.rows }
    ensures { result ≡ is_needed (tree_of plan.now) needs body }
{
    if needs.body.closes {
        is_under(plan, needs.body.node, body.node)
    } else {
        lets_in(needs, body)
    }
}

/// Whether a body had ended when another began, and before that one ended.
fn ended_by(time: BodyTime, next: BodyTime) -> bool
    ensures { result ≡ ended_by time next }
{
    time.end <= next.begin && time.end < next.end
}

/// Whether a body opens the class, or is one of the sibling or of the node that was waited for.
fn lets_in(needs: Needs, body: Body) -> bool
    ensures { result ≡ lets_in needs body }
{
    is_node(needs.class, body.node) && !body.closes
        || is_node(needs.earlier, body.node)
        || is_node(needs.holder, body.node)
}

/// Whether a node is another one, if there is one.
fn is_node(other: Option<u32>, node: u32) -> bool
    ensures { result ≡ is_node other node }
{
    match other {
        Some(other) => other == node,
        None => false,
    }
}
