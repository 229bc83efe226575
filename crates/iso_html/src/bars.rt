//! The bars of a run: of bodies, and of nodes that had a key.
ghost use Rattle.std.specs.Prelude.{◌≡◌, ◌<◌, length};
ghost use Rattle.iso_failures.specs.Failures.{is_failure};
ghost use Rattle.iso_html.specs.Bars.{body_mark, look_of, taken_mark, taking_look};
ghost use Rattle.iso_junit.specs.Runs.{run_of};
ghost use Rattle.iso_lifecycle.specs.ResultViews.{AreComplete};

use crate::shape::{Bar, Look, Mark, What};
use iso_junit::run::Run;
use iso_lifecycle::kind::BodyKind;
use iso_lifecycle::view::ViewVerdict;
use iso_model::access::Access;
use iso_times::times::BodyTime;
use iso_waits::stay::Stay;

/// A body of a node that looks so, which is critical or not.
pub(crate) fn body_mark(
    node: u32,
    look: Look,
    critical: bool,
    kind: BodyKind,
    time: BodyTime,
) -> Mark
    ensures { result ≡ body_mark node look critical kind time }
{
    Mark {
        bar: Bar {
            node,
            look,
            critical,
            begin: time.begin,
            end: time.end,
        },
        what: What::Body(kind),
    }
}

/// How a node's bodies look.
pub(crate) fn look_of(run: &Run<'_, '_>, node: u32) -> Look
    requires complete { AreComplete run.now.results.now }
    requires within { node < length run.now.plan.now.rows }
    ensures { result ≡ look_of (run_of run.now) node }
{
    if node > 0 && is_failure(run, node) {
        Look::Failed
    } else {
        Look::Well
    }
}

/// Whether a node's own verdict is a fail or a fault.
fn is_failure(run: &Run<'_, '_>, node: u32) -> bool
    requires complete { AreComplete run.now.results.now }
    requires above { 0 < node }
    requires within { node < length run.now.plan.now.rows }
    ensures { result ≡ is_failure (run_of run.now).outcome node }
{
    matches!(
        run.view(node).verdict,
        ViewVerdict::Fail(_) | ViewVerdict::Fault(_, _)
    )
}

/// A node that took a key so, from when it was entered until it had finished.
pub(crate) fn taken_mark(stay: Stay, access: Access) -> Mark
    ensures { result ≡ taken_mark stay access }
{
    Mark {
        bar: Bar {
            node: stay.node,
            look: taking_look(access),
            critical: false,
            begin: stay.begin,
            end: stay.end,
        },
        what: What::Taken(access),
    }
}

/// How a node looks that took a key so.
fn taking_look(access: Access) -> Look
    ensures { result ≡ taking_look access }
{
    match access {
        Access::Read => Look::Reading,
        Access::Write => Look::Writing,
    }
}
