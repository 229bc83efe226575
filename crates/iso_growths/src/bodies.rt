//! A body that has nothing to do.
ghost use Rattle.std.specs.Prelude.{◌≡◌, ◌<◌, IfOk, length, true};
ghost use Rattle.iso_book.specs.Leaves.{MayBring};
ghost use Rattle.iso_lifecycle.specs.Subjects.{is_kind_of, subject};
ghost use Rattle.iso_lifecycle.specs.WholeBodies.{CanBegin};
ghost use Rattle.iso_lifecycle.specs.declared.kind.BodyKind.TheVariants.{BeforeAll};
ghost use Rattle.iso_plan.specs.Paths.{row_at};
ghost use Rattle.iso_plan.specs.RowView.{tree_of};

use crate::answer::Answer;
use crate::calls::Calls;
use crate::host::Host;
use iso_lifecycle::body::Body;
use iso_lifecycle::done::Done;
use iso_lifecycle::kind::BodyKind;
use iso_locks::tray::Tray;
use iso_plan::laws;
use iso_plan::plan::Plan;
use std::snapshot::Snapshot;

/// Whether a node is a class, which is entered with its `before_all`.
pub(crate) fn is_class(plan: &Plan, node: u32) -> bool
    requires inner { 0 < node }
    requires within { node < length plan.now.rows }
    ensures { result ≡ true → is_kind_of BeforeAll (row_at (tree_of plan.now) node).kind ≡ true }
{
    laws::nodes_are_a_tree(plan);
    !plan.is_test(node)
}

/// What the `before_all` of a class comes to that has nothing to do.
pub(crate) fn opening<H: Host>(
    calls: &Calls<'_, H>,
    tray: &Tray<'_>,
    class: u32,
) -> Result<Done, Answer>
    requires { CanBegin (subject tray.now.plan tray.now.world class) BeforeAll tray.now.frames }
    ensures { IfOk result (λ d. MayBring d tray.now) }
{
    let plan = tray.plan();
    let start = Snapshot::of(tray.world());
    let frames = tray.frames();
    calls.begin("Body::begin");
    let begun = Body::begin(
        calls.alloc(),
        plan,
        class,
        BodyKind::BeforeAll,
        frames,
        start,
    );
    calls.end("Body::begin");
    let body = begun?;
    if !body.is_ended() {
        drop(body);
        return Err(Answer::Wrong("a body that has something to do"));
    }
    calls.begin("Body::into_done");
    let done = body.into_done();
    calls.end("Body::into_done");
    Ok(done)
}
