//! What a worker does by hand: it sits down, and opens a class whose `before_all` has nothing to
//! do.
ghost use Rattle.std.specs.Prelude.{◌≡◌, ◌<◌, length, true};
ghost use Rattle.iso_book.specs.Leaves.{MayBring};
ghost use Rattle.iso_lifecycle.specs.Subjects.{is_kind_of, subject};
ghost use Rattle.iso_lifecycle.specs.WholeBodies.{CanBegin};
ghost use Rattle.iso_lifecycle.specs.declared.kind.BodyKind.TheVariants.{BeforeAll};
ghost use Rattle.iso_plan.specs.Paths.{row_at};
ghost use Rattle.iso_plan.specs.RowView.{tree_of};

use crate::shared::expect;
use iso_floor::floor::Floor;
use iso_floor::ground::Ground;
use iso_floor::seat::Seat;
use iso_lifecycle::body::Body;
use iso_lifecycle::done::Done;
use iso_lifecycle::kind::BodyKind;
use iso_locks::tray::Tray;
use iso_plan::laws;
use iso_plan::plan::Plan;
use iso_standing::refused::Refused;
use std::alloc::Global;
use std::process::Abort;
use std::snapshot::Snapshot;
use std::sync::Wait;

/// The class that is opened.
const CLASS: u32 = 1;

/// Whether a node is a class, which is entered with its `before_all`.
fn is_class(plan: &Plan, node: u32) -> bool
    requires inner { 0 < node }
    requires within { node < length plan.now.rows }
    ensures { result ≡ true → is_kind_of BeforeAll (row_at (tree_of plan.now) node).kind ≡ true }
{
    laws::nodes_are_a_tree(plan);
    !plan.is_test(node)
}

/// What the `before_all` of a class comes to that has nothing to do.
fn opening<R: Abort>(rt: &R, alloc: Global, tray: &Tray<'_>, class: u32) -> Done
    requires { CanBegin (subject tray.now.plan tray.now.world class) BeforeAll tray.now.frames }
    ensures { MayBring result tray.now }
{
    let plan = tray.plan();
    let start = Snapshot::of(tray.world());
    let frames = tray.frames();
    let body = Body::begin(alloc, plan, class, BodyKind::BeforeAll, frames, start).expect(
        rt, "memory",
    );
    assert!(rt; body.is_ended());
    body.into_done()
}

/// The seat of a worker who had none.
pub(crate) fn sit_down<'a, G: Ground, R: Abort + Wait>(
    rt: &R,
    alloc: Global,
    floor: &Floor<'a, G>,
    worker: u32,
) -> Seat<'a, G> {
    floor.seat(rt, alloc, worker).expect(rt, "a seat")
}

/// Enters the class, and answers what its `before_all` comes to.
pub(crate) fn enter_class<'a, G: Ground, R: Abort + Wait>(
    rt: &R,
    alloc: Global,
    floor: &Floor<'a, G>,
    seat: &mut Seat<'a, G>,
) -> Done
    ensures { MayBring result seat.new.tray }
{
    floor.enter(rt, seat, CLASS).expect(rt, "an Enter");
    assert!(rt; is_class(seat.tray().plan(), CLASS));
    opening(rt, alloc, seat.tray(), CLASS)
}

/// Why a Leave was refused, and the node of what was handed back; nothing, where it was taken.
pub(crate) fn refusal_of(left: Result<(), (Refused, Done)>) -> Option<(Refused, u32)> {
    match left {
        Ok(()) => None,
        Err((refused, back)) => Some((refused, back.node())),
    }
}

/// The seat of the first worker, who has entered and opened the class.
pub(crate) fn opened_seat<'a, G: Ground, R: Abort + Wait>(
    rt: &R,
    alloc: Global,
    floor: &Floor<'a, G>,
) -> Seat<'a, G> {
    let mut seat = sit_down(rt, alloc, floor, 0);
    let done = enter_class(rt, alloc, floor, &mut seat);
    let refusal = refusal_of(floor.leave(rt, &mut seat, done));
    expect(rt, refusal.is_none(), "the Leave is taken");
    seat
}
