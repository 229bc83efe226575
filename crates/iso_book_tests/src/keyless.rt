//! What a worker does with a book and a tray, where nodes have no keys of their own and their
//! blocks are empty.
ghost use Rattle.std.specs.Prelude.{◌≡◌, ◌<◌, ℕ, false, length, true};
ghost use Rattle.iso_book.specs.Leaves.{MayBring};
ghost use Rattle.iso_book.specs.Turns.{BeginsIn};
ghost use Rattle.iso_lifecycle.specs.Subjects.{is_kind_of, subject};
ghost use Rattle.iso_lifecycle.specs.WholeBodies.{CanBegin};
ghost use Rattle.iso_locks.specs.Moves.{is_written};
ghost use Rattle.iso_plan.specs.Paths.{row_at};
ghost use Rattle.iso_plan.specs.RowView.{tree_of};
ghost use Rattle.iso_standing.specs.UnderWay.{is_after_all};

use crate::suites::expect;
use iso_book::book::Book;
use iso_lifecycle::body::Body;
use iso_lifecycle::done::Done;
use iso_lifecycle::kind::BodyKind;
use iso_locks::tray::Tray;
use iso_model::access::Access;
use iso_plan::laws;
use iso_plan::lock::Lock;
use iso_plan::plan::Plan;
use iso_standing::refused::Refused;
use std::alloc::Global;
use std::process::Abort;
use std::snapshot::Snapshot;

/// Which body a node is entered with.
fn first_kind(plan: &Plan, node: u32) -> BodyKind
    requires inner { 0 < node }
    requires within { node < length plan.now.rows }
    ensures fits { is_kind_of result (row_at (tree_of plan.now) node).kind ≡ true }
    ensures first { is_after_all result ≡ false }
{
    laws::nodes_are_a_tree(plan);
    if plan.is_test(node) {
        BodyKind::Test
    } else {
        BodyKind::BeforeAll
    }
}

/// What a body of a node comes to that has nothing to do.
fn end_of_body<R: Abort>(rt: &R, alloc: Global, node: u32, kind: BodyKind, tray: &Tray<'_>) -> Done
    requires { CanBegin (subject tray.now.plan tray.now.world node) kind tray.now.frames }
    ensures { result.subject ≡ subject tray.now.plan tray.now.world node }
{
    let plan = tray.plan();
    let start = Snapshot::of(tray.world());
    let frames = tray.frames();
    let body = Body::begin(alloc, plan, node, kind, frames, start).expect(rt, "memory");
    expect(rt, body.is_ended(), "the body has nothing to do");
    body.into_done()
}

/// What the first body of a node comes to that has been entered and has nothing to do.
pub(crate) fn end_of_first<R: Abort>(rt: &R, alloc: Global, node: u32, tray: &Tray<'_>) -> Done
    requires inner { 0 < node }
    requires within { node < length tray.now.plan.rows }
    requires begins { BeginsIn node tray.now }
    ensures { result.subject ≡ subject tray.now.plan tray.now.world node }
{
    let kind = first_kind(tray.plan(), node);
    end_of_body(rt, alloc, node, kind, tray)
}

/// Enters a node, whose first body has nothing to do.
pub(crate) fn enter<R: Abort>(
    rt: &R,
    alloc: Global,
    book: &mut Book<'_>,
    worker: u32,
    node: u32,
    tray: &mut Tray<'_>,
) -> Done
    requires plan { tray.old.plan ≡ book.old.plan }
    requires world { tray.old.world ≡ book.old.world }
    ensures of { result.subject ≡ subject tray.old.plan tray.old.world node }
    ensures plan { book.new.plan ≡ book.old.plan }
    ensures world { book.new.world ≡ book.old.world }
    ensures tray_plan { tray.new.plan ≡ tray.old.plan }
    ensures tray_world { tray.new.world ≡ tray.old.world }
    ensures begins { BeginsIn node tray.new }
{
    book.enter_own(worker, node, tray)
        .expect(rt, "the node is entered");
    end_of_first(rt, alloc, node, tray)
}

/// Shuts a class, whose `after_all` has nothing to do.
pub(crate) fn shut<R: Abort>(
    rt: &R,
    alloc: Global,
    book: &mut Book<'_>,
    worker: u32,
    node: u32,
    tray: &mut Tray<'_>,
) -> Done
    requires plan { tray.old.plan ≡ book.old.plan }
    requires world { tray.old.world ≡ book.old.world }
    ensures of { result.subject ≡ subject tray.old.plan tray.old.world node }
    ensures plan { book.new.plan ≡ book.old.plan }
    ensures world { book.new.world ≡ book.old.world }
    ensures tray_plan { tray.new.plan ≡ tray.old.plan }
    ensures tray_world { tray.new.world ≡ tray.old.world }
{
    book.shut_own(worker, node, tray)
        .expect(rt, "the class is shut");
    end_of_body(rt, alloc, node, BodyKind::AfterAll, tray)
}

/// Whether there is no lock, or one for READ alone.
fn are_read(locks: &[Lock]) -> bool
    ensures { result ≡ true → (i : ℕ) → is_written locks.now i ≡ false }
{
    match locks {
        [] => true,
        [lock] => matches!(lock.access, Access::Read),
        _ => false,
    }
}

/// Asserts that the node of a body takes no key for READ_WRITE, so that the body may be brought
/// with any tray of its plan and world.
pub(crate) fn expect_keyless<R: Abort>(rt: &R, done: &Done, tray: &Tray<'_>)
    requires of_plan { done.now.subject.plan ≡ tray.now.plan }
    requires of_start { done.now.subject.start ≡ tray.now.world }
    ensures { MayBring done.now tray.now }
{
    let node = done.node();
    expect(rt, node < tray.plan().len(), "the node is of the plan");
    expect(
        rt,
        are_read(tray.plan().locks(node)),
        "the node takes no key",
    );
}

/// Books what a body came to, which nothing refuses: the place, the worker and the node that the
/// receipt tells of.
pub(crate) fn taken<R: Abort>(
    rt: &R,
    book: &mut Book<'_>,
    worker: u32,
    done: Done,
    tray: &mut Tray<'_>,
) -> (usize, u32, u32)
    requires plan { tray.old.plan ≡ book.old.plan }
    requires world { tray.old.world ≡ book.old.world }
    requires of_plan { done.subject.plan ≡ tray.old.plan }
    requires of_start { done.subject.start ≡ tray.old.world }
    ensures plan { book.new.plan ≡ book.old.plan }
    ensures world { book.new.world ≡ book.old.world }
    ensures tray_plan { tray.new.plan ≡ tray.old.plan }
    ensures tray_world { tray.new.world ≡ tray.old.world }
{
    expect_keyless(rt, &done, tray);
    match book.leave_own(worker, done, tray) {
        Ok(receipt) => (receipt.number(), receipt.worker(), receipt.node()),
        Err((refused, _)) => panic!(rt; "refused: {refused}"),
    }
}

/// Enters a node and books what its first body came to: the place, the worker and the node that the
/// receipt tells of.
pub(crate) fn do_node<R: Abort>(
    rt: &R,
    alloc: Global,
    book: &mut Book<'_>,
    worker: u32,
    node: u32,
    tray: &mut Tray<'_>,
) -> (usize, u32, u32)
    requires plan { tray.old.plan ≡ book.old.plan }
    requires world { tray.old.world ≡ book.old.world }
    ensures plan { book.new.plan ≡ book.old.plan }
    ensures world { book.new.world ≡ book.old.world }
    ensures tray_plan { tray.new.plan ≡ tray.old.plan }
    ensures tray_world { tray.new.world ≡ tray.old.world }
{
    let done = enter(rt, alloc, book, worker, node, tray);
    taken(rt, book, worker, done, tray)
}

/// Brings what a body came to, and has it handed back for a reason.
pub(crate) fn refused<R: Abort>(
    rt: &R,
    book: &mut Book<'_>,
    worker: u32,
    done: Done,
    tray: &mut Tray<'_>,
    want: Refused,
) -> Done
    requires plan { tray.old.plan ≡ book.old.plan }
    requires world { tray.old.world ≡ book.old.world }
    requires of_plan { done.subject.plan ≡ tray.old.plan }
    requires of_start { done.subject.start ≡ tray.old.world }
    ensures back { result ≡ done }
    ensures plan { book.new.plan ≡ book.old.plan }
    ensures world { book.new.world ≡ book.old.world }
    ensures tray_plan { tray.new.plan ≡ tray.old.plan }
    ensures tray_world { tray.new.world ≡ tray.old.world }
{
    expect_keyless(rt, &done, tray);
    let Err((refused, back)) = book.leave_own(worker, done, tray) else {
        panic!(rt; "not refused: {want}");
    };
    expect(rt, refused == want, want.as_str());
    back
}
