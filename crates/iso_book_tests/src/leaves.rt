//! Leaves: which a book refuses and why, and the receipts of those that it takes.
ghost use Rattle.std.specs.Prelude.{◌≡◌};

use crate::keyless::{do_node, end_of_first, enter, refused, shut, taken};
use crate::plays::{Play, new_tray, play_script};
use crate::suites::expect;
use iso_book::book::Book;
use iso_lifecycle::done::Done;
use iso_locks::tray::Tray;
use iso_standing::refused::Refused;
use std::alloc::Global;
use std::process::Abort;

/// A class of two tests.
const A_AND_B: &str = "team shop
class C { test a { } test b { } }
";

/// Worker 0 opens the class and enters its first test, worker 1 enters the second: what the two
/// came to.
fn enter_both<R: Abort>(
    rt: &R,
    alloc: Global,
    book: &mut Book<'_>,
    first: &mut Tray<'_>,
    second: &mut Tray<'_>,
) -> (Done, Done)
    requires first_plan { first.old.plan ≡ book.old.plan }
    requires first_world { first.old.world ≡ book.old.world }
    requires second_plan { second.old.plan ≡ book.old.plan }
    requires second_world { second.old.world ≡ book.old.world }
    ensures plan { book.new.plan ≡ book.old.plan }
    ensures world { book.new.world ≡ book.old.world }
    ensures first_plan { first.new.plan ≡ first.old.plan }
    ensures first_world { first.new.world ≡ first.old.world }
    ensures second_plan { second.new.plan ≡ second.old.plan }
    ensures second_world { second.new.world ≡ second.old.world }
    ensures own_plan { result.0.subject.plan ≡ book.old.plan }
    ensures own_start { result.0.subject.start ≡ book.old.world }
    ensures other_plan { result.1.subject.plan ≡ book.old.plan }
    ensures other_start { result.1.subject.start ≡ book.old.world }
{
    let opened = do_node(rt, alloc, book, 0, 1, first);
    expect(rt, opened == (1, 0, 1), "the class is opened");
    let own = enter(rt, alloc, book, 0, 2, first);
    let other = enter(rt, alloc, book, 1, 3, second);
    (own, other)
}

/// A worker that brings the body of another one has it handed back, and books its own; the receipts
/// tell where in the history.
struct OtherWorker;

impl Play for OtherWorker {
    fn play<R: Abort>(
        &self,
        rt: &R,
        alloc: Global,
        book: &mut Book<'_>,
        first: &mut Tray<'_>,
        second: &mut Tray<'_>,
    ) {
        let (own, other) = enter_both(rt, alloc, book, first, second);
        let other = refused(rt, book, 0, other, first, Refused::OtherBody(3));
        let left = taken(rt, book, 0, own, first);
        expect(rt, left == (4, 0, 2), "worker 0 books its own");
        let last = taken(rt, book, 1, other, second);
        expect(rt, last == (5, 1, 3), "worker 1 books its own");
    }
}

#[test]
fn body_of_another_worker_is_handed_back(rt: HostRuntime) {
    play_script(&rt, rt.alloc(), A_AND_B, 2, &OtherWorker);
}

/// Brings what a body came to with a tray that holds no node, and has it handed back for a reason.
fn refused_with_new<R: Abort>(
    rt: &R,
    alloc: Global,
    book: &mut Book<'_>,
    worker: u32,
    done: Done,
    want: Refused,
) -> Done
    requires of_plan { done.subject.plan ≡ book.old.plan }
    requires of_start { done.subject.start ≡ book.old.world }
    ensures back { result ≡ done }
    ensures plan { book.new.plan ≡ book.old.plan }
    ensures world { book.new.world ≡ book.old.world }
{
    let mut tray = new_tray(rt, alloc, book.plan(), book.world());
    refused(rt, book, worker, done, &mut tray, want)
}

/// What a body came to is handed back where it comes with another tray of the plan, and booked with
/// the tray that its node is lent to.
struct OtherTray;

impl Play for OtherTray {
    fn play<R: Abort>(
        &self,
        rt: &R,
        alloc: Global,
        book: &mut Book<'_>,
        first: &mut Tray<'_>,
        second: &mut Tray<'_>,
    ) {
        let (own, other) = enter_both(rt, alloc, book, first, second);
        drop(other);
        let own = refused_with_new(rt, alloc, book, 0, own, Refused::Stranger);
        let own = refused(rt, book, 0, own, second, Refused::Stranger);
        let left = taken(rt, book, 0, own, first);
        expect(rt, left == (4, 0, 2), "worker 0 books its own");
    }
}

#[test]
fn another_tray_of_the_plan_is_a_stranger(rt: HostRuntime) {
    play_script(&rt, rt.alloc(), A_AND_B, 2, &OtherTray);
}

/// Brings the body of node 3, with trays that hold no node, as a worker that there isn't, as one
/// that has no body, as one that has another body, and as the worker whose it is.
fn refuse_all<R: Abort>(
    rt: &R,
    alloc: Global,
    book: &mut Book<'_>,
    done: Done,
    wants: [Refused; 4],
) -> Done
    requires of_plan { done.subject.plan ≡ book.old.plan }
    requires of_start { done.subject.start ≡ book.old.world }
    ensures back { result ≡ done }
    ensures plan { book.new.plan ≡ book.old.plan }
    ensures world { book.new.world ≡ book.old.world }
{
    let done = refused_with_new(rt, alloc, book, 9, done, wants[0]);
    let done = refused_with_new(rt, alloc, book, 2, done, wants[1]);
    let done = refused_with_new(rt, alloc, book, 0, done, wants[2]);
    refused_with_new(rt, alloc, book, 1, done, wants[3])
}

/// Of any two kinds that apply to a Leave the first of their order is answered.
struct InOrder;

impl Play for InOrder {
    fn play<R: Abort>(
        &self,
        rt: &R,
        alloc: Global,
        book: &mut Book<'_>,
        first: &mut Tray<'_>,
        second: &mut Tray<'_>,
    ) {
        let (own, other) = enter_both(rt, alloc, book, first, second);
        drop(own);
        let kinds = [
            Refused::NoWorker,
            Refused::NoBody,
            Refused::OtherBody(3),
            Refused::Stranger,
        ];
        let other = refuse_all(rt, alloc, book, other, kinds);
        book.stop();
        drop(refuse_all(rt, alloc, book, other, [Refused::Stopped; 4]));
    }
}

#[test]
fn leave_is_refused_by_the_first_kind(rt: HostRuntime) {
    play_script(&rt, rt.alloc(), A_AND_B, 3, &InOrder);
}

/// Worker 0 opens the class and does its test: what the class's `before_all` came to once more.
fn open_and_test<R: Abort>(rt: &R, alloc: Global, book: &mut Book<'_>, tray: &mut Tray<'_>) -> Done
    requires plan { tray.old.plan ≡ book.old.plan }
    requires world { tray.old.world ≡ book.old.world }
    ensures plan { book.new.plan ≡ book.old.plan }
    ensures world { book.new.world ≡ book.old.world }
    ensures tray_plan { tray.new.plan ≡ tray.old.plan }
    ensures tray_world { tray.new.world ≡ tray.old.world }
    ensures spare_plan { result.subject.plan ≡ book.old.plan }
    ensures spare_start { result.subject.start ≡ book.old.world }
{
    let class = enter(rt, alloc, book, 0, 1, tray);
    let spare = end_of_first(rt, alloc, 1, tray);
    let opened = taken(rt, book, 0, class, tray);
    expect(rt, opened == (1, 0, 1), "the class is opened");
    let left = do_node(rt, alloc, book, 0, 2, tray);
    expect(rt, left == (3, 0, 2), "the test is left");
    spare
}

/// While the `after_all` of a class is under way, what its `before_all` came to is handed back.
struct OtherKind;

impl Play for OtherKind {
    fn play<R: Abort>(
        &self,
        rt: &R,
        alloc: Global,
        book: &mut Book<'_>,
        tray: &mut Tray<'_>,
        _second: &mut Tray<'_>,
    ) {
        let spare = open_and_test(rt, alloc, book, tray);
        let closed = shut(rt, alloc, book, 0, 1, tray);
        drop(refused(rt, book, 0, spare, tray, Refused::OtherBody(1)));
        let last = taken(rt, book, 0, closed, tray);
        expect(rt, last == (5, 0, 1), "the class is closed");
        expect(rt, book.complete(), "all nodes are finished");
    }
}

#[test]
fn body_of_another_kind_is_handed_back(rt: HostRuntime) {
    let script = "team shop\nclass C { test a { } }\n";
    play_script(&rt, rt.alloc(), script, 1, &OtherKind);
}
