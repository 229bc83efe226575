//! What a book refuses while a class is open, and when it is finished.
ghost use Rattle.std.specs.Prelude.{◌≡◌};

use crate::keyless::{do_node, enter, shut, taken};
use crate::plays::{Play, play_script};
use crate::refusals::{Row, expect_row};
use crate::suites::expect;
use iso_book::book::Book;
use iso_locks::tray::Tray;
use iso_standing::refused::Refused::{
    AlreadyEntered, ChildrenLeft, EarlierSibling, NoWorker, NotOpen, NotOwner, ParentClosed,
    WorkerBusy,
};
use std::alloc::Global;
use std::process::Abort;

/// A class (1) with two tests on its thread (2 and 3) and one beside them (4).
const CLASS: &str = "team shop
class C { same_thread test a { } same_thread test b { } concurrent test c { } }
";

/// While the class is open, and nobody has a body. A row says which kinds apply besides the one
/// that is answered.
static OPEN: [Row; 8] = [
    // NotOwner, ChildrenLeft
    Row("shut 2 1", NoWorker),
    // ChildrenLeft
    Row("shut 1 1", NotOwner),
    Row("shut 0 1", ChildrenLeft),
    // NotOwner, EarlierSibling
    Row("enter 2 3", NoWorker),
    Row("enter 1 2", NotOwner),
    // EarlierSibling
    Row("enter 1 3", NotOwner),
    Row("enter 0 3", EarlierSibling),
    Row("enter 1 1", AlreadyEntered),
];

/// While worker 1 has the body of the test beside the others.
static BUSY: [Row; 4] = [
    // NotOwner, ChildrenLeft
    Row("shut 1 1", WorkerBusy),
    // NotOwner, EarlierSibling
    Row("enter 1 3", WorkerBusy),
    // AlreadyEntered
    Row("enter 1 4", WorkerBusy),
    Row("enter 0 4", AlreadyEntered),
];

/// When all tests are finished.
static LEFT: [Row; 2] = [
    Row("shut 1 1", NotOwner),
    // NotOwner
    Row("enter 1 2", AlreadyEntered),
];

/// When the class is finished.
static FINISHED: [Row; 4] = [
    // AlreadyEntered
    Row("enter 0 2", ParentClosed),
    // AlreadyEntered, NotOwner
    Row("enter 1 2", ParentClosed),
    // NotOwner
    Row("shut 1 1", NotOpen),
    Row("shut 0 1", NotOpen),
];

/// Asserts that each of these events is refused so, and that the history is no longer then.
fn expect_refused<R: Abort>(rt: &R, alloc: Global, book: &mut Book<'_>, rows: &[Row])
    ensures plan { book.new.plan ≡ book.old.plan }
    ensures world { book.new.world ≡ book.old.world }
{
    'rows: for row in rows {
        expect_row(rt, alloc, book, *row);
    }
}

/// Worker 1 enters the test beside the others, and leaves it when all that is refused meanwhile was
/// refused.
fn expect_busy<R: Abort>(rt: &R, alloc: Global, book: &mut Book<'_>, tray: &mut Tray<'_>)
    requires plan { tray.old.plan ≡ book.old.plan }
    requires world { tray.old.world ≡ book.old.world }
    ensures plan { book.new.plan ≡ book.old.plan }
    ensures world { book.new.world ≡ book.old.world }
{
    let done = enter(rt, alloc, book, 1, 4, tray);
    expect_refused(rt, alloc, book, &BUSY);
    taken(rt, book, 1, done, tray);
}

/// Worker 0 finishes the tests on its thread.
fn expect_left<R: Abort>(rt: &R, alloc: Global, book: &mut Book<'_>, tray: &mut Tray<'_>)
    requires plan { tray.old.plan ≡ book.old.plan }
    requires world { tray.old.world ≡ book.old.world }
    ensures plan { book.new.plan ≡ book.old.plan }
    ensures world { book.new.world ≡ book.old.world }
    ensures tray_plan { tray.new.plan ≡ tray.old.plan }
    ensures tray_world { tray.new.world ≡ tray.old.world }
{
    do_node(rt, alloc, book, 0, 2, tray);
    do_node(rt, alloc, book, 0, 3, tray);
    expect_refused(rt, alloc, book, &LEFT);
}

/// Worker 0 finishes the class.
fn expect_finished<R: Abort>(rt: &R, alloc: Global, book: &mut Book<'_>, tray: &mut Tray<'_>)
    requires plan { tray.old.plan ≡ book.old.plan }
    requires world { tray.old.world ≡ book.old.world }
{
    let done = shut(rt, alloc, book, 0, 1, tray);
    taken(rt, book, 0, done, tray);
    expect_refused(rt, alloc, book, &FINISHED);
    expect(rt, book.complete(), "all nodes are finished");
}

/// Two workers do a class, and each event that is refused on the way is refused for the first kind
/// that applies.
struct FirstKinds;

impl Play for FirstKinds {
    fn play<R: Abort>(
        &self,
        rt: &R,
        alloc: Global,
        book: &mut Book<'_>,
        first: &mut Tray<'_>,
        second: &mut Tray<'_>,
    ) {
        do_node(rt, alloc, book, 0, 1, first);
        expect_refused(rt, alloc, book, &OPEN);
        expect_busy(rt, alloc, book, second);
        expect_left(rt, alloc, book, first);
        expect_finished(rt, alloc, book, first);
    }
}

#[test]
fn first_of_two_kinds_is_answered_while_a_class_is_open(rt: HostRuntime) {
    play_script(&rt, rt.alloc(), CLASS, 2, &FirstKinds);
}
