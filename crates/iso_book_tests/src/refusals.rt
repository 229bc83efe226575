//! What a book refuses where no class is open, and when it was stopped.
ghost use Rattle.std.specs.Prelude.{◌≡◌};

use crate::plays::{Play, new_book, new_tray, play_on, play_script};
use crate::suites::{CONCURRENT, Check, check_script, expect};
use iso_book::book::Book;
use iso_locks::tray::Tray;
use iso_plan::plan::Plan;
use iso_schedule::reader::read_schedule;
use iso_settings::world::World;
use iso_standing::event::Event;
use iso_standing::refused::Refused::{
    AlreadyEntered, EarlierSibling, LockHeld, NoNode, NoWorker, NotClass, NotOpen, NotOwner,
    ParentClosed, Stopped, Stranger, WorkerBusy,
};
use iso_standing::refused::{CoreFault, Refused};
use std::alloc::Global;
use std::process::Abort;

/// Two classes on the root's thread (1 and 3), of which the later writes a key, and two others, a
/// reader (6) and a writer (8) of it.
const CLASSES: &str = "team shop
same_thread class A { write \"K\" test a { } }
same_thread write \"K\" class B { test b { } test c { } }
concurrent read \"K\" class C { test d { } }
concurrent write \"K\" class D { test e { } }
";

/// Enters and Shuts, and why the last of them is refused.
#[derive(Clone, Copy)]
pub(crate) struct Row(pub(crate) &'static str, pub(crate) Refused);

/// Asserts what a book answers to an Enter or a Shut that comes with this tray.
fn expect_answer<R: Abort>(
    rt: &R,
    book: &mut Book<'_>,
    event: Event,
    mut tray: Tray<'_>,
    want: Result<(), CoreFault>,
    text: &str,
)
    requires plan { tray.plan ≡ book.old.plan }
    requires world { tray.world ≡ book.old.world }
    ensures plan { book.new.plan ≡ book.old.plan }
    ensures world { book.new.world ≡ book.old.world }
{
    let answer = match event {
        Event::Enter { worker, node } => book.enter_own(worker, node, &mut tray),
        Event::Shut { worker, node } => book.shut_own(worker, node, &mut tray),
        Event::Step { .. } | Event::Leave { .. } => Ok(()),
    };
    expect(rt, answer == want, text);
}

/// A stranger's tray: the flat map of a run.
fn strange_tray<'a, R: Abort>(rt: &R, alloc: Global, book: &Book<'a>) -> Tray<'a>
    ensures plan { result.plan ≡ book.now.plan }
    ensures world { result.world ≡ book.now.world }
{
    Tray::flat(alloc, book.plan(), book.world()).expect(rt, "memory")
}

/// Asserts why a book refuses an Enter or a Shut that comes with a stranger's tray, and what it
/// answers then to one with a new tray.
fn expect_answers<R: Abort>(
    rt: &R,
    alloc: Global,
    book: &mut Book<'_>,
    event: Event,
    why: Refused,
    want: Result<(), CoreFault>,
    text: &str,
)
    ensures plan { book.new.plan ≡ book.old.plan }
    ensures world { book.new.world ≡ book.old.world }
{
    let strange = strange_tray(rt, alloc, book);
    expect_answer(rt, book, event, strange, Err(CoreFault::Refused(why)), text);
    let new = new_tray(rt, alloc, book.plan(), book.world());
    expect_answer(rt, book, event, new, want, text);
}

/// Asserts it of each of these events in turn.
fn expect_each<R: Abort>(
    rt: &R,
    alloc: Global,
    book: &mut Book<'_>,
    events: &[Event],
    why: Refused,
    want: Result<(), CoreFault>,
    text: &str,
)
    ensures plan { book.new.plan ≡ book.old.plan }
    ensures world { book.new.world ≡ book.old.world }
{
    'events: for event in events {
        expect_answers(rt, alloc, book, *event, why, want, text);
    }
}

/// Whether a history has these events more than it had when it was so long.
fn has_grown(history: &[Event], length: usize, events: &[Event]) -> bool {
    length <= history.len() && &history[length..] == events
}

/// Asserts that the last of a row's events is refused for its reason, whatever the tray, and that
/// all those before it are taken, but not with a stranger's tray; and that the book has only those
/// more then.
fn expect_last_refused<R: Abort>(
    rt: &R,
    alloc: Global,
    book: &mut Book<'_>,
    events: &[Event],
    row: Row,
)
    ensures plan { book.new.plan ≡ book.old.plan }
    ensures world { book.new.world ≡ book.old.world }
{
    let Row(text, why) = row;
    let [earlier @ .., last] = events else {
        panic!(rt; "no events: {text}");
    };
    let length = book.history().len();
    expect_each(rt, alloc, book, earlier, Stranger, Ok(()), text);
    let refused = Err(CoreFault::Refused(why));
    expect_answers(rt, alloc, book, *last, why, refused, text);
    expect(rt, has_grown(book.history(), length, earlier), text);
}

/// Asserts that a book takes the events of a row but for the last one, which it refuses.
pub(crate) fn expect_row<R: Abort>(rt: &R, alloc: Global, book: &mut Book<'_>, row: Row)
    ensures plan { book.new.plan ≡ book.old.plan }
    ensures world { book.new.world ≡ book.old.world }
{
    let events = read_schedule(alloc, row.0.as_bytes()).expect(rt, "a schedule");
    expect_last_refused(rt, alloc, book, events.as_slice(), row);
}

/// The last of a row's events is refused so by a new book.
impl Play for Row {
    fn play<R: Abort>(
        &self,
        rt: &R,
        alloc: Global,
        book: &mut Book<'_>,
        _first: &mut Tray<'_>,
        _second: &mut Tray<'_>,
    ) {
        expect_row(rt, alloc, book, *self);
    }
}

/// The last events of these rows are refused so by a book on two workers.
struct AreRefused(&'static [Row]);

impl Check for AreRefused {
    fn check<R: Abort>(&self, rt: &R, alloc: Global, plan: &Plan, world: &World) {
        for row in self.0 {
            play_on(rt, alloc, plan, world, 2, row);
        }
    }
}

/// Each kind by itself, as far as no class has to be open.
static KINDS: AreRefused = AreRefused(&[
    Row("enter 2 1", NoWorker),
    Row("enter 0 10", NoNode),
    Row("enter 0 1\nenter 0 6", WorkerBusy),
    Row("enter 0 7", ParentClosed),
    Row("enter 0 0", AlreadyEntered),
    Row("enter 0 6\nenter 1 6", AlreadyEntered),
    Row("enter 1 1", NotOwner),
    Row("enter 0 3", EarlierSibling),
    Row("enter 0 6\nenter 1 8", LockHeld(6)),
    Row("shut 2 1", NoWorker),
    Row("shut 0 10", NoNode),
    Row("enter 0 1\nshut 0 1", WorkerBusy),
    Row("shut 0 0", NotClass),
    Row("shut 0 2", NotClass),
    Row("shut 0 1", NotOpen),
]);

#[test]
fn each_kind_is_refused_by_a_book(rt: HostRuntime) {
    check_script(&rt, rt.alloc(), CLASSES, CONCURRENT, &KINDS);
}

/// Every two kinds that an event can be refused for at once where no class is open.
static PAIRS: AreRefused = AreRefused(&[
    // NoWorker comes before NoNode, ParentClosed, AlreadyEntered, NotOwner, EarlierSibling and
    // LockHeld.
    Row("enter 2 10", NoWorker),
    Row("enter 2 7", NoWorker),
    Row("enter 2 0", NoWorker),
    Row("enter 2 1", NoWorker),
    Row("enter 2 3", NoWorker),
    Row("enter 0 6\nenter 2 8", NoWorker),
    // NoNode comes before WorkerBusy.
    Row("enter 0 1\nenter 0 10", NoNode),
    // WorkerBusy comes before ParentClosed, AlreadyEntered, NotOwner, EarlierSibling and LockHeld.
    Row("enter 0 1\nenter 0 7", WorkerBusy),
    Row("enter 0 1\nenter 0 1", WorkerBusy),
    Row("enter 1 6\nenter 1 1", WorkerBusy),
    Row("enter 0 6\nenter 0 3", WorkerBusy),
    Row("enter 0 6\nenter 0 8", WorkerBusy),
    // ParentClosed comes before NotOwner, EarlierSibling and LockHeld.
    Row("enter 1 4", ParentClosed),
    Row("enter 0 5", ParentClosed),
    Row("enter 0 6\nenter 1 2", ParentClosed),
    // AlreadyEntered comes before NotOwner and LockHeld.
    Row("enter 0 1\nenter 1 1", AlreadyEntered),
    Row("enter 0 8\nenter 1 8", AlreadyEntered),
    // NotOwner comes before EarlierSibling and LockHeld, and EarlierSibling before LockHeld.
    Row("enter 1 3", NotOwner),
    Row("enter 0 6\nenter 1 3", NotOwner),
    Row("enter 1 6\nenter 0 3", EarlierSibling),
    // In a Shut NoWorker comes before NoNode, NotClass and NotOpen, NoNode before WorkerBusy,
    // WorkerBusy before NotClass and NotOpen, NotClass before NotOpen and NotOwner, and NotOpen
    // before NotOwner.
    Row("shut 2 10", NoWorker),
    Row("shut 2 0", NoWorker),
    Row("shut 2 1", NoWorker),
    Row("enter 0 1\nshut 0 10", NoNode),
    Row("enter 0 1\nshut 0 0", WorkerBusy),
    Row("enter 0 1\nshut 0 1", WorkerBusy),
    Row("shut 0 2", NotClass),
    Row("shut 1 0", NotClass),
    Row("enter 0 6\nshut 1 6", NotOpen),
]);

#[test]
fn first_of_two_kinds_is_answered_by_a_book(rt: HostRuntime) {
    check_script(&rt, rt.alloc(), CLASSES, CONCURRENT, &PAIRS);
}

/// Events against some of which something else stands as well.
const EVENTS: &str = "enter 0 1
enter 2 1
enter 0 10
enter 0 7
enter 0 0
enter 1 1
enter 0 3
shut 2 1
shut 0 10
shut 0 0
shut 0 1
";

/// Asserts that a book refuses each of these events since it was stopped, whatever the tray, and
/// has taken none then.
fn expect_stopped<R: Abort>(rt: &R, alloc: Global, book: &mut Book<'_>) {
    let events = read_schedule(alloc, EVENTS.as_bytes()).expect(rt, "a schedule");
    let refused = Err(CoreFault::Refused(Stopped));
    expect_each(
        rt,
        alloc,
        book,
        events.as_slice(),
        Stopped,
        refused,
        "a stopped book",
    );
    expect(rt, book.is_stopped(), "it was stopped");
    expect(rt, book.history().is_empty(), "it has taken nothing");
}

/// A book that was stopped refuses every Enter and Shut, whatever else stands against it, and keeps
/// its history.
struct StopsAll;

impl Play for StopsAll {
    fn play<R: Abort>(
        &self,
        rt: &R,
        alloc: Global,
        book: &mut Book<'_>,
        _first: &mut Tray<'_>,
        _second: &mut Tray<'_>,
    ) {
        book.stop();
        expect_stopped(rt, alloc, book);
    }
}

#[test]
fn stopped_book_refuses_every_event(rt: HostRuntime) {
    play_script(&rt, rt.alloc(), CLASSES, 2, &StopsAll);
}

/// What a new book of a tray's plan and world answers to the Enter of a node with it.
fn answer_of_new<R: Abort>(
    rt: &R,
    alloc: Global,
    node: u32,
    tray: &mut Tray<'_>,
) -> Result<(), CoreFault> {
    let mut book = new_book(rt, alloc, tray.plan(), tray.world(), 2);
    book.enter_own(0, node, tray)
}

/// What a second book of the same plan and world answers to an Enter with a tray to which the first
/// one lent class C.
fn second_answer<R: Abort>(
    rt: &R,
    alloc: Global,
    plan: &Plan,
    world: &World,
    node: u32,
) -> Result<(), CoreFault> {
    let mut tray = new_tray(rt, alloc, plan, world);
    let first = answer_of_new(rt, alloc, 6, &mut tray);
    expect(rt, first == Ok(()), "the first book lends class C");
    answer_of_new(rt, alloc, node, &mut tray)
}

/// A tray with a node that was lent to it by another book is a stranger's for that node and for
/// those that conflict with it.
struct KnowsItsTrays;

impl Check for KnowsItsTrays {
    fn check<R: Abort>(&self, rt: &R, alloc: Global, plan: &Plan, world: &World) {
        let stranger = Err(CoreFault::Refused(Stranger));
        let same = second_answer(rt, alloc, plan, world, 6);
        expect(rt, same == stranger, "the node itself");
        let rival = second_answer(rt, alloc, plan, world, 8);
        expect(rt, rival == stranger, "one that conflicts with it");
        let other = second_answer(rt, alloc, plan, world, 1);
        expect(rt, other == Ok(()), "one that doesn't");
    }
}

#[test]
fn tray_of_another_book_is_a_strangers(rt: HostRuntime) {
    check_script(&rt, rt.alloc(), CLASSES, CONCURRENT, &KnowsItsTrays);
}
