//! What a book answers to trays of other plans and worlds, which it asks by value.
ghost use Rattle.std.specs.Prelude.{◌≡◌, IfErr};
ghost use Rattle.iso_lifecycle.specs.Subjects.{subject};

use crate::keyless::{end_of_first, expect_keyless};
use crate::plays::{new_book, new_tray};
use crate::suites::{CONCURRENT, Check, Surroundings, TWO_WORKERS, check_script, expect};
use iso_book::book::Book;
use iso_lifecycle::done::Done;
use iso_locks::tray::Tray;
use iso_plan::plan::Plan;
use iso_settings::world::World;
use iso_standing::refused::{CoreFault, Refused};
use std::alloc::Global;
use std::process::Abort;

/// The suite that a book is of: a class with two tests.
const OWN: &str = "team shop
class C { test a { } test b { } }
";

/// Four concurrent tests on two files.
const TWO_FILES: &str = "team shop
class A { read \"file:a\" test r1 { print file(\"a\"); print \"x\"; } read \"file:a\" test r2 { print file(\"a\"); }
write \"file:a\" test w1 { write_file \"a\", \"n\"; assert_equal \"n\", file(\"a\"); }
write \"file:b\" test w2 { write_file \"b\", \"m\"; print file(\"b\"); } }
";

/// The same settings and another file.
const OTHER_FILE: Surroundings = Surroundings {
    settings: TWO_WORKERS,
    world: "files.a = \"t\"\nproperties.a = \"1\"\n",
};

/// Other settings and the same world.
const OTHER_SETTINGS: Surroundings = Surroundings {
    settings: "",
    world: "files.a = \"s\"\nproperties.a = \"1\"\n",
};

/// Suites of which a tray is brought, and whether it is a stranger's.
static SUITES: [(&str, Surroundings, bool); 5] = [
    (OWN, CONCURRENT, false),
    (TWO_FILES, CONCURRENT, true),
    (
        "team shop\nclass C { test a { } test b { print \"1\"; } }\n",
        CONCURRENT,
        true,
    ),
    (OWN, OTHER_FILE, true),
    (OWN, OTHER_SETTINGS, true),
];

/// Enters that are refused whatever the tray: who, which node, and why.
static REFUSED: [(u32, u32, Refused); 5] = [
    (2, 1, Refused::NoWorker),
    (0, 4, Refused::NoNode),
    (0, 2, Refused::ParentClosed),
    (0, 0, Refused::AlreadyEntered),
    (1, 4, Refused::NoNode),
];

/// Enters nodes with a tray that is a stranger's or isn't.
fn expect_entered<R: Abort>(rt: &R, book: &mut Book<'_>, tray: &mut Tray<'_>, is_strange: bool) {
    for (worker, node, why) in &REFUSED {
        let entered = book.enter(*worker, *node, tray);
        expect(rt, entered == Err(CoreFault::Refused(*why)), why.as_str());
    }
    let want = if is_strange {
        Err(CoreFault::Refused(Refused::Stranger))
    } else {
        Ok(())
    };
    expect(rt, book.enter(0, 1, tray) == want, "with this tray");
}

/// Worker 0 enters a node with a tray that the book asks by value: what the node's first body comes
/// to.
fn enter<R: Abort>(
    rt: &R,
    alloc: Global,
    book: &mut Book<'_>,
    node: u32,
    tray: &mut Tray<'_>,
) -> Done
    ensures of { result.subject ≡ subject tray.old.plan tray.old.world node }
    ensures tray_plan { tray.new.plan ≡ tray.old.plan }
    ensures tray_world { tray.new.world ≡ tray.old.world }
{
    book.enter(0, node, tray).expect(rt, "the node is entered");
    end_of_first(rt, alloc, node, tray)
}

/// Worker 0 brings what a body came to with a tray that the book asks by value, and has it handed
/// back since the tray is a stranger's.
fn refused<R: Abort>(rt: &R, book: &mut Book<'_>, done: Done, tray: &mut Tray<'_>) -> Done
    requires of_plan { done.subject.plan ≡ tray.old.plan }
    requires of_start { done.subject.start ≡ tray.old.world }
    ensures back { result ≡ done }
{
    expect_keyless(rt, &done, tray);
    let Err((refused, back)) = book.leave(0, done, tray) else {
        panic!(rt; "taken with another tray");
    };
    expect(rt, refused == Refused::Stranger, "a stranger's tray");
    back
}

/// Worker 0 books what a body came to with a tray that the book asks by value: the place, the
/// worker and the node that the receipt tells of.
fn taken<R: Abort>(
    rt: &R,
    book: &mut Book<'_>,
    done: Done,
    tray: &mut Tray<'_>,
) -> (usize, u32, u32)
    requires of_plan { done.subject.plan ≡ tray.old.plan }
    requires of_start { done.subject.start ≡ tray.old.world }
{
    expect_keyless(rt, &done, tray);
    match book.leave(0, done, tray) {
        Ok(receipt) => (receipt.number(), receipt.worker(), receipt.node()),
        Err((refused, _)) => panic!(rt; "refused: {refused}"),
    }
}

/// Enters the class with one tray, brings what its `before_all` came to with another one, and then
/// with the first.
fn expect_left<R: Abort>(
    rt: &R,
    alloc: Global,
    book: &mut Book<'_>,
    first: &mut Tray<'_>,
    second: &mut Tray<'_>,
)
    requires plan { second.old.plan ≡ first.old.plan }
    requires world { second.old.world ≡ first.old.world }
{
    let done = enter(rt, alloc, book, 1, first);
    let done = refused(rt, book, done, second);
    let left = taken(rt, book, done, first);
    expect(rt, left == (1, 0, 1), "the class is opened");
}

/// What a book is asked with trays of a suite that was read by itself.
#[derive(Clone, Copy)]
enum Question {
    /// Enters with a tray that is a stranger's or isn't.
    Enters { is_strange: bool },
    /// The Enter and the Leave of a class with two trays.
    Leaves,
}

/// Asks a book with two trays of one suite.
fn ask<R: Abort>(
    rt: &R,
    alloc: Global,
    question: Question,
    book: &mut Book<'_>,
    first: &mut Tray<'_>,
    second: &mut Tray<'_>,
)
    requires plan { second.old.plan ≡ first.old.plan }
    requires world { second.old.world ≡ first.old.world }
{
    match question {
        Question::Enters { is_strange } => expect_entered(rt, book, first, is_strange),
        Question::Leaves => expect_left(rt, alloc, book, first, second),
    }
}

/// A book of one suite, which is asked with trays of another.
#[derive(Clone, Copy)]
struct Asked<'a> {
    plan: &'a Plan,
    world: &'a World,
    question: Question,
}

impl Check for Asked<'_> {
    fn check<R: Abort>(&self, rt: &R, alloc: Global, plan: &Plan, world: &World) {
        let mut book = new_book(rt, alloc, self.plan, self.world, 2);
        let mut first = new_tray(rt, alloc, plan, world);
        let mut second = new_tray(rt, alloc, plan, world);
        ask(rt, alloc, self.question, &mut book, &mut first, &mut second);
    }
}

/// Trays of other suites.
struct OfOthers;

impl Check for OfOthers {
    fn check<R: Abort>(&self, rt: &R, alloc: Global, plan: &Plan, world: &World) {
        for (script, surroundings, is_strange) in &SUITES {
            let question = Question::Enters {
                is_strange: *is_strange,
            };
            let asked = Asked {
                plan,
                world,
                question,
            };
            check_script(rt, alloc, script, *surroundings, &asked);
        }
    }
}

#[test]
fn tray_of_another_plan_is_a_strangers(rt: HostRuntime) {
    check_script(&rt, rt.alloc(), OWN, CONCURRENT, &OfOthers);
}

/// A class is entered and left with a tray of an equal suite.
struct OfTheSame;

impl Check for OfTheSame {
    fn check<R: Abort>(&self, rt: &R, alloc: Global, plan: &Plan, world: &World) {
        let question = Question::Leaves;
        let asked = Asked {
            plan,
            world,
            question,
        };
        check_script(rt, alloc, OWN, CONCURRENT, &asked);
    }
}

#[test]
fn tray_of_an_equal_plan_is_the_books(rt: HostRuntime) {
    check_script(&rt, rt.alloc(), OWN, CONCURRENT, &OfTheSame);
}
