//! What workers do with a new book, each with a tray of its own.
ghost use Rattle.std.specs.Prelude.{◌≡◌};

use crate::suites::{CONCURRENT, Check, check_script};
use iso_book::book::Book;
use iso_locks::tray::Tray;
use iso_plan::plan::Plan;
use iso_settings::world::World;
use std::alloc::Global;
use std::process::Abort;

/// A new book on `workers` workers.
pub(crate) fn new_book<'a, R: Abort>(
    rt: &R,
    alloc: Global,
    plan: &'a Plan,
    world: &'a World,
    workers: u32,
) -> Book<'a>
    ensures plan { result.plan ≡ plan.now }
    ensures world { result.world ≡ world.now }
{
    Book::new(alloc, plan, world, workers).expect(rt, "memory")
}

/// A new tray.
pub(crate) fn new_tray<'a, R: Abort>(
    rt: &R,
    alloc: Global,
    plan: &'a Plan,
    world: &'a World,
) -> Tray<'a>
    ensures plan { result.plan ≡ plan.now }
    ensures world { result.world ≡ world.now }
{
    Tray::new(alloc, plan, world).expect(rt, "memory")
}

/// What is done with a book and asserted of it.
pub(crate) trait Play {
    /// Does it with a new book and two new trays of its plan and world.
    fn play<R: Abort>(
        &self,
        rt: &R,
        alloc: Global,
        book: &mut Book<'_>,
        first: &mut Tray<'_>,
        second: &mut Tray<'_>,
    )
        requires first_plan { first.old.plan ≡ book.old.plan }
        requires first_world { first.old.world ≡ book.old.world }
        requires second_plan { second.old.plan ≡ book.old.plan }
        requires second_world { second.old.world ≡ book.old.world };
}

/// Plays with a new book of a suite on `workers` workers.
pub(crate) fn play_on<R: Abort, P: Play>(
    rt: &R,
    alloc: Global,
    plan: &Plan,
    world: &World,
    workers: u32,
    play: &P,
) {
    let mut book = new_book(rt, alloc, plan, world, workers);
    let mut first = new_tray(rt, alloc, plan, world);
    let mut second = new_tray(rt, alloc, plan, world);
    play.play(rt, alloc, &mut book, &mut first, &mut second);
}

/// A play with the book of a suite on `workers` workers.
#[derive(Drop)]
struct OnWorkers<'a, P> {
    workers: u32,
    play: &'a P,
}

impl<P: Play> Check for OnWorkers<'_, P> {
    fn check<R: Abort>(&self, rt: &R, alloc: Global, plan: &Plan, world: &World) {
        play_on(rt, alloc, plan, world, self.workers, self.play);
    }
}

/// Plays with the book of a script's suite on `workers` workers.
pub(crate) fn play_script<R: Abort, P: Play>(
    rt: &R,
    alloc: Global,
    script: &str,
    workers: u32,
    play: &P,
) {
    check_script(rt, alloc, script, CONCURRENT, &OnWorkers { workers, play });
}
