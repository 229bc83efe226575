//! A book, by hand: a class that is disabled is entered, opened and shut.
ghost use Rattle.std.specs.Prelude.{OnOk};
ghost use Rattle.iso_book.specs.Leaves.{MayBring};
ghost use Rattle.iso_book.specs.Turns.{IsEntered};

use crate::answer::{Answer, expect, out_of_memory};
use crate::bodies::{is_class, opening};
use crate::calls::Calls;
use crate::host::Host;
use crate::suites::AWAY;
use iso_book::book::Book;
use iso_lifecycle::done::Done;
use iso_locks::tray::Tray;
use iso_plan::plan::Plan;
use iso_settings::world::World;
use iso_standing::refused::CoreFault;

/// The worker who does it.
const WORKER: u32 = 0;

/// Makes a book, and has it take a class's events until it is stopped.
pub(crate) fn keep<H: Host>(
    calls: &Calls<'_, H>,
    plan: &Plan,
    world: &World,
) -> Result<(), Answer> {
    calls.begin("Book::new");
    let made = Book::new(calls.alloc(), plan, world, 1);
    calls.end("Book::new");
    with_book(calls, plan, world, &mut made?)
}

fn with_book<H: Host>(
    calls: &Calls<'_, H>,
    plan: &Plan,
    world: &World,
    book: &mut Book<'_>,
) -> Result<(), Answer> {
    let mut tray = Tray::new(calls.alloc(), plan, world)?;
    take_events(calls, book, &mut tray)
}

fn take_events<H: Host>(
    calls: &Calls<'_, H>,
    book: &mut Book<'_>,
    tray: &mut Tray<'_>,
) -> Result<(), Answer> {
    open(calls, book, tray)?;
    hand(calls, book, tray)?;
    shut(calls, book, tray)?;
    calls.begin("Book::stop");
    book.stop();
    calls.end("Book::stop");
    expect(book.is_stopped(), "a book that isn't stopped")
}

/// Enters and opens the class.
fn open<H: Host>(
    calls: &Calls<'_, H>,
    book: &mut Book<'_>,
    tray: &mut Tray<'_>,
) -> Result<(), Answer> {
    enter(calls, book, tray)?;
    if !is_class(tray.plan(), AWAY) {
        return Err(Answer::Wrong("no class was entered"));
    }
    let done = opening(calls, tray, AWAY)?;
    leave(calls, book, tray, done)
}

/// Enters the class. Where that was refused memory it is entered then.
fn enter<H: Host>(
    calls: &Calls<'_, H>,
    book: &mut Book<'_>,
    tray: &mut Tray<'_>,
) -> Result<(), Answer>
    ensures { OnOk result (IsEntered AWAY tray.old tray.new) }
{
    calls.begin("Book::enter");
    let entered = book.enter(WORKER, AWAY, tray);
    calls.end("Book::enter");
    match entered {
        Ok(()) => Ok(()),
        Err(CoreFault::OutOfMemory) => {
            let stands = book.enter(WORKER, AWAY, tray).is_ok();
            Err(out_of_memory(stands, "a class that can't be entered any more"))
        }
        Err(refused) => Err(Answer::from(refused)),
    }
}

/// Books the opening of the class.
fn leave<H: Host>(
    calls: &Calls<'_, H>,
    book: &mut Book<'_>,
    tray: &mut Tray<'_>,
    done: Done,
) -> Result<(), Answer>
    requires { MayBring done tray.old }
{
    calls.begin("Book::leave");
    let left = book.leave(WORKER, done, tray);
    calls.end("Book::leave");
    let is_left = left.is_ok();
    drop(left);
    expect(is_left, "the Leave was refused")
}

/// Hands the tray the frame of the class.
fn hand<H: Host>(calls: &Calls<'_, H>, book: &Book<'_>, tray: &mut Tray<'_>) -> Result<(), Answer> {
    if AWAY < book.plan().len()
        && let Some(frame) = book.results().frame(AWAY)
        && tray.frames().len() < tray.plan().depth()
    {
        let frame = frame.share()?;
        calls.begin("Tray::hand");
        tray.hand(frame);
        calls.end("Tray::hand");
        return Ok(());
    }
    Err(Answer::Wrong("no frame"))
}

/// Shuts the class. Where that was refused memory it is shut then.
fn shut<H: Host>(
    calls: &Calls<'_, H>,
    book: &mut Book<'_>,
    tray: &mut Tray<'_>,
) -> Result<(), Answer> {
    calls.begin("Book::shut");
    let shut = book.shut(WORKER, AWAY, tray);
    calls.end("Book::shut");
    match shut {
        Ok(()) => Ok(()),
        Err(CoreFault::OutOfMemory) => {
            let stands = book.shut(WORKER, AWAY, tray).is_ok();
            Err(out_of_memory(stands, "a class that can't be shut any more"))
        }
        Err(refused) => Err(Answer::from(refused)),
    }
}
