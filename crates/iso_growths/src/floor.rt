//! A floor: on one a worker works, and another one is stopped when a class was entered.
ghost use Rattle.std.specs.Prelude.{◌≡◌, IfOk};
ghost use Rattle.iso_book.specs.Leaves.{MayBring};

use crate::answer::{Answer, expect, out_of_memory};
use crate::bodies::{is_class, opening};
use crate::calls::Calls;
use crate::host::Host;
use crate::suites::AWAY;
use iso_book::book::Book;
use iso_floor::fault::CloseFault;
use iso_floor::floor::Floor;
use iso_floor::ground::Ground;
use iso_floor::seat::Seat;
use iso_floor::work::{Cause, WorkEnd, work};
use iso_lifecycle::done::Done;
use iso_lifecycle::gate::OpenGate;
use iso_plan::plan::Plan;
use iso_settings::world::World;
use iso_standing::refused::{CoreFault, Refused};
use std::marker::Brand;

/// One of two workers does a suite, and both sit at another floor that is stopped.
pub(crate) fn do_all<H: Host>(
    calls: &Calls<'_, H>,
    plan: &Plan,
    world: &World,
) -> Result<(), Answer> {
    on_ground::<Brand, H>(calls, plan, world, 2)
}

/// The same on the ground of the suite.
fn on_ground<G: Ground, H: Host>(
    calls: &Calls<'_, H>,
    plan: &Plan,
    world: &World,
    workers: u32,
) -> Result<(), Answer>
    requires plan { plan.now ≡ G.plan }
    requires start { world.now ≡ G.start }
    requires workers { workers ≡ G.workers }
{
    do_suite(calls, new_floor::<G, H>(calls, plan, world, workers)?)?;
    stop_early(calls, new_floor::<G, H>(calls, plan, world, workers)?)
}

fn new_floor<'a, G: Ground, H: Host>(
    calls: &Calls<'_, H>,
    plan: &'a Plan,
    world: &'a World,
    workers: u32,
) -> Result<Floor<'a, G>, Answer>
    requires plan { plan.now ≡ G.plan }
    requires start { world.now ≡ G.start }
    requires workers { workers ≡ G.workers }
{
    calls.begin("Floor::new");
    let made = Floor::new(calls.alloc(), plan, world, workers);
    calls.end("Floor::new");
    Ok(made?)
}

/// Sits down, works, and closes the floor.
fn do_suite<G: Ground, H: Host>(calls: &Calls<'_, H>, floor: Floor<'_, G>) -> Result<(), Answer> {
    match work_on(calls, &floor) {
        Ok((seats, cause)) => settle(calls, floor, seats, cause),
        Err(answer) => {
            drop(floor);
            Err(answer)
        }
    }
}

/// The seat of a worker who has worked, alone, and why he has ended.
fn work_on<'a, G: Ground, H: Host>(
    calls: &Calls<'_, H>,
    floor: &Floor<'a, G>,
) -> Result<(Vec<Seat<'a, G>>, Cause), Answer> {
    let mut seats = Vec::with_capacity(calls.alloc(), 1)?;
    let seat = sit_down(calls, floor, 0)?;
    calls.begin("work");
    let WorkEnd { seat, cause } = work(calls.rt, calls.alloc(), floor, seat, &OpenGate);
    calls.end("work");
    seats.push_reserved(seat);
    Ok((seats, cause))
}

/// A worker's seat, which is still free where it was refused memory.
fn sit_down<'a, G: Ground, H: Host>(
    calls: &Calls<'_, H>,
    floor: &Floor<'a, G>,
    worker: u32,
) -> Result<Seat<'a, G>, Answer> {
    calls.begin("Floor::seat");
    let seat = floor.seat(calls.rt, calls.alloc(), worker);
    calls.end("Floor::seat");
    match seat {
        Ok(seat) => Ok(seat),
        Err(fault) => {
            floor.seat(calls.rt, calls.alloc(), worker)?;
            Err(Answer::from(fault))
        }
    }
}

/// Closes a floor whose worker has ended. Where it was refused memory the floor is stopped.
fn settle<'a, G: Ground, H: Host>(
    calls: &Calls<'_, H>,
    floor: Floor<'a, G>,
    mut seats: Vec<Seat<'a, G>>,
    cause: Cause,
) -> Result<(), Answer> {
    let is_stopped = match seats.get_mut(0) {
        Some(seat) => refuses(calls, &floor, seat),
        None => false,
    };
    let fault = close(calls, floor, seats);
    match (cause, fault) {
        (Cause::Finished, None) => Ok(()),
        (Cause::OutOfMemory, Some(CloseFault::Unfinished)) if is_stopped => {
            Err(Answer::OutOfMemory)
        }
        _ => Err(Answer::Wrong("a worker that ended otherwise")),
    }
}

/// Whether a floor refuses an Enter and a Shut since it was stopped.
fn refuses<'a, G: Ground, H: Host>(
    calls: &Calls<'_, H>,
    floor: &Floor<'a, G>,
    seat: &mut Seat<'a, G>,
) -> bool {
    let stopped = Err(CoreFault::Refused(Refused::Stopped));
    calls.begin("Floor::enter");
    let entered = floor.enter(calls.rt, seat, AWAY);
    calls.end("Floor::enter");
    calls.begin("Floor::shut");
    let shut = floor.shut(calls.rt, seat, AWAY);
    calls.end("Floor::shut");
    entered == stopped && shut == stopped
}

/// Why a floor that is closed with these seats hands out no book.
fn close<'a, G: Ground, H: Host>(
    calls: &Calls<'_, H>,
    floor: Floor<'a, G>,
    seats: Vec<Seat<'a, G>>,
) -> Option<CloseFault> {
    calls.begin("Floor::close");
    let closed = floor.close(seats);
    calls.end("Floor::close");
    fault_of(closed)
}

/// Why there is no book.
fn fault_of(closed: Result<Book<'_>, CloseFault>) -> Option<CloseFault> {
    match closed {
        Ok(_) => None,
        Err(fault) => Some(fault),
    }
}

/// Both workers sit down, and the floor is stopped before they have done anything.
fn stop_early<G: Ground, H: Host>(calls: &Calls<'_, H>, floor: Floor<'_, G>) -> Result<(), Answer> {
    match both_seats(calls, &floor) {
        Ok(seats) => stop_and_close(calls, floor, seats),
        Err(answer) => {
            drop(floor);
            Err(answer)
        }
    }
}

fn both_seats<'a, G: Ground, H: Host>(
    calls: &Calls<'_, H>,
    floor: &Floor<'a, G>,
) -> Result<Vec<Seat<'a, G>>, Answer> {
    let mut seats = Vec::with_capacity(calls.alloc(), 2)?;
    seats.push(sit_down(calls, floor, 0)?)?;
    seats.push(sit_down(calls, floor, 1)?)?;
    Ok(seats)
}

/// A floor that is stopped refuses every event, and with both seats is unfinished.
fn stop_and_close<'a, G: Ground, H: Host>(
    calls: &Calls<'_, H>,
    floor: Floor<'a, G>,
    mut seats: Vec<Seat<'a, G>>,
) -> Result<(), Answer> {
    let stopped = match seats.get_mut(0) {
        Some(seat) => stop(calls, &floor, seat),
        None => Err(Answer::Wrong("no seat")),
    };
    let fault = close(calls, floor, seats);
    stopped?;
    expect(
        fault == Some(CloseFault::Unfinished),
        "a stopped floor that gave a book",
    )
}

/// Enters a class, and stops the floor before it is left.
fn stop<'a, G: Ground, H: Host>(
    calls: &Calls<'_, H>,
    floor: &Floor<'a, G>,
    seat: &mut Seat<'a, G>,
) -> Result<(), Answer> {
    let done = enter(calls, floor, seat)?;
    calls.begin("Floor::stop");
    floor.stop(calls.rt);
    calls.end("Floor::stop");
    is_handed_back(calls, floor, seat, done)?;
    expect(refuses(calls, floor, seat), "a floor that isn't stopped")
}

/// Enters the class, and answers what its `before_all` comes to.
fn enter<'a, G: Ground, H: Host>(
    calls: &Calls<'_, H>,
    floor: &Floor<'a, G>,
    seat: &mut Seat<'a, G>,
) -> Result<Done, Answer>
    ensures { IfOk result (λ d. MayBring d seat.new.tray) }
{
    calls.begin("Floor::enter");
    let entered = floor.enter(calls.rt, seat, AWAY);
    calls.end("Floor::enter");
    entered?;
    if !is_class(seat.tray().plan(), AWAY) {
        return Err(Answer::Wrong("no class was entered"));
    }
    opening(calls, seat.tray(), AWAY)
}

/// Whether a floor that is stopped hands back what a body came to.
fn is_handed_back<'a, G: Ground, H: Host>(
    calls: &Calls<'_, H>,
    floor: &Floor<'a, G>,
    seat: &mut Seat<'a, G>,
    done: Done,
) -> Result<(), Answer>
    requires { MayBring done seat.old.tray }
{
    calls.begin("Floor::leave");
    let left = floor.leave(calls.rt, seat, done);
    calls.end("Floor::leave");
    let Err((why, back)) = left else {
        return Err(Answer::Wrong("a Leave that isn't refused"));
    };
    is_own(why, &back)
}

/// Whether a body that came back is that of the class, refused since the floor is stopped.
fn is_own(why: Refused, back: &Done) -> Result<(), Answer> {
    expect(
        why == Refused::Stopped,
        "a Leave that isn't refused as Stopped",
    )?;
    expect(back.node() == AWAY, "another body came back")
}
