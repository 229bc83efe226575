//! A worker's whole run.
ghost use Rattle.std.specs.Prelude.{IsTrue, Some};
ghost use Rattle.iso_floor.specs.Turning.{GoesOnFree, IsTurn};
ghost use Rattle.iso_floor.specs.Workers.{IsFree};

use crate::floor::Floor;
use crate::ground::Ground;
use crate::halt::Halt;
use crate::seat::Seat;
use crate::turn::Turn;
use crate::worker::Worker;
use iso_lifecycle::gate::Gate;
use iso_plan::laws;
use std::alloc::Global;
use std::sync::Wait;

/// Why a worker has ended.
#[derive(Clone, Copy, Debug, PartialEq, Eq)]
pub enum Cause {
    /// Every node but the root is finished.
    Finished,
    /// The run was stopped, or an event was refused for good.
    Stopped,
    /// Memory ran out.
    OutOfMemory,
}

impl From<Halt> for Cause {
    ghost use Rattle.std.specs.Prelude.{◌≡◌};
    ghost use Rattle.iso_floor.specs.Halts.{cause_of};

    ghost from_gives = { λ halt cause. cause ≡ cause_of halt };

    fn from(halt: Halt) -> Cause {
        match halt {
            Halt::Stopped => Cause::Stopped,
            Halt::OutOfMemory => Cause::OutOfMemory,
        }
    }
}

/// A worker's seat when it has ended, and why it has.
#[derive(Drop)]
pub struct WorkEnd<'a, G: Ground> {
    pub seat: Seat<'a, G>,
    pub cause: Cause,
}

/// Works on a floor until every node but the root is finished, or the run is stopped, and hands the
/// seat back.
///
/// The worker enters what can be entered and does its bodies, with no lock held. It meets its gate
/// after each Enter and Shut and after each step of a body, and tells it of each body's begin and
/// end. Where there is nothing to try it waits. Where it can't go on, since memory ran out or an
/// event was refused for good, it drops its body and stops the run. A seat to whose tray something
/// is lent is a stranger's.
pub fn work<'a, G: Ground, R: Wait, T: Gate>(
    rt: &R,
    alloc: Global,
    floor: &Floor<'a, G>,
    seat: Seat<'a, G>,
    gate: &T,
) -> WorkEnd<'a, G> {
    let mut seat = seat;
    let worker = Worker {
        rt,
        alloc,
        floor,
        gate,
    };
    let cause = match take_turns(&worker, &mut seat) {
        Ok(()) => Cause::Finished,
        Err(halt) => {
            floor.stop(rt);
            Cause::from(halt)
        }
    };
    WorkEnd { seat, cause }
}

// Takes turns at the floor until nothing more is to be done.
fn take_turns<'a, G: Ground, R: Wait, T: Gate>(
    worker: &Worker<'_, 'a, G, R, T>,
    seat: &mut Seat<'a, G>,
) -> Result<(), Halt> {
    if !is_free(seat) {
        return Err(Halt::Stopped);
    }
    let mut rounds = 0;
    let mut next = None;
    'turns: for _ in worker.rt.forever() {
        next = match turn_of(worker, seat, &mut rounds, next) {
            Turn::Entered(node) => worker.begin_entered(seat, node)?,
            Turn::Shut(class) => worker.end_shut(seat, class)?,
            Turn::Wait => None,
            Turn::Finished => return Ok(()),
            Turn::Halted(halt) => return Err(halt),
        };
    }
    Ok(())
}

// What was found to do next, else what is found now.
fn turn_of<'a, G: Ground, R: Wait, T: Gate>(
    worker: &Worker<'_, 'a, G, R, T>,
    seat: &mut Seat<'a, G>,
    rounds: &mut u64,
    next: Option<Turn>,
) -> Turn
    requires { GoesOnFree next seat.old }
    ensures { GoesOnFree (Some result) seat.new }
{
    match next {
        Some(turn) => turn,
        None => take_turn(worker, seat, rounds),
    }
}

// Looks for something to do, in the deques first unless the scheduler calls for this worker, and
// waits where there is nothing. `rounds` is how often nodes had been posted when that was asked
// last.
fn take_turn<'a, G: Ground, R: Wait, T: Gate>(
    worker: &Worker<'_, 'a, G, R, T>,
    seat: &mut Seat<'a, G>,
    rounds: &mut u64,
) -> Turn
    ensures { IsTurn result seat.old seat.new }
{
    let look = seat.look_into_deques(worker.rt);
    let turn = worker.floor.turn(worker.rt, seat, look.node());
    if matches!(turn, Turn::Wait) {
        let seen = look.seen(*rounds);
        *rounds = worker.floor.wait_turn(worker.rt, seat.worker(), seen);
    }
    turn
}

// Whether nothing is lent to a seat's tray, so that it has no value that may be changed.
fn is_free<'a, G: Ground>(seat: &Seat<'a, G>) -> bool
    ensures { IsTrue result → IsFree seat.now.tray }
{
    let tray = seat.tray();
    let plan = tray.plan();
    laws::nodes_are_a_tree(plan);
    iso_locks::laws::values_are_of_lent_nodes(tray);
    if tray.is_flat() {
        return false;
    }
    tray.holds_none()
}
