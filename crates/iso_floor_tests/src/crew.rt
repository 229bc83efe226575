//! The workers of a floor, each in a thread of its own.
ghost use Rattle.std.specs.Prelude.{◌≡◌};
ghost use denote.Param.Send.{IsSend, IsSync};

use crate::by_hand::sit_down;
use crate::reports::{Told, close};
use crate::shared::check;
use crate::suites::{Suite, read_suite};
use iso_floor::fault::CloseFault;
use iso_floor::floor::Floor;
use iso_floor::ground::Ground;
use iso_floor::seat::Seat;
use iso_floor::work::{Cause, WorkEnd, work};
use iso_lifecycle::gate::Gate;
use iso_plan::plan::Plan;
use iso_settings::world::World;
use std::alloc::Global;
use std::marker::Brand;
use std::process::Abort;
use std::sync::Wait;
use std::thread;
use std::thread::{JoinHandle, Threads};

/// What is done on a floor beside its workers, in the thread that has started them.
pub(crate) trait Beside {
    fn act<G: Ground, R: Wait>(&self, rt: &R, floor: &Floor<'_, G>);
}

/// Nothing is done beside the workers.
pub(crate) struct Nothing;

impl Beside for Nothing {
    fn act<G: Ground, R: Wait>(&self, _rt: &R, _floor: &Floor<'_, G>) {}
}

/// Who works on a floor.
#[derive(Clone, Copy)]
pub(crate) struct Crew {
    /// The workers that the floor is made for.
    pub workers: u32,
    /// How many of them work, the first ones.
    pub working: u32,
    /// Why each of them is to end.
    pub cause: Cause,
    /// The place of the seat that isn't handed in, if there is one.
    pub kept: Option<usize>,
}

impl Crew {
    /// `workers` workers, who all finish and hand in their seats.
    pub(crate) fn of(workers: u32) -> Crew {
        Crew {
            workers,
            working: workers,
            cause: Cause::Finished,
            kept: None,
        }
    }
}

/// What a run on a floor has come to.
#[derive(Drop)]
pub(crate) struct Ran {
    /// How long the history is after all have ended, when no wait for more goes on.
    pub events: u64,
    /// How many receipts are in the seats that were handed in.
    pub receipts: usize,
    /// The first number in the seat that wasn't.
    pub kept: Option<usize>,
    /// What the book tells that the floor handed out, or why there is none.
    pub closed: Result<Told, CloseFault>,
}

/// Has a crew run the suite of a script on a floor of its own, and closes the floor.
pub(crate) fn run_script<R: Abort + Threads + Wait + Sync, T: Gate + Sync, B: Beside>(
    rt: &R,
    alloc: Global,
    script: &str,
    crew: Crew,
    gate: &T,
    beside: &B,
) -> Ran {
    let suite = read_suite(rt, alloc, script);
    run_suite(rt, alloc, &suite, crew, gate, beside)
}

/// Has a crew run a suite on a floor of its own, and closes the floor.
pub(crate) fn run_suite<R: Abort + Threads + Wait + Sync, T: Gate + Sync, B: Beside>(
    rt: &R,
    alloc: Global,
    suite: &Suite,
    crew: Crew,
    gate: &T,
    beside: &B,
) -> Ran {
    run_on_floor::<Brand, R, T, B>(rt, alloc, &suite.plan, &suite.world, crew, gate, beside)
}

/// The same on the ground of the suite.
fn run_on_floor<
    G: Ground + Send + Sync,
    R: Abort + Threads + Wait + Sync,
    T: Gate + Sync,
    B: Beside,
>(rt: &R, alloc: Global, plan: &Plan, world: &World, crew: Crew, gate: &T, beside: &B) -> Ran
    requires plan { plan.now ≡ G.plan }
    requires start { world.now ≡ G.start }
    requires workers { crew.workers ≡ G.workers }
{
    let floor: Floor<'_, G> = Floor::new(alloc, plan, world, crew.workers).expect(rt, "memory");
    let seats = seats_on(rt, alloc, &floor, crew.working);
    let mut seats = work_all(rt, alloc, &floor, seats, crew.cause, gate, beside);
    let events = floor.wait_change(rt, u64::MAX);
    let kept = keep_back(&mut seats, crew.kept);
    Ran {
        events,
        receipts: count_receipts(&seats),
        kept,
        closed: close(rt, alloc, floor, seats),
    }
}

/// The seats of the first workers of a floor.
fn seats_on<'a, G: Ground, R: Abort + Wait>(
    rt: &R,
    alloc: Global,
    floor: &Floor<'a, G>,
    workers: u32,
) -> Vec<Seat<'a, G>> {
    let mut seats = Vec::new(alloc);
    for worker in 0..workers {
        seats
            .push(sit_down(rt, alloc, floor, worker))
            .expect(rt, "memory");
    }
    seats
}

/// Has the worker of each seat work to its end, for this cause, while something is done beside
/// them. Where a thread can't be started the test ends.
fn work_all<
    'a,
    G: Ground + Send + Sync,
    R: Abort + Threads + Wait + Sync,
    T: Gate + Sync,
    B: Beside,
>(
    rt: &R,
    alloc: Global,
    floor: &Floor<'a, G>,
    seats: Vec<Seat<'a, G>>,
    cause: Cause,
    gate: &T,
    beside: &B,
) -> Vec<Seat<'a, G>> {
    thread::scope(
        thread::scope_env(),
        rt,
        move |scope| -> Vec<Seat<'_, G>>
            requires { IsSync R.row × IsSync T.row × IsSend G.row × IsSync G.row }
        {
            let mut handles = Vec::new(alloc);
            for seat in seats {
                let handle = scope.spawn(move || work(rt, alloc, floor, seat, gate));
                handles
                    .push(handle.expect(rt, "a thread"))
                    .expect(rt, "memory");
            }
            beside.act(rt, floor);
            join_all(rt, alloc, handles, cause)
        },
    )
}

/// The seats of workers, who are waited for, and are all to have ended for this cause.
fn join_all<'a, G: Ground, R: Abort + Threads>(
    rt: &R,
    alloc: Global,
    handles: Vec<JoinHandle<WorkEnd<'a, G>>>,
    cause: Cause,
) -> Vec<Seat<'a, G>> {
    let mut seats = Vec::new(alloc);
    for handle in handles {
        let end = handle.join(rt);
        check(rt, "why a worker ended", &end.cause, &cause);
        seats.push(end.seat).expect(rt, "memory");
    }
    seats
}

/// Takes a seat away, where one is to be kept back, and answers its first number.
fn keep_back<G: Ground>(seats: &mut Vec<Seat<'_, G>>, place: Option<usize>) -> Option<usize> {
    match place {
        Some(place) if place < seats.len() => first_number(&seats.swap_remove(place)),
        _ => None,
    }
}

/// The first number in a seat.
fn first_number<G: Ground>(seat: &Seat<'_, G>) -> Option<usize> {
    Some(seat.receipts().first()?.number())
}

/// How many receipts there are in seats.
fn count_receipts<G: Ground>(seats: &[Seat<'_, G>]) -> usize {
    let mut count = 0usize;
    for seat in seats {
        count = count.saturating_add(seat.receipts().len());
    }
    count
}
