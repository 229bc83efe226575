//! Runs of a suite by several workers, from its inputs to its report.
ghost use Rattle.std.specs.Prelude.{◌≡◌, ◌<◌, ◌≤◌, IfErr, IfOk, OnOk, is_some, length, true};
ghost use Rattle.std.specs.Option.{option_map};
ghost use denote.Param.Send.{IsSend, IsSync};
ghost use Rattle.iso_book.specs.Books.{is_complete};
ghost use Rattle.iso_floor.specs.Grounds.{IsBookOf};
ghost use Rattle.iso_run.specs.Courses.{AreEvents, IsCourse, TellsCourse};
ghost use Rattle.iso_run.specs.declared.run_fault.RunFault.TheVariants.{Memory};
ghost use Rattle.iso_run.specs.declared.way.Way.TheVariants.{ByWorkers};
ghost use Rattle.iso_run.specs.Replays.{IsOfWorkers};
ghost use Rattle.iso_run.specs.Runs.{Writes, suite_report};
ghost use Rattle.iso_run.specs.Watches.{TellsRun, WasWatched, watched_with};

use crate::afterwards::Afterwards;
use crate::counts::CountingGate;
use crate::course::Course;
use crate::inputs::{Inputs, Suite, read_inputs};
use crate::observation::Observed;
use crate::observed::observe;
use crate::progress::{Progress, Unshown};
use crate::recorded::tell_book;
use crate::report::{Finished, Summary, write_results};
use crate::run_fault::RunFault;
use crate::times::node_times;
use crate::watch::{Watch, watched};
use iso_book::book::Book;
use iso_floor::busy::busy_workers;
use iso_floor::fault::{CloseFault, SeatFault};
use iso_floor::floor::Floor;
use iso_floor::ground::Ground;
use iso_floor::seat::Seat;
use iso_floor::work::{Cause, WorkEnd, work};
use iso_lifecycle::gate::Gate;
use iso_tap::sink::Sink;
use iso_telling::tells::Tells;
use iso_times::gate::TimesGate;
use iso_times::times::Times;
use std::alloc::Global;
use std::marker::Brand;
use std::rt::Clock;
use std::sync::Wait;
use std::thread;
use std::thread::{Builder, JoinHandle, Threads};

/// The stack of a worker's thread, in bytes, whatever `ulimit -s` says. The deepest accepted body
/// takes less than a tenth of it.
const WORKER_STACK: usize = 2 << 20;

/// Runs a suite by as many workers as its settings give, tells what is asked for besides, and
/// writes its report to the sink. It is the report that `run_serial` writes, whatever workers there
/// are and whatever the gate lets them do. The clock is read only where times are told.
///
/// The inputs are read as by `run_serial`: the first fault is answered. Then comes the first of
/// these that applies: `Start` where a thread could not be started, `Memory`, `Lost`, `Unfinished`.
/// Nothing is written before all workers have ended: with any fault but `Write` the sink is asked
/// nothing. Out of memory may be answered at each growth. It may wait, as workers do for one
/// another and at the gate.
pub fn run_workers<R: Threads + Wait + Clock + Sync, G: Gate + Sync, W: Sink>(
    rt: &R,
    alloc: Global,
    inputs: Inputs<'_>,
    gate: &G,
    tells: &mut Tells<'_>,
    course: &mut Course,
    sink: &mut W,
) -> Result<Summary, RunFault>
    requires { 1 ≤ inputs.processors }
    ensures report { Writes (λ s. s.all_ok) suite_report inputs.entry ByWorkers (W.account sink.old)
        (W.account sink.new) result }
    ensures told { OnOk result (TellsRun inputs.entry ByWorkers tells.old tells.new) }
    ensures course { OnOk result (TellsCourse inputs.entry ByWorkers course.old course.new) }
{
    let afterwards = Afterwards::LetGo;
    run_workers_shown(
        rt,
        alloc,
        inputs,
        afterwards,
        gate,
        &mut Unshown,
        tells,
        course,
        sink,
    )
}

/// Runs a suite as `run_workers` does, and shows how far it has come. What it has made when the
/// report is written is let go or left, as the caller says.
pub(crate) fn run_workers_shown<
    R: Threads + Wait + Clock + Sync,
    G: Gate + Sync,
    P: Progress,
    W: Sink,
>(
    rt: &R,
    alloc: Global,
    inputs: Inputs<'_>,
    afterwards: Afterwards,
    gate: &G,
    progress: &mut P,
    tells: &mut Tells<'_>,
    course: &mut Course,
    sink: &mut W,
) -> Result<Summary, RunFault>
    requires { 1 ≤ inputs.processors }
    ensures report { Writes (λ s. s.all_ok) suite_report inputs.entry ByWorkers (W.account sink.old)
        (W.account sink.new) result }
    ensures told { OnOk result (TellsRun inputs.entry ByWorkers tells.old tells.new) }
    ensures course { OnOk result (TellsCourse inputs.entry ByWorkers course.old course.new) }
{
    let suite = read_inputs(alloc, inputs, tells.wants_places())?;
    let counting = CountingGate::new(alloc, gate, &suite.plan, progress.counts());
    let ran = run_timed::<Brand, R, CountingGate<'_, G>>(
        rt, alloc, &suite, &counting, tells, course,
    );
    drop(counting);
    progress.ends();
    let ran = ran?;
    let run = Finished {
        results: ran.book.results(),
        times: &ran.node_times,
        watched: watched(&ran.times, &ran.watch),
    };
    let written = write_results(alloc, &suite, inputs.scripts, &run, tells, sink);
    afterwards.of(ran);
    afterwards.of(suite);
    written
}

/// The book of a suite's run, when its bodies ran, how many microseconds those of its nodes took,
/// and what was watched, where that was measured.
#[derive(Drop)]
struct RanBook<'s> {
    book: Book<'s>,
    times: Times,
    node_times: Vec<Option<u64>>,
    watch: Option<Watch>,
}

/// Has its workers run a suite, tells of its course, and measures and watches it as far as what is
/// told asks for it.
fn run_timed<'s, L: Ground + Send + Sync, R: Threads + Wait + Clock + Sync, G: Gate + Sync>(
    rt: &R,
    alloc: Global,
    suite: &'s Suite,
    gate: &G,
    tells: &Tells<'_>,
    course: &mut Course,
) -> Result<RanBook<'s>, RunFault>
    requires some { 1 ≤ L.workers }
    requires plan { suite.now.plan ≡ L.plan }
    requires start { suite.now.world ≡ L.start }
    requires workers { suite.now.settings.worker_count ≡ L.workers }
    ensures book { IfOk result (λ r. IsBookOf L.plan L.start L.workers r.book) }
    ensures complete { IfOk result (λ r. is_complete r.book ≡ true) }
    ensures watched { IfOk result (λ r. WasWatched ByWorkers L.plan L.start L.workers
        (is_some tells.now.html)
        (option_map (watched_with r.times) r.watch)) }
    ensures course { OnOk result (IsCourse (AreEvents ByWorkers L.plan L.start L.workers) ByWorkers
        L.plan L.start L.workers course.old course.new) }
    ensures fault { IfErr result (IsOfWorkers suite.now.settings.worker_count) }
{
    let timed = tells.wants_times();
    let times_gate = if timed || course.wants_times() {
        TimesGate::new(alloc, rt, gate, suite.plan.len())?
    } else {
        TimesGate::untimed(alloc, rt, gate)
    };
    let FloorRun { book, started } = run_on_floor::<L, R, TimesGate<'_, R, G>>(
        rt,
        alloc,
        suite,
        &times_gate,
    )?;
    let times = times_gate.into_times();
    let run = Observed {
        plan: &suite.plan,
        results: book.results(),
        times: &times,
        started,
        of: suite.settings.workers(),
    };
    let watch = observe(alloc, &run, tells.wants_watched(), course)?;
    tell_book(alloc, &book, &mut course.schedule)?;
    let node_times = node_times(alloc, timed, &times, &suite.plan)?;
    Ok(RanBook {
        book,
        times,
        node_times,
        watch,
    })
}

/// The book of a run, and how many workers were started.
#[derive(Drop)]
struct FloorRun<'s> {
    book: Book<'s>,
    started: u32,
}

/// Has its workers run a suite, each in a seat of its own, and answers the book of the run. A
/// worker whom the suite can't keep busy isn't started.
fn run_on_floor<'s, L: Ground + Send + Sync, R: Threads + Wait + Sync, G: Gate + Sync>(
    rt: &R,
    alloc: Global,
    suite: &'s Suite,
    gate: &G,
) -> Result<FloorRun<'s>, RunFault>
    requires some { 1 ≤ L.workers }
    requires plan { suite.now.plan ≡ L.plan }
    requires start { suite.now.world ≡ L.start }
    requires workers { suite.now.settings.worker_count ≡ L.workers }
    ensures book { IfOk result (λ r. IsBookOf L.plan L.start L.workers r.book) }
    ensures complete { IfOk result (λ r. is_complete r.book ≡ true) }
    ensures started { IfOk result (λ r. (1 ≤ r.started) × (r.started ≤ L.workers)) }
    ensures fault { IfErr result (IsOfWorkers suite.now.settings.worker_count) }
{
    let workers = suite.settings.workers();
    let floor: Floor<'s, L> = Floor::new(alloc, &suite.plan, &suite.world, workers)?;
    let first = seat_on(rt, alloc, &floor, 0)?;
    let busy = busy_workers(alloc, &suite.plan, workers)?;
    let others = seats_on(rt, alloc, &floor, busy)?;
    let seats = run_seats(rt, alloc, &floor, first, others, gate)?;
    let book = close(floor, seats)?;
    Ok(FloorRun {
        book,
        started: busy,
    })
}

/// The seat of a worker on a floor.
fn seat_on<'a, L: Ground, R: Wait>(
    rt: &R,
    alloc: Global,
    floor: &Floor<'a, L>,
    worker: u32,
) -> Result<Seat<'a, L>, RunFault>
    ensures worker { OnOk result (worker < floor.now) }
    ensures fault { IfErr result (IsOfWorkers floor.now) }
{
    match floor.seat(rt, alloc, worker) {
        Ok(seat) => Ok(seat),
        Err(SeatFault::OutOfMemory) => Err(RunFault::Memory),
        // Where another has the seat, nobody hands in its receipts.
        Err(SeatFault::NoWorker | SeatFault::Taken) => Err(RunFault::Lost),
    }
}

/// The seats on a floor of `workers` workers, without the first's.
fn seats_on<'a, L: Ground, R: Wait>(
    rt: &R,
    alloc: Global,
    floor: &Floor<'a, L>,
    workers: u32,
) -> Result<Vec<Seat<'a, L>>, RunFault>
    ensures seats { IfOk result (λ seats. 0 < length seats.items → 2 ≤ floor.now) }
    ensures fault { IfErr result (IsOfWorkers floor.now) }
{
    let mut seats = Vec::new(alloc);
    for worker in 1..workers {
        seats.push(seat_on(rt, alloc, floor, worker)?)?;
    }
    Ok(seats)
}

/// Has the worker of each seat work to its end, the first here and each other in a thread of its
/// own, and answers the seats.
fn run_seats<'a, L: Ground + Send + Sync, R: Threads + Wait + Sync, G: Gate + Sync>(
    rt: &R,
    alloc: Global,
    floor: &Floor<'a, L>,
    first: Seat<'a, L>,
    others: Vec<Seat<'a, L>>,
    gate: &G,
) -> Result<Vec<Seat<'a, L>>, RunFault>
    requires { 0 < length others.items → 2 ≤ floor.now }
    ensures { IfErr result (IsOfWorkers floor.now) }
{
    thread::scope(
        thread::scope_env(),
        rt,
        move |scope| -> Result<Vec<Seat<'_, L>>, RunFault>
            requires sent { IsSync R.row × IsSync G.row × IsSend L.row × IsSync L.row }
            requires others { 0 < length others.items → 2 ≤ floor.now }
            ensures { IfErr result (IsOfWorkers floor.entry.now) }
        {
            let mut handles = Vec::with_capacity(alloc, others.len())?;
            let mut started = true;
            let mut whole = true;
            for seat in others {
                let thread = Builder::new().stack_size(WORKER_STACK);
                match thread.spawn_scoped(scope, move || work(rt, alloc, floor, seat, gate)) {
                    Ok(handle) => whole = handles.push(handle).is_ok() && whole,
                    Err(_) => started = false,
                }
            }
            if !started || !whole {
                floor.stop(rt);
            }
            let own = work(rt, alloc, floor, first, gate);
            let seats = seats_of(rt, alloc, own, handles);
            if !started {
                return Err(RunFault::Start);
            }
            if !whole {
                return Err(RunFault::Memory);
            }
            seats
        },
    )
}

/// The seats of workers, of which one has ended and the others are waited for.
fn seats_of<'a, L: Ground, R: Threads>(
    rt: &R,
    alloc: Global,
    own: WorkEnd<'a, L>,
    handles: Vec<JoinHandle<WorkEnd<'a, L>>>,
) -> Result<Vec<Seat<'a, L>>, RunFault>
    ensures { IfErr result (λ fault. fault ≡ Memory) }
{
    let mut seats = Vec::new(alloc);
    let mut whole = keep(&mut seats, own);
    for handle in handles {
        whole = keep(&mut seats, handle.join(rt)) && whole;
    }
    if whole {
        Ok(seats)
    } else {
        Err(RunFault::Memory)
    }
}

/// Puts the seat of a worker that has ended to those of others, and answers whether there was
/// memory for this and for its work.
fn keep<'a, L: Ground>(seats: &mut Vec<Seat<'a, L>>, end: WorkEnd<'a, L>) -> bool {
    let WorkEnd { seat, cause } = end;
    seats.push(seat).is_ok() && cause != Cause::OutOfMemory
}

/// Closes a floor whose workers have ended, and answers its book.
fn close<'a, L: Ground>(floor: Floor<'a, L>, seats: Vec<Seat<'a, L>>) -> Result<Book<'a>, RunFault>
    ensures book { IfOk result (IsBookOf L.plan L.start L.workers) }
    ensures complete { IfOk result (λ b. is_complete b ≡ true) }
    ensures fault { IfErr result (IsOfWorkers floor.entry) }
{
    match floor.close(seats) {
        Ok(book) => Ok(book),
        Err(CloseFault::Lost(_)) => Err(RunFault::Lost),
        Err(CloseFault::Unfinished) => Err(RunFault::Unfinished),
    }
}
