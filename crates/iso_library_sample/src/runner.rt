//! A runner of one's own: four workers run a suite, and what each test came to is printed.
ghost use Rattle.std.specs.Prelude.{◌≡◌, IfOk};
ghost use Rattle.iso_floor.specs.Grounds.{IsBookOf};

use anyhow::Result;
use iso_book::book::Book;
use iso_floor::fault::SeatFault;
use iso_floor::floor::Floor;
use iso_floor::ground::Ground;
use iso_floor::seat::Seat;
use iso_floor::work::work;
use iso_lifecycle::gate::Gate;
use iso_lifecycle::kind::BodyKind;
use iso_lifecycle::view::ViewVerdict;
use iso_plan::plan::{Plan, build};
use iso_script::reader::read_script;
use iso_settings::settings::read_settings;
use iso_settings::world::{World, read_world};
use std::marker::Brand;
use std::sync::Wait;
use std::sync::atomic::{AtomicU64, Ordering};
use std::thread::{self, Threads};

const SCRIPT: &str = r#"team shop
class Stock {
    read "file:stock" test count { assert_equal "5", file("stock"); }
    write "file:stock" test sale { write_file "stock", "4"; assert_equal "4", file("stock"); }
    test price { fail "no price"; }
}
"#;

const SETTINGS: &str =
    "junit.jupiter.execution.parallel = { enabled = true, mode.default = \"concurrent\" }";

/// A gate that has nobody wait, and counts the bodies that don't end well.
#[derive(Drop)]
struct Failures(AtomicU64);

impl Gate for Failures {
    fn at_body(&self, _worker: u32, _node: u32) {}

    fn ends(&self, _worker: u32, _node: u32, _kind: BodyKind, well: bool) {
        self.0.fetch_add(u64::from(!well), Ordering::SeqCst);
    }
}

/// Reads the suite and runs it by four workers: one for each processor, of which the settings are
/// told four.
pub fn run<R: AllocGlobal + Print + Threads + Wait + Sync>(rt: &R) -> Result<()> {
    let alloc = rt.alloc();
    let scripts = [read_script(alloc, SCRIPT.as_bytes())?];
    let settings = read_settings(alloc, SETTINGS, 4)?;
    let plan = build(alloc, &scripts, &settings)?;
    let world = read_world(alloc, "files.stock = \"5\"")?;
    run_plan(rt, &plan, &world, settings.workers())
}

/// Runs a plan and prints what its tests came to.
fn run_plan<R: AllocGlobal + Print + Threads + Wait + Sync>(
    rt: &R,
    plan: &Plan,
    world: &World,
    workers: u32,
) -> Result<()> {
    let gate = Failures(AtomicU64::new(0));
    let book = run_on::<Brand, R>(rt, plan, world, workers, &gate)?;
    print_tests(rt, &book)?;
    println!(rt; "bodies that failed: {}", gate.0.load(Ordering::SeqCst))?;
    Ok(())
}

/// Has workers run a plan and answers the book of the run. The ground `G` is by what the contracts
/// of a floor and its seats name plan, world and number of workers.
fn run_on<'a, G: Ground + Send + Sync, R: AllocGlobal + Threads + Wait + Sync>(
    rt: &R,
    plan: &'a Plan,
    world: &'a World,
    workers: u32,
    gate: &Failures,
) -> Result<Book<'a>>
    requires plan { plan.now ≡ G.plan }
    requires start { world.now ≡ G.start }
    requires workers { workers ≡ G.workers }
    ensures { IfOk result (IsBookOf G.plan G.start G.workers) }
{
    let floor: Floor<'a, G> = Floor::new(rt.alloc(), plan, world, workers)?;
    let seats = work_all(rt, &floor, workers, gate)?;
    Ok(floor.close(seats)?)
}

/// The seats of workers who have worked, each in a thread of its own.
fn work_all<'a, G: Ground + Send + Sync, R: AllocGlobal + Threads + Wait + Sync>(
    rt: &R,
    floor: &Floor<'a, G>,
    workers: u32,
    gate: &Failures,
) -> Result<Vec<Seat<'a, G>>> {
    let ends = thread::map_indices(
        rt,
        rt.alloc(),
        workers as usize,
        &move |worker| { work_at(rt, floor, worker as u32, gate) },
    )?;
    let mut seats = Vec::new(rt.alloc());
    for end in ends {
        seats.push(end?)?;
    }
    Ok(seats)
}

/// The seat of a worker who has worked.
fn work_at<'a, G: Ground, R: AllocGlobal + Wait>(
    rt: &R,
    floor: &Floor<'a, G>,
    worker: u32,
    gate: &Failures,
) -> Result<Seat<'a, G>, SeatFault> {
    let seat = floor.seat(rt, rt.alloc(), worker)?;
    Ok(work(rt, rt.alloc(), floor, seat, gate).seat)
}

/// Prints what each test of a book's plan came to.
fn print_tests<R: Print>(rt: &R, book: &Book<'_>) -> Result<()> {
    let plan = book.plan();
    for node in 0..plan.len() {
        if plan.is_test(node)
            && let Some(outcome) = book.outcome(node)
        {
            let verdict = match outcome.verdict {
                ViewVerdict::Pass => "pass",
                ViewVerdict::Skipped(_) => "skipped",
                _ => "fail",
            };
            println!(rt; "{}: {verdict}", plan.name(node))?;
        }
    }
    Ok(())
}
