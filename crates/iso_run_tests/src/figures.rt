//! Figures of runs whose bodies are held, each for as long, by a gate that sleeps: no processor is
//! in the way.

use crate::suites::{Surroundings, expect};
use iso_lifecycle::gate::Gate;
use iso_lifecycle::kind::BodyKind;
use iso_run::course::Course;
use iso_run::workers::run_workers;
use iso_tap::memory::MemorySink;
use iso_telling::tells::Tells;
use std::alloc::Global;
use std::process::Abort;
use std::rt::Clock;
use std::sync::Wait;
use std::sync::atomic::{AtomicU64, Ordering};
use std::thread;
use std::thread::Threads;
use std::time::Duration;

/// For how many milliseconds each body is held.
const HELD: u64 = 1_000;

/// A gate that holds a body after its step, while that is measured.
#[derive(Drop)]
struct Holding<'a, C: Clock> {
    clock: &'a C,
    /// The nodes whose bodies are measured, a bit each.
    begun: AtomicU64,
}

impl<'a, C: Clock> Holding<'a, C> {
    fn new(clock: &'a C) -> Holding<'a, C> {
        Holding {
            clock,
            begun: AtomicU64::new(0),
        }
    }
}

/// The bit of a node.
fn bit(node: u32) -> u64 {
    1u64 << (node % 64)
}

impl<C: Clock> Gate for Holding<'_, C> {
    fn at_body(&self, _worker: u32, node: u32) {
        if self.begun.load(Ordering::SeqCst) & bit(node) != 0 {
            let _ = thread::sleep(self.clock, Duration::from_millis(HELD));
        }
    }

    fn begins(&self, _worker: u32, node: u32, _kind: BodyKind) {
        self.begun.fetch_or(bit(node), Ordering::SeqCst);
    }

    fn ends(&self, _worker: u32, node: u32, _kind: BodyKind, _well: bool) {
        self.begun.fetch_and(!bit(node), Ordering::SeqCst);
    }
}

const ONE_WORKER: &str = "[junit.jupiter.execution.parallel]
enabled = true
mode.default = \"concurrent\"
config.strategy = \"fixed\"
config.fixed.parallelism = 1
";

const FOUR_WORKERS: &str = "[junit.jupiter.execution.parallel]
enabled = true
mode.default = \"concurrent\"
config.strategy = \"fixed\"
config.fixed.parallelism = 4
";

/// Two tests that want one key.
const TWO: &str = "team shop
class C { write \"K\" test a { print 1; } write \"K\" test b { print 1; } }
";

/// Eight tests, of which four want one key.
const EIGHT: &str = "team shop
class C {
  write \"K\" test a { print 1; } write \"K\" test b { print 1; } write \"K\" test c { print 1; } write \"K\" test d { print 1; }
  test e { print 1; } test f { print 1; } test g { print 1; } test h { print 1; }
}
";

/// The same without a key.
const FREE: &str = "team shop
class C {
  test a { print 1; } test b { print 1; } test c { print 1; } test d { print 1; }
  test e { print 1; } test f { print 1; } test g { print 1; } test h { print 1; }
}
";

/// Runs a script by held workers, and answers the statistics.
fn stats_of<R: Abort + Clock + Threads + Wait + Sync>(
    rt: &R,
    alloc: Global,
    script: &'static str,
    settings: &'static str,
) -> MemorySink {
    let scripts = [script.as_bytes()];
    let held = Surroundings {
        settings,
        world: "",
    };
    let mut course = Course {
        schedule: None,
        trace: None,
        stats: Some(MemorySink::new(alloc)),
    };
    let mut tells = Tells::nothing();
    let mut sink = MemorySink::new(alloc);
    let gate = Holding::new(rt);
    let ran = run_workers(
        rt,
        alloc,
        held.inputs(&scripts),
        &gate,
        &mut tells,
        &mut course,
        &mut sink,
    );
    expect(rt, ran.is_ok(), "the run fails");
    let Course {
        schedule: _,
        trace: _,
        stats,
    } = course;
    match stats {
        Some(stats) => stats,
        None => MemorySink::new(alloc),
    }
}

/// The digits of the number that stands behind some words in a text, without its point; 0 where
/// there is none. Of a time it is hundredths of a millisecond, in whichever of s and ms it is told.
fn number_behind(text: &[u8], words: &str) -> u64 {
    let words = words.as_bytes();
    let Some(at) = text
        .windows(words.len().max(1))
        .position(|window| window == words)
    else {
        return 0;
    };
    let mut number = 0u64;
    let mut end = at.saturating_add(words.len());
    for byte in text.iter().skip(end) {
        match byte {
            b'0'..=b'9' => {
                number = number
                    .saturating_mul(10)
                    .saturating_add(u64::from(*byte - b'0'));
            }
            b'.' => {}
            _ => break,
        }
        end = end.saturating_add(1);
    }
    match text.get(end.saturating_add(1)) {
        Some(b's') => number.saturating_mul(1_000),
        _ => number,
    }
}

/// Whether a number is another one, or at most a tenth more or less.
fn is_nearly(found: u64, wanted: u64) -> bool {
    let slack = wanted / 10;
    wanted.saturating_sub(slack) <= found && found <= wanted.saturating_add(slack)
}

#[test]
fn held_bodies_are_waited_for_as_long(rt: HostRuntime) {
    let stats = stats_of(&rt, rt.alloc(), TWO, FOUR_WORKERS);
    let waited = number_behind(stats.bytes(), "waited ");
    expect(&rt, is_nearly(waited, HELD * 100), "the waits are others");
    let chain = number_behind(stats.bytes(), "longest chain ");
    expect(
        &rt,
        is_nearly(chain, 2 * HELD * 100),
        "the chain is another",
    );
}

#[test]
fn bounds_are_those_of_runs(rt: HostRuntime) {
    let eight = stats_of(&rt, rt.alloc(), EIGHT, FOUR_WORKERS);
    let free = stats_of(&rt, rt.alloc(), FREE, FOUR_WORKERS);
    let alone = stats_of(&rt, rt.alloc(), EIGHT, ONE_WORKER);
    let alone = number_behind(alone.bytes(), "1 worker, ");
    let took = number_behind(eight.bytes(), "4 workers, ");
    let best = number_behind(eight.bytes(), "at best ");
    expect(
        &rt,
        is_nearly(
            best.min(1_000) * took.min(1_000_000),
            alone.min(1_000_000) * 10,
        ),
        "the bound is another",
    );
    let took = number_behind(free.bytes(), "4 workers, ");
    let without = number_behind(eight.bytes(), "without K ");
    expect(
        &rt,
        is_nearly(
            without.min(1_000) * took.min(1_000_000),
            alone.min(1_000_000) * 10,
        ),
        "the bound without the key is another",
    );
}
