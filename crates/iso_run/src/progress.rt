//! How far a run has come, shown on a terminal while it goes on.

use crate::counts::{Counts, Line};
use std::alloc::Global;
use std::fmt;
use std::io::Eprint;
use std::rt::Clock;
use std::sync::{Arc, Condvar, Mutex, Wait};
use std::thread::{Builder, JoinHandle, Threads};
use std::time::Duration;

/// How many milliseconds pass before anything is shown.
const FIRST_PAUSE: u64 = 200;

/// For how many milliseconds at least what is shown stands.
const PAUSE: u64 = 100;

/// The stack of the thread that shows, in bytes.
const STACK: usize = 1 << 18;

/// Where a run shows how far it has come, or doesn't.
pub(crate) trait Progress {
    /// Where it is counted how far the run has come, if that is shown.
    fn counts(&self) -> Option<&Counts>;

    /// The run has ended. What was shown is cleared, and nothing more is shown.
    fn ends(&mut self);
}

/// Nowhere.
#[derive(Drop)]
pub(crate) struct Unshown;

impl Progress for Unshown {
    fn counts(&self) -> Option<&Counts> {
        None
    }

    fn ends(&mut self) {}
}

/// A line of a terminal, if it is asked for, which a thread of its own writes over until the run
/// has ended. Where there is no memory or no thread for it nothing is shown, and the run goes on.
/// So it does where the terminal fails.
#[derive(Drop)]
pub(crate) struct Shown<R> {
    rt: R,
    showing: Option<Showing>,
}

impl<R: Threads + Wait> Progress for Shown<R> {
    fn counts(&self) -> Option<&Counts> {
        match &self.showing {
            Some(showing) => Some(&showing.board.counts),
            None => None,
        }
    }

    fn ends(&mut self) {
        if let Some(showing) = self.showing.take() {
            showing.end(&self.rt);
        }
    }
}

/// A line of a terminal for a run that is to begin, if it is asked for.
pub(crate) fn show<
    R: Threads + Wait + Clock + Copy + Send + Drop + 'static,
    T: Eprint + Copy + Send + Drop + 'static,
>(rt: R, alloc: Global, terminal: T, asked: bool) -> Shown<R> {
    let showing = if asked {
        begin_showing(rt, alloc, terminal)
    } else {
        None
    };
    Shown { rt, showing }
}

/// What the thread that shows a run has in common with those that run it.
#[derive(Drop)]
struct Board {
    counts: Counts,
    ended: Mutex<bool>,
    changed: Condvar,
}

impl Board {
    /// Of a run that hasn't begun.
    fn new() -> Board {
        Board {
            counts: Counts::new(),
            ended: Mutex::new(false),
            changed: Condvar::new(),
        }
    }
}

/// A run that is shown.
#[derive(Drop)]
struct Showing {
    board: Arc<Board>,
    thread: JoinHandle<()>,
}

impl Showing {
    /// Has its thread come to an end, and waits for that.
    fn end<R: Threads + Wait>(self, rt: &R) {
        let Showing { board, thread } = self;
        *board.ended.lock(rt) = true;
        board.changed.notify_all();
        thread.join(rt);
    }
}

/// Begins to show a run, if there are memory and a thread for it.
fn begin_showing<
    R: Threads + Wait + Clock + Copy + Send + Drop + 'static,
    T: Eprint + Copy + Send + Drop + 'static,
>(rt: R, alloc: Global, terminal: T) -> Option<Showing> {
    let board = Arc::new(alloc, Board::new()).ok()?;
    let seen = Arc::try_clone(&board).ok()?;
    let thread = Builder::new()
        .stack_size(STACK)
        .spawn(&rt, move || write_over(&rt, &terminal, &*seen))
        .ok()?;
    Some(Showing { board, thread })
}

/// Writes how far a run has come until it has ended, each line over the last, and clears the last
/// one then.
fn write_over<R: Wait + Clock, T: Eprint>(rt: &R, terminal: &T, board: &Board) {
    let mut shown = false;
    let mut pause = FIRST_PAUSE;
    let mut ended = board.ended.lock(rt);
    for _ in rt.forever() {
        if *ended {
            break;
        }
        let (guard, waited) = board
            .changed
            .wait_timeout(rt, ended, Duration::from_millis(pause));
        ended = guard;
        if waited.timed_out() && !*ended {
            shown = write_line(terminal, board.counts.line()) || shown;
            pause = PAUSE;
        }
    }
    if shown {
        let _ = terminal.eprint(CLEARED);
    }
}

/// Writes a line over what stands there, if there is one, and answers whether it did.
fn write_line<T: Eprint>(terminal: &T, line: Option<Line>) -> bool {
    match line {
        Some(line) => terminal.eprint(Over(line)).is_ok(),
        None => false,
    }
}

/// Goes back to the line's beginning, and clears it.
const CLEARED: &str = "\r\x1b[K";

/// A line over what stood there.
#[derive(Clone, Copy)]
struct Over(Line);

impl fmt::Display for Over {
    fn fmt<W: fmt::Write>(&self, f: &mut fmt::Formatter<W>) -> fmt::Result {
        write!(f, "\r{}\x1b[K", self.0)
    }
}
