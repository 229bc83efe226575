//! Makes public calls that take memory, or promise to take none, and tells what they answered and
//! whether what stands after them is as it should be. It tells on standard error where the call
//! that is named by its word begins and ends, for `tests/growths`, which refuses growths between.
#![tactic(auto)]

mod answer;
mod bodies;
mod books;
mod calls;
mod deques;
mod events;
mod floor;
mod host;
mod plans;
mod results;
mod sink;
mod suites;
mod trays;
mod values;

use crate::answer::Answer;
use crate::calls::Calls;
use crate::host::Host;
use iso_plan::plan::Plan;
use iso_settings::world::World;
use std::env::{self, Env};
use std::io;

/// The calls that the program makes, by their names.
static NAMES: [&str; 54] = [
    "read_settings",
    "read_script",
    "build",
    "read_placed",
    "locate",
    "LineTable::new",
    "the lines of nodes",
    "read_world",
    "read_schedule",
    "World::copy",
    "World::share",
    "Results::new",
    "run_events",
    "Held::apply",
    "Held::mark",
    "HeldNodes::new",
    "Tray::new",
    "Tray::another",
    "Tray::mark",
    "Vault::new",
    "run",
    "Core::new",
    "Core::apply of Enter",
    "Core::apply of Step",
    "Core::apply of Leave",
    "Core::apply of Shut",
    "Book::new",
    "Body::begin",
    "Posts::new",
    "Owner::post",
    "Floor::new",
    "Floor::seat",
    "work",
    "Plan::same",
    "World::same",
    "the answers of Plan",
    "Held::undo_to",
    "Tray::undo",
    "Tray::hand",
    "Vault::lend",
    "Vault::take_back",
    "Body::into_done",
    "Book::enter",
    "Book::leave",
    "Book::shut",
    "Book::stop",
    "Floor::enter",
    "Floor::leave",
    "Floor::shut",
    "Floor::stop",
    "Floor::close",
    "write_report",
    "write_plan",
    "escape",
];

/// Makes all calls.
fn make_all<H: Host>(calls: &Calls<'_, H>) -> Result<(), Answer> {
    deques::post(calls)?;
    values::change_each(calls)?;
    with_plan(calls, &plans::planned(calls)?)
}

/// Makes those that want a plan.
fn with_plan<H: Host>(calls: &Calls<'_, H>, plan: &Plan) -> Result<(), Answer> {
    plans::ask(calls, plan)?;
    plans::find_sites(calls, plan)?;
    with_suite(calls, plan, &plans::world(calls)?)
}

/// Makes those that want a plan and a world.
fn with_suite<H: Host>(calls: &Calls<'_, H>, plan: &Plan, world: &World) -> Result<(), Answer> {
    plans::same(calls, plan, world)?;
    plans::start(calls, world)?;
    trays::lend(calls, plan, world)?;
    results::report(calls, plan, world)?;
    events::take_events(calls, plan, world)?;
    books::keep(calls, plan, world)?;
    floor::do_all(calls, plan, world)
}

/// Makes all calls, tells of those with this name, and says what they came to.
fn tell<H: Host + Print>(rt: &H, name: &str) -> io::Result<()> {
    let text = match make_all(&Calls { rt, asked: name }) {
        Ok(()) => "well",
        Err(Answer::OutOfMemory) => "out of memory",
        Err(Answer::Wrong(text)) => text,
    };
    println!(rt; "{name}: {text}")
}

/// Tells of the calls that the words name, or of each.
fn tell_words<H: Host + Env + Print>(rt: &H) -> io::Result<()> {
    let mut is_asked = false;
    for word in env::args(rt)?.skip(1) {
        tell(rt, word.as_str())?;
        is_asked = true;
    }
    if !is_asked {
        for name in NAMES.as_slice() {
            tell(rt, name)?;
        }
    }
    Ok(())
}

fn main(rt: HostRuntime) -> io::Result<()> {
    tell_words(&rt)
}
