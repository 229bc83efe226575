//! Trays and the vault.
ghost use Rattle.std.specs.Prelude.{◌≡◌};

use crate::answer::{Answer, expect};
use crate::calls::Calls;
use crate::host::Host;
use iso_locks::laws;
use iso_locks::tray::Tray;
use iso_locks::vault::Vault;
use iso_plan::held_nodes::HeldNodes;
use iso_plan::plan::Plan;
use iso_settings::world::{World, read_world};
use std::alloc::Global;

/// Makes a tray and a vault, lends a class, and takes it back.
pub(crate) fn lend<H: Host>(
    calls: &Calls<'_, H>,
    plan: &Plan,
    world: &World,
) -> Result<(), Answer> {
    over_worlds(calls, plan)?;
    hold_class(calls, plan)?;
    calls.begin("Tray::new");
    let made = Tray::new(calls.alloc(), plan, world);
    calls.end("Tray::new");
    let mut tray = made?;
    make_another(calls, &tray)?;
    with_tray(calls, plan, world, &mut tray)
}

/// Makes another tray over the starting values of one.
fn make_another<H: Host>(calls: &Calls<'_, H>, tray: &Tray<'_>) -> Result<(), Answer> {
    calls.begin("Tray::another");
    let made = tray.another(calls.alloc());
    calls.end("Tray::another");
    made?;
    Ok(())
}

/// Counts the first class among the held nodes of a plan.
fn hold_class<H: Host>(calls: &Calls<'_, H>, plan: &Plan) -> Result<(), Answer> {
    if plan.len() < 2 {
        return Err(Answer::Wrong("no class"));
    }
    calls.begin("HeldNodes::new");
    let made = HeldNodes::new(calls.alloc(), plan);
    calls.end("HeldNodes::new");
    let mut held = made?;
    held.hold(1);
    expect(held.is_held(1), "the class isn't held")
}

/// The names by which trays are made over worlds, and how many properties each world has.
/// `tests/refuse-calls` counts that a tray takes as many growths over each.
static WORLDS: [(&str, u32); 2] = [
    ("Tray::new over an empty world", 0),
    ("Tray::new over 1,000 properties", 1_000),
];

/// Makes a tray over the world of the name that is asked for, if it is one of these.
fn over_worlds<H: Host>(calls: &Calls<'_, H>, plan: &Plan) -> Result<(), Answer> {
    for (name, properties) in WORLDS.as_slice() {
        if calls.asked == *name {
            over_properties(calls, name, plan, *properties)?;
        }
    }
    Ok(())
}

/// Makes a tray over a world of `properties` properties.
fn over_properties<H: Host>(
    calls: &Calls<'_, H>,
    name: &str,
    plan: &Plan,
    properties: u32,
) -> Result<(), Answer> {
    over_world(calls, name, plan, &world_of(calls.alloc(), properties)?)
}

/// Makes a tray over a world, by this name.
fn over_world<H: Host>(
    calls: &Calls<'_, H>,
    name: &str,
    plan: &Plan,
    world: &World,
) -> Result<(), Answer> {
    calls.begin(name);
    let made = Tray::new(calls.alloc(), plan, world);
    calls.end(name);
    made?;
    Ok(())
}

/// The world of `properties` properties.
fn world_of(alloc: Global, properties: u32) -> Result<World, Answer> {
    let mut text = String::new(alloc);
    for number in 0..properties {
        text.push_str(format!(in alloc; "properties.p{number} = \"v\"\n")?.as_str())?;
    }
    Ok(read_world(alloc, text.as_str())?)
}

/// Goes back on a tray, and has a new vault lend to it.
fn with_tray<H: Host>(
    calls: &Calls<'_, H>,
    plan: &Plan,
    world: &World,
    tray: &mut Tray<'_>,
) -> Result<(), Answer>
    requires plan { tray.old.plan ≡ plan.now }
    requires world { tray.old.world ≡ world.now }
{
    go_back(calls, tray)?;
    calls.begin("Vault::new");
    let made = Vault::new(calls.alloc(), plan, world);
    calls.end("Vault::new");
    lend_class(calls, &mut made?, tray)
}

/// Marks the values that the first class may change, and goes back.
#[tactic(auto, using(iso_locks::proofs::LawLemmas::laws))]
fn go_back<H: Host>(calls: &Calls<'_, H>, tray: &mut Tray<'_>) -> Result<(), Answer>
    ensures plan { tray.new.plan ≡ tray.old.plan }
    ensures world { tray.new.world ≡ tray.old.world }
{
    if tray.plan().len() < 2 {
        return Err(Answer::Wrong("no class"));
    }
    calls.begin("Tray::mark");
    let marked = tray.mark(calls.alloc(), 1);
    calls.end("Tray::mark");
    let mark = marked?;
    calls.begin("Tray::undo");
    tray.undo(mark);
    calls.end("Tray::undo");
    Ok(())
}

/// Lends the first class, and takes it back.
fn lend_class<H: Host>(
    calls: &Calls<'_, H>,
    vault: &mut Vault<'_>,
    tray: &mut Tray<'_>,
) -> Result<(), Answer>
    requires plan { tray.old.plan ≡ vault.old.plan }
    requires world { tray.old.world ≡ vault.old.world }
{
    laws::lent_nodes_may_be_taken_back();
    if tray.plan().len() < 2 || vault.is_lent(1) || !tray.can_hold(1) {
        return Err(Answer::Wrong("the class can't be lent"));
    }
    calls.begin("Vault::lend");
    let lent = vault.lend(1, tray);
    calls.end("Vault::lend");
    if lent.is_err() || !vault.is_lent(1) {
        return Err(Answer::Wrong("the class wasn't lent"));
    }
    calls.begin("Vault::take_back");
    vault.take_back(1, tray);
    calls.end("Vault::take_back");
    expect(!vault.is_lent(1), "the class is lent still")
}
