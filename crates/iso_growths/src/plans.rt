//! The suite that the calls are made on, and what its plan and its world answer by borrowing.
ghost use Rattle.std.specs.Prelude.{◌≡◌, ◌<◌, length};
ghost use Rattle.iso_places.specs.LineStarts.{line_starts};

use crate::answer::{Answer, expect};
use crate::calls::Calls;
use crate::host::Host;
use crate::suites::{SCRIPT, SETTINGS, WORLD};
use iso_model::key::Key;
use iso_model::place::Place;
use iso_model::resource_key::ResourceKey;
use iso_model::script::Mode;
use iso_model::text::Text;
use iso_places::end::line_of_end;
use iso_places::lines::LineTable;
use iso_places::locate::locate;
use iso_places::site::Sites;
use iso_plan::plan::{Plan, build};
use iso_script::reader::{read_placed, read_script};
use iso_settings::settings::read_settings;
use iso_settings::world::{World, read_world};

/// The plan of the script.
pub(crate) fn planned<H: Host>(calls: &Calls<'_, H>) -> Result<Plan, Answer> {
    calls.begin("read_settings");
    let settings = read_settings(calls.alloc(), SETTINGS, 1);
    calls.end("read_settings");
    let settings = settings?;
    calls.begin("read_script");
    let script = read_script(calls.alloc(), SCRIPT);
    calls.end("read_script");
    let scripts = [script?];
    calls.begin("build");
    let plan = build(calls.alloc(), &scripts, &settings);
    calls.end("build");
    Ok(plan?)
}

/// Reads the script with its places, and looks where the nodes of its plan stand.
pub(crate) fn find_sites<H: Host>(calls: &Calls<'_, H>, plan: &Plan) -> Result<(), Answer> {
    calls.begin("read_placed");
    let placed = read_placed(calls.alloc(), SCRIPT);
    calls.end("read_placed");
    let placed = placed?;
    let scripts = [placed.script];
    let places = [placed.places];
    calls.begin("locate");
    let sites = locate(calls.alloc(), &scripts, &places, plan);
    calls.end("locate");
    let sites = sites?;
    calls.begin("LineTable::new");
    let table = LineTable::new(calls.alloc(), SCRIPT);
    calls.end("LineTable::new");
    ask_sites(calls, plan, &sites, SCRIPT, &table?)
}

/// Asks for the line of the name of each node: they have some length.
fn ask_sites<H: Host>(
    calls: &Calls<'_, H>,
    plan: &Plan,
    sites: &Sites,
    script: &[u8],
    table: &LineTable,
) -> Result<(), Answer>
    requires { table.now ≡ line_starts script.now }
{
    calls.begin("the lines of nodes");
    let mut length = 0usize;
    for node in 0..plan.len() {
        if let Some(at) = line_of_end(plan, sites, node, Place::Disabled) {
            length = length.saturating_add(table.line(script, at.line).len());
        }
    }
    calls.end("the lines of nodes");
    expect(length > 0, "nodes without lines")
}

/// The world.
pub(crate) fn world<H: Host>(calls: &Calls<'_, H>) -> Result<World, Answer> {
    calls.begin("read_world");
    let world = read_world(calls.alloc(), WORLD);
    calls.end("read_world");
    Ok(world?)
}

/// Takes the value that the properties start with, copied and shared.
pub(crate) fn start<H: Host>(calls: &Calls<'_, H>, world: &World) -> Result<(), Answer> {
    let spelling = Text::copied(calls.alloc(), "java.lang.System.properties")?;
    let properties = Key::new(calls.alloc(), spelling)?;
    calls.begin("World::copy");
    let copied = world.copy(calls.alloc(), &properties);
    calls.end("World::copy");
    copied?;
    let missing = Key::of_file(calls.alloc(), "missing")?;
    calls.begin("World::share");
    let shared = world.share(calls.alloc(), &missing);
    calls.end("World::share");
    shared?;
    Ok(())
}

/// Whether the plan and the world say the same as themselves.
pub(crate) fn same<H: Host>(
    calls: &Calls<'_, H>,
    plan: &Plan,
    world: &World,
) -> Result<(), Answer> {
    calls.begin("Plan::same");
    let same_plan = plan.same(plan);
    calls.end("Plan::same");
    calls.begin("World::same");
    let same_world = world.same(world);
    calls.end("World::same");
    expect(same_plan && same_world, "another plan or world")
}

/// Asks a plan of each node and key: their answers have some length.
pub(crate) fn ask<H: Host>(calls: &Calls<'_, H>, plan: &Plan) -> Result<(), Answer> {
    calls.begin("the answers of Plan");
    let mut length = plan.depth();
    for node in 0..plan.len() {
        length = length.saturating_add(length_of(plan, node));
    }
    for key in 0..plan.key_count() {
        length = length.saturating_add(plan.key(key).len());
    }
    calls.end("the answers of Plan");
    expect(length > 0, "a plan without answers")
}

/// How long the answers about a node are, and how many of the others are yes.
fn length_of(plan: &Plan, node: u32) -> usize
    requires { node < length plan.now.rows }
{
    let chain = plan.chain(node);
    let may_change = plan.rights(node).access_of(ResourceKey::Properties);
    let lengths = [
        chain.classes.len(),
        plan.children(node).len(),
        plan.locks(node).len(),
        plan.title(node).len(),
        plan.name(node).len(),
        usize::from(chain.test.is_some() == plan.is_test(node)),
        usize::from(plan.parent(node).is_some()),
        usize::from(plan.locking_node(node).is_some()),
        usize::from(may_change.is_some()),
        usize::from(plan.mode(node) == Mode::Concurrent),
    ];
    let mut sum = 0usize;
    for length in lengths {
        sum = sum.saturating_add(length);
    }
    sum
}
