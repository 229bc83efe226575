//! Suites that the tests run on.
ghost use Rattle.std.specs.Prelude.{◌≡◌, true};

use iso_plan::plan::{Plan, build};
use iso_script::reader::read_script;
use iso_settings::settings::read_settings;
use iso_settings::world::{World, read_world};
use std::alloc::Global;
use std::process::Abort;

/// The texts of the settings and of the world that a script is run under.
#[derive(Clone, Copy)]
pub(crate) struct Surroundings {
    pub(crate) settings: &'static str,
    pub(crate) world: &'static str,
}

/// Two workers, and nodes that are concurrent unless they are marked otherwise.
pub(crate) const TWO_WORKERS: &str = "[junit.jupiter.execution.parallel]
enabled = true
mode.default = \"concurrent\"
config.strategy = \"fixed\"
config.fixed.parallelism = 2
";

/// Two workers, a file and a property.
pub(crate) const CONCURRENT: Surroundings = Surroundings {
    settings: TWO_WORKERS,
    world: "files.a = \"s\"\nproperties.a = \"1\"\n",
};

/// What is asserted of a suite.
pub(crate) trait Check {
    /// Asserts it of the suite's plan and world.
    fn check<R: Abort>(&self, rt: &R, alloc: Global, plan: &Plan, world: &World);
}

/// Asserts what a text says.
pub(crate) fn expect<R: Abort>(rt: &R, holds: bool, text: &str)
    ensures { holds ≡ true }
{
    assert!(rt; holds, "{text}");
}

/// The plan of a script under settings.
fn read_plan<R: Abort>(rt: &R, alloc: Global, script: &str, settings: &str) -> Plan {
    let settings = read_settings(alloc, settings, 1).expect(rt, "the settings are read");
    let script = read_script(alloc, script.as_bytes()).expect(rt, "the script is read");
    build(alloc, &[script], &settings).expect(rt, "the script is planned")
}

/// Checks the suite of a script.
pub(crate) fn check_script<R: Abort, C: Check>(
    rt: &R,
    alloc: Global,
    script: &str,
    surroundings: Surroundings,
    check: &C,
) {
    let world = read_world(alloc, surroundings.world).expect(rt, "the world is read");
    let plan = read_plan(rt, alloc, script, surroundings.settings);
    check.check(rt, alloc, &plan, &world);
}
