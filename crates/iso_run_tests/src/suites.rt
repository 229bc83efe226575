//! Suites that the tests run on.
ghost use Rattle.std.specs.Prelude.{◌≤◌};

use iso_plan::plan::Plan;
use iso_run::inputs::{Inputs, read_inputs};
use iso_settings::world::World;
use std::alloc::Global;
use std::process::Abort;

/// The texts of the settings and of the world that a script is run under.
#[derive(Clone, Copy)]
pub(crate) struct Surroundings {
    pub settings: &'static str,
    pub world: &'static str,
}

/// One thread, and no starting value.
pub(crate) const SERIAL: Surroundings = Surroundings {
    settings: "",
    world: "",
};

/// Two workers, and nodes that are concurrent unless they are marked otherwise.
pub(crate) const TWO_WORKERS: &str = "[junit.jupiter.execution.parallel]
enabled = true
mode.default = \"concurrent\"
config.strategy = \"fixed\"
config.fixed.parallelism = 2
";

/// Two workers, a file and a property.
pub(crate) const CONCURRENT: Surroundings = Surroundings {
    settings: TWO_WORKERS,
    world: "files.a = \"s\"\nproperties.a = \"1\"\n",
};

/// Four concurrent tests on two files.
pub(crate) const TWO_FILES: &str = "team shop
class A { read \"file:a\" test r1 { print file(\"a\"); print \"x\"; } read \"file:a\" test r2 { print file(\"a\"); }
write \"file:a\" test w1 { write_file \"a\", \"n\"; assert_equal \"n\", file(\"a\"); }
write \"file:b\" test w2 { write_file \"b\", \"m\"; print file(\"b\"); } }
";

/// A disabled class, of which no block may run.
pub(crate) const SOON: &str = "team shop
disabled \"soon\" class C { before_all { fail \"no\"; } after_all { fail \"late\"; } test t { } }
";

/// A disabled test beside another.
pub(crate) const LATER: &str = "team shop
class C { before_all { print \"x\"; } disabled \"later\" test t { fail \"no\"; } test u { } }
";

impl Surroundings {
    /// These scripts under them.
    pub(crate) fn inputs<'a>(self, scripts: &'a [&'a [u8]]) -> Inputs<'a>
        ensures { 1 ≤ result.processors }
    {
        Inputs {
            scripts,
            settings: self.settings.as_bytes(),
            world: self.world.as_bytes(),
            only: &[],
            patterns: &[],
            listed: None,
            shard: None,
            processors: 1,
        }
    }
}

/// Asserts what holds, and tells what else there is.
pub(crate) fn expect(rt: &impl Abort, is_so: bool, otherwise: &str) {
    assert!(rt; is_so, "{otherwise}");
}

/// What is asserted of a suite.
pub(crate) trait Check {
    /// Asserts it of the suite's plan and world.
    fn check<R: Abort>(&self, rt: &R, alloc: Global, plan: &Plan, world: &World);
}

/// Checks the suite of inputs that are right.
pub(crate) fn check_inputs<R: Abort, C: Check>(rt: &R, alloc: Global, inputs: Inputs<'_>, check: &C)
    requires { 1 ≤ inputs.processors }
{
    let Ok(suite) = read_inputs(alloc, inputs, false) else {
        panic!(rt; "the scripts weren't planned");
    };
    check.check(rt, alloc, &suite.plan, &suite.world);
}

/// Checks the suite of a script.
pub(crate) fn check_script<R: Abort, C: Check>(
    rt: &R,
    alloc: Global,
    script: &str,
    surroundings: Surroundings,
    check: &C,
) {
    let scripts = [script.as_bytes()];
    check_inputs(rt, alloc, surroundings.inputs(&scripts), check);
}
