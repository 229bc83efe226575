//! Suites that the tests run on.
use iso_model::script::Script;
use iso_plan::plan::{Plan, build};
use iso_script::reader::read_script;
use iso_settings::settings::read_settings;
use iso_settings::world::{World, read_world};
use std::alloc::Global;
use std::process::Abort;

/// A plan and the world that it is run in.
#[derive(Drop)]
pub(crate) struct Suite {
    pub(crate) plan: Plan,
    pub(crate) world: World,
}

/// Nodes are concurrent unless they are marked otherwise.
const SETTINGS: &str = "[junit.jupiter.execution.parallel]
enabled = true
mode.default = \"concurrent\"
config.strategy = \"fixed\"
config.fixed.parallelism = 2
";

/// Two files and a property.
const WORLD: &str = "files.a = \"s\"\nfiles.b = \"t\"\nproperties.p = \"1\"\n";

/// A class of two tests that may run side by side: a gate is met twice in each.
pub(crate) const A_AND_B: &str = "team shop
class C { test a { print \"1\"; } test b { print \"2\"; } }
";

/// Two tests that write one key, whose bodies have nothing to do: a gate is met once in each.
pub(crate) const RIVALS: &str = "team shop
class C { write \"file:a\" test a { } write \"file:a\" test b { } }
";

/// Two tests that read it.
pub(crate) const READERS: &str = "team shop
class C { read \"file:a\" test a { } read \"file:a\" test b { } }
";

/// A test that is held up by a class, and one after it that is held up by another, whose own test
/// is left in a deque then.
pub(crate) const HELD_UP: &str = "team shop
read \"K\" class C { test c { } }
read \"L\" class D { test d { } }
class A { same_thread write \"K\" test e { } same_thread write \"L\" test f { } }
";

/// How many teams the contended suite has.
const TEAMS: u32 = 6;

/// The classes of each of its teams. One writes a key that all teams write, and sees the file as
/// the run began; one reads it; one takes no key, so that its tests and those of the class in it
/// are for all workers but two, which are for its owner; and one doesn't open.
const CLASSES: &str = "write \"file:a\" class Writer {
  before_all { append_file \"a\", \"+\"; }
  after_all { print file(\"a\"); }
  test a { append_file \"a\", \"1\"; print file(\"a\"); }
  test b { print file(\"a\"); }
}
read \"file:a\" class Reader {
  test a { print file(\"a\"); }
  test b { assert_equal \"s\", file(\"a\"); }
}
class Outer {
  before_all { print \"opened\"; }
  after_all { print \"closed\"; }
  test a { print \"1\"; }
  write \"file:b\" test b { append_file \"b\", \"2\"; print file(\"b\"); }
  class Inner {
    test c { print \"3\"; }
    read \"file:b\" test d { print file(\"b\"); }
    write \"K\" test e { print \"5\"; }
    same_thread test f { fail \"no\"; }
    same_thread test g { print \"7\"; }
  }
}
class Broken {
  before_all { fail \"no\"; }
  test a { print \"1\"; }
  class Inner { test b { print \"2\"; } }
}
";

/// The contended suite's class that runs alone, in a team of its own.
const ALONE: &str = "team alone
isolated write \"file:a\" class Alone {
  test a { write_file \"a\", \"n\"; print file(\"a\"); }
  test b { print file(\"a\"); }
}
";

/// The plan of scripts.
fn plan_of<R: Abort>(rt: &R, alloc: Global, scripts: &[Script]) -> Plan {
    let settings = read_settings(alloc, SETTINGS, 1).expect(rt, "settings");
    build(alloc, scripts, &settings).expect(rt, "a plan")
}

/// The suite of scripts.
fn suite_of<R: Abort>(rt: &R, alloc: Global, scripts: &[Script]) -> Suite {
    Suite {
        plan: plan_of(rt, alloc, scripts),
        world: read_world(alloc, WORLD).expect(rt, "a world"),
    }
}

/// The script of a text.
fn script_of<R: Abort>(rt: &R, alloc: Global, text: &str) -> Script {
    read_script(alloc, text.as_bytes()).expect(rt, "a script")
}

/// The suite of a script.
pub(crate) fn read_suite<R: Abort>(rt: &R, alloc: Global, script: &str) -> Suite {
    suite_of(rt, alloc, &[script_of(rt, alloc, script)])
}

/// The script of a team of the contended suite.
fn team_of<R: Abort>(rt: &R, alloc: Global, team: u32) -> Script {
    let text = format!(in alloc; "team t{team}\n{CLASSES}").expect(rt, "memory");
    script_of(rt, alloc, text.as_str())
}

/// A suite whose nodes get into one another's way.
pub(crate) fn contended<R: Abort>(rt: &R, alloc: Global) -> Suite {
    let mut scripts = Vec::new(alloc);
    for team in 0..TEAMS {
        scripts.push(team_of(rt, alloc, team)).expect(rt, "memory");
    }
    scripts
        .push(script_of(rt, alloc, ALONE))
        .expect(rt, "memory");
    suite_of(rt, alloc, &scripts)
}
