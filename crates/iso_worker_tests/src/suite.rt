//! Runs of a script's suite on one thread.
use iso_lifecycle::gate::Gate;
use iso_model::script::Script;
use iso_plan::plan::{Plan, build};
use iso_script::reader::read_script;
use iso_serial::run::run_at;
use iso_settings::settings::read_settings;
use iso_settings::world::{World, read_world};
use std::alloc::Global;
use std::process::Abort;

/// The script of a text.
fn script_of<R: Abort>(rt: &R, alloc: Global, text: &str) -> Script {
    read_script(alloc, text.as_bytes()).expect(rt, "a script")
}

/// The plan of scripts.
fn plan_of<R: Abort>(rt: &R, alloc: Global, scripts: &[Script]) -> Plan {
    let settings = read_settings(alloc, "", 1).expect(rt, "settings");
    build(alloc, scripts, &settings).expect(rt, "a plan")
}

/// The plan of a script.
pub(crate) fn read_plan<R: Abort>(rt: &R, alloc: Global, text: &str) -> Plan {
    plan_of(rt, alloc, &[script_of(rt, alloc, text)])
}

/// A world without resources of its own.
fn world<R: Abort>(rt: &R, alloc: Global) -> World {
    read_world(alloc, "").expect(rt, "a world")
}

/// Runs a plan at a gate.
pub(crate) fn run_plan<R: Abort, G: Gate>(rt: &R, alloc: Global, plan: &Plan, gate: &G) {
    let world = world(rt, alloc);
    drop(run_at(alloc, plan, &world, gate).expect(rt, "memory"));
}
