//! The limits of a plan, and its faults.
use crate::plan::scripts::{concurrent, read};
use iso_model::script::Script;
use iso_plan::fault::{PlanError, PlanFault};
use iso_plan::plan::build;
use iso_script::fault::ScriptError;
use iso_script::reader::read_script;
use std::alloc::{AllocError, Global};
use std::process::Abort;

/// How many nodes the plan of scripts has.
fn planned(alloc: Global, scripts: &[Script]) -> Result<u32, PlanError> {
    Ok(build(alloc, scripts, &concurrent())?.len())
}

/// The plan of these scripts has `nodes` nodes.
fn check_planned(rt: &impl Abort, alloc: Global, scripts: &[Script], nodes: u32) {
    assert_eq!(rt; planned(alloc, scripts), Ok(nodes));
}

/// These scripts have no plan, for this reason.
fn check_refused(rt: &impl Abort, alloc: Global, scripts: &[Script], fault: PlanFault) {
    assert_eq!(rt; planned(alloc, scripts), Err(PlanError::Fault(fault)));
}

/// A script of one class with `tests` tests. Each test has one of `keys` keys for itself, where
/// there are some.
fn large(alloc: Global, tests: u32, keys: u32) -> Result<String, AllocError> {
    let mut text = String::from_str(alloc, "team shop\nclass Large {\n")?;
    for number in 0..tests {
        if keys > 0 {
            let key = number % keys;
            text.push_str(format!(in alloc; "write \"k{key}\" ")?.as_str())?;
        }
        text.push_str(format!(in alloc; "test t{number} {{ }}\n")?.as_str())?;
    }
    text.push_str("}\n")?;
    Ok(text)
}

/// One such script.
fn one_large(alloc: Global, tests: u32, keys: u32) -> Result<Vec<Script>, ScriptError> {
    let text = large(alloc, tests, keys)?;
    read(alloc, &[text.as_str()])
}

/// `count` scripts of one team, each with a class of its own.
fn many(alloc: Global, count: u32) -> Result<Vec<Script>, ScriptError> {
    let mut scripts = Vec::new(alloc);
    for number in 0..count {
        let text = format!(in alloc; "team shop\nclass C{number} {{ test t {{ }} }}\n")?;
        scripts.push(read_script(alloc, text.as_bytes())?)?;
    }
    Ok(scripts)
}

#[test]
fn node_4096_is_the_last(rt: HostRuntime) -> Result<(), ScriptError> {
    let alloc = rt.alloc();
    check_planned(&rt, alloc, &one_large(alloc, 4_094, 0)?, 4_096);
    check_refused(
        &rt,
        alloc,
        &one_large(alloc, 4_095, 0)?,
        PlanFault::TooManyNodes,
    );
    Ok(())
}

#[test]
fn declared_key_255_is_the_last(rt: HostRuntime) -> Result<(), ScriptError> {
    let alloc = rt.alloc();
    check_planned(&rt, alloc, &one_large(alloc, 300, 255)?, 302);
    check_refused(
        &rt,
        alloc,
        &one_large(alloc, 300, 256)?,
        PlanFault::TooManyKeys,
    );
    Ok(())
}

/// All limits reached at once: ample memory gives a plan.
#[test]
fn largest_plan_is_made(rt: HostRuntime) -> Result<(), ScriptError> {
    let text = large(rt.alloc(), 3_968, 255)?;
    let mut scripts = many(rt.alloc(), 63)?;
    scripts.push(read_script(rt.alloc(), text.as_bytes())?)?;
    check_planned(&rt, rt.alloc(), &scripts, 4_096);
    Ok(())
}

#[test]
fn script_64_is_the_last(rt: HostRuntime) -> Result<(), ScriptError> {
    let mut scripts = many(rt.alloc(), 64)?;
    check_planned(&rt, rt.alloc(), &scripts, 129);
    scripts.push(read_script(rt.alloc(), OF_SHOP.as_bytes())?)?;
    check_refused(&rt, rt.alloc(), &scripts, PlanFault::TooManyScripts);
    Ok(())
}

const OF_SHOP: &str = "team shop\nclass C { test t { } }\n";

const OF_BANK: &str = "team bank\nclass C { test t { } }\n";

#[test]
fn class_of_one_team_stands_once(rt: HostRuntime) -> Result<(), ScriptError> {
    let alloc = rt.alloc();
    check_planned(&rt, alloc, &read(alloc, &[OF_SHOP, OF_BANK])?, 5);
    let three = read(alloc, &[OF_SHOP, OF_BANK, OF_SHOP])?;
    check_refused(&rt, alloc, &three, PlanFault::DoubleClass);
    Ok(())
}
