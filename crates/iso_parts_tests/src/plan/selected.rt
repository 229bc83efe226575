//! Plans of what some paths name.
use crate::plan::scripts::{concurrent, read};
use iso_model::script::Script;
use iso_plan::fault::{PlanError, PlanFault};
use iso_plan::plan::build_only;
use iso_script::fault::ScriptError;
use iso_script::reader::read_script;
use std::alloc::{AllocError, Global};
use std::process::Abort;
use std::test::Fail;

/// How many nodes and keys the plan of what paths name has.
fn counted(alloc: Global, scripts: &[Script], only: &[&str]) -> Result<(u32, u32), PlanError> {
    let plan = build_only(alloc, scripts, &concurrent(), only)?;
    Ok((plan.len(), plan.key_count()))
}

const SHOP: &str = "team shop
read \"a\" class Cart \"the cart\" {
    read \"b\" test adds \"it adds\" { }
    class Sums { read \"c\" test one { } test two { } }
}
";

const BANK: &str = "team bank
read \"d\" class Cart { read \"a\" test adds { } }
";

/// Paths, and how many nodes with the root and keys with the global one are kept of these scripts.
static COUNTS: [(&[&str], u32, u32); 9] = [
    (&[], 8, 5),
    (&["shop.Cart"], 6, 4),
    (&["shop.Cart.adds"], 3, 3),
    (&["shop.Cart.Sums"], 5, 3),
    (&["shop.Cart.Sums.two"], 4, 2),
    (&["shop.Cart.Sums.two", "shop.Cart.adds"], 5, 3),
    (&["shop.Cart.Sums.two", "shop.Cart.Sums"], 5, 3),
    (&["bank.Cart.adds", "bank.Cart.adds"], 3, 3),
    (&["bank.Cart", "shop.Cart.adds"], 5, 4),
];

/// Asserts the counts of a row.
fn check_counts(
    rt: &impl Abort,
    alloc: Global,
    scripts: &[Script],
    (only, nodes, keys): (&[&str], u32, u32),
) {
    assert_eq!(rt; counted(alloc, scripts, only), Ok((nodes, keys)));
}

#[test]
fn nodes_and_keys_of_what_is_kept_are_numbered(rt: HostRuntime) -> Result<(), ScriptError> {
    let scripts = read(rt.alloc(), &[SHOP, BANK])?;
    for row in &COUNTS {
        check_counts(&rt, rt.alloc(), &scripts, *row);
    }
    Ok(())
}

/// Paths, and which of them is the first that names no node.
static UNKNOWN: [(&[&str], usize); 8] = [
    (&[""], 0),
    (&["shop"], 0),
    (&["Cart"], 0),
    (&["shop.Cart.it adds"], 0),
    (&["shop.Cart", "shop.the cart"], 1),
    (&["bank.Cart.Sums", "shop.none"], 0),
    (&["shop.Cart.", ".shop.Cart"], 0),
    (&["shop.Cart.adds", "bank.Cart", "shop.Cart.adds.", "x"], 2),
];

#[test]
fn first_path_that_names_no_node_is_told(rt: HostRuntime) -> Result<(), ScriptError> {
    let scripts = read(rt.alloc(), &[SHOP, BANK])?;
    for (only, index) in &UNKNOWN {
        let fault = PlanFault::NotSelected(*index);
        assert_eq!(rt;
            counted(rt.alloc(), &scripts, only),
            Err(PlanError::Fault(fault))
        );
    }
    Ok(())
}

/// Asserts the fault of scripts and a path that names no node.
fn check_fault(rt: &impl Abort, alloc: Global, scripts: &[Script], fault: PlanFault) {
    let only = ["shop.none"];
    assert_eq!(rt;
        counted(alloc, scripts, &only),
        Err(PlanError::Fault(fault))
    );
}

#[test]
fn scripts_are_judged_before_paths(rt: HostRuntime) -> Result<(), ScriptError> {
    let alloc = rt.alloc();
    check_fault(
        &rt,
        alloc,
        &read(alloc, &[SHOP; 65])?,
        PlanFault::TooManyScripts,
    );
    check_fault(
        &rt,
        alloc,
        &read(alloc, &[SHOP; 64])?,
        PlanFault::DoubleClass,
    );
    check_fault(
        &rt,
        alloc,
        &read(alloc, &[SHOP, BANK])?,
        PlanFault::NotSelected(0),
    );
    Ok(())
}

/// Paths, and the node with it in the plan of these paths: names alone are looked at, and the root
/// has no path.
static FOUND: [(&str, Option<u32>); 8] = [
    ("bank.Cart", Some(5)),
    ("bank.Cart.adds", Some(6)),
    ("shop.Cart", Some(1)),
    ("shop.Cart.Sums", Some(2)),
    ("shop.Cart.Sums.two", Some(4)),
    ("shop.Cart.adds", None),
    ("shop.the cart", None),
    ("", None),
];

#[test]
fn kept_nodes_are_found_by_their_paths(rt: HostRuntime) -> Result<(), Fail> {
    let alloc = rt.alloc();
    let scripts = read(alloc, &[SHOP, BANK])?;
    let plan = build_only(
        alloc,
        &scripts,
        &concurrent(),
        &["bank.Cart", "shop.Cart.Sums"],
    )?;
    for (path, node) in &FOUND {
        assert_eq!(rt; plan.find(path), *node, "of {path}");
    }
    Ok(())
}

/// The tests of one script.
const TESTS: u32 = 250;

/// A script of one class with `TESTS` tests.
fn wide(alloc: Global, number: u32) -> Result<String, AllocError> {
    let mut text = format!(in alloc; "team shop\nclass C{number} {{\n")?;
    for test in 0..TESTS {
        write!(text, "test t{test} {{ }}\n")?;
    }
    text.push_str("}\n")?;
    Ok(text)
}

/// 64 such scripts.
fn widest(alloc: Global) -> Result<Vec<Script>, ScriptError> {
    let mut scripts = Vec::new(alloc);
    for number in 0..64u32 {
        let text = wide(alloc, number)?;
        scripts.push(read_script(alloc, text.as_bytes())?)?;
    }
    Ok(scripts)
}

/// Classes of which all but the first have 4,016 nodes.
static CLASSES: [&str; 17] = [
    "shop.C0", "shop.C1", "shop.C2", "shop.C3", "shop.C4", "shop.C5", "shop.C6", "shop.C7",
    "shop.C8", "shop.C9", "shop.C10", "shop.C11", "shop.C12", "shop.C13", "shop.C14", "shop.C15",
    "shop.C63",
];

/// As many scripts as there may be, with 16,000 tests: ample memory gives the plan of some 4,000
/// that are kept.
#[test]
fn many_are_left_out(rt: HostRuntime) -> Result<(), ScriptError> {
    let scripts = widest(rt.alloc())?;
    let fault = PlanError::Fault(PlanFault::TooManyNodes);
    assert_eq!(rt; counted(rt.alloc(), &scripts, &[]), Err(fault));
    assert_eq!(rt; counted(rt.alloc(), &scripts, &CLASSES), Err(fault));
    assert_eq!(rt;
        counted(rt.alloc(), &scripts, &CLASSES[1..]),
        Ok((4_017, 1))
    );
    let two = ["shop.C63.t249", "shop.C0.t0"];
    assert_eq!(rt; counted(rt.alloc(), &scripts, &two), Ok((5, 1)));
    Ok(())
}
