//! How the nodes and keys of a small plan are numbered. What `jtap plan` prints of plans is in
//! `tests/rows`.
use crate::plan::scripts::{concurrent, read};
use iso_plan::plan::{Plan, build};
use std::test::Fail;

const SHOP: &str = "team shop
concurrent read \"K\" class Cart {
    concurrent test a { }
    write \"K\" test b { }
}
class Desk {
    test c { }
    isolated class Till { test d { } }
}
";

/// Whether the nodes of `SHOP` have their children and parents.
fn is_numbered(plan: &Plan) -> bool {
    plan.len() == 8
        && plan.children(0) == [1, 4].as_slice()
        && plan.children(1) == [2, 3].as_slice()
        && plan.children(4) == [5, 6].as_slice()
        && plan.children(7).is_empty()
        && plan.parent(0).is_none()
        && plan.parent(7) == Some(6)
}

/// Whether nodes of `SHOP` have their titles, names and chains.
fn is_named(plan: &Plan) -> bool {
    plan.len() == 8
        && plan.title(1) == "shop.Cart"
        && plan.title(6) == "Till"
        && plan.name(0) == ""
        && plan.chain(7).classes.len() == 2
        && plan.chain(7).test.is_some()
        && plan.chain(6).test.is_none()
}

/// Whether the keys of `SHOP` have their numbers.
fn has_its_keys(plan: &Plan) -> bool {
    plan.key_count() == 2 && plan.key(0) == "iso:global" && plan.key(1) == "K"
}

#[test]
fn tree_and_keys_are_numbered(rt: HostRuntime) -> Result<(), Fail> {
    let plan = build(rt.alloc(), &read(rt.alloc(), &[SHOP])?, &concurrent())?;
    assert!(rt; is_numbered(&plan));
    assert!(rt; is_named(&plan));
    assert!(rt; has_its_keys(&plan));
    Ok(())
}
