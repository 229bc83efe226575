//! The plans of the examples: no two say the same.
use crate::plan::scripts::concurrent;
use crate::same::plans::{is_one_plan, is_same};
use iso_teams::{OPS, ORDERS, SHOP};
use std::alloc::Global;
use std::process::Abort;
use std::test::Fail;

const CART: &str = r#"team shop
class Cart { test adds { } }
"#;

const FAILING: &str = r#"// One test passes and prints, the other fails: the status is 1.
team shop
class Basket {
    test starts_empty {
        print "a basket of 0 items";
        assert_equal 0, 0;
    }
    test holds_two {
        print "two items";
        assert_equal 2, 3;
        print "not reached";
    }
}
"#;

const TWO_CLASSES: &str = r#"team depot
class Doors {
    test open { assert_equal true, true; }
    test shut { print "bang"; print -1; }
}
class Keys {
    test turn { assert_equal "a \"key\"", "a \"key\""; }
}
"#;

static EXAMPLES: [&str; 6] = [CART, FAILING, TWO_CLASSES, SHOP, ORDERS, OPS];

/// The plan at this place says the same as its own alone.
fn check_example(rt: &impl Abort, alloc: Global, place: usize, one: &str) -> Result<(), Fail> {
    for (at, other) in EXAMPLES.iter().enumerate() {
        let found = is_one_plan(alloc, one, other)?;
        assert_eq!(rt; found, at == place, "{place} and {at}");
    }
    Ok(())
}

#[test]
fn no_two_examples_have_one_plan(rt: HostRuntime) -> Result<(), Fail> {
    for (place, one) in EXAMPLES.iter().enumerate() {
        check_example(&rt, rt.alloc(), place, one)?;
    }
    Ok(())
}

/// The teams of the examples, and in another order.
static TEAMS: [&str; 3] = [SHOP, ORDERS, OPS];

static OTHERWISE: [&str; 3] = [ORDERS, SHOP, OPS];

#[test]
fn order_of_teams_is_of_the_plan(rt: HostRuntime) -> Result<(), Fail> {
    let settings = concurrent();
    let teams = (TEAMS.as_slice(), &settings);
    let otherwise = (OTHERWISE.as_slice(), &settings);
    assert!(rt; is_same(rt.alloc(), teams, teams)?);
    assert!(rt; !is_same(rt.alloc(), teams, otherwise)?);
    Ok(())
}
