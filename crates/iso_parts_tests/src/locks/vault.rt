//! The vault of a plan, with memory at hand.
ghost use Rattle.std.specs.Prelude.{◌≡◌, ◌<◌, length};

use crate::locks::suite::{CART_AND_DESK, READERS_AND_WRITERS, Suite};
use iso_locks::laws;
use iso_locks::tray::Tray;
use iso_locks::vault::{Busy, Vault};
use iso_plan::plan::Plan;
use std::alloc::{AllocError, Global};
use std::process::Abort;
use std::test::Fail;

/// What comes of lending a second node beside a first.
#[derive(Debug, Clone, Copy, PartialEq, Eq)]
struct Beside {
    busy: Option<u32>,
    /// How many values are away while the first is lent, and while both are.
    away: (u32, u32),
}

/// A script, two nodes, and what comes of lending the second beside the first.
struct Row {
    script: &'static str,
    first: u32,
    second: u32,
    want: Beside,
}

static ROWS: [Row; 7] = [
    Row {
        script: CART_AND_DESK,
        first: 1,
        second: 4,
        want: Beside {
            busy: Some(1),
            away: (1, 1),
        },
    },
    Row {
        script: CART_AND_DESK,
        first: 4,
        second: 1,
        want: Beside {
            busy: Some(4),
            away: (1, 1),
        },
    },
    Row {
        script: READERS_AND_WRITERS,
        first: 2,
        second: 3,
        want: Beside {
            busy: None,
            away: (0, 0),
        },
    },
    Row {
        script: READERS_AND_WRITERS,
        first: 2,
        second: 4,
        want: Beside {
            busy: Some(2),
            away: (0, 0),
        },
    },
    Row {
        script: READERS_AND_WRITERS,
        first: 4,
        second: 2,
        want: Beside {
            busy: Some(4),
            away: (1, 1),
        },
    },
    Row {
        script: READERS_AND_WRITERS,
        first: 2,
        second: 5,
        want: Beside {
            busy: None,
            away: (0, 1),
        },
    },
    Row {
        script: READERS_AND_WRITERS,
        first: 4,
        second: 5,
        want: Beside {
            busy: None,
            away: (1, 2),
        },
    },
];

/// How many values of a plan are away.
fn away(vault: &Vault<'_>, plan: &Plan) -> u32
    requires { vault.now.plan ≡ plan.now }
{
    let mut away = 0;
    for key in 0..plan.key_count() {
        if !vault.home(key) {
            away += 1;
        }
    }
    away
}

/// Lends a node to a tray where none is in the way, and takes it back: what came of that, where
/// `alone` values were away before.
fn lend_second(
    rt: &impl Abort,
    plan: &Plan,
    vault: &mut Vault<'_>,
    tray: &mut Tray<'_>,
    node: u32,
    alone: u32,
) -> Beside
    requires within { node < length plan.now.rows }
    requires plan { vault.old.plan ≡ plan.now }
    requires tray_plan { tray.old.plan ≡ plan.now }
    requires world { tray.old.world ≡ vault.old.world }
    ensures plan { vault.new.plan ≡ plan.now }
    ensures world { vault.new.world ≡ vault.old.world }
{
    laws::lent_nodes_may_be_taken_back();
    assert!(rt; !vault.is_lent(node) && tray.can_hold(node));
    match vault.lend(node, tray) {
        Ok(()) => {
            let both = away(vault, plan);
            assert!(rt; vault.is_lent(node));
            vault.take_back(node, tray);
            Beside {
                busy: None,
                away: (alone, both),
            }
        }
        Err(Busy { node }) => Beside {
            busy: Some(node),
            away: (alone, alone),
        },
    }
}

/// Lends a node to a tray and a second one to another, and takes both back, after which every value
/// is home: what came of the second.
fn lend_both(
    rt: &impl Abort,
    plan: &Plan,
    vault: &mut Vault<'_>,
    here: &mut Tray<'_>,
    there: &mut Tray<'_>,
    first: u32,
    second: u32,
) -> Beside
    requires plan { vault.old.plan ≡ plan.now }
    requires here_plan { here.old.plan ≡ plan.now }
    requires there_plan { there.old.plan ≡ plan.now }
    requires here_world { here.old.world ≡ vault.old.world }
    requires there_world { there.old.world ≡ vault.old.world }
{
    laws::lent_nodes_may_be_taken_back();
    assert!(rt; first < plan.len() && second < plan.len());
    assert!(rt; !vault.is_lent(first) && here.can_hold(first));
    let Ok(()) = vault.lend(first, here) else {
        panic!(rt; "nothing is lent beside the first");
    };
    let alone = away(vault, plan);
    let beside = lend_second(rt, plan, vault, there, second, alone);
    assert!(rt; vault.is_lent(first));
    vault.take_back(first, here);
    assert_eq!(rt; away(vault, plan), 0);
    beside
}

/// Lends the two nodes of a row to two trays.
fn check_row(rt: &impl Abort, alloc: Global, suite: &Suite, row: &Row) {
    let mut vault = Vault::new(alloc, &suite.plan, &suite.world).expect(rt, "memory");
    let mut here = Tray::new(alloc, &suite.plan, &suite.world).expect(rt, "memory");
    let mut there = Tray::new(alloc, &suite.plan, &suite.world).expect(rt, "memory");
    let (first, second) = (row.first, row.second);
    let beside = lend_both(
        rt,
        &suite.plan,
        &mut vault,
        &mut here,
        &mut there,
        first,
        second,
    );
    assert_eq!(rt; beside, row.want, "{second} beside {first}");
}

#[test]
fn conflicting_nodes_wait_and_readers_share(rt: HostRuntime) -> Result<(), Fail> {
    let alloc = rt.alloc();
    for row in &ROWS {
        check_row(&rt, alloc, &Suite::of(alloc, row.script)?, row);
    }
    Ok(())
}

/// Adds a test that writes a key of its own.
fn add_writer(alloc: Global, text: &mut String, number: u32) -> Result<(), AllocError> {
    let writer = format!(in alloc; "write \"k{number}\" test t{number} {{ }}\n")?;
    text.push_str(writer.as_str())
}

/// Adds tests that write as many keys as there may be, but for the global one.
fn add_writers(alloc: Global, text: &mut String) -> Result<(), AllocError> {
    for number in 0..255u32 {
        add_writer(alloc, text, number)?;
    }
    text.push_str("}\n")
}

/// A script with as many keys as there may be.
fn most_keys(alloc: Global) -> Result<String, AllocError> {
    let mut text = String::from_str(alloc, "team shop\nclass Large {\n")?;
    add_writers(alloc, &mut text)?;
    Ok(text)
}

/// The value of each of a suite's 256 keys is home in a new vault, beside two trays.
fn check_home(rt: &impl Abort, alloc: Global, suite: &Suite) {
    assert_eq!(rt; suite.plan.key_count(), 256);
    let vault = Vault::new(alloc, &suite.plan, &suite.world).expect(rt, "memory");
    let tray = Tray::new(alloc, &suite.plan, &suite.world).expect(rt, "memory");
    let _other = tray.another(alloc).expect(rt, "memory");
    assert_eq!(rt; away(&vault, &suite.plan), 0);
}

/// The suite with as many keys as there may be.
fn largest_suite(alloc: Global) -> Result<Suite, Fail> {
    let script = most_keys(alloc)?;
    Suite::of(alloc, script.as_str())
}

#[test]
fn every_value_is_home_in_a_new_vault(rt: HostRuntime) -> Result<(), Fail> {
    let suite = largest_suite(rt.alloc())?;
    check_home(&rt, rt.alloc(), &suite);
    Ok(())
}
