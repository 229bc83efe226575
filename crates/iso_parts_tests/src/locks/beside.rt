//! Nodes that are lent beside one another, to one tray and to several.
ghost use Rattle.std.specs.Prelude.{◌≡◌, length};
ghost use Rattle.iso_locks.specs.Owners.{CanHold};
ghost use Rattle.iso_locks.specs.Vaults.{CanTakeBack, IsLentTo, lending};
ghost use Rattle.iso_plan.specs.KeyTable.{keys};
ghost use Rattle.iso_plan.specs.RowView.{tree_of};

use crate::locks::suite::{CART_AND_DESK, READERS_AND_WRITERS, Suite};
use iso_locks::laws;
use iso_locks::tray::Tray;
use iso_locks::vault::{Busy, Vault};
use std::alloc::Global;
use std::process::Abort;
use std::test::Fail;

/// Lends a node that no node is in the way of, to a tray that can hold it.
fn lend(rt: &impl Abort, vault: &mut Vault<'_>, tray: &mut Tray<'_>, node: u32)
    requires plan { tray.old.plan ≡ vault.old.plan }
    requires world { tray.old.world ≡ vault.old.world }
    ensures vault { vault.new ≡ lending node vault.old }
    ensures tray { IsLentTo node tray.old tray.new }
    ensures held { CanHold node tray.old }
    ensures back { CanTakeBack node vault.new tray.new }
{
    laws::lent_nodes_may_be_taken_back();
    assert!(rt; node < tray.plan().len());
    assert!(rt; !vault.is_lent(node) && tray.can_hold(node));
    let Ok(()) = vault.lend(node, tray) else {
        panic!(rt; "a node is in the way of {node}");
    };
    assert!(rt; vault.is_lent(node));
}

/// The node that is in the way of another one.
fn in_the_way(rt: &impl Abort, vault: &mut Vault<'_>, tray: &mut Tray<'_>, node: u32) -> u32
    requires plan { tray.old.plan ≡ vault.old.plan }
    requires world { tray.old.world ≡ vault.old.world }
    ensures vault { vault.new ≡ vault.old }
    ensures tray { tray.new ≡ tray.old }
{
    assert!(rt; node < tray.plan().len());
    assert!(rt; !vault.is_lent(node) && tray.can_hold(node));
    let Err(Busy { node: other }) = vault.lend(node, tray) else {
        panic!(rt; "no node is in the way of {node}");
    };
    other
}

/// A class and a test of it are lent to one tray. An isolated class waits for the class, and is
/// lent after both came home.
fn lend_after_two(rt: &impl Abort, vault: &mut Vault<'_>, cart: &mut Tray<'_>, desk: &mut Tray<'_>)
    requires cart_plan { cart.old.plan ≡ vault.old.plan }
    requires cart_world { cart.old.world ≡ vault.old.world }
    requires desk_plan { desk.old.plan ≡ vault.old.plan }
    requires desk_world { desk.old.world ≡ vault.old.world }
{
    laws::other_nodes_may_still_be_taken_back();
    lend(rt, vault, cart, 1);
    lend(rt, vault, cart, 2);
    assert_eq!(rt; in_the_way(rt, vault, desk, 4), 1);
    vault.take_back(2, cart);
    vault.take_back(1, cart);
    lend(rt, vault, desk, 4);
}

/// The same with a vault and trays of a suite. It is lent, and running out of memory ends the test
/// here: what is dropped on each way out makes a proof expensive.
fn check_isolated(rt: &impl Abort, alloc: Global, suite: &Suite) {
    let mut vault = Vault::new(alloc, &suite.plan, &suite.world).expect(rt, "memory");
    let mut cart = Tray::new(alloc, &suite.plan, &suite.world).expect(rt, "memory");
    let mut desk = Tray::new(alloc, &suite.plan, &suite.world).expect(rt, "memory");
    lend_after_two(rt, &mut vault, &mut cart, &mut desk);
}

#[test]
fn isolated_class_is_lent_after_two_nodes_came_home(rt: HostRuntime) -> Result<(), Fail> {
    let suite = Suite::of(rt.alloc(), CART_AND_DESK)?;
    check_isolated(&rt, rt.alloc(), &suite);
    Ok(())
}

/// Two readers have a file in two trays. A writer of it waits in a third, and a writer of another
/// file takes that file's value away.
fn lend_to_three(
    rt: &impl Abort,
    vault: &mut Vault<'_>,
    first: &mut Tray<'_>,
    second: &mut Tray<'_>,
    third: &mut Tray<'_>,
)
    requires keys { length (keys (tree_of vault.old.plan)) ≡ 3 }
    requires first_plan { first.old.plan ≡ vault.old.plan }
    requires first_world { first.old.world ≡ vault.old.world }
    requires second_plan { second.old.plan ≡ vault.old.plan }
    requires second_world { second.old.world ≡ vault.old.world }
    requires third_plan { third.old.plan ≡ vault.old.plan }
    requires third_world { third.old.world ≡ vault.old.world }
{
    lend(rt, vault, first, 2);
    lend(rt, vault, second, 3);
    assert_eq!(rt; in_the_way(rt, vault, third, 4), 2);
    assert!(rt; vault.home(1) && vault.home(2));
    lend(rt, vault, third, 5);
    assert!(rt; vault.home(1) && !vault.home(2));
    vault.take_back(5, third);
    assert!(rt; vault.home(1) && vault.home(2));
}

/// The same with a vault and trays of a suite.
fn check_three(rt: &impl Abort, alloc: Global, suite: &Suite) {
    assert_eq!(rt; suite.plan.key_count(), 3);
    let mut vault = Vault::new(alloc, &suite.plan, &suite.world).expect(rt, "memory");
    let mut first = Tray::new(alloc, &suite.plan, &suite.world).expect(rt, "memory");
    let mut second = Tray::new(alloc, &suite.plan, &suite.world).expect(rt, "memory");
    let mut third = Tray::new(alloc, &suite.plan, &suite.world).expect(rt, "memory");
    lend_to_three(rt, &mut vault, &mut first, &mut second, &mut third);
}

#[test]
fn writer_waits_for_readers_and_takes_its_value_away(rt: HostRuntime) -> Result<(), Fail> {
    let suite = Suite::of(rt.alloc(), READERS_AND_WRITERS)?;
    check_three(&rt, rt.alloc(), &suite);
    Ok(())
}
