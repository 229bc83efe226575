//! Trays of a plan, with memory at hand.
use crate::locks::suite::Suite;
use iso_locks::tray::Tray;
use std::alloc::{AllocError, Global};
use std::process::Abort;
use std::test::Fail;

const TWO_WRITERS: &str = "team shop
write \"file:a\" class A { test t { } } write \"file:b\" class B { test u { } }
";

/// Nothing is lent to a tray, and a node can be; nor is after it went back to its mark.
#[tactic(auto, using(iso_locks::proofs::LawLemmas::laws))]
fn holds_nothing(rt: &impl Abort, alloc: Global, tray: &mut Tray<'_>) -> Result<(), AllocError> {
    assert_eq!(rt; tray.plan().len(), 5);
    assert!(rt; !tray.is_flat());
    if tray.plan().len() > 1 {
        assert!(rt; !tray.is_lent(1) && tray.can_hold(1));
        let mark = tray.mark(alloc, 1)?;
        tray.undo(mark);
        assert!(rt; !tray.is_lent(1));
    }
    Ok(())
}

/// A new tray of a suite, which is lent: what is dropped on each way out makes a proof expensive.
fn check_new(rt: &impl Abort, alloc: Global, suite: &Suite) -> Result<(), AllocError> {
    let mut tray = Tray::new(alloc, &suite.plan, &suite.world)?;
    holds_nothing(rt, alloc, &mut tray)
}

#[test]
fn new_tray_holds_nothing(rt: HostRuntime) -> Result<(), Fail> {
    let alloc = rt.alloc();
    let suite = Suite::of(alloc, TWO_WRITERS)?;
    Ok(check_new(&rt, alloc, &suite)?)
}
