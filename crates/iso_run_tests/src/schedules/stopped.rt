//! A stopped run.
use crate::suites::{CONCURRENT, Check, TWO_FILES, check_script};
use iso_plan::plan::Plan;
use iso_settings::world::World;
use iso_standing::event::Event;
use iso_standing::refused::Refused;
use iso_standing::standing::Standing;
use std::alloc::Global;
use std::process::Abort;

/// Whatever else there is to refuse, and where there is nothing.
fn expect_stopped(rt: &impl Abort, standing: &mut Standing<'_>) {
    let enter = Event::Enter { worker: 0, node: 1 };
    assert!(rt; standing.refusal(enter, false).is_none());
    standing.stop();
    for event in [
        enter,
        Event::Enter { worker: 2, node: 9 },
        Event::Step { worker: 0 },
        Event::Leave { worker: 2 },
        Event::Shut { worker: 2, node: 0 },
    ] {
        assert!(rt; standing.refusal(event, true) == Some(Refused::Stopped));
    }
}

/// A new core's standing refuses every event once it was stopped.
struct Stops;

impl Check for Stops {
    fn check<R: Abort>(&self, rt: &R, alloc: Global, plan: &Plan, _world: &World) {
        let mut standing = Standing::new(alloc, plan, 2).expect(rt, "memory");
        expect_stopped(rt, &mut standing);
    }
}

#[test]
fn every_event_is_refused_once_a_run_was_stopped(rt: HostRuntime) {
    check_script(&rt, rt.alloc(), TWO_FILES, CONCURRENT, &Stops);
}
