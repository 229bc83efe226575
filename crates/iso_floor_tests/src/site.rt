//! What a test of the floor is played on.
ghost use Rattle.std.specs.Prelude.{◌≡◌};

use crate::suites::read_suite;
use iso_floor::floor::Floor;
use iso_floor::ground::Ground;
use iso_plan::plan::Plan;
use iso_settings::world::World;
use std::alloc::Global;
use std::marker::{Brand, Model, PhantomData};
use std::process::Abort;
use std::sync::Wait;

/// A plan, a world and a number of workers, which are those of a ground.
#[derive(Drop)]
pub(crate) struct Site<'a, G: Ground> {
    plan: &'a Plan,
    world: &'a World,
    workers: u32,
    of: PhantomData<G>,
}

impl<'a, G: Ground> Model for Site<'a, G> {
    ghost use Rattle.std.specs.Prelude.{◌≡◌, ℕ};

    ghost Value = { ℕ };

    ghost view = { λ s. s.workers };

    ghost invariant = { λ s. record {
      plan_is : s.plan.now ≡ G.plan;
      world_is : s.world.now ≡ G.start;
      workers_are : s.workers ≡ G.workers;
    } };
}

impl<'a, G: Ground> Site<'a, G> {
    /// A new floor on it.
    pub(crate) fn floor<R: Abort>(&self, rt: &R, alloc: Global) -> Floor<'a, G> {
        Floor::new(alloc, self.plan, self.world, self.workers).expect(rt, "memory")
    }
}

/// What is done on a floor and asserted of it.
pub(crate) trait Play {
    fn play<G: Ground, R: Abort + Wait>(&self, rt: &R, alloc: Global, site: &Site<'_, G>);
}

/// Plays on a suite, whose ground it is.
fn play_there<G: Ground, R: Abort + Wait, P: Play>(
    rt: &R,
    alloc: Global,
    plan: &Plan,
    world: &World,
    workers: u32,
    play: &P,
)
    requires plan { plan.now ≡ G.plan }
    requires start { world.now ≡ G.start }
    requires workers { workers ≡ G.workers }
{
    let site: Site<'_, G> = Site {
        plan,
        world,
        workers,
        of: PhantomData,
    };
    play.play(rt, alloc, &site);
}

/// Plays on a plan and a world with `workers` workers.
fn play_on<R: Abort + Wait, P: Play>(
    rt: &R,
    alloc: Global,
    plan: &Plan,
    world: &World,
    workers: u32,
    play: &P,
) {
    play_there::<Brand, R, P>(rt, alloc, plan, world, workers, play);
}

/// Plays on the suite of a script with `workers` workers.
pub(crate) fn play_script<R: Abort + Wait, P: Play>(
    rt: &R,
    alloc: Global,
    script: &str,
    workers: u32,
    play: &P,
) {
    let suite = read_suite(rt, alloc, script);
    play_on(rt, alloc, &suite.plan, &suite.world, workers, play);
}
