//! Plans and worlds that trays and vaults are made for.
use crate::plan::scripts::{concurrent, read};
use iso_plan::plan::{Plan, build};
use iso_settings::world::{World, read_world};
use std::alloc::Global;
use std::test::Fail;

/// Two classes: one that reads a key which a test in it writes, and one that holds an isolated
/// class.
pub(crate) const CART_AND_DESK: &str = "team shop
concurrent read \"K\" class Cart { concurrent test a { } write \"K\" test b { } }
class Desk { test c { } isolated class Till { test d { } } }
";

/// Two readers and a writer of one file, and a writer of another.
pub(crate) const READERS_AND_WRITERS: &str = "team shop
class A { read \"file:a\" test r1 { } read \"file:a\" test r2 { } write \"file:a\" test w1 { } write \"file:b\" test w2 { } }
";

/// What a tray and a vault are made for.
#[derive(Drop)]
pub(crate) struct Suite {
    pub(crate) plan: Plan,
    pub(crate) world: World,
}

impl Suite {
    /// The plan of a script, and the world in which no starting value is given.
    pub(crate) fn of(alloc: Global, script: &str) -> Result<Suite, Fail> {
        let plan = build(alloc, &read(alloc, &[script])?, &concurrent())?;
        let world = read_world(alloc, "")?;
        Ok(Suite { plan, world })
    }
}
