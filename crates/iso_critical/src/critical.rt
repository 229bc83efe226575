//! The critical bodies of a run.
ghost use Rattle.std.specs.Prelude.{◌≡◌, IfOk};
ghost use Rattle.iso_critical.specs.Critical.{critical, is_among, run_of};

use crate::body::Body;
use crate::holders::last_holders;
use crate::marks::marks;
use crate::order::{latest_first, place_of};
use crate::path::path;
use iso_lifecycle::kind::BodyKind;
use iso_plan::laws;
use iso_plan::plan::Plan;
use iso_times::times::Times;
use iso_waits::wait::NodeWait;
use iso_waits::waits::Waits;
use std::alloc::{AllocError, Global};
use std::marker::Model;

/// The critical bodies of a run. Contracts see them from the one that ended last on.
pub struct CriticalBodies {
    bodies: Vec<Body>,
    marks: Vec<bool>,
}

impl Drop for CriticalBodies {
    fn drop(self) {
        let CriticalBodies {
            bodies: _,
            marks: _,
        } = self;
    }
}

impl Model for CriticalBodies {
    ghost use Rattle.iso_critical.specs.declared.body.Body.{Body};
    ghost use Rattle.std.specs.List.{list_any};
    ghost use Rattle.std.specs.Prelude.{◌≡◌, ◌==◌, ℕ, List, false, slice_index_or};

    ghost Value = { List Body };

    ghost view = { λ c. c.bodies.items };

    ghost invariant = { λ c. (i : ℕ) → slice_index_or c.marks.items i false
        ≡ list_any (λ b. b.place == i) c.bodies.items };
}

impl CriticalBodies {
    /// The critical bodies, from the one that ended last on.
    pub fn bodies(&self) -> &[Body]
        ensures { result.now ≡ self.now }
    {
        &self.bodies
    }

    /// Whether a body of a node is critical.
    pub fn has(&self, node: u32, kind: BodyKind) -> bool
        ensures { result ≡ is_among self.now node kind }
    {
        match self.marks.get(place_of(node, kind)) {
            Some(mark) => *mark,
            None => false,
        }
    }
}

/// The critical bodies of a run of this plan, whose bodies had these times and whose nodes these
/// waits: the one that ended last, and from each critical one on the one that ended last of those
/// that had to end before it.
pub fn critical(
    alloc: Global,
    plan: &Plan,
    times: &Times,
    waits: &[NodeWait],
) -> Result<CriticalBodies, AllocError>
    ensures { IfOk result (λ c. c ≡ critical (run_of plan.now times.now waits.now)) }
{
    laws::nodes_are_a_tree(plan);
    let holders = last_holders(alloc, waits, plan.len())?;
    let told = Waits::new(alloc, plan, times)?;
    let ended = latest_first(alloc, times, plan.len())?;
    let bodies = path(alloc, plan, &told, &holders, &ended)?;
    let marks = marks(alloc, &bodies, plan.len() as usize * 2)?;
    Ok(CriticalBodies { bodies, marks })
}
