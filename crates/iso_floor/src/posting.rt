//! What goes into the deques: what may run beside others, once its class is open.
ghost use Rattle.std.specs.Prelude.{◌≡◌, ◌<◌, OnOk, length};
ghost use Rattle.iso_floor.specs.Postings.{ClosesNone, IsPosted};
ghost use Rattle.iso_floor.specs.Schedulers.{KeepsLines, KeepsPlaces, KeepsSizes, KeepsStands};

use crate::nodes::{children_of, is_concurrent};
use crate::scheduler::Scheduler;
use iso_plan::plan::Plan;
use iso_posts::owner::Owner;
use std::alloc::AllocError;

/// Posts the children of a class that may run beside others, in order.
pub(crate) fn post_children(
    scheduler: &mut Scheduler,
    plan: &Plan,
    class: u32,
    owner: &mut Owner,
) -> Result<(), AllocError>
    ensures sizes { KeepsSizes scheduler.old scheduler.new }
    ensures lines { KeepsLines scheduler.old scheduler.new }
    ensures places { KeepsPlaces scheduler.old scheduler.new }
    ensures keys { scheduler.new.keys ≡ scheduler.old.keys }
    ensures owners { scheduler.new.owners ≡ scheduler.old.owners }
    ensures passed { scheduler.new.passed ≡ scheduler.old.passed }
    ensures left { scheduler.new.left ≡ scheduler.old.left }
    ensures bypassed { scheduler.new.bypassed ≡ scheduler.old.bypassed }
    ensures stands { KeepsStands scheduler.old scheduler.new }
    ensures closes { ClosesNone scheduler.old.table.places scheduler.new.table.places }
    ensures posted { OnOk result (class < length plan.now.rows
        → length scheduler.old.table.places ≡ length plan.now.rows
        → IsPosted plan.now class scheduler.new.table.places) }
{
    let mut posted = false;
    'children: for child in children_of(plan, class) {
        if is_concurrent(plan, *child) {
            if owner.post(*child).is_err() {
                return Err(AllocError);
            }
            scheduler.post(*child);
            posted = true;
        }
    }
    if posted && class > 0 {
        scheduler.count_round();
    }
    Ok(())
}
