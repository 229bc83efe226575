//! The times of a plan's nodes.
ghost use Rattle.std.specs.Prelude.{◌<◌, length};

use iso_model::heads::ClassContents;
use iso_plan::plan::Plan;
use iso_times::times::Times;
use std::alloc::{AllocError, Global};

/// How many microseconds the bodies of each node took, as far as they were measured; none at all
/// where they weren't. A node has no time where nothing of it was to be run: it is disabled, or a
/// class without blocks of its own.
pub(crate) fn node_times(
    alloc: Global,
    timed: bool,
    times: &Times,
    plan: &Plan,
) -> Result<Vec<Option<u64>>, AllocError> {
    if !timed {
        return Ok(Vec::new(alloc));
    }
    let mut all = times.by_node(alloc, plan.len())?;
    for node in 0..plan.len() {
        if !has_body(plan, node) {
            if let Some(time) = all.get_mut(node as usize) {
                *time = None;
            }
        }
    }
    Ok(all)
}

/// Whether something of a node is to be run.
fn has_body(plan: &Plan, node: u32) -> bool
    requires { node < length plan.now.rows }
{
    let chain = plan.chain(node);
    match (chain.test, chain.classes.last()) {
        (Some(test), _) => test.contents.disabled.is_none(),
        (None, Some(class)) => has_blocks(&class.contents),
        (None, None) => false,
    }
}

/// Whether a class runs a block of its own.
fn has_blocks(class: &ClassContents) -> bool {
    class.disabled.is_none() && !(class.before_all.is_empty() && class.after_all.is_empty())
}
