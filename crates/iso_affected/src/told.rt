//! What is told of the nodes of a new suite.
ghost use Rattle.std.specs.Prelude.{◌≡◌, ◌<◌, IfOk, length};
ghost use Rattle.iso_affected.specs.Fates.{IsFate, AreFates, suites};
ghost use Rattle.iso_affected.specs.Told.{AreDifferences, IsDifferenceOf, tells};
ghost use Rattle.iso_plan.specs.RowView.{tree_of};

use crate::affected::Fate;
use crate::difference::{Difference, what_differs};
use crate::starts::Starts;
use iso_plan::laws;
use iso_plan::plan::Plan;
use iso_settings::world::World;
use std::alloc::{AllocError, Global};

/// What differs of each changed node of the new suite and its namesake, by the node's number, and
/// nothing of another.
pub fn differences(
    alloc: Global,
    old: &Plan,
    before: &World,
    new: &Plan,
    after: &World,
    fates: &[Fate],
) -> Result<Vec<Option<Difference>>, AllocError>
    requires count { length fates.now ≡ length new.now.rows }
    requires fates { AreFates (suites old.now before.now new.now after.now) fates.now }
    ensures count { IfOk result (λ told. length told.items ≡ length new.now.rows) }
    ensures told { IfOk result (λ told. AreDifferences
        (suites old.now before.now new.now after.now) fates.now told.items) }
{
    laws::nodes_are_a_tree(new);
    let mut starts = Starts::new(alloc, before, after);
    let mut told = Vec::with_capacity(alloc, new.len() as usize)?;
    told.push(None)?;
    'nodes: for node in 1..new.len() {
        let difference = difference_of(alloc, old, new, &mut starts, node, fates[node as usize])?;
        told.push(difference)?;
    }
    Ok(told)
}

/// What differs of a node and its namesake, if it is changed.
fn difference_of(
    alloc: Global,
    old: &Plan,
    new: &Plan,
    starts: &mut Starts<'_>,
    node: u32,
    fate: Fate,
) -> Result<Option<Difference>, AllocError>
    requires above { 0 < node }
    requires within { node < length new.now.rows }
    requires fate { IsFate (suites old.now starts.old.before new.now starts.old.after) node fate }
    ensures told { IfOk result
        (IsDifferenceOf (suites old.now starts.old.before new.now starts.old.after) node fate) }
    ensures same { starts.new ≡ starts.old }
{
    laws::nodes_are_a_tree(old);
    laws::nodes_are_a_tree(new);
    match fate {
        Fate::Changed(namesake) => {
            let difference = what_differs(alloc, old, namesake, new, node, starts)?;
            Ok(Some(difference))
        }
        Fate::Same(_) | Fate::New => Ok(None),
    }
}

/// For a runner of one's own: whether something is told to differ of what a node has itself.
pub fn tells(told: &[Option<Difference>], node: u32) -> bool
    requires { node < length told.now }
    ensures { result ≡ tells told.now node }
{
    match told[node as usize] {
        Some(difference) => !difference.is_none(),
        None => false,
    }
}
