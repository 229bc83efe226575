//! Which nodes of a new suite agree with their namesakes in the old one.
ghost use Rattle.std.specs.Prelude.{◌≡◌, ◌<◌, IfOk, length};
ghost use Rattle.std.specs.List.{All};
ghost use Rattle.iso_affected.specs.Fates.{AreFates, IsFate, IsNode, gone, suites};
ghost use Rattle.iso_affected.specs.NameTables.{FindChildren};
ghost use Rattle.iso_plan.specs.Paths.{parent};
ghost use Rattle.iso_plan.specs.RowView.{tree_of};

use crate::namesake::{names, namesake_in, namesakes};
use crate::own::own_agree;
use crate::starts::Starts;
use iso_plan::laws;
use iso_plan::plan::Plan;
use iso_settings::world::World;
use std::alloc::{AllocError, Global};
use std::collections::BTreeMap;

/// What a change makes of a node of the new suite. Its namesake in the old one is told by its
/// number.
#[derive(Clone, Copy, PartialEq, Eq)]
pub enum Fate {
    /// It agrees with its namesake, and so has the same outcome.
    Same(u32),
    /// It doesn't agree with its namesake.
    Changed(u32),
    /// It has no namesake.
    New,
}

/// The fate of each node of the new suite by its number, that of the root among them.
pub fn fates(
    alloc: Global,
    old: &Plan,
    before: &World,
    new: &Plan,
    after: &World,
) -> Result<Vec<Fate>, AllocError>
    ensures count { IfOk result (λ fates. length fates.items ≡ length new.now.rows) }
    ensures fates { IfOk result
        (λ fates. AreFates (suites old.now before.now new.now after.now) fates.items) }
{
    laws::nodes_are_a_tree(old);
    laws::nodes_are_a_tree(new);
    let names = names(alloc, old)?;
    let mut starts = Starts::new(alloc, before, after);
    let mut fates = Vec::with_capacity(alloc, new.len() as usize)?;
    fates.push(Fate::Same(0))?;
    'nodes: for node in 1..new.len() {
        let class = new.parent(node).unwrap_or(0);
        let above = fates[class as usize];
        let fate = fate_in(alloc, old, &names, new, &mut starts, node, above)?;
        fates.push(fate)?;
    }
    Ok(fates)
}

/// The fate of a node, from that of its parent.
fn fate_in(
    alloc: Global,
    old: &Plan,
    names: &[BTreeMap<&str, u32>],
    new: &Plan,
    starts: &mut Starts<'_>,
    node: u32,
    above: Fate,
) -> Result<Fate, AllocError>
    requires above { 0 < node }
    requires within { node < length new.now.rows }
    requires class { IsFate (suites old.now starts.old.before new.now starts.old.after)
        (parent (tree_of new.now) node) above }
    requires names { FindChildren (tree_of old.now) names.now }
    ensures fate { IfOk result
        (IsFate (suites old.now starts.old.before new.now starts.old.after) node) }
    ensures same { starts.new ≡ starts.old }
{
    laws::nodes_are_a_tree(old);
    laws::nodes_are_a_tree(new);
    match above {
        Fate::Same(class) => match namesake_in(old, names, class, new, node) {
            Some(namesake) if own_agree(alloc, old, namesake, new, node, starts)? => {
                Ok(Fate::Same(namesake))
            }
            Some(namesake) => Ok(Fate::Changed(namesake)),
            None => Ok(Fate::New),
        },
        Fate::Changed(class) => match namesake_in(old, names, class, new, node) {
            Some(namesake) => Ok(Fate::Changed(namesake)),
            None => Ok(Fate::New),
        },
        Fate::New => Ok(Fate::New),
    }
}

/// The nodes of the old suite that have no namesake in the new one, in order.
pub fn gone(alloc: Global, old: &Plan, new: &Plan) -> Result<Vec<u32>, AllocError>
    ensures gone { IfOk result (λ v. v.items ≡ gone (tree_of old.now) (tree_of new.now)) }
    ensures nodes { IfOk result (λ v. All (IsNode (tree_of old.now)) v.items) }
{
    let namesakes = namesakes(alloc, new, old)?;
    let mut gone = Vec::new(alloc);
    'nodes: for node in 0..old.len() {
        if namesakes[node as usize].is_none() {
            gone.push(node)?;
        }
    }
    Ok(gone)
}
