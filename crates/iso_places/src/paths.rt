//! The paths of a plan's nodes.
ghost use Rattle.std.specs.Prelude.{◌≡◌, ◌++◌, ◌==◌, IfOk, codes, cond};
ghost use Rattle.iso_plan.specs.RowView.{tree_of};
ghost use Rattle.iso_plan.specs.TopClasses.{all_paths};

use iso_model::text::Text;
use iso_plan::laws;
use iso_plan::plan::Plan;
use std::alloc::{AllocError, Global};

/// The path of each node of a plan, as `jtap plan` prints it; the root's is empty.
pub fn plan_paths(alloc: Global, plan: &Plan) -> Result<Vec<Text>, AllocError>
    ensures { IfOk result (λ v. v.items ≡ all_paths (tree_of plan.now)) }
{
    laws::nodes_are_a_tree(plan);
    let mut paths = Vec::with_capacity(alloc, plan.len() as usize)?;
    paths.push(Text::new(String::new(alloc)))?;
    'nodes: for node in 1..plan.len() {
        let class = plan.parent(node).unwrap_or(0);
        let path = path_in(alloc, class, &paths[class as usize], plan.name(node))?;
        paths.push(path)?;
    }
    Ok(paths)
}

/// The path of a node of this name that is a child of the class with this number and path, or of
/// the root.
fn path_in(alloc: Global, class: u32, above: &Text, name: &str) -> Result<Text, AllocError>
    ensures { IfOk result (λ t. t ≡ cond (class == 0) name.now
        (above.now ++ (codes "." ++ name.now))) }
{
    if class == 0 {
        return Text::copied(alloc, name);
    }
    let above = above.as_str();
    Ok(Text::new(format!(in alloc; "{above}.{name}")?))
}
