//! The lines where bodies end.
ghost use Rattle.std.specs.Prelude.{◌≡◌, ◌<◌, length};
ghost use Rattle.iso_places.specs.Ends.{brace_line, end_line, lifecycle_line, line_of_row, node_at_depth, node_of_block};
ghost use Rattle.iso_places.specs.Sites.{site_at};
ghost use Rattle.iso_plan.specs.Paths.{path};
ghost use Rattle.iso_plan.specs.RowView.{tree_of};

use crate::site::{Site, Sites};
use iso_model::place::{BlockName, Lifecycle, Place};
use iso_plan::laws;
use iso_plan::plan::Plan;
use iso_script::place::{BlockLine, BlockLines, LifecycleLines};

/// A line of a script, which is named by its number from 0. Lines count from 1.
#[derive(Clone, Copy, PartialEq, Eq)]
pub struct ScriptLine {
    pub script: u32,
    pub line: u64,
}

/// The line of what a report says of a node: of row R of a block the line R - 1 below its opening
/// brace, of a disabled node that of its name. A block of a class by its depth is that of the
/// node's path which stands there. There is none where nothing is written that the place names.
/// Takes no memory.
pub fn line_of_end(plan: &Plan, sites: &Sites, node: u32, at: Place) -> Option<ScriptLine>
    requires { node < length plan.now.rows }
    ensures { result ≡ end_line (tree_of plan.now) sites.now node at }
{
    match at {
        Place::Row(block, row) => {
            let site = sites.site(node_of_block(plan, node, block)?)?;
            line_of_row(site, block, row)
        }
        Place::Disabled => {
            let site = sites.site(node)?;
            Some(ScriptLine {
                script: site.script,
                line: u64::from(site.place.name.line),
            })
        }
    }
}

/// The line of a row of a block of a node.
fn line_of_row(site: Site, block: BlockName, row: u32) -> Option<ScriptLine>
    ensures { result ≡ line_of_row block row site }
{
    let brace = brace_line(site.place.blocks, block)?;
    Some(ScriptLine {
        script: site.script,
        line: (u64::from(brace) + u64::from(row)).saturating_sub(1),
    })
}

/// The line of the opening brace of a block, if a node with these blocks has it.
fn brace_line(blocks: BlockLines, block: BlockName) -> Option<u32>
    ensures { result ≡ brace_line blocks block }
{
    match (blocks, block) {
        (BlockLines::Test(line), BlockName::Test) => Some(line),
        (BlockLines::Class(lines), BlockName::Class(_, kind)) => lifecycle_line(lines, kind).get(),
        _ => None,
    }
}

/// The line of a kind of lifecycle block.
fn lifecycle_line(lines: LifecycleLines, kind: Lifecycle) -> BlockLine
    ensures { result ≡ lifecycle_line lines kind }
{
    match kind {
        Lifecycle::BeforeAll => lines.before_all,
        Lifecycle::AfterAll => lines.after_all,
        Lifecycle::BeforeEach => lines.before_each,
        Lifecycle::AfterEach => lines.after_each,
    }
}

/// The node of a node's path that has a block.
fn node_of_block(plan: &Plan, node: u32, block: BlockName) -> Option<u32>
    requires { node < length plan.now.rows }
    ensures { result ≡ node_of_block (tree_of plan.now) node block }
{
    match block {
        BlockName::Test => Some(node),
        BlockName::Class(depth, _) => node_at_depth(plan, node, depth),
    }
}

/// The node of a node's path that stands at a depth.
fn node_at_depth(plan: &Plan, node: u32, depth: u32) -> Option<u32>
    requires { node < length plan.now.rows }
    ensures { result ≡ node_at_depth (tree_of plan.now) node depth }
{
    laws::parents_come_first(plan);
    laws::paths_lead_up(plan);
    let below = depth_of(plan, node).checked_sub(depth)?;
    if depth == 0 {
        return None;
    }
    let mut at = node;
    'levels: for _level in 0..below {
        at = plan.parent(at)?;
    }
    Some(at)
}

/// How many nodes a node's path has.
fn depth_of(plan: &Plan, node: u32) -> u32
    requires { node < length plan.now.rows }
    ensures { result ≡ length (path (tree_of plan.now) node) }
{
    laws::parents_come_first(plan);
    laws::paths_lead_up(plan);
    let mut at = node;
    let mut depth = 0;
    'up: while let Some(class) = plan.parent(at) {
        at = class;
        depth += 1;
    }
    depth
}
