//! Where blocks differ.
ghost use Rattle.std.specs.Prelude.{◌≡◌, ◌<◌, codes, length};
ghost use Rattle.std.specs.Option.{option_and_then, option_map};
ghost use Rattle.iso_affected_text.specs.Changes.{IsSide, side_of};
ghost use Rattle.iso_affected_text.specs.Rows.{spot_of};
ghost use Rattle.iso_affected_text.specs.Spots.{block_name, file_name, source_at, spot_at, spot_in};
ghost use Rattle.iso_plan.specs.Paths.{path};
ghost use Rattle.iso_plan.specs.RowView.{tree_of};
ghost use Rattle.iso_plan.specs.KeptNodes.{texts_of};

use crate::change::Side;
use crate::row::{Block, Spot};
use iso_model::place::{BlockName, Place};
use iso_places::end::{ScriptLine, line_of_end};
use iso_plan::laws;
use iso_plan::plan::Plan;

/// How the script is called that has no name: it was read from standard input.
const STDIN: &str = "stdin";

/// The line of a row of a block of a node, where both are there.
pub(crate) fn spot<'a>(
    side: &Side<'a>,
    names: &'a [&'a str],
    node: u32,
    block: Block,
    row: Option<u32>,
) -> Option<Spot<'a>>
    requires side { IsSide side.now }
    requires within { node < length side.now.plan.now.rows }
    ensures { option_map spot_of result ≡ option_and_then
        (spot_in (texts_of names.now) (side_of side.now) node block) row }
{
    match row {
        Some(row) => spot_in(side, names, node, block, row),
        None => None,
    }
}

/// The line of a row of a block of a node, where it is there.
fn spot_in<'a>(
    side: &Side<'a>,
    names: &'a [&'a str],
    node: u32,
    block: Block,
    row: u32,
) -> Option<Spot<'a>>
    requires side { IsSide side.now }
    requires within { node < length side.now.plan.now.rows }
    ensures { option_map spot_of result ≡ spot_in (texts_of names.now)
        (side_of side.now) node block row }
{
    let at = Place::Row(block_name(side.plan, node, block), row);
    match line_of_end(side.plan, side.sites, node, at) {
        Some(line) => Some(spot_at(side, names, line)),
        None => None,
    }
}

/// A line with its file and its bytes.
fn spot_at<'a>(side: &Side<'a>, names: &'a [&'a str], line: ScriptLine) -> Spot<'a>
    requires { IsSide side.now }
    ensures { spot_of result ≡ spot_at (texts_of names.now) (side_of side.now) line }
{
    Spot {
        script: line.script,
        file: file_name(names, line.script),
        line: line.line,
        source: source_at(side, line),
    }
}

/// The name of a script by its number.
fn file_name<'a>(names: &'a [&'a str], script: u32) -> &'a str
    ensures { result.now ≡ file_name (texts_of names.now) script }
{
    names.get(script as usize).copied().unwrap_or(STDIN)
}

/// The bytes of a line.
fn source_at<'a>(side: &Side<'a>, line: ScriptLine) -> &'a [u8]
    requires { IsSide side.now }
    ensures { result.now ≡ source_at (texts_of side.now.texts.now) line }
{
    let script = line.script as usize;
    if script >= side.texts.len() {
        return &[];
    }
    side.tables[script].line(side.texts[script], line.line)
}

/// The words by which a place names a block of a node.
fn block_name(plan: &Plan, node: u32, block: Block) -> BlockName
    requires { node < length plan.now.rows }
    ensures { result ≡ block_name (tree_of plan.now) node block }
{
    match block {
        Block::Test => BlockName::Test,
        Block::Class(kind) => BlockName::Class(depth_of(plan, node), kind),
    }
}

/// How many nodes a node's path has.
fn depth_of(plan: &Plan, node: u32) -> u32
    requires { node < length plan.now.rows }
    ensures { result ≡ length (path (tree_of plan.now) node) }
{
    laws::parents_come_first(plan);
    laws::paths_lead_up(plan);
    let mut at = node;
    let mut depth = 0;
    'up: while let Some(class) = plan.parent(at) {
        at = class;
        depth += 1;
    }
    depth
}
