//! What mends what ended a node.
ghost use Rattle.std.specs.Prelude.{◌≡◌, ◌<◌, IfOk, length};
ghost use Rattle.iso_lifecycle.specs.ResultViews.{AreComplete, outcome_in};
ghost use Rattle.iso_plan.specs.RowView.{tree_of};
ghost use Rattle.iso_telling.specs.Explained.{hints_at, hints_told};

use crate::verdict::verdict;
use iso_explain_block::fault::{BlockFault, hints};
use iso_lifecycle::results::Results;
use iso_lifecycle::view::ViewVerdict;
use iso_model::fault::FaultKind;
use iso_model::outcome::Note;
use iso_model::place::Place;
use iso_model::text::Text;
use iso_plan::plan::Plan;
use std::alloc::{AllocError, Global};

/// What mends the fault that ended a node, where this is asked for: a line each, and none where no
/// fault ended it.
pub(crate) fn hints_told(
    alloc: Global,
    plan: &Plan,
    results: &Results<'_>,
    explain: bool,
    node: u32,
) -> Result<Vec<Text>, AllocError>
    requires plan { results.now.plan ≡ plan.now }
    requires complete { AreComplete results.now }
    requires above { 0 < node }
    requires within { node < length plan.now.rows }
    ensures { IfOk result (λ hints. hints.items
        ≡ hints_told explain (tree_of plan.now) (outcome_in results.now) node) }
{
    if !explain {
        return Ok(Vec::new(alloc));
    }
    match verdict(results, node) {
        ViewVerdict::Fault(kind, note) => hints_at(alloc, plan, node, kind, note),
        ViewVerdict::Pass
        | ViewVerdict::Fail(_)
        | ViewVerdict::Skipped(_)
        | ViewVerdict::Blocked(_) => Ok(Vec::new(alloc)),
    }
}

/// What mends a fault of this kind, where it ended a block.
fn hints_at(
    alloc: Global,
    plan: &Plan,
    node: u32,
    kind: FaultKind,
    note: &Note,
) -> Result<Vec<Text>, AllocError>
    requires { node < length plan.now.rows }
    ensures { IfOk result (λ hints. hints.items
        ≡ hints_at (tree_of plan.now) node kind note.now.message note.now.place) }
{
    match note.place {
        Place::Row(block, row) => hints(
            alloc,
            &BlockFault {
                kind,
                message: note.message.as_str(),
                block,
                row,
                chain: plan.chain(node),
                name: plan.name(node),
            },
        ),
        Place::Disabled => Ok(Vec::new(alloc)),
    }
}
