//! Which nodes are told of.
ghost use Rattle.std.specs.Prelude.{◌≡◌, ◌<◌, length};
ghost use Rattle.iso_affected.specs.Listed.{has_statement, is_listed};
ghost use Rattle.iso_model.specs.ScriptView.{class_head_of};
ghost use Rattle.iso_model.specs.SyntaxView.{block_of};
ghost use Rattle.iso_plan.specs.Paths.{row_at};
ghost use Rattle.iso_plan.specs.RowView.{tree_of};
ghost use Rattle.iso_suites.specs.PlanSuites.{head_of};
ghost use Rattle.iso_suites.specs.ScriptLanguage.{of_class};

use crate::own::{OwnHead, own_head};
use iso_model::heads::ClassHead;
use iso_model::tree::Stmt;
use iso_plan::plan::Plan;

/// Whether a block has a statement.
fn has_statement(block: &[Stmt]) -> bool
    ensures { result ≡ has_statement (block_of block.now) }
{
    !block.is_empty()
}

/// Whether a class runs a block of its own.
fn has_own_block(class: &ClassHead) -> bool
    ensures { result ≡ is_listed (of_class (class_head_of class.now)) }
{
    has_statement(&class.contents.before_all) || has_statement(&class.contents.after_all)
}

/// Whether a node is told of: it is a test, or a class with a statement in its `before_all` or its
/// `after_all`. It isn't the root.
pub fn is_listed(plan: &Plan, node: u32) -> bool
    requires above { 0 < node }
    requires within { node < length plan.now.rows }
    ensures { result ≡ is_listed (head_of (row_at (tree_of plan.now) node).kind) }
{
    match own_head(plan, node) {
        OwnHead::Class(class) => has_own_block(class),
        OwnHead::Test(_) => true,
    }
}
