//! What classes give to their tests.
ghost use Rattle.std.specs.Prelude.{◌≡◌, IfOk};
ghost use Rattle.iso_script.specs.Blocks.{blocks_of};
ghost use Rattle.iso_script.specs.Blocks as B;
ghost use Rattle.iso_model.specs.ScriptView.{class_head_of};
ghost use Rattle.iso_script.specs.Grammar.{class_head, statements_in};
ghost use Rattle.iso_script_statements.specs.Statements.{body_of};

use crate::block::{Block, Blocks};
use iso_model::heads::{ClassContents, ClassHead, Mark, Variable};
use iso_model::shared_list::SharedList;
use iso_model::text::Text;
use iso_model::tree::Stmt;
use std::alloc::{AllocError, Global};
use std::sync::Arc;

/// The head of a class that declares these keys, is disabled for this reason, if for one, and has
/// these statics, fields and lifecycle blocks.
pub(crate) fn class_head(
    alloc: Global,
    marks: Vec<Mark>,
    disabled: Option<Text>,
    statics: Vec<Variable>,
    fields: Vec<Variable>,
    blocks: Blocks,
) -> Result<ClassHead, AllocError>
    ensures { IfOk result (λ h. class_head_of h
        ≡ class_head marks.items disabled
        (record { statics = statics.items; fields = fields.items }) (blocks_of blocks)) }
{
    let contents = ClassContents {
        statics,
        fields,
        disabled,
        before_all: statements(alloc, blocks.before_all),
        after_all: statements(alloc, blocks.after_all),
        before_each: statements(alloc, blocks.before_each),
        after_each: statements(alloc, blocks.after_each),
    };
    Ok(ClassHead {
        marks: SharedList::new(alloc, marks)?,
        contents: Arc::new(alloc, contents)?,
    })
}

/// The statements of a lifecycle block: one that is not written has none.
fn statements(alloc: Global, block: Option<Block>) -> Vec<Stmt>
    ensures { body_of result ≡ statements_in (B.block_if block) }
{
    match block {
        Some(block) => block.body,
        None => Vec::new(alloc),
    }
}
