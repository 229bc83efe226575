//! The blocks of a class chain, and what they see.
ghost use Rattle.std.specs.Prelude.{◌≡◌, ◌-◌, option_map};
ghost use Rattle.iso_explain_block.specs.Blocks.{block_acts, class_at, lifecycle_acts, sees_fields, visible_classes};
ghost use Rattle.iso_explain_block.specs.Variables.{heads_of};
ghost use Rattle.iso_model.specs.ScriptView.{class_head_of, test_head_of};
ghost use Rattle.iso_model.specs.SyntaxView.{block_of};

use iso_model::chain::Chain;
use iso_model::heads::ClassHead;
use iso_model::place::{BlockName, Lifecycle};
use iso_model::tree::Stmt;
use std::sync::Arc;

/// The statements of a block, or none where there is no such block.
pub(crate) fn statements<'a>(chain: Chain<'a>, block: BlockName) -> &'a [Stmt]
    ensures { block_of result.now ≡ block_acts block (heads_of chain.entry.classes.now)
        (option_map (λ t. test_head_of t.now) chain.entry.test) }
{
    match block {
        BlockName::Test => match chain.test {
            Some(head) => &head.contents.body,
            None => &[],
        },
        BlockName::Class(depth, kind) => match class_at(chain.classes, depth) {
            Some(head) => lifecycle(head, kind),
            None => &[],
        },
    }
}

/// The class of a chain that stands at a depth, which is 1 for a top-level one.
fn class_at(classes: &[Arc<ClassHead>], depth: u32) -> Option<&ClassHead>
    ensures { option_map (λ c. class_head_of c.now) result ≡ class_at depth (heads_of classes.now) }
{
    if depth == 0 {
        return None;
    }
    match classes.get(depth as usize - 1) {
        Some(class) => Some(&**class),
        None => None,
    }
}

/// A lifecycle block of a class.
fn lifecycle(head: &ClassHead, kind: Lifecycle) -> &[Stmt]
    ensures { block_of result.now ≡ lifecycle_acts kind (class_head_of head.now) }
{
    match kind {
        Lifecycle::BeforeAll => &head.contents.before_all,
        Lifecycle::AfterAll => &head.contents.after_all,
        Lifecycle::BeforeEach => &head.contents.before_each,
        Lifecycle::AfterEach => &head.contents.after_each,
    }
}

/// The classes of a chain whose names a block sees: its own, and those around it.
pub(crate) fn visible_classes<'a>(
    classes: &'a [Arc<ClassHead>],
    block: BlockName,
) -> &'a [Arc<ClassHead>]
    ensures { heads_of result.now ≡ visible_classes block (heads_of classes.now) }
{
    match block {
        BlockName::Test => classes,
        BlockName::Class(depth, _) => &classes[..(depth as usize).min(classes.len())],
    }
}

/// Whether a block sees fields.
pub(crate) fn sees_fields(block: BlockName) -> bool
    ensures { result ≡ sees_fields block }
{
    match block {
        BlockName::Test
        | BlockName::Class(_, Lifecycle::BeforeEach)
        | BlockName::Class(_, Lifecycle::AfterEach) => true,
        BlockName::Class(_, Lifecycle::BeforeAll) | BlockName::Class(_, Lifecycle::AfterAll) => {
            false
        }
    }
}
