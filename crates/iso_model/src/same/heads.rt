ghost use Rattle.std.specs.Prelude.{◌≡◌, ◌↔◌, IsTrue};
ghost use Rattle.iso_model.specs.ScriptView.{class_contents_of, class_head_of, test_contents_of, test_head_of};
ghost use Rattle.iso_model.specs.SyntaxView.{block_of};

use crate::heads::{ClassContents, ClassHead, Mark, TestContents, TestHead, Variable};
use crate::same::expressions::same_data;
use crate::same::statements::same_block;
use crate::text::Text;

/// Whether two marks declare one key with one access and for one target. Takes no memory.
pub fn same_mark(a: &Mark, b: &Mark) -> bool
    ensures { IsTrue result ↔ (a.now ≡ b.now) }
{
    a.access == b.access && a.target == b.target && a.key.as_str() == b.key.as_str()
}

/// Whether two lists of marks declare the same, in the same order. Takes no memory.
pub fn same_marks(a: &[Mark], b: &[Mark]) -> bool
    ensures { IsTrue result ↔ (a.now ≡ b.now) }
{
    if a.len() != b.len() {
        return false;
    }
    'marks: for i in 0..a.len() {
        if !same_mark(&a[i], &b[i]) {
            return false;
        }
    }
    true
}

/// Whether two statics, or two fields, have one name and one literal. Takes no memory.
pub fn same_variable(a: &Variable, b: &Variable) -> bool
    ensures { IsTrue result ↔ (a.now ≡ b.now) }
{
    a.name.as_str() == b.name.as_str() && same_data(&a.value, &b.value)
}

/// Whether two lists of statics, or of fields, are the same, in the same order.
fn same_variables(a: &[Variable], b: &[Variable]) -> bool
    ensures { IsTrue result ↔ (a.now ≡ b.now) }
{
    if a.len() != b.len() {
        return false;
    }
    'variables: for i in 0..a.len() {
        if !same_variable(&a[i], &b[i]) {
            return false;
        }
    }
    true
}

/// Whether two nodes are disabled for one reason, or neither is. Takes no memory.
pub fn same_reason(a: &Option<Text>, b: &Option<Text>) -> bool
    ensures { IsTrue result ↔ (a.now ≡ b.now) }
{
    match (a, b) {
        (None, None) => true,
        (Some(x), Some(y)) => x.as_str() == y.as_str(),
        _ => false,
    }
}

/// Whether two classes declare the same statics and fields, and are disabled for one reason, or
/// neither is.
fn same_declarations(a: &ClassContents, b: &ClassContents) -> bool
    ensures { IsTrue result ↔ ((a.now.statics.items ≡ b.now.statics.items)
        × (a.now.fields.items ≡ b.now.fields.items) × (a.now.disabled ≡ b.now.disabled)) }
{
    same_variables(&a.statics, &b.statics)
        && same_variables(&a.fields, &b.fields)
        && same_reason(&a.disabled, &b.disabled)
}

/// Whether the blocks that run once for two classes say the same.
fn same_all_blocks(a: &ClassContents, b: &ClassContents) -> bool
    ensures { IsTrue result ↔ ((block_of a.now.before_all.items ≡ block_of b.now.before_all.items)
        × (block_of a.now.after_all.items ≡ block_of b.now.after_all.items)) }
{
    same_block(&a.before_all, &b.before_all) && same_block(&a.after_all, &b.after_all)
}

/// Whether the blocks that run for each test of two classes say the same.
fn same_each_blocks(a: &ClassContents, b: &ClassContents) -> bool
    ensures { IsTrue result ↔ ((block_of a.now.before_each.items ≡ block_of b.now.before_each.items)
        × (block_of a.now.after_each.items ≡ block_of b.now.after_each.items)) }
{
    same_block(&a.before_each, &b.before_each) && same_block(&a.after_each, &b.after_each)
}

/// Whether the contents of two classes say the same.
fn same_class_contents(a: &ClassContents, b: &ClassContents) -> bool
    ensures { IsTrue result ↔ (class_contents_of a.now ≡ class_contents_of b.now) }
{
    same_declarations(a, b) && same_all_blocks(a, b) && same_each_blocks(a, b)
}

/// Whether the contents of two tests say the same.
fn same_test_contents(a: &TestContents, b: &TestContents) -> bool
    ensures { IsTrue result ↔ (test_contents_of a.now ≡ test_contents_of b.now) }
{
    same_reason(&a.disabled, &b.disabled) && same_block(&a.body, &b.body)
}

/// Whether the heads of two classes say the same. Takes no memory, and goes over both once at most.
pub fn same_class_head(a: &ClassHead, b: &ClassHead) -> bool
    ensures { IsTrue result ↔ (class_head_of a.now ≡ class_head_of b.now) }
{
    same_marks(a.marks.as_slice(), b.marks.as_slice())
        && same_class_contents(&a.contents, &b.contents)
}

/// Whether the heads of two tests say the same. Takes no memory, and goes over both once at most.
pub fn same_test_head(a: &TestHead, b: &TestHead) -> bool
    ensures { IsTrue result ↔ (test_head_of a.now ≡ test_head_of b.now) }
{
    same_marks(a.marks.as_slice(), b.marks.as_slice())
        && same_test_contents(&a.contents, &b.contents)
}
