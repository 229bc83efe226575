//! What nodes have themselves, besides their enclosing classes, and whether two nodes agree
//! on it.
ghost use Rattle.std.specs.Prelude.{◌≡◌, ◌<◌, ◌↔◌, ◌∷◌, IfOk, IsTrue, List, length};
ghost use Rattle.iso_affected.specs.Agreeing.{OwnAgree};
ghost use Rattle.iso_affected.specs.OwnHeads.{lent_head};
ghost use Rattle.iso_affected.specs.Parts.{body_on, disabled_on, fields_on, lifecycle_on, statics_on};
ghost use Rattle.iso_model.specs.ChainView.{innermost_first};
ghost use Rattle.iso_model.specs.Chains as C;
ghost use Rattle.iso_model.specs.ScriptView.{class_head_of};
ghost use Rattle.iso_model.specs.SyntaxView.{block_of};
ghost use Rattle.iso_plan.specs.Paths.{row_at};
ghost use Rattle.iso_plan.specs.RowView.{tree_of};
ghost use Rattle.iso_suites.specs.PlanSuites.{head_of};
ghost use Rattle.iso_suites.specs.ScriptLanguage.{is_of_test, marks_on, of_class};

use crate::starts::{Starts, start_alike};
use iso_model::heads::{ClassHead, Mark, TestHead, Variable};
use iso_model::place::Lifecycle;
use iso_model::same::heads::{same_class_head, same_test_head};
use iso_model::text::Text;
use iso_model::tree::Stmt;
use iso_plan::laws;
use iso_plan::plan::Plan;
use std::alloc::{AllocError, Global};
use std::sync::Arc;

/// The head of a class or of a test, as its script has it.
#[derive(Clone, Copy)]
pub enum OwnHead<'a> {
    Class(&'a ClassHead),
    Test(&'a TestHead),
}

impl<'a> OwnHead<'a> {
    /// Whether it is a test's.
    pub fn is_test(self) -> bool
        ensures { result ≡ is_of_test (lent_head self.entry) }
    {
        match self {
            OwnHead::Class(_) => false,
            OwnHead::Test(_) => true,
        }
    }

    /// Its marks.
    pub fn marks(self) -> &'a [Mark]
        ensures { result.now ≡ marks_on (lent_head self.entry) }
    {
        match self {
            OwnHead::Class(class) => class.marks.as_slice(),
            OwnHead::Test(test) => test.marks.as_slice(),
        }
    }

    /// Why it is disabled, if it is.
    pub fn disabled(self) -> &'a Option<Text>
        ensures { result.now ≡ disabled_on (lent_head self.entry) }
    {
        match self {
            OwnHead::Class(class) => &class.contents.disabled,
            OwnHead::Test(test) => &test.contents.disabled,
        }
    }

    /// Its statics; a test has none.
    pub fn statics(self) -> &'a [Variable]
        ensures { result.now ≡ statics_on (lent_head self.entry) }
    {
        match self {
            OwnHead::Class(class) => &class.contents.statics,
            OwnHead::Test(_) => &[],
        }
    }

    /// Its fields; a test has none.
    pub fn fields(self) -> &'a [Variable]
        ensures { result.now ≡ fields_on (lent_head self.entry) }
    {
        match self {
            OwnHead::Class(class) => &class.contents.fields,
            OwnHead::Test(_) => &[],
        }
    }

    /// A lifecycle block of a class; a test has none.
    pub fn lifecycle(self, kind: Lifecycle) -> &'a [Stmt]
        ensures { block_of result.now ≡ lifecycle_on kind (lent_head self.entry) }
    {
        match self {
            OwnHead::Class(class) => lifecycle_of(class, kind),
            OwnHead::Test(_) => &[],
        }
    }

    /// The body of a test; a class has none.
    pub fn body(self) -> &'a [Stmt]
        ensures { block_of result.now ≡ body_on (lent_head self.entry) }
    {
        match self {
            OwnHead::Class(_) => &[],
            OwnHead::Test(test) => &test.contents.body,
        }
    }
}

/// A lifecycle block of a class.
fn lifecycle_of(class: &ClassHead, kind: Lifecycle) -> &[Stmt]
    ensures { block_of result.now ≡ lifecycle_on kind (of_class (class_head_of class.now)) }
{
    match kind {
        Lifecycle::BeforeAll => &class.contents.before_all,
        Lifecycle::AfterAll => &class.contents.after_all,
        Lifecycle::BeforeEach => &class.contents.before_each,
        Lifecycle::AfterEach => &class.contents.after_each,
    }
}

/// The head of the innermost class of a chain.
fn innermost(classes: &[Arc<ClassHead>]) -> OwnHead<'_>
    requires { 0 < length classes.now }
    ensures { (c : C.ClassHead) (cs : List C.ClassHead) → innermost_first classes.now ≡ c ∷ cs
        → lent_head result ≡ of_class c }
{
    match classes.last() {
        Some(class) => OwnHead::Class(class),
        None => unreachable!(),
    }
}

/// The head of a node. The node isn't the root.
pub fn own_head(plan: &Plan, node: u32) -> OwnHead<'_>
    requires above { 0 < node }
    requires within { node < length plan.now.rows }
    ensures { lent_head result ≡ head_of (row_at (tree_of plan.now) node).kind }
{
    laws::nodes_are_a_tree(plan);
    let chain = plan.chain(node);
    match chain.test {
        Some(test) => OwnHead::Test(test),
        None => innermost(chain.classes),
    }
}

/// Whether two heads are equal.
fn same_head(was: OwnHead<'_>, now: OwnHead<'_>) -> bool
    ensures { IsTrue result ↔ (lent_head was.entry ≡ lent_head now.entry) }
{
    match (was, now) {
        (OwnHead::Class(one), OwnHead::Class(other)) => same_class_head(one, other),
        (OwnHead::Test(one), OwnHead::Test(other)) => same_test_head(one, other),
        _ => false,
    }
}

/// Whether a node of one plan and a node of another, neither of them the root, have equal heads of
/// their own, and the keys that these are marked with start alike.
pub(crate) fn own_agree(
    alloc: Global,
    old: &Plan,
    node: u32,
    new: &Plan,
    other: u32,
    starts: &mut Starts<'_>,
) -> Result<bool, AllocError>
    requires above { 0 < node }
    requires within { node < length old.now.rows }
    requires further { 0 < other }
    requires inside { other < length new.now.rows }
    ensures agree { IfOk result (λ agree. IsTrue agree ↔ OwnAgree starts.old.before starts.old.after
        (head_of (row_at (tree_of old.now) node).kind)
        (head_of (row_at (tree_of new.now) other).kind)) }
    ensures same { starts.new ≡ starts.old }
{
    let was = own_head(old, node);
    if !same_head(was, own_head(new, other)) {
        return Ok(false);
    }
    start_alike(alloc, starts, was.marks())
}
