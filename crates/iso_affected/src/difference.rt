//! What differs of what a node and its namesake have themselves.
ghost use Rattle.std.specs.Prelude.{◌≡◌, ◌↔◌, ◌<◌, IfOk, IsFalse, length};
ghost use Rattle.iso_affected.specs.Firsts.{AreRowsApart};
ghost use Rattle.iso_affected.specs.OwnHeads.{lent_head};
ghost use Rattle.iso_affected.specs.Parts.{body_on, lifecycle_on, statements};
ghost use Rattle.iso_affected.specs.Reasons.{AreBlocksApart, AreDeclaredApart, IsDifference};
ghost use Rattle.iso_plan.specs.Paths.{row_at};
ghost use Rattle.iso_plan.specs.RowView.{tree_of};
ghost use Rattle.iso_suites.specs.PlanSuites.{head_of};
ghost use Rattle.iso_suites.specs.ScriptLanguage.{is_of_test};

use crate::firsts::{RowsApart, first_variable, rows_apart};
use crate::own::{OwnHead, own_head};
use crate::starts::{Starts, first_apart};
use iso_model::place::Lifecycle;
use iso_model::same::heads::{same_marks, same_reason};
use iso_plan::plan::Plan;
use std::alloc::{AllocError, Global};

/// What differs of what two heads declare.
#[derive(Clone, Copy, PartialEq, Eq)]
pub struct Declared {
    pub marks: bool,
    /// Whether one is disabled and the other isn't, or both are for other reasons.
    pub disabled: bool,
    /// The first place where their statics differ.
    pub statics: Option<usize>,
    /// The first place where their fields differ.
    pub fields: Option<usize>,
}

/// Where the blocks of two heads differ first.
#[derive(Clone, Copy, PartialEq, Eq)]
pub struct Blocks {
    pub before_all: Option<RowsApart>,
    pub after_all: Option<RowsApart>,
    pub before_each: Option<RowsApart>,
    pub after_each: Option<RowsApart>,
    /// The body of a test.
    pub test: Option<RowsApart>,
}

/// What differs of what a node and its namesake have themselves, besides their enclosing
/// classes.
#[derive(Clone, Copy, PartialEq, Eq)]
pub struct Difference {
    /// One is a test, and the other a class.
    pub kind: bool,
    pub declared: Declared,
    pub blocks: Blocks,
    /// The first of the new node's marks whose key starts with another value, by its place.
    pub start: Option<usize>,
}

impl Declared {
    ghost use Rattle.iso_affected.specs.Reasons.{declares_alike};

    /// Whether nothing differs.
    pub fn is_none(self) -> bool
        ensures { result ≡ declares_alike self }
    {
        !self.marks && !self.disabled && self.statics.is_none() && self.fields.is_none()
    }
}

impl Blocks {
    ghost use Rattle.iso_affected.specs.Reasons.{blocks_alike};

    /// Whether nothing differs.
    pub fn is_none(self) -> bool
        ensures { result ≡ blocks_alike self }
    {
        self.before_all.is_none()
            && self.after_all.is_none()
            && self.before_each.is_none()
            && self.after_each.is_none()
            && self.test.is_none()
    }
}

impl Difference {
    ghost use Rattle.iso_affected.specs.Reasons.{is_nothing};

    /// Whether nothing differs.
    pub fn is_none(self) -> bool
        ensures { result ≡ is_nothing self }
    {
        !self.kind && self.declared.is_none() && self.blocks.is_none() && self.start.is_none()
    }
}

/// What differs of a node of the new suite and one of the old, of what they have themselves.
/// Neither of them is the root. `starts` has the worlds of both.
pub fn what_differs(
    alloc: Global,
    old: &Plan,
    namesake: u32,
    new: &Plan,
    node: u32,
    starts: &mut Starts<'_>,
) -> Result<Difference, AllocError>
    requires above { 0 < namesake }
    requires within { namesake < length old.now.rows }
    requires further { 0 < node }
    requires inside { node < length new.now.rows }
    ensures difference { IfOk result (IsDifference starts.old.before starts.old.after
        (head_of (row_at (tree_of old.now) namesake).kind)
        (head_of (row_at (tree_of new.now) node).kind)) }
    ensures same { starts.new ≡ starts.old }
{
    let was = own_head(old, namesake);
    let now = own_head(new, node);
    Ok(Difference {
        kind: is_other_kind(was, now),
        declared: declared_apart(was, now),
        blocks: blocks_apart(was, now),
        start: first_apart(alloc, starts, now.marks())?,
    })
}

/// Whether of two heads one is a test's and the other a class's.
fn is_other_kind(was: OwnHead<'_>, now: OwnHead<'_>) -> bool
    ensures { IsFalse result
        ↔ (is_of_test (lent_head was.entry) ≡ is_of_test (lent_head now.entry)) }
{
    was.is_test() != now.is_test()
}

/// What differs of what two heads declare.
fn declared_apart(was: OwnHead<'_>, now: OwnHead<'_>) -> Declared
    ensures { AreDeclaredApart (lent_head was.entry) (lent_head now.entry) result }
{
    Declared {
        marks: !same_marks(was.marks(), now.marks()),
        disabled: !same_reason(was.disabled(), now.disabled()),
        statics: first_variable(was.statics(), now.statics()),
        fields: first_variable(was.fields(), now.fields()),
    }
}

/// Where the blocks of two heads differ first.
fn blocks_apart(was: OwnHead<'_>, now: OwnHead<'_>) -> Blocks
    ensures { AreBlocksApart (lent_head was.entry) (lent_head now.entry) result }
{
    Blocks {
        before_all: lifecycle_apart(was, now, Lifecycle::BeforeAll),
        after_all: lifecycle_apart(was, now, Lifecycle::AfterAll),
        before_each: lifecycle_apart(was, now, Lifecycle::BeforeEach),
        after_each: lifecycle_apart(was, now, Lifecycle::AfterEach),
        test: body_apart(was, now),
    }
}

/// Where a lifecycle block of two heads differs first.
fn lifecycle_apart(was: OwnHead<'_>, now: OwnHead<'_>, kind: Lifecycle) -> Option<RowsApart>
    ensures { AreRowsApart (statements (lifecycle_on kind (lent_head was.entry)))
        (statements (lifecycle_on kind (lent_head now.entry))) result }
{
    rows_apart(was.lifecycle(kind), now.lifecycle(kind))
}

/// Where the bodies of two heads differ first.
fn body_apart(was: OwnHead<'_>, now: OwnHead<'_>) -> Option<RowsApart>
    ensures { AreRowsApart (statements (body_on (lent_head was.entry)))
        (statements (body_on (lent_head now.entry))) result }
{
    rows_apart(was.body(), now.body())
}
