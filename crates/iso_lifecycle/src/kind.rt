ghost use Rattle.std.specs.Prelude.{◌≡◌, ◌<◌, length, true};
ghost use Rattle.iso_lifecycle.specs.Subjects.{first_kind, is_kind_of};
ghost use Rattle.iso_plan.specs.Paths.{row_at};
ghost use Rattle.iso_plan.specs.RowView.{tree_of};

use iso_plan::laws;
use iso_plan::plan::Plan;

/// Which of its node's bodies a body is: a class has a `before_all` and an `after_all`, a test is
/// one body whole.
#[derive(Clone, Copy)]
pub enum BodyKind {
    BeforeAll,
    Test,
    AfterAll,
}

/// The body with which a node begins: a test's own, or the `before_all` of a class.
pub fn first_kind(plan: &Plan, node: u32) -> BodyKind
    requires { node < length plan.now.rows }
    ensures first { result ≡ first_kind (tree_of plan.now) node }
    ensures fits { 0 < node → is_kind_of result (row_at (tree_of plan.now) node).kind ≡ true }
{
    laws::nodes_are_a_tree(plan);
    if plan.is_test(node) {
        BodyKind::Test
    } else {
        BodyKind::BeforeAll
    }
}
