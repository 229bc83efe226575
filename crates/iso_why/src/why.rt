//! Why a node has its execution mode.
ghost use Rattle.std.specs.Prelude.{◌≡◌, ◌<◌, IfSome, length};
ghost use Rattle.iso_plan.specs.Paths.{path};
ghost use Rattle.iso_plan.specs.RowView.{tree_of};
ghost use Rattle.iso_why.specs.ModeReasons.{IsKnown, chosen_by, first_written, forced_by, marked_by, reason};

use crate::reach::class_of;
use iso_model::access::Access;
use iso_plan::laws;
use iso_plan::lock::Lock;
use iso_plan::plan::Plan;

/// Why a node has its execution mode.
#[derive(Clone, Copy)]
pub enum Cause {
    /// Parallel execution is off.
    Off,
    /// An enclosing class takes a key for READ_WRITE.
    Forced { class: u32, key: u32 },
    /// It is marked with the mode, or else the nearest enclosing class that is marked
    /// with one.
    Marked { node: u32 },
    /// Neither is, and it is a top-level class, or is none.
    Default { top: bool },
}

/// Why a node has its execution mode. Takes no memory.
pub fn why(plan: &Plan, node: u32) -> Cause
    requires above { 0 < node }
    requires within { node < length plan.now.rows }
    ensures why { result ≡ reason (tree_of plan.now) plan.now.settings node }
    ensures known { IsKnown (tree_of plan.now) result }
{
    if !plan.is_parallel() {
        return Cause::Off;
    }
    laws::parents_come_first(plan);
    let class = class_of(plan, node);
    match forced_by(plan, class) {
        Some(forced) => forced,
        None => chosen_by(plan, node, class == 0),
    }
}

/// The nearest of a class and its enclosing classes that takes a key for READ_WRITE, with the
/// first such key.
fn forced_by(plan: &Plan, class: u32) -> Option<Cause>
    requires { class < length plan.now.rows }
    ensures forced { result ≡ forced_by (tree_of plan.now) (path (tree_of plan.now) class) }
    ensures known { IfSome result (IsKnown (tree_of plan.now)) }
{
    laws::parents_come_first(plan);
    laws::paths_lead_up(plan);
    let mut class = class;
    'up: while class > 0 {
        if let Some(key) = first_written(plan.locks(class)) {
            return Some(Cause::Forced { class, key });
        }
        class = class_of(plan, class);
    }
    None
}

/// The first key of locks that is taken for READ_WRITE.
fn first_written(locks: &[Lock]) -> Option<u32>
    ensures { result ≡ first_written locks.now }
{
    'locks: for lock in locks {
        if lock.access == Access::Write {
            return Some(lock.key);
        }
    }
    None
}

/// Why a node that isn't forced has its mode.
fn chosen_by(plan: &Plan, node: u32, top: bool) -> Cause
    requires { node < length plan.now.rows }
    ensures chosen { result ≡ chosen_by
        (marked_by (tree_of plan.now) (path (tree_of plan.now) node)) top }
    ensures known { IsKnown (tree_of plan.now) result }
{
    match marked_by(plan, node) {
        Some(node) => Cause::Marked { node },
        None => Cause::Default { top },
    }
}

/// The nearest of a node and its enclosing classes that is marked with a mode.
fn marked_by(plan: &Plan, node: u32) -> Option<u32>
    requires { node < length plan.now.rows }
    ensures marked { result ≡ marked_by (tree_of plan.now) (path (tree_of plan.now) node) }
    ensures known { IfSome result (λ m. (0 < m) × (m < length plan.now.rows)) }
{
    laws::parents_come_first(plan);
    laws::paths_lead_up(plan);
    let mut node = node;
    'up: while node > 0 {
        if plan.marked_mode(node).is_some() {
            return Some(node);
        }
        node = class_of(plan, node);
    }
    None
}
