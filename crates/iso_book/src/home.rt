//! Whether a tray is the book's.
ghost use Rattle.std.specs.Prelude.{◌≡◌, ◌<◌, ◌&&◌, length, not, true};
ghost use Rattle.iso_book.specs.Turns.{has_around, holds_writers};
ghost use Rattle.iso_locks.specs.Owners.{CanHold};
ghost use Rattle.iso_locks.specs.Trays.{is_lent};
ghost use Rattle.iso_plan.specs.Locks.{takes_write};
ghost use Rattle.iso_plan.specs.Paths.{parent, path};
ghost use Rattle.iso_plan.specs.RowView.{tree_of};

use iso_locks::tray::Tray;
use iso_plan::laws;

/// Whether a node that waits may be entered with a tray of the book's plan and starting values.
pub(crate) fn enters_with(tray: &Tray<'_>, node: u32) -> bool
    requires inner { 0 < node }
    requires node { node < length tray.now.plan.rows }
    ensures holds { result ≡ true → (has_around tray.now node ≡ true) × CanHold node tray.now }
    ensures refuses { (has_around tray.now node ≡ true) × CanHold node tray.now → result ≡ true }
{
    has_around(tray, node) && tray.can_hold(node)
}

/// Whether a node that was entered goes on with a tray of the book's plan and starting values.
pub(crate) fn goes_on_with(tray: &Tray<'_>, node: u32) -> bool
    requires inner { 0 < node }
    requires node { node < length tray.now.plan.rows }
    ensures { result ≡ (has_around tray.now node && is_lent tray.now.lent node) }
{
    has_around(tray, node) && tray.is_lent(node)
}

/// Whether a tray has what is around a node.
fn has_around(tray: &Tray<'_>, node: u32) -> bool
    requires inner { 0 < node }
    requires node { node < length tray.now.plan.rows }
    ensures { result ≡ has_around tray.now node }
{
    !tray.is_flat() && holds_writers(tray, node)
}

/// Whether what the classes around a node take for READ_WRITE is lent to a tray. It goes up the
/// node's path.
fn holds_writers(tray: &Tray<'_>, node: u32) -> bool
    requires inner { 0 < node }
    requires node { node < length tray.now.plan.rows }
    ensures { result ≡ holds_writers tray.now
        (path (tree_of tray.now.plan) (parent (tree_of tray.now.plan) node)) }
{
    let plan = tray.plan();
    laws::nodes_are_a_tree(plan);
    let mut at = plan.parent(node).unwrap_or(0);
    'up: while at > 0 {
        if is_missing(tray, at) {
            return false;
        }
        at = plan.parent(at).unwrap_or(0);
    }
    true
}

/// Whether a class takes a key for READ_WRITE and isn't lent to a tray.
fn is_missing(tray: &Tray<'_>, class: u32) -> bool
    requires { class < length tray.now.plan.rows }
    ensures { result ≡ (takes_write (tree_of tray.now.plan) class
        && not (is_lent tray.now.lent class)) }
{
    !tray.is_lent(class) && tray.plan().is_writer(class)
}
