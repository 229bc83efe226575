//! Tests that repeat the node before them.
ghost use Rattle.std.specs.Prelude.{◌≡◌, ◌<◌, ℕ, IfOk, IsTrue, false, length, slice_index_or, true};
ghost use Rattle.iso_plan.specs.Paths.{is_test};
ghost use Rattle.iso_plan.specs.Repeated.{AreRepeats, Repeats};
ghost use Rattle.iso_plan.specs.RowView.{kind_of, nodes_in, written_in};

use crate::rights::are_alike;
use crate::row::{Kind, Row};
use std::alloc::{AllocError, Global};

/// For each node whether it repeats the one before it: both are tests of one class, with the same
/// marks written on them. So it takes the same keys, and nothing of it has to be made anew.
pub(crate) fn repeated(alloc: Global, rows: &[Row]) -> Result<Vec<bool>, AllocError>
    ensures { IfOk result (λ v. AreRepeats (nodes_in rows.now) v.items) }
{
    let mut repeated = Vec::with_capacity(alloc, rows.len())?;
    'nodes: for n in 0..rows.len() {
        repeated.push(repeats(rows, n))?;
    }
    Ok(repeated)
}

/// Whether node n repeats the one before it.
pub(crate) fn repeats(rows: &[Row], n: usize) -> bool
    requires { n < length rows.now }
    ensures { IsTrue result → Repeats (nodes_in rows.now) n }
{
    if n < 2 {
        return false;
    }
    is_repeated(&rows[n - 1], &rows[n])
}

/// Whether two nodes are tests of one class, with the same marks written on them.
fn is_repeated(a: &Row, b: &Row) -> bool
    ensures { IsTrue result → ((is_test (kind_of a.now.kind) ≡ true)
        × (is_test (kind_of b.now.kind) ≡ true) × (a.now.parent ≡ b.now.parent)
        × (written_in a.now.extras ≡ written_in b.now.extras)) }
{
    is_test(a) && is_test(b) && are_alike(a, b)
}

/// Whether a node is a test.
pub(crate) fn is_test(row: &Row) -> bool
    ensures { result ≡ is_test (kind_of row.now.kind) }
{
    matches!(row.kind, Kind::Test { .. })
}
