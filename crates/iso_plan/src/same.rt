ghost use Rattle.std.specs.Prelude.{◌≡◌, ◌↔◌, IsTrue, map};
ghost use Rattle.iso_plan.specs.RowView.{kind_of, row_of};

use crate::row::{Kind, Row};
use iso_model::same::heads::{same_class_head, same_marks, same_test_head};

/// Whether two nodes are of one kind, with heads that say the same.
fn same_kind(a: &Kind, b: &Kind) -> bool
    ensures { IsTrue result ↔ (kind_of a.now ≡ kind_of b.now) }
{
    match (a, b) {
        (Kind::Root, Kind::Root) => true,
        (
            Kind::Class {
                isolated: x,
                head: f,
            },
            Kind::Class {
                isolated: y,
                head: g,
            },
        ) => { x == y && same_class_head(f, g) }
        (Kind::Test { head: f }, Kind::Test { head: g }) => same_test_head(f, g),
        _ => false,
    }
}

/// Whether two nodes are children of one class, under one name and title, with one mark of the
/// execution mode.
fn same_place(a: &Row, b: &Row) -> bool
    ensures { IsTrue result ↔ ((a.now.parent ≡ b.now.parent) × (a.now.mode ≡ b.now.mode)
        × (a.now.name ≡ b.now.name) × ((row_of a.now).title ≡ (row_of b.now).title)) }
{
    a.parent == b.parent
        && a.mode == b.mode
        && a.name.as_str() == b.name.as_str()
        && a.title() == b.title()
}

/// Whether two nodes say the same.
fn same_row(a: &Row, b: &Row) -> bool
    ensures { IsTrue result ↔ (row_of a.now ≡ row_of b.now) }
{
    same_place(a, b) && same_marks(a.written(), b.written()) && same_kind(&a.kind, &b.kind)
}

/// Whether two lists of nodes say the same.
pub(crate) fn same_rows(a: &[Row], b: &[Row]) -> bool
    ensures { IsTrue result ↔ (map row_of a.now ≡ map row_of b.now) }
{
    if a.len() != b.len() {
        return false;
    }
    'rows: for i in 0..a.len() {
        if !same_row(&a[i], &b[i]) {
            return false;
        }
    }
    true
}
