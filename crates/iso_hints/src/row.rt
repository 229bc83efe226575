//! Rows of the table of hints.
ghost use Rattle.std.specs.Prelude.{◌≡◌, map, option_map};
ghost use Rattle.iso_hints.specs.Places.{view_of};
ghost use Rattle.iso_hints.specs.Rows.{fits, hint_in, row_of};

use crate::pattern::lies;
use crate::place::Place;
use crate::table::Row;
use crate::token::is_next;

/// The hint of the first of these rows that fits a place.
pub(crate) fn hint_in(rows: &'static [Row], place: &Place<'_>) -> Option<&'static str>
    ensures { option_map (λ told. told.now) result
        ≡ hint_in (map row_of rows.now) (view_of place.now) }
{
    for row in rows {
        if fits(row, place) {
            return Some(row.3);
        }
    }
    None
}

/// Whether a row fits a place.
fn fits(row: &Row, place: &Place<'_>) -> bool
    ensures { result ≡ fits (view_of place.now) (row_of row.now) }
{
    lies(row.0, row.1.as_bytes(), place) && is_next(row.2.as_bytes(), place.rest)
}
