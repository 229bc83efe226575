//! Hints for what people bring from other languages.
ghost use Rattle.std.specs.Prelude.{◌≡◌, option_map};
ghost use Rattle.iso_hints.specs.Hints.{form_at, hint_at};
ghost use Rattle.iso_hints.specs.Places.{view_of};
ghost use Rattle.iso_hints.specs.Rows.{hint_in};
ghost use Rattle.iso_hints.specs.Tables.{forms, table};

use crate::place::{Place, place_at};
use crate::table::annotations::annotations;
use crate::table::beginnings::beginnings;
use crate::table::calls::calls;
use crate::table::control::control;
use crate::table::ends::ends;
use crate::table::forms::forms;
use crate::table::heads::heads;
use crate::table::members::members;
use crate::table::methods::methods;
use crate::table::modifiers::modifiers;
use crate::table::operators::operators;
use crate::table::parentheses::parentheses;
use crate::table::statements::statements;
use crate::table::symbols::symbols;

/// For a runner of one's own: what mends a mistake in a script, of which a fault stands behind
/// `bytes` bytes, a token that doesn't fit or is none.
pub fn hint(text: &[u8], bytes: usize) -> Option<&'static str>
    ensures { option_map (λ told. told.now) result ≡ hint_at text.now bytes }
{
    let place = place_at(text, bytes);
    hint_for(&place)
}

/// For a runner of one's own: how the statement or head is written that stands before the place
/// behind `bytes` bytes.
pub fn form(text: &[u8], bytes: usize) -> Option<&'static str>
    ensures { option_map (λ told. told.now) result ≡ form_at text.now bytes }
{
    form_for(&place_at(text, bytes))
}

/// What mends a mistake at a place that was found before.
pub fn hint_for(place: &Place<'_>) -> Option<&'static str>
    ensures { option_map (λ told. told.now) result ≡ hint_in table (view_of place.now) }
{
    beginnings(place)
        .or(annotations(place))
        .or(operators(place))
        .or(methods(place))
        .or(symbols(place))
        .or(parentheses(place))
        .or(ends(place))
        .or(modifiers(place))
        .or(members(place))
        .or(heads(place))
        .or(control(place))
        .or(statements(place))
        .or(calls(place))
}

/// How the statement or head is written that stands before a place.
pub fn form_for(place: &Place<'_>) -> Option<&'static str>
    ensures { option_map (λ told. told.now) result ≡ hint_in forms (view_of place.now) }
{
    forms(place)
}
