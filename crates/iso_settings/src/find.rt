//! Leaves of a table by their joined keys. A look-up goes once over the members of the tables on
//! the way, and down no further than the key has dots.
ghost use Rattle.std.specs.Prelude.{List, [], ◌++◌};
ghost use Rattle.toml.specs.Data.{Data};
ghost use Rattle.toml.specs.View.{table_view, view};
ghost use Rattle.iso_settings.specs.Leaves.{IsFound, leaves, leaves_at, values_at};

use toml::{Table, Value};

/// What stands at a joined key.
#[derive(Clone, Copy)]
pub enum Found<'a> {
    Nothing,
    One(&'a Value),
    /// The key is reached by two spellings or more.
    Several,
}

impl<'a> Found<'a> {
    /// What stands in both of two places.
    fn and(self, other: Found<'a>) -> Found<'a>
        ensures { (xs ys : List Data) → IsFound self.entry xs → IsFound other.entry ys
            → IsFound result (xs ++ ys) }
    {
        match (self, other) {
            (Found::Nothing, found) | (found, Found::Nothing) => found,
            _ => Found::Several,
        }
    }
}

/// What stands at a joined key of a table.
#[cycle(find)]
pub fn find<'a>(table: &'a Table, key: &str) -> Found<'a>
    ensures { IsFound result (values_at key.now (leaves (table_view table.now))) }
{
    let mut found = Found::Nothing;
    'members: for (name, value) in table.iter() {
        if let Some(rest) = key.strip_prefix(name.as_str()) {
            found = found.and(find_at(value, rest));
        }
    }
    found
}

/// What stands where the rest of a joined key leads from a value.
#[cycle(find)]
fn find_at<'a>(value: &'a Value, rest: &str) -> Found<'a>
    ensures { IsFound result (values_at rest.now (leaves_at [] (view value.now))) }
{
    match value {
        Value::Table(table) => match rest.strip_prefix('.') {
            Some(key) => find(table, key),
            None => Found::Nothing,
        },
        _ if rest.is_empty() => Found::One(value),
        _ => Found::Nothing,
    }
}
