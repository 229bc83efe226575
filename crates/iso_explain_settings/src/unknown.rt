//! Keys of settings that begin as JUnit's do and are none of settings.
ghost use Rattle.std.specs.Prelude.{◌≡◌, IfOk, OnOk, string_bytes};
ghost use Rattle.iso_explain_settings.specs.Unknown.{kept_of, unknown_in, with_key, with_keys};
ghost use Rattle.iso_settings.specs.Leaves.{leaves, leaves_at, leaves_behind};
ghost use Rattle.toml.specs.View.{table_view, view};

use iso_hints::key::is_unknown;
use std::alloc::{AllocError, Global};
use toml::{Table, Value};

/// How many are kept at most.
pub(crate) const KEPT: usize = 10;

/// The first of the keys that are unknown, and how many there are more.
#[derive(Drop)]
pub(crate) struct Unknown {
    pub keys: Vec<String>,
    pub more: u64,
}

/// The unknown keys of a table.
pub(crate) fn unknown_keys(alloc: Global, table: &Table) -> Result<Unknown, AllocError>
    ensures { IfOk result (λ unknown. kept_of unknown
        ≡ unknown_in (leaves (table_view table.now))) }
{
    let mut unknown = Unknown {
        keys: Vec::new(alloc),
        more: 0,
    };
    let mut path = String::new(alloc);
    add_keys(alloc, &mut path, table, &mut unknown)?;
    Ok(unknown)
}

/// Adds the unknown keys of a table whose keys are put behind a path. After an error path and keys
/// are of no use.
#[cycle(keys)]
fn add_keys(
    alloc: Global,
    path: &mut String,
    table: &Table,
    unknown: &mut Unknown,
) -> Result<(), AllocError>
    ensures keys { OnOk result (kept_of unknown.new
        ≡ with_keys (kept_of unknown.old)
        (leaves_behind (string_bytes path.old) (table_view table.now))) }
    ensures path { OnOk result (string_bytes path.new ≡ string_bytes path.old) }
{
    let start = path.as_str().len();
    'members: for (name, value) in table.iter() {
        path.push_str(name.as_str())?;
        add_value(alloc, path, value, unknown)?;
        path.truncate(start);
    }
    Ok(())
}

/// Adds the unknown keys of what stands at a key.
#[cycle(keys)]
fn add_value(
    alloc: Global,
    key: &mut String,
    value: &Value,
    unknown: &mut Unknown,
) -> Result<(), AllocError>
    ensures keys { OnOk result (kept_of unknown.new
        ≡ with_keys (kept_of unknown.old) (leaves_at (string_bytes key.old) (view value.now))) }
    ensures key { OnOk result (string_bytes key.new ≡ string_bytes key.old) }
{
    match value {
        Value::Table(table) => {
            let end = key.as_str().len();
            key.push_str(".")?;
            add_keys(alloc, key, table, unknown)?;
            key.truncate(end);
            Ok(())
        }
        _ => add_key(alloc, key.as_str(), unknown),
    }
}

/// Adds the key of a leaf, if it is unknown. Tables nest up to some 6,500 deep, so what a leaf
/// needs is kept out of the walk's frames.
#[inline(never)]
#[tactic(auto, unfolding(crate::specs::Unknown::with_key, crate::specs::Unknown::with_one))]
fn add_key(alloc: Global, key: &str, unknown: &mut Unknown) -> Result<(), AllocError>
    ensures { OnOk result (kept_of unknown.new ≡ with_key (kept_of unknown.old) key.now) }
{
    if !is_unknown(key) {
        return Ok(());
    }
    if unknown.keys.len() < KEPT {
        unknown.keys.push(String::from_str(alloc, key)?)?;
    } else {
        unknown.more = unknown.more.saturating_add(1);
    }
    Ok(())
}
