//! The keys of a plan, numbered.
ghost use Rattle.std.specs.Prelude.{◌≡◌, ◌+◌, ◌≤◌, [], IfErr, IfOk, OnOk, length, map};
ghost use Rattle.std.specs.Str.{bytes_eq};
ghost use Rattle.indexmap.specs.IndexSet.{insert_all, keys as set_keys};
ghost use Rattle.iso_model.specs.declared.limits.TheConstants.{KEYS};
ghost use Rattle.iso_plan.specs.Faults.{IsCrowded};
ghost use Rattle.iso_plan.specs.KeyNumbers.{AreNumbers};
ghost use Rattle.iso_plan.specs.KeyTable.{keys, mark_keys, kind_marks};
ghost use Rattle.iso_plan.specs.RowView.{kind_of, nodes_in};

use crate::fault::{PlanError, PlanFault};
use crate::row::{Kind, Row};
use indexmap::IndexSet;
use iso_model::heads::Mark;
use iso_model::key::Key;
use iso_model::key_map::KeyMap;
use iso_model::limits::KEYS;
use iso_model::text::Text;
use std::alloc::{AllocError, Global};

/// The key that no script may declare.
pub(crate) const GLOBAL_KEY: &str = "iso:global";

/// Numbers the keys of nodes in a table, in the order in which they are first marked, the global
/// key first. More than 255 besides it are `TooManyKeys`.
pub(crate) fn number_keys<'a>(
    table: &mut IndexSet<&'a str>,
    rows: &'a [Row],
) -> Result<(), PlanError>
    requires empty { table.old.keys ≡ [] }
    ensures keys { OnOk result (map (λ k. k.now) table.new.keys ≡ keys (nodes_in rows.now)) }
    ensures few { OnOk result (length table.new.keys ≤ KEYS + 1) }
    ensures crowded { IfErr result (IsCrowded (length (keys (nodes_in rows.now)))) }
{
    table.insert(GLOBAL_KEY)?;
    'rows: for row in rows {
        add_marks(table, row.written())?;
    }
    if table.as_slice().len() > KEYS as usize + 1 {
        return Err(PlanError::Fault(PlanFault::TooManyKeys));
    }
    Ok(())
}

/// Adds the keys of marks that aren't there yet.
fn add_marks<'a>(table: &mut IndexSet<&'a str>, marks: &'a [Mark]) -> Result<(), AllocError>
    ensures { OnOk result (map (λ k. k.now) table.new.keys
        ≡ insert_all bytes_eq (map (λ k. k.now) table.old.keys) (mark_keys marks.now)) }
{
    'marks: for mark in marks {
        table.insert(mark.key.as_str())?;
    }
    Ok(())
}

/// The same texts.
pub(crate) fn copied(alloc: Global, keys: &[&str]) -> Result<Vec<Text>, AllocError>
    ensures { IfOk result (λ v. v.items ≡ map (λ k. k.now) keys.now) }
{
    let mut texts = Vec::with_capacity(alloc, keys.len())?;
    'keys: for key in keys {
        texts.push(Text::copied(alloc, *key)?)?;
    }
    Ok(texts)
}

/// The number of each of these keys.
pub(crate) fn numbers(alloc: Global, keys: &[Text]) -> Result<KeyMap<usize>, AllocError>
    ensures { IfOk result (λ m. AreNumbers m keys.now) }
{
    let mut numbers = KeyMap::new(alloc);
    'keys: for number in 0..keys.len() {
        let key = Key::new(alloc, keys[number].copy(alloc)?)?;
        numbers.set(key, number)?;
    }
    Ok(numbers)
}

impl Kind {
    /// The marks of the node's head.
    pub(crate) fn marks(&self) -> &[Mark]
        ensures { result.now ≡ kind_marks (kind_of self.now) }
    {
        match self {
            Kind::Root => &[],
            Kind::Class { head, .. } => head.marks.as_slice(),
            Kind::Test { head } => head.marks.as_slice(),
        }
    }
}
