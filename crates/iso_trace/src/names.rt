//! The keys of a plan as JSON strings.
ghost use Rattle.std.specs.Prelude.{◌≡◌, ◌++◌, IfOk, [], slice_index_or};
ghost use Rattle.json.specs.Print.{quoted};
ghost use Rattle.iso_plan.specs.RowView.{tree_of};
ghost use Rattle.iso_trace.specs.Names.{AreNames, key_names};

use iso_model::text::Text;
use iso_plan::plan::Plan;
use serde_json::Value;
use std::alloc::{AllocError, Global};

/// What a lock on each key of a plan is called, and a wait for it, as JSON strings.
#[derive(Drop)]
pub struct Names {
    pub locks: Vec<Text>,
    pub waits: Vec<Text>,
}

impl Names {
    /// Those of a plan.
    pub fn new(alloc: Global, plan: &Plan) -> Result<Names, AllocError>
        ensures { IfOk result (λ n. AreNames (tree_of plan.now) n.locks.items n.waits.items) }
    {
        let locks = key_names(alloc, plan, "lock ")?;
        let waits = key_names(alloc, plan, "wait ")?;
        Ok(Names { locks, waits })
    }
}

/// Each key behind a text, as a JSON string.
fn key_names(alloc: Global, plan: &Plan, before: &str) -> Result<Vec<Text>, AllocError>
    ensures { IfOk result (λ v. v.items ≡ key_names (tree_of plan.now) before.now) }
{
    let mut names = Vec::new(alloc);
    'keys: for number in 0..plan.key_count() {
        names.push(key_name(alloc, before, plan.key(number))?)?;
    }
    Ok(names)
}

/// A key behind a text, as a JSON string.
fn key_name(alloc: Global, before: &str, key: &str) -> Result<Text, AllocError>
    ensures { IfOk result (λ t. t ≡ quoted (before.now ++ key.now)) }
{
    let text = format!(in alloc; "{before}{key}")?;
    json_string(alloc, text.as_str())
}

/// A text as a JSON string.
fn json_string(alloc: Global, text: &str) -> Result<Text, AllocError>
    ensures { IfOk result (λ t. t ≡ quoted text.now) }
{
    let value = Value::try_from_str(alloc, text)?;
    let string = value.to_string(alloc)?;
    Ok(Text::new(string))
}

/// The name with a number; nothing where there is none.
pub(crate) fn name_at(names: &[Text], number: u32) -> &str
    ensures { result.now ≡ slice_index_or names.now number [] }
{
    match names.get(number as usize) {
        Some(name) => name.as_str(),
        None => "",
    }
}
