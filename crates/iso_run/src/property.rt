//! Which property of two worlds starts with another value.
ghost use Rattle.std.specs.Prelude.{IfOk, IfSome};
ghost use Rattle.iso_run.specs.Alterations.{StartsOtherwise};

use iso_affected::properties::first_property;
use iso_model::text::Text;
use iso_settings::world::World;
use std::alloc::{AllocError, Global};
use std::collections::BTreeMap;
use toml::{Table, Value};

/// The first property, by its name's bytes, that starts with another value in the second of two
/// worlds, which were read from these bytes.
pub(crate) fn first_apart(
    alloc: Global,
    before: &World,
    before_bytes: &[u8],
    after: &World,
    after_bytes: &[u8],
) -> Result<Option<Text>, AllocError>
    ensures { IfOk result (λ name. IfSome name (StartsOtherwise before.now after.now)) }
{
    let names = property_names(alloc, before_bytes, after_bytes)?;
    match first_property(alloc, before, after, &names)? {
        Some(place) => Ok(Some(Text::copied(alloc, names[place].as_str())?)),
        None => Ok(None),
    }
}

/// The names of the properties of two worlds, in the order of their bytes.
fn property_names(alloc: Global, before: &[u8], after: &[u8]) -> Result<Vec<Text>, AllocError> {
    let was = table_in(alloc, before)?;
    let now = table_in(alloc, after)?;
    let mut known = BTreeMap::new(alloc);
    add_names(&was, &mut known)?;
    add_names(&now, &mut known)?;
    let mut names = Vec::new(alloc);
    for (name, _) in known.iter() {
        names.push(Text::copied(alloc, *name)?)?;
    }
    Ok(names)
}

/// The table of a world that was read before, so that there is no fault but out of memory.
fn table_in(alloc: Global, world: &[u8]) -> Result<Table, AllocError> {
    let Ok(text) = str::from_utf8(world) else {
        return Err(AllocError);
    };
    match toml::table_from_str(alloc, text) {
        Ok(table) => Ok(table),
        Err(_) => Err(AllocError),
    }
}

/// Adds the names of the properties of a world.
fn add_names<'t>(table: &'t Table, names: &mut BTreeMap<&'t str, u32>) -> Result<(), AllocError> {
    if let Some(Value::Table(properties)) = table.get("properties") {
        for (name, _) in properties.iter() {
            names.insert(name.as_str(), 0)?;
        }
    }
    Ok(())
}
