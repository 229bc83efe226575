//! Which property starts with another value.
ghost use Rattle.std.specs.Prelude.{◌≡◌, ◌↔◌, IfOk, IsTrue};
ghost use Rattle.std.specs.Option.{option_copied};
ghost use Rattle.std.specs.Arc.{arc_value};
ghost use Rattle.iso_affected.specs.PropertyStarts.{IsFirstName, asked, property_of};
ghost use Rattle.iso_model.specs.declared.resource.Resource.TheVariants.{Props};

use iso_model::key::Key;
use iso_model::resource::{Ask, Resource};
use iso_model::text::Text;
use iso_settings::world::World;
use std::alloc::{AllocError, Global};
use std::sync::Arc;

/// The key of the system properties.
const PROPERTIES: &str = "java.lang.System.properties";

/// The first of some names of properties that start with another value in the second world, by its
/// place.
pub fn first_property(
    alloc: Global,
    before: &World,
    after: &World,
    names: &[Text],
) -> Result<Option<usize>, AllocError>
    ensures { IfOk result (IsFirstName (property_of before.now) (property_of after.now) names.now) }
{
    let was = starting_properties(alloc, before)?;
    let now = starting_properties(alloc, after)?;
    Ok(first_name(&was, &now, names))
}

/// The value with which the properties start.
fn starting_properties(alloc: Global, world: &World) -> Result<Arc<Resource>, AllocError>
    ensures { IfOk result (λ value. arc_value value ≡ Props world.now.properties) }
{
    let key = Key::new(alloc, Text::copied(alloc, PROPERTIES)?)?;
    world.share(alloc, &key)
}

/// The first of some names at which two values of properties differ, by its place.
fn first_name(was: &Resource, now: &Resource, names: &[Text]) -> Option<usize>
    ensures { IsFirstName (asked was.now) (asked now.now) names.now result }
{
    'names: for place in 0..names.len() {
        if !same_at(was, now, names[place].as_str()) {
            return Some(place);
        }
    }
    None
}

/// Whether a property is absent from two values, or has one text in both.
fn same_at(was: &Resource, now: &Resource, name: &str) -> bool
    ensures { IsTrue result ↔ (asked was.now name.now ≡ asked now.now name.now) }
{
    same_text(was.look(Ask::Prop(name)), now.look(Ask::Prop(name)))
}

/// Whether two texts are both absent, or equal.
fn same_text(was: Option<&str>, now: Option<&str>) -> bool
    ensures { IsTrue result ↔ (option_copied was.entry ≡ option_copied now.entry) }
{
    match (was, now) {
        (Some(one), Some(other)) => one == other,
        (None, None) => true,
        _ => false,
    }
}
