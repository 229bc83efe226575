//! What keys start with in a world, copied and shared.
use crate::shared::made;
use iso_model::key::Key;
use iso_model::resource::{Ask, Resource};
use iso_model::text::Text;
use iso_settings::fault::SettingsError;
use iso_settings::world::{World, read_world};
use std::alloc::{AllocError, Global};
use std::process::Abort;
use std::sync::Arc;

/// What a key starts with.
fn start(alloc: Global, world: &World, key: &str) -> Result<Resource, AllocError> {
    world.copy(alloc, &Key::new(alloc, Text::copied(alloc, key)?)?)
}

/// The text of a file or of the locale. A missing file and any other value have none.
fn text_of(value: &Resource) -> Option<&str> {
    match value {
        Resource::File(Some(text)) | Resource::Locale(text) => Some(text.as_str()),
        _ => None,
    }
}

/// The world of `docs/SETTINGS.md`.
const SHOP: &str = "locale = \"de\"

[files]
\"/etc/shop.conf\" = \"open = 9\"
a.b = \"t\"

[properties]
\"user.name\" = \"ann\"
user.home = \"/home/ann\"
";

/// These keys have no value in a world.
fn check_plain(rt: &impl Abort, alloc: Global, world: &World) -> Result<(), AllocError> {
    for key in &OTHER_KEYS {
        assert!(rt;
            matches!(start(alloc, world, key)?, Resource::Plain),
            "{key}"
        );
    }
    Ok(())
}

static OTHER_KEYS: [&str; 4] = ["k", "iso:global", "File:a.b", "java.lang.System.err"];

#[test]
fn other_keys_have_no_value(rt: HostRuntime) -> Result<(), SettingsError> {
    let world = read_world(rt.alloc(), SHOP)?;
    Ok(check_plain(&rt, rt.alloc(), &world)?)
}

/// What a key starts with, shared.
fn shared(alloc: Global, world: &World, key: &str) -> Result<Arc<Resource>, AllocError> {
    world.share(alloc, &Key::new(alloc, Text::copied(alloc, key)?)?)
}

/// Whether two values are of one kind.
fn are_of_one_kind(one: &Resource, other: &Resource) -> bool {
    match (one, other) {
        (Resource::Props(_), Resource::Props(_)) => true,
        (Resource::Locale(_), Resource::Locale(_)) => true,
        (Resource::File(_), Resource::File(_)) => true,
        (Resource::Plain, Resource::Plain) => true,
        _ => false,
    }
}

/// Both values are of one kind, and answer alike what is asked of them.
fn check_alike(rt: &impl Abort, key: &str, one: &Resource, other: &Resource) {
    assert!(rt; are_of_one_kind(one, other), "{key}");
    for name in &["user.name", "user.home", "user"] {
        assert!(rt;
            one.look(Ask::Prop(name)) == other.look(Ask::Prop(name)),
            "{key}"
        );
    }
    assert!(rt; one.look(Ask::Locale) == other.look(Ask::Locale), "{key}");
    assert!(rt; one.look(Ask::File) == other.look(Ask::File), "{key}");
}

/// Keys of each kind, and how many own what two who share it look at: the world too, where it names
/// the value.
static OWNERS: [(&str, usize); 6] = [
    ("java.lang.System.properties", 3),
    ("java.util.Locale.default", 3),
    ("file:/etc/shop.conf", 3),
    ("file:a.b", 3),
    ("file:a", 1),
    ("k", 1),
];

/// A key's value is the same shared as copied, and what the world names is kept once.
fn check_shared(rt: &impl Abort, alloc: Global, world: &World, row: &(&str, usize)) {
    let copy = start(alloc, world, row.0).expect(rt, "memory");
    let one = shared(alloc, world, row.0).expect(rt, "memory");
    let other = shared(alloc, world, row.0).expect(rt, "memory");
    check_alike(rt, row.0, &copy, &one);
    check_alike(rt, row.0, &copy, &other);
    assert!(rt; Arc::strong_count(&one) == row.1, "{}", row.0);
}

#[test]
fn shared_values_are_the_copied_ones(rt: HostRuntime) -> Result<(), SettingsError> {
    let world = read_world(rt.alloc(), SHOP)?;
    for row in &OWNERS {
        check_shared(&rt, rt.alloc(), &world, row);
    }
    Ok(())
}

#[test]
fn file_is_shared_as_the_world_says(rt: HostRuntime) -> Result<(), SettingsError> {
    let world = read_world(rt.alloc(), "files.a = \"s\"")?;
    let value = shared(rt.alloc(), &world, "file:a")?;
    assert!(rt; text_of(&value) == Some("s"));
    Ok(())
}

/// A world of the longest text at the longest key.
static LONGEST: [(&str, usize); 5] = [
    ("[files]\n", 1),
    ("a", 4096),
    (" = \"", 1),
    ("b", 4096),
    ("\"", 1),
];

/// Whether a key starts with this text.
fn starts_with(alloc: Global, world: &World, key: &str, want: &str) -> Result<bool, AllocError> {
    let value = start(alloc, world, key)?;
    Ok(text_of(&value) == Some(want))
}

/// Whether a world keeps the longest text at the longest key.
fn keeps_longest(alloc: Global, world: &World) -> Result<bool, AllocError> {
    let key = made(alloc, &[("file:", 1), ("a", 4096)])?;
    let want = made(alloc, &[("b", 4096)])?;
    starts_with(alloc, world, key.as_str(), want.as_str())
}

/// No script can declare a key as long.
#[test]
fn longest_text_at_the_longest_key_is_kept(rt: HostRuntime) -> Result<(), SettingsError> {
    let text = made(rt.alloc(), &LONGEST)?;
    let world = read_world(rt.alloc(), text.as_str())?;
    assert!(rt; keeps_longest(rt.alloc(), &world)?);
    Ok(())
}
