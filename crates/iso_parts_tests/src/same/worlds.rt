//! Worlds that differ in one thing, and worlds that are written in two ways.
use iso_settings::fault::SettingsError;
use iso_settings::world::read_world;
use std::alloc::Global;
use std::process::Abort;

/// Whether the worlds of two texts say the same.
fn is_same(alloc: Global, one: &str, other: &str) -> Result<bool, SettingsError> {
    let world = read_world(alloc, one)?;
    Ok(world.same(&read_world(alloc, other)?))
}

static WORLDS: [&str; 12] = [
    "",
    "locale = \"de\"",
    "locale = \"EN\"",
    "properties.a = \"1\"",
    "properties.a = \"2\"",
    "properties.b = \"1\"",
    "properties.a = \"\"",
    "properties = {a = \"1\", b = \"1\"}",
    "files.a = \"1\"",
    "files.a = \"\"",
    "files.b = \"1\"",
    "files = {a = \"1\", b = \"1\"}",
];

/// The world at this place says the same as itself alone.
fn check_world(
    rt: &impl Abort,
    alloc: Global,
    place: usize,
    one: &str,
) -> Result<(), SettingsError> {
    for (at, other) in WORLDS.iter().enumerate() {
        let found = is_same(alloc, one, other)?;
        assert_eq!(rt; found, at == place, "{place} and {at}");
    }
    Ok(())
}

#[test]
fn one_other_text_is_another_world(rt: HostRuntime) -> Result<(), SettingsError> {
    for (place, one) in WORLDS.iter().enumerate() {
        check_world(&rt, rt.alloc(), place, one)?;
    }
    Ok(())
}

/// The default locale, tables without entries, comments, another order, nested and dotted keys.
static WRITTEN: [(&str, &str); 6] = [
    ("", "locale = \"en\""),
    ("", "[files]\n[properties]"),
    ("", "# nothing is said"),
    (
        "files.a = \"1\"\nfiles.b = \"2\"",
        "[files]\nb = \"2\"\na = \"1\"",
    ),
    ("files.\"a.b\" = \"1\"", "[files.a]\nb = \"1\""),
    (
        "locale = \"de\"\nproperties.a = \"1\"",
        "properties = {a = \"1\"}\nlocale = \"de\"",
    ),
];

/// Both writings of each row are worlds that say the same.
fn check_written(rt: &impl Abort, alloc: Global) -> Result<(), SettingsError> {
    for (one, other) in &WRITTEN {
        assert!(rt; is_same(alloc, one, other)?, "{other}");
    }
    Ok(())
}

#[test]
fn worlds_of_two_writings_say_the_same(rt: HostRuntime) -> Result<(), SettingsError> {
    check_written(&rt, rt.alloc())
}
