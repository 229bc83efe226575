//! Keys that nearly name a resource.

/// The key of the properties, JUnit's constant for it, and that with its class.
const PROPERTIES: &str = "java.lang.System.properties";

const SYSTEM_PROPERTIES: &str = "SYSTEM_PROPERTIES";

const RESOURCES_SYSTEM_PROPERTIES: &str = "Resources.SYSTEM_PROPERTIES";

/// The same of the locale.
const DEFAULT_LOCALE: &str = "java.util.Locale.default";

const LOCALE: &str = "LOCALE";

const RESOURCES_LOCALE: &str = "Resources.LOCALE";

/// What stands before the path of a file in its key.
const FILE: &str = "file:";

/// The key of a resource that was likely meant by a declared key, in two parts. None where the key
/// is a resource's, or nearly names none.
pub(crate) fn meant<'k>(key: &'k str) -> Option<(&'static str, &'k str)> {
    if key.eq_ignore_ascii_case(PROPERTIES) && key != PROPERTIES {
        return Some((PROPERTIES, ""));
    }
    if key == SYSTEM_PROPERTIES || key.ends_with(RESOURCES_SYSTEM_PROPERTIES) {
        return Some((PROPERTIES, ""));
    }
    if key.eq_ignore_ascii_case(DEFAULT_LOCALE) && key != DEFAULT_LOCALE {
        return Some((DEFAULT_LOCALE, ""));
    }
    if key == LOCALE || key.ends_with(RESOURCES_LOCALE) {
        return Some((DEFAULT_LOCALE, ""));
    }
    meant_file(key)
}

/// The same of the key of a file: `file:` in another case, or a path without it.
fn meant_file<'k>(key: &'k str) -> Option<(&'static str, &'k str)> {
    if key.starts_with('/') {
        return Some((FILE, key));
    }
    match key.split_once(':') {
        Some((word, path)) if word.eq_ignore_ascii_case("file") && word != "file" => {
            Some((FILE, path))
        }
        _ => None,
    }
}
