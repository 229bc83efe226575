//! Each text with one byte changed is read or refused.
use crate::shared::check_changes;
use iso_settings::fault::SettingsError;
use iso_settings::settings::read_settings;
use iso_settings::world::read_world;
use std::alloc::{AllocError, Global};

const SETTINGS: &str = "[junit.jupiter]
testinstance.lifecycle.default = \"per_method\"
[junit.jupiter.execution.parallel]
enabled = true
mode.default = \"concurrent\"
mode.classes.default = \"same_thread\"
[junit.jupiter.execution.parallel.config]
strategy = \"fixed\"
fixed.parallelism = \"2\"
dynamic.factor = 64
";

const WORLD: &str = "locale = \"de\"
[files]
\"/etc/shop.conf\" = \"open = 9\"
a.b = 't'
[files.dir]
x = \"\"\"
\"\"\"
[properties]
\"user.name\" = \"\\u0061nn\"
user = { home = \"/\" }
";

/// Whether settings have 1 to 64 workers or a fault.
fn are_settings_answered(alloc: Global, bytes: &[u8]) -> bool {
    let Ok(text) = str::from_utf8(bytes) else {
        return true;
    };
    match read_settings(alloc, text, 4) {
        Ok(settings) => (1..=64).contains(&settings.workers()),
        Err(error) => matches!(error, SettingsError::Fault(_)),
    }
}

/// Whether a fault of a world shows.
fn is_shown(alloc: Global, error: &SettingsError) -> bool {
    match error {
        SettingsError::Fault(fault) => format!(in alloc; "{fault}").is_ok(),
        SettingsError::OutOfMemory => false,
    }
}

/// Whether a world is read, or has a fault that shows.
fn is_world_answered(alloc: Global, bytes: &[u8]) -> bool {
    let Ok(text) = str::from_utf8(bytes) else {
        return true;
    };
    match read_world(alloc, text) {
        Ok(_) => true,
        Err(error) => is_shown(alloc, &error),
    }
}

#[test]
fn changed_settings_are_read_or_refused(rt: HostRuntime) -> Result<(), AllocError> {
    assert!(rt; read_settings(rt.alloc(), SETTINGS, 4).is_ok());
    check_changes(&rt, rt.alloc(), SETTINGS.as_bytes(), are_settings_answered)
}

#[test]
fn changed_worlds_are_read_or_refused(rt: HostRuntime) -> Result<(), AllocError> {
    assert!(rt; read_world(rt.alloc(), WORLD).is_ok());
    check_changes(&rt, rt.alloc(), WORLD.as_bytes(), is_world_answered)
}
