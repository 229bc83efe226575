//! What settings come to, where no words can ask for it.
use iso_settings::fault::SettingsError;
use iso_settings::settings::{Settings, read_settings};
use std::alloc::Global;

/// The settings of these lines under `junit.jupiter.execution.parallel`.
fn parallel(alloc: Global, lines: &str, processors: u32) -> Result<Settings, SettingsError> {
    let mut text = String::from_str(alloc, "[junit.jupiter.execution.parallel]\n")?;
    text.push_str(lines)?;
    read_settings(alloc, text.as_str(), processors.max(1))
}

/// `jtap` counts with 1,024 processors at most.
#[test]
fn workers_are_chosen_by_the_strategy(rt: HostRuntime) -> Result<(), SettingsError> {
    let lines = "enabled = true\nconfig.dynamic.factor = 64";
    let settings = parallel(rt.alloc(), lines, u32::MAX)?;
    assert_eq!(rt; settings.workers(), 64);
    Ok(())
}
