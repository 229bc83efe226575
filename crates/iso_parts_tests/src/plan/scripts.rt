//! Scripts as texts, and their plans.
use iso_model::script::{Mode, Script};
use iso_script::fault::ScriptError;
use iso_script::reader::read_script;
use iso_settings::settings::Settings;
use std::alloc::Global;

/// Parallel execution with two workers, where nodes are concurrent if nothing else is marked.
pub(crate) fn concurrent() -> Settings {
    Settings {
        parallel: true,
        default_mode: Mode::Concurrent,
        classes_default_mode: Mode::Concurrent,
        worker_count: 2,
    }
}

/// Adds the script of a text.
fn add_script(alloc: Global, scripts: &mut Vec<Script>, text: &str) -> Result<(), ScriptError> {
    scripts.push(read_script(alloc, text.as_bytes())?)?;
    Ok(())
}

/// Adds the scripts of these texts.
fn add_scripts(
    alloc: Global,
    scripts: &mut Vec<Script>,
    texts: &[&str],
) -> Result<(), ScriptError> {
    for text in texts {
        add_script(alloc, scripts, text)?;
    }
    Ok(())
}

/// The scripts of these texts.
pub(crate) fn read(alloc: Global, texts: &[&str]) -> Result<Vec<Script>, ScriptError> {
    let mut scripts = Vec::new(alloc);
    add_scripts(alloc, &mut scripts, texts)?;
    Ok(scripts)
}
