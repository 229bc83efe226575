//! What holds of a script that is read.
use iso_model::script::Script;
use iso_script::fault::ScriptError;
use iso_script::reader::read_script;
use std::alloc::Global;
use std::process::Abort;

/// A script is read, and this holds of it.
pub fn check_script(
    rt: &impl Abort,
    alloc: Global,
    script: &[u8],
    holds: fn(&Script) -> bool,
) -> Result<(), ScriptError>
    requires { IsAlwaysCallable holds }
{
    let script = read_script(alloc, script)?;
    assert!(rt; holds(&script));
    Ok(())
}
