//! What settings come to, printed.
ghost use Rattle.std.specs.Prelude.{◌≡◌, IfOk, IfSome, Some, true};
ghost use Rattle.iso_arguments.specs.RequestBounds.{IsWithin};
ghost use Rattle.iso_run.specs.Commands.{IsListedFor};
ghost use Rattle.iso_run.specs.ExitStatuses.{Answers, command_end, run_end};
ghost use Rattle.iso_run.specs.Suites.{document};
ghost use Rattle.iso_run.specs.declared.run_fault.RunFault.TheVariants as F;
ghost use Rattle.iso_explain_settings.specs.Listing.{listing_text};
ghost use Rattle.iso_settings.specs.Leaves.{leaves};
ghost use Rattle.iso_tap.specs.Sinks.{Wrote};
ghost use Rattle.toml.specs.Data.{Members};

use crate::command::flushed;
use crate::command_fault::CommandFault;
use crate::files::read_document;
use crate::inputs::settings_from;
use crate::processors::counted;
use crate::run_fault::RunFault;
use iso_arguments::processors::Processors;
use iso_explain_settings::listing::list_settings;
use iso_explain_settings::settings::explain_settings;
use iso_explain_settings::warnings::{Warnings, warn_settings};
use iso_settings::fault::{SettingsError, SettingsFault};
use iso_settings::settings::Settings;
use iso_tap::memory::MemorySink;
use iso_tap::printer::Printer;
use iso_tap::sink::Sink;
use std::alloc::{AllocError, AllocGlobal, Global};
use std::fs::Files;
use std::thread::Threads;

/// How settings are called that no file has.
pub(crate) const SETTINGS: &str = "settings";

/// Prints what the settings in a file come to, and tells on standard error what was likely meant
/// otherwise. Without a name there is none.
pub(crate) fn show_settings<'a, G: AllocGlobal + Files + Threads, W: Sink, E: Sink>(
    rt: &G,
    name: Option<&'a str>,
    asked: Option<Processors>,
    explain: bool,
    output: &mut W,
    errors: &mut E,
) -> Result<bool, CommandFault<'a>>
    requires { IfSome asked IsWithin }
    ensures { Answers (λ ok. (ok ≡ true)
        × IsListedFor name.entry asked (W.account output.old) (W.account output.new)) ⊥
        (W.account output.old) (W.account output.new) result }
{
    let processors = counted(rt, asked)?;
    let bytes = read_document(rt, name)?;
    match settings_from(rt.alloc(), &bytes, processors) {
        Ok(settings) => {
            warn(rt.alloc(), name, &bytes, &settings, errors);
            let text = listing(rt.alloc(), &bytes, &settings, processors)?;
            show_bytes(text.bytes(), output)
        }
        Err(SettingsError::Fault(fault)) => Err(refused(rt.alloc(), fault, name, &bytes, explain)),
        Err(SettingsError::OutOfMemory) => Err(CommandFault::out_of_memory()),
    }
}

/// What settings come to that were read from these bytes, by the number of processors that are
/// counted with.
fn listing(
    alloc: Global,
    bytes: &[u8],
    settings: &Settings,
    processors: u32,
) -> Result<MemorySink, AllocError>
    ensures { (members : Members) → document bytes.now ≡ Some members
        → IfOk result (λ text. text.bytes
        ≡ Some (listing_text (leaves members) settings.now processors)) }
{
    let mut text = MemorySink::new(alloc);
    list_settings(alloc, bytes, settings, processors, &mut text)?;
    Ok(text)
}

/// Writes a text.
fn show_bytes<W: Sink>(bytes: &[u8], output: &mut W) -> Result<bool, CommandFault<'static>>
    ensures { Answers (λ ok. (ok ≡ true)
        × Wrote (W.account output.old) (W.account output.new) bytes.now) ⊥
        (W.account output.old) (W.account output.new) result }
{
    if Printer::new(output).bytes(bytes).is_err() {
        return Err(CommandFault::Unwritten);
    }
    flushed(true, output)
}

/// Tells what was likely meant otherwise, as far as memory is left.
fn warn<E: Sink>(
    alloc: Global,
    name: Option<&str>,
    bytes: &[u8],
    settings: &Settings,
    errors: &mut E,
) {
    let mut warnings = Warnings::new(alloc);
    let name = name.unwrap_or(SETTINGS);
    if warn_settings(alloc, name, bytes, settings, &mut warnings).is_ok() {
        let _ = warnings.write(&mut Printer::new(errors));
    }
}

/// The fault of refused settings, with what mends it, where that is asked for and memory is left.
fn refused<'a>(
    alloc: Global,
    fault: SettingsFault,
    name: Option<&str>,
    bytes: &[u8],
    explain: bool,
) -> CommandFault<'a>
    ensures { command_end result ≡ run_end (F.Settings fault) }
{
    let mut text = None;
    if explain {
        text = mended(alloc, &fault, name.unwrap_or(SETTINGS), bytes);
    }
    CommandFault::Run(RunFault::Settings(fault), None, text)
}

/// What mends settings, where memory is left.
fn mended(alloc: Global, fault: &SettingsFault, name: &str, bytes: &[u8]) -> Option<MemorySink> {
    let mut text = MemorySink::new(alloc);
    explain_settings(alloc, name, bytes, fault, &mut text).ok()?;
    Some(text)
}
