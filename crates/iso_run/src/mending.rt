//! What mends a fault of a run.
ghost use Rattle.std.specs.Prelude.{◌≡◌, ◌≤◌, ℕ, IfErr, List, MatchResult, Option, map, true};
ghost use Rattle.iso_arguments.specs.RequestBounds.{AreInBounds};
ghost use Rattle.iso_run.specs.Commands.{AreFor, WereRead};
ghost use Rattle.iso_run.specs.ExitStatuses.{IsEarly, run_end};
ghost use Rattle.iso_run.specs.Runs.{IsRead};
ghost use Rattle.iso_run.specs.Suites.{NoSuite, texts};
ghost use Rattle.iso_run.specs.declared.inputs.Inputs.{Inputs};

use crate::command::{inputs_of, shard_of};
use crate::error_messages::{STDIN, listed_at};
use crate::files::{InputBytes, lent};
use crate::inputs::{Suite, read_explained};
use crate::run_fault::RunFault;
use crate::script_mending::ScriptMending;
use crate::settings::SETTINGS;
use iso_arguments::request::InputFiles;
use iso_explain_plan::plan::explain_plan;
use iso_explain_plan::refused::explain_refused;
use iso_explain_plan::schedule::explain_fault;
use iso_explain_plan::unfinished::explain_unfinished;
use iso_explain_settings::settings::explain_settings;
use iso_explain_settings::world::explain_world;
use iso_github::errors::write_refusal;
use iso_model::script::Script;
use iso_plan::fault::PlanFault;
use iso_script::fault::ScriptFault;
use iso_script::place::NodePlace;
use iso_script::reader::{PlacedScript, read_placed};
use iso_settings::fault::SettingsFault;
use iso_tap::memory::MemorySink;
use iso_tap::printer::Printer;
use std::alloc::Global;

/// How a world is called that no file has.
const WORLD: &str = "world";

/// What mends a fault of a run of these bytes, as it is asked for with these files, where that is
/// to be told. None where memory runs out.
fn mending(
    alloc: Global,
    fault: &RunFault,
    bytes: &InputBytes,
    files: &InputFiles<'_>,
) -> Option<MemorySink>
    requires bounds { AreInBounds files.now }
    requires counted { 1 ≤ bytes.now.processors }
{
    let mut text = asked_text(alloc, files)?;
    mend(alloc, fault, bytes, files, &mut text)?;
    Some(text)
}

/// What is told after the line of a fault, where something is asked for and memory is left: what
/// mends it, which of a script was told while it was read, and then a script's fault as GitHub
/// reads it.
pub(crate) fn after_fault(
    alloc: Global,
    fault: &RunFault,
    script: ScriptMending,
    bytes: &InputBytes,
    files: &InputFiles<'_>,
    github: bool,
) -> Option<MemorySink>
    requires bounds { AreInBounds files.now }
    requires counted { 1 ≤ bytes.now.processors }
{
    let text = match fault {
        RunFault::Script(..) => script.into_text(),
        _ => mending(alloc, fault, bytes, files),
    };
    if github {
        with_refusal(alloc, fault, files, text)
    } else {
        text
    }
}

/// A text with a script's fault after it, as GitHub reads it; as it was where the fault is of
/// something else, or memory runs out.
fn with_refusal(
    alloc: Global,
    fault: &RunFault,
    files: &InputFiles<'_>,
    text: Option<MemorySink>,
) -> Option<MemorySink> {
    let RunFault::Script(index, ScriptFault { kind, line, column }) = fault else {
        return text;
    };
    let Ok(kind) = format!(in alloc; "{kind}") else {
        return text;
    };
    let mut whole = match text {
        Some(text) => text,
        None => MemorySink::new(alloc),
    };
    let name = files.scripts.get(*index).copied().unwrap_or(STDIN);
    let _ = write_refusal(name, *line, *column, kind.as_str(), &mut whole);
    Some(whole)
}

/// Writes what mends a fault, and nothing of a script's or of one that isn't of the input.
fn mend(
    alloc: Global,
    fault: &RunFault,
    bytes: &InputBytes,
    files: &InputFiles<'_>,
    text: &mut MemorySink,
) -> Option<()>
    requires bounds { AreInBounds files.now }
    requires counted { 1 ≤ bytes.now.processors }
{
    match fault {
        RunFault::Settings(fault) => mend_settings(alloc, fault, &bytes.settings, files, text),
        RunFault::World(fault) => mend_world(alloc, fault, &bytes.world, files, text),
        RunFault::Plan(fault) => mend_plan(alloc, *fault, bytes, &*files, text),
        RunFault::Schedule(fault) => explain_fault(*fault, &bytes.schedule, text).ok(),
        RunFault::Refused(index, why) => {
            let suite = suite_of(alloc, bytes, &*files, &mut ScriptMending::unasked()).ok()?;
            explain_refused(alloc, *index, *why, &bytes.schedule, &suite.plan, text).ok()
        }
        RunFault::Unfinished => {
            let suite = suite_of(alloc, bytes, &*files, &mut ScriptMending::unasked()).ok()?;
            explain_unfinished(alloc, &bytes.schedule, &suite.plan, text).ok()
        }
        RunFault::Script(..)
        | RunFault::Start
        | RunFault::Lost
        | RunFault::Memory
        | RunFault::Write(_) => Some(()),
    }
}

/// What mends settings, where that is to be told and memory is left.
pub(crate) fn settings_mending(
    alloc: Global,
    fault: &SettingsFault,
    bytes: &[u8],
    files: &InputFiles<'_>,
) -> Option<MemorySink> {
    let mut text = asked_text(alloc, files)?;
    mend_settings(alloc, fault, bytes, files, &mut text)?;
    Some(text)
}

/// What mends a world, where that is to be told and memory is left.
pub(crate) fn world_mending(
    alloc: Global,
    fault: &SettingsFault,
    bytes: &[u8],
    files: &InputFiles<'_>,
) -> Option<MemorySink> {
    let mut text = asked_text(alloc, files)?;
    mend_world(alloc, fault, bytes, files, &mut text)?;
    Some(text)
}

/// An empty text, where one is asked for.
fn asked_text(alloc: Global, files: &InputFiles<'_>) -> Option<MemorySink> {
    if files.explain {
        Some(MemorySink::new(alloc))
    } else {
        None
    }
}

/// Writes what mends settings.
fn mend_settings(
    alloc: Global,
    fault: &SettingsFault,
    bytes: &[u8],
    files: &InputFiles<'_>,
    text: &mut MemorySink,
) -> Option<()> {
    let name = files.settings.unwrap_or(SETTINGS);
    explain_settings(alloc, name, bytes, fault, text).ok()
}

/// Writes what mends a world.
fn mend_world(
    alloc: Global,
    fault: &SettingsFault,
    bytes: &[u8],
    files: &InputFiles<'_>,
    text: &mut MemorySink,
) -> Option<()> {
    let name = files.world.unwrap_or(WORLD);
    explain_world(alloc, name, bytes, fault, text).ok()
}

/// Writes what mends a fault of the plan.
fn mend_plan<'b>(
    alloc: Global,
    fault: PlanFault,
    bytes: &'b InputBytes,
    files: &'b InputFiles<'b>,
    text: &mut MemorySink,
) -> Option<()> {
    let placed = placed_scripts(alloc, &bytes.scripts)?;
    let word = match fault {
        PlanFault::NotSelected(index) => word_at(index, bytes, files),
        _ => None,
    };
    explain_plan(
        alloc,
        fault,
        &placed.scripts,
        &placed.places,
        &files.scripts,
        word,
        &mut Printer::new(text),
    )
    .ok()
}

/// The path or pattern with this number among those of the words, and after them those of the file.
fn word_at<'b>(index: usize, bytes: &'b InputBytes, files: &'b InputFiles<'b>) -> Option<&'b str> {
    let (only, patterns) = (files.only.len(), files.patterns.len());
    if index < only {
        return files.only.get(index).copied();
    }
    let after_only = index - only;
    if after_only < patterns {
        return files.patterns.get(after_only).copied();
    }
    let file = bytes.listed.as_deref()?;
    str::from_utf8(listed_at(file, after_only - patterns)).ok()
}

/// Scripts that were read again, and where what is in them stands.
#[derive(Drop)]
struct Placed {
    scripts: Vec<Script>,
    places: Vec<Vec<NodePlace>>,
}

/// Reads scripts again, with the places of what is in them.
fn placed_scripts(alloc: Global, scripts: &[Vec<u8>]) -> Option<Placed> {
    let mut placed = Placed {
        scripts: Vec::new(alloc),
        places: Vec::new(alloc),
    };
    for bytes in scripts {
        let PlacedScript { script, places } = read_placed(alloc, bytes).ok()?;
        placed.scripts.push(script).ok()?;
        placed.places.push(places).ok()?;
    }
    Some(placed)
}

/// The suite that these bytes are, with its places, or why they are none. It is told what mends the
/// first script that is none, where that is asked for.
pub(crate) fn suite_of<'b>(
    alloc: Global,
    bytes: &'b InputBytes,
    files: &'b InputFiles<'b>,
    mending: &mut ScriptMending,
) -> Result<Suite, RunFault>
    requires bounds { AreInBounds files.now }
    requires counted { 1 ≤ bytes.now.processors }
    ensures read { (input : Option (List ℕ)) → WereRead files.now input bytes.now
        → (inputs : Inputs) × AreFor files.now input inputs
        × (texts inputs.scripts.now ≡ map (λ v. v.items) bytes.now.scripts.items)
        × MatchResult result (IsRead inputs true) (NoSuite inputs) }
    ensures early { IfErr result (λ fault. IsEarly (run_end fault)) }
{
    let shard = shard_of(files.shard);
    let scripts = lent(alloc, &bytes.scripts)?;
    let inputs = inputs_of(bytes, &scripts, files, shard);
    match read_explained(alloc, inputs, true, mending) {
        Ok(suite) => Ok(suite),
        Err(fault) => Err(fault),
    }
}
