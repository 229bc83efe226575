//! Warnings of what was likely meant otherwise.
ghost use Rattle.std.specs.Prelude.{◌≡◌, ◌≤◌, IfErr, IfOk, Ok, false};
ghost use Rattle.iso_arguments.specs.RequestBounds.{AreInBounds};
ghost use Rattle.iso_run.specs.ExitStatuses.{ComesEarly};

use crate::command::named;
use crate::command_fault::CommandFault;
use crate::error_messages::STDIN;
use crate::files::InputBytes;
use crate::inputs::{Suite, settings_from};
use crate::mending::suite_of;
use crate::resource::meant;
use crate::script_mending::ScriptMending;
use crate::settings::SETTINGS;
use iso_arguments::request::InputFiles;
use iso_explain_settings::listing::tell_workers;
use iso_explain_settings::warnings::{Place, Warnings, warn_settings};
use iso_model::key::Key;
use iso_model::text::Text;
use iso_places::locate::locate;
use iso_places::site::Site;
use iso_plan::plan::Plan;
use iso_script_lexer::token::Position;
use iso_tap::memory::MemorySink;
use iso_tap::printer::{Piece, Printer};
use iso_tap::sink::Sink;
use std::alloc::Global;

/// Hands on the bytes that were read, as they are. Where faults are to be explained, it tells on
/// standard error what was likely meant otherwise; what is no suite is then refused at once, so
/// that it isn't read once more.
pub(crate) fn looked_over<'a, E: Sink>(
    alloc: Global,
    bytes: InputBytes,
    files: &InputFiles<'a>,
    github: bool,
    errors: &mut E,
) -> Result<InputBytes, CommandFault<'a>>
    requires bounds { AreInBounds files.now }
    requires counted { 1 ≤ bytes.processors }
    ensures same { IfOk result (λ b. b ≡ bytes) }
    ensures early { IfErr result ComesEarly }
    ensures unasked { files.now.explain ≡ false → result ≡ Ok bytes }
    ensures quiet { files.now.explain ≡ false → errors.new ≡ errors.old }
{
    if !files.explain {
        return Ok(bytes);
    }
    let mut mending = ScriptMending::new(true);
    match suite_of(alloc, &bytes, &*files, &mut mending) {
        Ok(suite) => {
            say_warnings(alloc, &bytes, &suite, &*files, errors);
            Ok(bytes)
        }
        Err(fault) => Err(named(alloc, fault, mending, bytes, files, github)),
    }
}

/// Tells what was likely meant otherwise of a suite that these bytes are, as far as memory is left.
pub(crate) fn say_warnings<E: Sink>(
    alloc: Global,
    bytes: &InputBytes,
    suite: &Suite,
    files: &InputFiles<'_>,
    errors: &mut E,
) {
    if let Some(warnings) = warnings_of(alloc, bytes, suite, files) {
        let _ = warnings.write(&mut Printer::new(errors));
    }
}

/// What is warned of.
fn warnings_of(
    alloc: Global,
    bytes: &InputBytes,
    suite: &Suite,
    files: &InputFiles<'_>,
) -> Option<Warnings> {
    let mut warnings = Warnings::new(alloc);
    warn_settings(
        alloc,
        files.settings.unwrap_or(SETTINGS),
        &bytes.settings,
        &suite.settings,
        &mut warnings,
    )
    .ok()?;
    warn_of_one_worker(alloc, bytes, suite, files, &mut warnings)?;
    warn_keys(alloc, suite, files, &mut warnings)?;
    Some(warnings)
}

/// Warns of one worker where parallel execution is on, and more processors would give more.
fn warn_of_one_worker(
    alloc: Global,
    bytes: &InputBytes,
    suite: &Suite,
    files: &InputFiles<'_>,
    warnings: &mut Warnings,
) -> Option<()> {
    let settings = &suite.settings;
    let more = settings_from(alloc, &bytes.settings, 2).ok()?;
    if settings.workers() > 1 || more.workers() == 1 {
        return Some(());
    }
    let mut line = MemorySink::new(alloc);
    tell_workers(
        alloc,
        &bytes.settings,
        settings,
        bytes.processors,
        &mut line,
    )
    .ok()?;
    let why = line.bytes();
    warnings
        .add(
            Place::File(files.settings.unwrap_or(SETTINGS)),
            &[
                Piece::Plain(why.strip_suffix(b"\n").unwrap_or(why)),
                Piece::Plain(b": `--processors auto` counts those of the machine"),
            ],
        )
        .ok()
}

/// Warns of declared keys that nearly name a resource, each where a node has it first.
fn warn_keys(
    alloc: Global,
    suite: &Suite,
    files: &InputFiles<'_>,
    warnings: &mut Warnings,
) -> Option<()> {
    let sites = locate(alloc, &suite.scripts, &suite.places, &suite.plan).ok()?;
    for number in 0..suite.plan.key_count() {
        let key = suite.plan.key(number);
        if let Some(meant) = meant(key) {
            let node = first_with(alloc, &suite.plan, key)?;
            warn_key(key, meant, sites.site(node)?, files, warnings)?;
        }
    }
    Some(())
}

/// The first node that may touch what a key is of.
fn first_with(alloc: Global, plan: &Plan, key: &str) -> Option<u32> {
    let key = Key::new(alloc, Text::copied(alloc, key).ok()?).ok()?;
    for node in 1..plan.len() {
        if plan.rights(node).access(&key).is_some() {
            return Some(node);
        }
    }
    None
}

/// Warns of a key of the node at this site.
fn warn_key<'x>(
    key: &'x str,
    (front, rest): (&'x str, &'x str),
    site: Site,
    files: &InputFiles<'_>,
    warnings: &mut Warnings,
) -> Option<()> {
    let script = files.scripts.get(site.script as usize).copied();
    let Position { line, column } = site.place.name;
    warnings
        .add(
            Place::At(script.unwrap_or(STDIN), line, column),
            &[
                Piece::Plain(b"`"),
                Piece::Plain(key.as_bytes()),
                Piece::Plain(b"` is a lock that names no resource: did you mean `"),
                Piece::Plain(front.as_bytes()),
                Piece::Plain(rest.as_bytes()),
                Piece::Plain(b"`?"),
            ],
        )
        .ok()
}
