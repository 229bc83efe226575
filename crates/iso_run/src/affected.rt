//! What a change of scripts and a world can alter.
ghost use Rattle.std.specs.Prelude.{◌≡◌, Bool, IfOk, None, cond, map, true};
ghost use Rattle.std.specs.List.{All};
ghost use Rattle.std.specs.Option.{option_copied};
ghost use Rattle.iso_affected.specs.Counting.{AreFew, counts};
ghost use Rattle.iso_affected.specs.Fates.{IsNode, suites};
ghost use Rattle.iso_affected_text.specs.Changes.{IsChange, IsSide, change_of};
ghost use Rattle.iso_affected_text.specs.Rows.{row_of};
ghost use Rattle.iso_affected_text.specs.Texts.{affected_text, last_of, paths_text};
ghost use Rattle.iso_arguments.specs.RequestBounds.{AreInBounds};
ghost use Rattle.iso_plan.specs.RowView.{tree_of};
ghost use Rattle.iso_plan.specs.KeptNodes.{texts_of};
ghost use Rattle.iso_run.specs.Alterations.{AreBelow, IsAlteration, StartsOtherwise, change_text};
ghost use Rattle.iso_run.specs.Commands.{AreFor, IsComparedIn, IsReady, IsStateOf, IsToldFor};
ghost use Rattle.iso_run.specs.ExitStatuses.{Answers};
ghost use Rattle.iso_run.specs.declared.command_fault.CommandFault.TheVariants.{Told};
ghost use Rattle.iso_run.specs.declared.inputs.Inputs.{Inputs};
ghost use Rattle.iso_tap.specs.Printers.{Writes};
ghost use Rattle.iso_tap.specs.Sinks.{Wrote};

use crate::command::flushed;
use crate::command_fault::CommandFault;
use crate::error_messages::say;
use crate::exit::FAILED;
use crate::files::{lent, read_files};
use crate::inputs::Suite;
use crate::older::{Older, names_below, older_files, read_older};
use crate::property::first_apart;
use crate::state::{State, state_of};
use iso_affected::affected::{Fate, fates, gone};
use iso_affected::counts::count;
use iso_affected::difference::Difference;
use iso_affected::told::differences;
use iso_affected_text::change::Change;
use iso_affected_text::changed_paths::write_paths;
use iso_affected_text::row::Row;
use iso_affected_text::rows::affected_rows;
use iso_affected_text::text::{Last, write_affected};
use iso_arguments::request::InputFiles;
use iso_model::text::Text;
use iso_tap::fault::TapFault;
use iso_tap::sink::Sink;
use std::alloc::{AllocError, AllocGlobal, Global};
use std::fs::Files;
use std::io::Read;
use std::thread::Threads;

/// What is asked of a change: the folder of the older state, and whether the paths of changed and
/// new nodes alone are told.
#[derive(Clone, Copy)]
pub(crate) struct Asked<'a> {
    pub folder: &'a str,
    pub paths: bool,
}

/// Tells what a change of these files can alter, which stand below a folder as they were before.
/// The first fault is that of the files as they are; one of the older state is told here, by the
/// name with which its file was read.
pub(crate) fn show_affected<'a, G: AllocGlobal + Files + Threads, R: Read, W: Sink, E: Sink>(
    rt: &G,
    asked: Asked<'a>,
    files: &InputFiles<'a>,
    input: &mut R,
    output: &mut W,
    errors: &mut E,
) -> Result<bool, CommandFault<'a>>
    requires { AreInBounds files.now }
    ensures { Answers (λ ok. (ok ≡ true) × IsToldFor asked.entry files.now (R.remaining input.old)
        (W.account output.old) (W.account output.new)) ⊥
        (W.account output.old) (W.account output.new) result }
{
    let names = names_below(rt.alloc(), asked.folder, files)?;
    let older = older_files(rt.alloc(), &names, files.explain)?;
    show_between(rt, asked, &older, files, input, output, errors)
}

/// The same, where the older state is these files.
fn show_between<'a, G: AllocGlobal + Files + Threads, R: Read, W: Sink, E: Sink>(
    rt: &G,
    asked: Asked<'a>,
    older: &InputFiles<'_>,
    files: &InputFiles<'a>,
    input: &mut R,
    output: &mut W,
    errors: &mut E,
) -> Result<bool, CommandFault<'a>>
    requires bounds { AreInBounds files.now }
    requires older_bounds { AreInBounds older.now }
    requires below { AreBelow asked.folder.now files.now older.now }
    requires uncounted { older.now.processors ≡ None }
    ensures { Answers (λ ok. (ok ≡ true) × IsToldFor asked.entry files.now (R.remaining input.old)
        (W.account output.old) (W.account output.new)) ⊥
        (W.account output.old) (W.account output.new) result }
{
    let bytes = read_files(rt, files, None, input)?;
    let now = state_of(rt.alloc(), bytes, files)?;
    match older_state(rt, older) {
        Ok(was) => show_change(rt.alloc(), asked, &was, &now, &files.scripts, output),
        Err(fault) => Err(told_fault(&fault, errors)),
    }
}

/// An older state, and how many of its files weren't there.
#[derive(Drop)]
struct OlderState {
    state: State,
    missing: u32,
}

/// The older state that files are.
fn older_state<'n, G: AllocGlobal + Files>(
    rt: &G,
    files: &InputFiles<'n>,
) -> Result<OlderState, CommandFault<'n>>
    requires { AreInBounds files.now }
    ensures read { files.now.only_from ≡ None → files.now.processors ≡ None
        → IfOk result (λ older. (inputs : Inputs)
        × AreFor files.now None inputs × IsStateOf inputs older.state) }
    ensures ready { IfOk result (λ older. IsReady older.state) }
{
    let Older { bytes, missing } = read_older(rt, files)?;
    let state = state_of(rt.alloc(), bytes, files)?;
    Ok(OlderState { state, missing })
}

/// Tells a fault, and answers one that was told and ends the command as it does.
fn told_fault<E: Sink>(fault: &CommandFault<'_>, errors: &mut E) -> CommandFault<'static>
    ensures { (failed : Bool) × (result ≡ Told failed) }
{
    say(errors, fault);
    CommandFault::Told(fault.status() == FAILED)
}

/// What a change makes of the nodes of two suites.
#[derive(Drop)]
struct Alteration {
    fates: Vec<Fate>,
    told: Vec<Option<Difference>>,
    gone: Vec<u32>,
}

/// What the change of one suite to another makes of their nodes.
fn altered(alloc: Global, was: &Suite, now: &Suite) -> Result<Alteration, AllocError>
    ensures so { IfOk result
        (λ a. IsAlteration (suites was.now.plan was.now.world now.now.plan now.now.world)
        a.fates.items a.told.items a.gone.items) }
    ensures nodes { IfOk result (λ a. All (IsNode (tree_of was.now.plan)) a.gone.items) }
{
    let fates = fates(alloc, &was.plan, &was.world, &now.plan, &now.world)?;
    Ok(Alteration {
        told: differences(alloc, &was.plan, &was.world, &now.plan, &now.world, &fates)?,
        gone: gone(alloc, &was.plan, &now.plan)?,
        fates,
    })
}

/// Writes what the change of one state to another can alter. The names are those of the scripts.
fn show_change<W: Sink>(
    alloc: Global,
    asked: Asked<'_>,
    was: &OlderState,
    now: &State,
    names: &[&str],
    output: &mut W,
) -> Result<bool, CommandFault<'static>>
    requires was { IsReady was.now.state }
    requires now { IsReady now.now }
    ensures { Answers (λ ok. (ok ≡ true)
        × IsComparedIn asked.entry was.now.state now.now names.now was.now.missing
        (W.account output.old) (W.account output.new)) ⊥
        (W.account output.old) (W.account output.new) result }
{
    let OlderState {
        state: was,
        missing,
    } = was;
    let made = altered(alloc, &was.suite, &now.suite)?;
    let property = first_apart(
        alloc,
        &was.suite.world,
        &was.bytes.world,
        &now.suite.world,
        &now.bytes.world,
    )?;
    let was_texts = lent(alloc, &was.bytes.scripts)?;
    let now_texts = lent(alloc, &now.bytes.scripts)?;
    let change = lent_change(
        &*was, &was_texts, &*now, &now_texts, &*names, &made, &property,
    );
    let last = Last {
        counts: count(&was.suite.plan, &now.suite.plan, &made.fates, &made.gone),
        folder: asked.folder,
        missing: *missing,
    };
    write_change(alloc, &change, &last, asked.paths, output)
}

/// A change of one state to another, lent with the bytes of the scripts of both and the names of
/// these.
fn lent_change<'c>(
    was: &'c State,
    was_texts: &'c [&'c [u8]],
    now: &'c State,
    now_texts: &'c [&'c [u8]],
    names: &'c [&'c str],
    made: &'c Alteration,
    property: &'c Option<Text>,
) -> Change<'c>
    requires was { IsReady was.now }
    requires was_texts { texts_of was_texts.now ≡ map (λ v. v.items) was.now.bytes.scripts.items }
    requires now { IsReady now.now }
    requires now_texts { texts_of now_texts.now ≡ map (λ v. v.items) now.now.bytes.scripts.items }
    ensures old { IsSide result.old }
    ensures new { IsSide result.new }
    ensures old_plan { result.old.plan.now ≡ was.now.suite.plan }
    ensures old_sites { result.old.sites.now ≡ was.now.sites }
    ensures old_texts { result.old.texts.now ≡ was_texts.now }
    ensures new_plan { result.new.plan.now ≡ now.now.suite.plan }
    ensures new_sites { result.new.sites.now ≡ now.now.sites }
    ensures new_texts { result.new.texts.now ≡ now_texts.now }
    ensures names { result.names.now ≡ names.now }
    ensures fates { result.fates.now ≡ made.now.fates.items }
    ensures told { result.told.now ≡ made.now.told.items }
    ensures gone { result.gone.now ≡ made.now.gone.items }
    ensures property { option_copied result.property ≡ property.now }
{
    Change {
        old: was.side(was_texts),
        new: now.side(now_texts),
        names,
        fates: &made.fates,
        told: &made.told,
        gone: &made.gone,
        property: match property {
            Some(name) => Some(name.as_str()),
            None => None,
        },
    }
}

/// Writes what is told of a change, or the paths of changed and new nodes alone.
fn write_change<W: Sink>(
    alloc: Global,
    change: &Change<'_>,
    last: &Last<'_>,
    paths: bool,
    output: &mut W,
) -> Result<bool, CommandFault<'static>>
    requires change { IsChange change.now }
    requires few { AreFew last.now.counts }
    requires counts { last.now.counts ≡ counts (change_of change.now).old.tree
        (change_of change.now).new.tree change.now.fates.now change.now.gone.now }
    ensures { Answers (λ ok. (ok ≡ true) × Wrote (W.account output.old) (W.account output.new)
        (change_text paths (change_of change.now) last.now.folder.now last.now.missing)) ⊥
        (W.account output.old) (W.account output.new) result }
{
    let rows = affected_rows(alloc, change)?;
    match write_rows(&rows, last, paths, output) {
        Ok(()) => flushed(true, output),
        Err(_) => Err(CommandFault::Unwritten),
    }
}

/// Writes rows with what is told at the end, or the paths of changed and new nodes alone.
fn write_rows<W: Sink>(
    rows: &[Row<'_>],
    last: &Last<'_>,
    paths: bool,
    output: &mut W,
) -> Result<(), TapFault>
    requires { AreFew last.now.counts }
    ensures { Writes (W.account output.old) (W.account output.new)
        (cond paths (paths_text (map row_of rows.now))
        (affected_text (map row_of rows.now) (last_of last.now))) result }
{
    if paths {
        write_paths(rows, output)
    } else {
        write_affected(rows, last, output)
    }
}
