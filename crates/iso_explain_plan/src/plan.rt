//! What mends a fault of a plan.
ghost use Rattle.std.specs.Prelude.{◌≡◌, ℕ, IfOk, None, OnOk, drop, length, map, option_map};
ghost use Rattle.iso_explain_plan.specs.Plans.{IsPlanText, TellsOfKeys, TellsOfWord, keys_note, keys_notes, nodes_note, nodes_notes, part_note, scripts_note};
ghost use Rattle.iso_explain_plan.specs.Told.{IsPrinted};
ghost use Rattle.iso_model.specs.ScriptView.{script_of};
ghost use Rattle.iso_plan.specs.Faults.{scripts_fault};
ghost use Rattle.iso_plan.specs.declared.fault.PlanFault.TheVariants.{NotSelected, TooManyNodes};
ghost use Rattle.iso_plan.specs.TopClasses.{all_paths, all_top_classes};
ghost use Rattle.iso_plan.specs.Tree.{tree};
ghost use Rattle.iso_tap.specs.Printers.{Prints};

use crate::double::{double, no_nodes};
use crate::error::ExplainError;
use crate::key::{key_count, key_sizes};
use crate::largest::largest_three;
use crate::note::note;
use crate::part::Part;
use crate::size::{Size, all_sizes, sizes_notes};
use crate::unselected::{path_told, unselected};
use iso_model::limits::{KEYS, NODES, SCRIPTS};
use iso_model::script::Script;
use iso_model::text::Text;
use iso_plan::fault::{PlanError, PlanFault};
use iso_plan::overview::{Overview, look_over};
use iso_script::place::NodePlace;
use iso_tap::printer::Printer;
use iso_tap::sink::{Sink, SinkFailed};
use std::alloc::{AllocError, Global};

/// Writes what mends a fault of the plan of scripts, a line each that begins with ` = `: where two
/// classes of one path stand, how many there are of what there are too many of and which classes
/// have most, or what was meant by a word that names nothing. The scripts have these places of
/// nodes, where they are known, and these names; one without a name is told as `stdin`.
///
/// It takes memory from `alloc`, and none is left taken.
pub fn explain_plan<W: Sink>(
    alloc: Global,
    fault: PlanFault,
    scripts: &[Script],
    places: &[Vec<NodePlace>],
    names: &[&str],
    word: Option<&str>,
    printer: &mut Printer<'_, W>,
) -> Result<(), ExplainError>
    ensures { OnOk result (IsPrinted
        (IsPlanText fault (map script_of scripts.now) (option_map (λ w. w.now) word.entry))
        printer.old printer.new) }
{
    match fault {
        PlanFault::DoubleClass => double(alloc, scripts, places, names, printer),
        PlanFault::TooManyNodes => nodes(alloc, scripts, printer),
        PlanFault::TooManyKeys => keys(alloc, scripts, printer),
        PlanFault::TooManyScripts => too_many(scripts, printer),
        PlanFault::NotSelected(_) => not_selected(alloc, scripts, word, printer),
    }
}

/// The nodes of scripts; none where they may not stand together.
fn overview(alloc: Global, scripts: &[Script]) -> Result<Overview, AllocError>
    ensures paths { IfOk result (λ o. scripts_fault (map script_of scripts.now) ≡ None
        → o.paths.items ≡ all_paths (tree (map script_of scripts.now))) }
    ensures classes { IfOk result (λ o. scripts_fault (map script_of scripts.now) ≡ None
        → o.classes.items ≡ all_top_classes (tree (map script_of scripts.now))) }
    ensures each { IfOk result (λ o. length o.paths.items ≡ length o.classes.items) }
{
    match look_over(alloc, scripts) {
        Ok(nodes) => Ok(nodes),
        Err(PlanError::OutOfMemory) => Err(AllocError),
        Err(PlanError::Fault(_)) => Ok(no_nodes(alloc)),
    }
}

/// Writes how many classes and tests there are, and the largest classes.
fn nodes<W: Sink>(
    alloc: Global,
    scripts: &[Script],
    printer: &mut Printer<'_, W>,
) -> Result<(), ExplainError>
    ensures { OnOk result (IsPrinted (IsPlanText TooManyNodes (map script_of scripts.now) None)
        printer.old printer.new) }
{
    let nodes = overview(alloc, scripts)?;
    let sizes = all_sizes(alloc, &nodes.paths, &nodes.classes)?;
    let largest = largest_three(alloc, &sizes)?;
    let count = nodes.paths.len().saturating_sub(1);
    Ok(nodes_notes(printer, count, &largest)?)
}

/// Writes how many keys there are, and the classes that declare most.
fn keys<W: Sink>(
    alloc: Global,
    scripts: &[Script],
    printer: &mut Printer<'_, W>,
) -> Result<(), ExplainError>
    ensures { OnOk result (IsPrinted TellsOfKeys printer.old printer.new) }
{
    let nodes = overview(alloc, scripts)?;
    let sizes = all_sizes(alloc, &nodes.paths, &nodes.classes)?;
    let keyed = key_sizes(alloc, scripts, &sizes)?;
    let largest = largest_three(alloc, &keyed)?;
    let count = key_count(alloc, scripts)?;
    Ok(keys_notes(printer, count, &largest)?)
}

/// Writes what was meant by a word that names nothing, or how a path is written.
fn not_selected<W: Sink>(
    alloc: Global,
    scripts: &[Script],
    word: Option<&str>,
    printer: &mut Printer<'_, W>,
) -> Result<(), ExplainError>
    ensures { (index : ℕ) → OnOk result
        (IsPrinted (IsPlanText (NotSelected index) (map script_of scripts.now)
        (option_map (λ w. w.now) word.entry)) printer.old printer.new) }
{
    match word {
        Some(word) => meant_by(alloc, scripts, word, printer),
        None => path_told(printer),
    }
}

/// Writes what was meant by a word.
fn meant_by<W: Sink>(
    alloc: Global,
    scripts: &[Script],
    word: &str,
    printer: &mut Printer<'_, W>,
) -> Result<(), ExplainError>
    ensures { OnOk result (IsPrinted (TellsOfWord word.now (map script_of scripts.now)) printer.old
        printer.new) }
{
    let nodes = overview(alloc, scripts)?;
    unselected(alloc, scripts, without_root(&nodes.paths), word, printer)
}

/// The paths of the nodes but the root.
fn without_root(paths: &[Text]) -> &[Text]
    ensures { result.now ≡ drop 1 paths.now }
{
    &paths[paths.len().min(1)..]
}

/// Writes how many scripts there are.
fn too_many<W: Sink>(scripts: &[Script], printer: &mut Printer<'_, W>) -> Result<(), ExplainError>
    ensures { OnOk result (IsPrinted (λ text. text
        ≡ scripts_note (length (map script_of scripts.now))) printer.old printer.new) }
{
    Ok(scripts_note(printer, scripts.len())?)
}

/// Writes how many scripts there are, and may be.
fn scripts_note<W: Sink>(printer: &mut Printer<'_, W>, count: usize) -> Result<(), SinkFailed>
    ensures { Prints printer.old printer.new (scripts_note count) result }
{
    note(
        printer,
        &[
            Part::Plain("there are "),
            Part::Number(count as u64),
            Part::Plain(" scripts, and at most "),
            Part::Number(SCRIPTS as u64),
            Part::Plain(" may be given"),
        ],
    )
}

/// Writes how many classes and tests there are and may be, and which classes are the largest.
fn nodes_notes<W: Sink>(
    printer: &mut Printer<'_, W>,
    count: usize,
    largest: &[Size<'_>],
) -> Result<(), SinkFailed>
    ensures { Prints printer.old printer.new (nodes_notes count largest.now) result }
{
    nodes_note(printer, count)?;
    sizes_notes(printer, largest)?;
    part_note(printer)
}

/// Writes how many classes and tests there are, and may be.
fn nodes_note<W: Sink>(printer: &mut Printer<'_, W>, count: usize) -> Result<(), SinkFailed>
    ensures { Prints printer.old printer.new (nodes_note count) result }
{
    note(
        printer,
        &[
            Part::Plain("the scripts have "),
            Part::Number(count as u64),
            Part::Plain(" classes and tests, and a plan has at most "),
            Part::Number((NODES - 1) as u64),
        ],
    )
}

/// Writes how many different keys are declared and may be, and which classes declare most.
fn keys_notes<W: Sink>(
    printer: &mut Printer<'_, W>,
    count: usize,
    largest: &[Size<'_>],
) -> Result<(), SinkFailed>
    ensures { Prints printer.old printer.new (keys_notes count largest.now) result }
{
    keys_note(printer, count)?;
    sizes_notes(printer, largest)?;
    part_note(printer)
}

/// Writes how many different keys are declared, and may be.
fn keys_note<W: Sink>(printer: &mut Printer<'_, W>, count: usize) -> Result<(), SinkFailed>
    ensures { Prints printer.old printer.new (keys_note count) result }
{
    note(
        printer,
        &[
            Part::Plain("the scripts declare "),
            Part::Number(count as u64),
            Part::Plain(" different keys, and a plan has at most "),
            Part::Number(KEYS as u64),
        ],
    )
}

/// Writes how a part of a suite is run.
fn part_note<W: Sink>(printer: &mut Printer<'_, W>) -> Result<(), SinkFailed>
    ensures { Prints printer.old printer.new part_note result }
{
    note(
        printer,
        &[Part::Plain("--only, --match and --shard keep a part of a suite")],
    )
}
