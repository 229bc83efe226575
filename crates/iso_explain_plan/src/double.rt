//! Two top-level classes of one team and name.
ghost use Rattle.std.specs.Prelude.{◌≡◌, [], IfOk, IfSome, Ok, OnOk};
ghost use Rattle.iso_explain_plan.specs.Doubles.{HasOnePath, TellsOfTwo, double_note, double_notes, rename_note, site_of, twice_note, two_notes};
ghost use Rattle.iso_explain_plan.specs.Told.{IsPrinted};
ghost use Rattle.iso_tap.specs.Printers.{Prints};

use crate::error::ExplainError;
use crate::note::note;
use crate::part::Part;
use iso_model::distinct::claim;
use iso_model::script::Script;
use iso_plan::fault::PlanError;
use iso_plan::overview::{Overview, look_over};
use iso_script::place::NodePlace;
use iso_script_lexer::token::Position;
use iso_tap::printer::Printer;
use iso_tap::sink::{Sink, SinkFailed};
use std::alloc::{AllocError, Global};
use std::collections::BTreeSet;

/// What a script is called that has no name.
const STDIN: &str = "stdin";

/// A top-level class: its path, its script, and its number among the nodes of its script.
#[derive(Clone, Copy)]
struct TopClass<'a> {
    path: &'a str,
    script: usize,
    node: usize,
}

/// Where a class stands: in which file, and at which place, where that is known.
#[derive(Clone, Copy)]
struct Site<'a> {
    file: &'a str,
    place: Option<Position>,
}

/// Writes where the first top-level class stands whose path another one has before it, and where
/// that one stands; nothing where no path stands twice.
pub(crate) fn double<W: Sink>(
    alloc: Global,
    scripts: &[Script],
    places: &[Vec<NodePlace>],
    names: &[&str],
    printer: &mut Printer<'_, W>,
) -> Result<(), ExplainError>
    ensures { OnOk result (IsPrinted TellsOfTwo printer.old printer.new) }
{
    let views = views(alloc, scripts)?;
    let classes = top_classes(alloc, &views)?;
    match first_double(alloc, &classes)? {
        Some((first, second)) => {
            let first_site = site_for(places, names, &first);
            let second_site = site_for(places, names, &second);
            Ok(double_notes(printer, first.path, first_site, second_site)?)
        }
        None => Ok(()),
    }
}

/// The nodes of each script by itself; none of a script that holds two classes of one name.
fn views(alloc: Global, scripts: &[Script]) -> Result<Vec<Overview>, AllocError> {
    let mut views = Vec::with_capacity(alloc, scripts.len())?;
    'scripts: for index in 0..scripts.len() {
        match look_over(alloc, &scripts[index..index + 1]) {
            Ok(view) => views.push(view)?,
            Err(PlanError::OutOfMemory) => return Err(AllocError),
            Err(PlanError::Fault(_)) => views.push(no_nodes(alloc))?,
        }
    }
    Ok(views)
}

/// No nodes.
pub(crate) fn no_nodes(alloc: Global) -> Overview
    ensures paths { result.paths.items ≡ [] }
    ensures classes { result.classes.items ≡ [] }
{
    Overview {
        paths: Vec::new(alloc),
        classes: Vec::new(alloc),
    }
}

/// The top-level classes of scripts, in written order.
fn top_classes<'a>(alloc: Global, views: &'a [Overview]) -> Result<Vec<TopClass<'a>>, AllocError> {
    let mut classes = Vec::new(alloc);
    'scripts: for script in 0..views.len() {
        add_classes(&mut classes, script, &views[script])?;
    }
    Ok(classes)
}

/// Adds the top-level classes of a script.
fn add_classes<'a>(
    classes: &mut Vec<TopClass<'a>>,
    script: usize,
    view: &'a Overview,
) -> Result<(), AllocError> {
    'nodes: for node in 1..view.classes.len().min(view.paths.len()) {
        if view.classes[node] as usize == node {
            classes.push(TopClass {
                path: view.paths[node].as_str(),
                script,
                node,
            })?;
        }
    }
    Ok(())
}

/// The first class whose path one before it has, behind that one.
fn first_double<'a>(
    alloc: Global,
    classes: &[TopClass<'a>],
) -> Result<Option<(TopClass<'a>, TopClass<'a>)>, AllocError>
    ensures { IfOk result (λ pair. IfSome pair HasOnePath) }
{
    let mut seen = BTreeSet::new(alloc);
    for class in classes {
        if !claim(&mut seen, class.path)? {
            return Ok(with_first(classes, *class));
        }
    }
    Ok(None)
}

/// A class behind the first that has its path.
fn with_first<'a>(
    classes: &[TopClass<'a>],
    class: TopClass<'a>,
) -> Option<(TopClass<'a>, TopClass<'a>)>
    ensures { IfSome result HasOnePath }
{
    for other in classes {
        if other.path == class.path {
            return Some((*other, class));
        }
    }
    None
}

/// Where a class stands.
fn site_for<'a>(places: &[Vec<NodePlace>], names: &[&'a str], class: &TopClass<'_>) -> Site<'a> {
    Site {
        file: names.get(class.script).copied().unwrap_or(STDIN),
        place: place_of(places, class.script, class.node),
    }
}

/// The place of a node of a script, where it is known: the root has none.
fn place_of(places: &[Vec<NodePlace>], script: usize, node: usize) -> Option<Position> {
    let nodes = places.get(script)?;
    let place = nodes.get(node.checked_sub(1)?)?;
    Some(place.name)
}

/// Writes of two classes of one path where they stand; of one file that it is named twice, since
/// two classes of one script have two names.
fn double_notes<W: Sink>(
    printer: &mut Printer<'_, W>,
    path: &str,
    first: Site<'_>,
    second: Site<'_>,
) -> Result<(), SinkFailed>
    ensures { Prints printer.old printer.new
        (double_notes path.now (site_of first.entry) (site_of second.entry)) result }
{
    if first.file == second.file {
        twice_note(printer, first.file)
    } else {
        two_notes(printer, path, first, second)
    }
}

/// Writes where they stand, and what mends that.
fn two_notes<W: Sink>(
    printer: &mut Printer<'_, W>,
    path: &str,
    first: Site<'_>,
    second: Site<'_>,
) -> Result<(), SinkFailed>
    ensures { Prints printer.old printer.new
        (two_notes path.now (site_of first.entry) (site_of second.entry)) result }
{
    double_note(printer, path, first, second)?;
    rename_note(printer)
}

/// Writes where they stand.
fn double_note<'a, W: Sink>(
    printer: &mut Printer<'_, W>,
    path: &'a str,
    first: Site<'a>,
    second: Site<'a>,
) -> Result<(), SinkFailed>
    ensures { Prints printer.old printer.new
        (double_note path.now (site_of first.entry) (site_of second.entry)) result }
{
    note(
        printer,
        &[
            Part::Plain("class "),
            Part::Shown(path),
            Part::Plain(" stands at "),
            Part::Name(first.file),
            Part::Place(first.place),
            Part::Plain(" and at "),
            Part::Name(second.file),
            Part::Place(second.place),
        ],
    )
}

/// Writes that one file is named twice, and what mends that.
fn twice_note<W: Sink>(printer: &mut Printer<'_, W>, file: &str) -> Result<(), SinkFailed>
    ensures { Prints printer.old printer.new (twice_note file.now) result }
{
    note(
        printer,
        &[
            Part::Name(file),
            Part::Plain(" is named twice, so each of its classes stands twice: name it once"),
        ],
    )
}

/// Writes what mends that.
fn rename_note<W: Sink>(printer: &mut Printer<'_, W>) -> Result<(), SinkFailed>
    ensures { Prints printer.old printer.new rename_note result }
{
    note(
        printer,
        &[Part::Plain("two classes of one team have one name: rename one of them")],
    )
}
