//! Top-level classes and how large they are.
ghost use Rattle.std.specs.Prelude.{◌≡◌, ◌<◌, ◌==◌, ◌++◌, IfOk, OnOk, length, map};
ghost use Rattle.iso_explain_plan.specs.Sizes.{all_sizes, if_own, is_own, nodes_from, run_length, size_note, size_of, sizes_notes};
ghost use Rattle.iso_tap.specs.Printers.{Prints};

use crate::note::note;
use crate::part::Part;
use iso_model::text::Text;
use iso_tap::printer::Printer;
use iso_tap::sink::{Sink, SinkFailed};
use std::alloc::{AllocError, Global};

/// A top-level class, and how many things it has.
#[derive(Clone, Copy)]
pub(crate) struct Size<'a> {
    pub path: &'a str,
    pub count: usize,
}

/// The top-level classes with their numbers of nodes, from the path and the top-level class of each
/// node of scripts.
pub(crate) fn all_sizes<'a>(
    alloc: Global,
    paths: &'a [Text],
    classes: &[u32],
) -> Result<Vec<Size<'a>>, AllocError>
    requires { length paths.now ≡ length classes.now }
    ensures { IfOk result (λ v. map size_of v.items ≡ all_sizes paths.now classes.now) }
{
    let mut sizes = Vec::new(alloc);
    'nodes: for n in 0..classes.len() {
        add_if_own(&mut sizes, paths, classes, n)?;
    }
    Ok(sizes)
}

/// Adds a node with the number of its nodes, if it is a top-level class.
fn add_if_own<'a>(
    sizes: &mut Vec<Size<'a>>,
    paths: &'a [Text],
    classes: &[u32],
    n: usize,
) -> Result<(), AllocError>
    requires each { length paths.now ≡ length classes.now }
    requires within { n < length classes.now }
    ensures { OnOk result (map size_of sizes.new.items
        ≡ map size_of sizes.old.items ++ if_own paths.now classes.now n) }
{
    if !is_own(classes, n) {
        return Ok(());
    }
    sizes.push(Size {
        path: paths[n].as_str(),
        count: nodes_from(classes, n),
    })?;
    Ok(())
}

/// Whether a node is its own top-level class.
fn is_own(classes: &[u32], n: usize) -> bool
    requires { n < length classes.now }
    ensures { result ≡ is_own classes.now n }
{
    n > 0 && classes[n] as usize == n
}

/// How many nodes the top-level class with this number has as descendants, itself among them: they
/// stand one behind another.
fn nodes_from(classes: &[u32], class: usize) -> usize
    requires { class < length classes.now }
    ensures { result ≡ nodes_from classes.now class }
{
    run_length(&classes[class..], class)
}

/// How many of the first numbers are this one.
fn run_length(numbers: &[u32], number: usize) -> usize
    ensures { result ≡ run_length numbers.now number }
{
    numbers
        .iter()
        .take_while(|other| is_number(**other, number))
        .count()
}

/// Whether two numbers are equal.
fn is_number(number: u32, other: usize) -> bool
    ensures { result ≡ (number == other) }
{
    number as usize == other
}

/// Writes of classes how many of them each has.
pub(crate) fn sizes_notes<W: Sink>(
    printer: &mut Printer<'_, W>,
    sizes: &[Size<'_>],
) -> Result<(), SinkFailed>
    ensures { Prints printer.old printer.new (sizes_notes sizes.now) result }
{
    for size in sizes {
        size_note(printer, size)?;
    }
    Ok(())
}

/// Writes of a class how many of them it has.
fn size_note<W: Sink>(printer: &mut Printer<'_, W>, size: &Size<'_>) -> Result<(), SinkFailed>
    ensures { Prints printer.old printer.new (size_note size.now) result }
{
    note(
        printer,
        &[
            Part::Shown(size.path),
            Part::Plain(" has "),
            Part::Number(size.count as u64),
            Part::Plain(" of them"),
        ],
    )
}
