//! The printed plan of inputs.
ghost use Rattle.std.specs.Prelude.{◌≡◌, ◌≤◌, [], IfErr, IfOk, List, false, map, true};
ghost use Rattle.iso_model.specs.ScriptView.{script_of};
ghost use Rattle.iso_places.specs.Located.{AreSites};
ghost use Rattle.iso_places.specs.Sites.{all_sites, places_in};
ghost use Rattle.iso_places.specs.declared.site.Site.{Site};
ghost use Rattle.iso_plan.specs.RowView.{tree_of};
ghost use Rattle.iso_plan.specs.KeptNodes.{texts_of};
ghost use Rattle.iso_plan.specs.Tree.{tree};
ghost use Rattle.iso_run.specs.Commands.{ArePlaces};
ghost use Rattle.iso_run.specs.ExitStatuses.{IfLate, end_of, run_end};
ghost use Rattle.iso_run.specs.Runs.{AreSitesOf, Writes, places_text, suite_conflicts, suite_places, suite_plan, suite_tests, suite_why, why_text};
ghost use Rattle.iso_run.specs.Suites.{OfSuite};
ghost use Rattle.iso_tap.specs.Printers as P;
ghost use Rattle.iso_run.specs.declared.run_fault.RunFault.TheVariants.{Memory};
ghost use Rattle.iso_run.specs.declared.way.Way.TheVariants.{Serial};
ghost use Rattle.iso_why.specs.Reach.{IsReach};

use crate::inputs::{Inputs, Suite, read_inputs};
use crate::run_fault::RunFault;
use iso_conflicts::conflicts::write_conflicts;
use iso_conflicts::tests::tests_in;
use iso_placed_plan::plan::{write_placed_plan, write_placed_tests};
use iso_places::locate::locate;
use iso_places::site::Sites;
use iso_tap::fault::TapFault;
use iso_tap::plan::{write_plan, write_tests};
use iso_tap::sink::Sink;
use iso_why::plan::{write_plan_why, write_tests_why};
use iso_why::reach::reach;
use std::alloc::Global;

/// Reads inputs as `run_serial` does, for every script, and writes their plan to the sink: the line
/// `workers W`, and then of each node its number, kind, mode, locks and path.
///
/// The first fault of the inputs is answered; with any but `Write` the sink is asked nothing.
pub fn show_plan<W: Sink>(alloc: Global, inputs: Inputs<'_>, sink: &mut W) -> Result<(), RunFault>
    requires { 1 ≤ inputs.processors }
    ensures { Writes (λ _. true) suite_plan inputs.entry Serial (W.account sink.old)
        (W.account sink.new) result }
{
    let suite = read_inputs(alloc, inputs, false)?;
    match write_plan(&suite.plan, suite.settings.workers(), sink) {
        Ok(()) => Ok(()),
        Err(fault) => Err(RunFault::Write(fault.written)),
    }
}

/// Reads inputs as `show_plan` does, and writes of their plan the lines of its tests alone, with
/// the numbers that they have in it.
///
/// The first fault of the inputs is answered; with any but `Write` the sink is asked nothing.
pub fn show_tests<W: Sink>(alloc: Global, inputs: Inputs<'_>, sink: &mut W) -> Result<(), RunFault>
    requires { 1 ≤ inputs.processors }
    ensures { Writes (λ _. true) suite_tests inputs.entry Serial (W.account sink.old)
        (W.account sink.new) result }
{
    let suite = read_inputs(alloc, inputs, false)?;
    match write_tests(&suite.plan, sink) {
        Ok(()) => Ok(()),
        Err(fault) => Err(RunFault::Write(fault.written)),
    }
}

/// Reads inputs as `show_plan` does, and writes their plan, or of it the lines of its tests alone,
/// with the place of each node's name as a last field. The names are those of the scripts, in their
/// order; a script without one is standard input.
///
/// The first fault of the inputs is answered; with any but `Write` the sink is asked nothing.
pub fn show_places<W: Sink>(
    alloc: Global,
    inputs: Inputs<'_>,
    tests: bool,
    names: &[&str],
    sink: &mut W,
) -> Result<(), RunFault>
    requires { 1 ≤ inputs.processors }
    ensures { (sites : List Site) × IfLate (end_of (λ _. true) run_end result)
        (OfSuite inputs.entry (λ suite. AreSitesOf inputs.entry suite sites))
        × Writes (λ _. true) (suite_places tests (texts_of names.now) sites) inputs.entry Serial
        (W.account sink.old) (W.account sink.new) result }
{
    let suite = read_inputs(alloc, inputs, true)?;
    let sites = sites_of(alloc, &suite)?;
    match write_places(&suite, &sites, tests, names, sink) {
        Ok(()) => Ok(()),
        Err(fault) => Err(RunFault::Write(fault.written)),
    }
}

/// Reads inputs as `show_plan` does, and writes their plan, or of it the lines of its tests alone,
/// with the place of each node's name as a last field where places are asked for, and below the
/// line of each node why its mode and its locks are so. The names are those of the scripts, in
/// their order; a script without one is standard input. Without places they aren't looked at.
///
/// The first fault of the inputs is answered; with any but `Write` the sink is asked nothing.
pub fn show_why<W: Sink>(
    alloc: Global,
    inputs: Inputs<'_>,
    tests: bool,
    places: bool,
    names: &[&str],
    sink: &mut W,
) -> Result<(), RunFault>
    requires { 1 ≤ inputs.processors }
    ensures { (sites : List Site) × IfLate (end_of (λ _. true) run_end result)
        (ArePlaces places inputs.entry sites)
        × Writes (λ _. true) (suite_why tests (texts_of names.now) sites) inputs.entry Serial
        (W.account sink.old) (W.account sink.new) result }
{
    let suite = read_inputs(alloc, inputs, places)?;
    let sites = sites_asked(alloc, &suite, places)?;
    let ends = reach(alloc, &suite.plan)?;
    match write_why(&suite, &ends, &sites, tests, names, sink) {
        Ok(()) => Ok(()),
        Err(fault) => Err(RunFault::Write(fault.written)),
    }
}

/// Reads inputs as `show_plan` does, and writes for each key of their plan which classes and tests
/// take it, and how many tests can't run beside one another for it.
///
/// The first fault of the inputs is answered; with any but `Write` the sink is asked nothing.
pub fn show_conflicts<W: Sink>(
    alloc: Global,
    inputs: Inputs<'_>,
    sink: &mut W,
) -> Result<(), RunFault>
    requires { 1 ≤ inputs.processors }
    ensures { Writes (λ _. true) suite_conflicts inputs.entry Serial (W.account sink.old)
        (W.account sink.new) result }
{
    let suite = read_inputs(alloc, inputs, false)?;
    let tests = tests_in(alloc, &suite.plan)?;
    match write_conflicts(&suite.plan, suite.settings.workers(), &tests, sink) {
        Ok(()) => Ok(()),
        Err(fault) => Err(RunFault::Write(fault.written)),
    }
}

/// Writes the plan of a suite with reasons, or the lines of its tests alone.
fn write_why<W: Sink>(
    suite: &Suite,
    ends: &[u32],
    sites: &Sites,
    tests: bool,
    names: &[&str],
    sink: &mut W,
) -> Result<(), TapFault>
    requires { IsReach (tree_of suite.now.plan) ends.now }
    ensures { P.Writes (W.account sink.old) (W.account sink.new)
        (why_text tests (texts_of names.now) sites.now
        (tree_of suite.now.plan) suite.now.plan.settings suite.now.settings.worker_count)
        result }
{
    if tests {
        write_tests_why(&suite.plan, ends, sites, names, sink)
    } else {
        write_plan_why(
            &suite.plan,
            ends,
            suite.settings.workers(),
            sites,
            names,
            sink,
        )
    }
}

/// Writes the plan of a suite with these sites, or the lines of its tests alone.
fn write_places<W: Sink>(
    suite: &Suite,
    sites: &Sites,
    tests: bool,
    names: &[&str],
    sink: &mut W,
) -> Result<(), TapFault>
    ensures { P.Writes (W.account sink.old) (W.account sink.new)
        (places_text tests (texts_of names.now) sites.now
        (tree_of suite.now.plan) suite.now.plan.settings suite.now.settings.worker_count)
        result }
{
    if tests {
        write_placed_tests(&suite.plan, sites, names, sink)
    } else {
        write_placed_plan(&suite.plan, suite.settings.workers(), sites, names, sink)
    }
}

/// The sites of a suite's nodes where places are asked for, and else none. There is no fault but
/// out of memory.
fn sites_asked(alloc: Global, suite: &Suite, places: bool) -> Result<Sites, RunFault>
    ensures found { places ≡ true
        → IfOk result (AreSites (tree (map script_of suite.now.scripts.items))
        (all_sites (places_in suite.now.places.items)) (tree_of suite.now.plan)) }
    ensures none { places ≡ false → IfOk result (λ sites. sites ≡ []) }
    ensures fault { IfErr result (λ fault. fault ≡ Memory) }
{
    if places {
        sites_of(alloc, suite)
    } else {
        Ok(Sites::none(alloc))
    }
}

/// The sites of a suite's nodes. Each node of a suite that was read has one, so there is no fault
/// but out of memory.
pub(crate) fn sites_of(alloc: Global, suite: &Suite) -> Result<Sites, RunFault>
    ensures found { IfOk result (AreSites (tree (map script_of suite.now.scripts.items))
        (all_sites (places_in suite.now.places.items)) (tree_of suite.now.plan)) }
    ensures fault { IfErr result (λ fault. fault ≡ Memory) }
{
    match locate(alloc, &suite.scripts, &suite.places, &suite.plan) {
        Ok(sites) => Ok(sites),
        Err(_) => Err(RunFault::Memory),
    }
}
