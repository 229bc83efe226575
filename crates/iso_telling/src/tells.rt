//! What a run tells besides its report.
ghost use Rattle.std.specs.Prelude.{◌≡◌, None, OnOk, is_some, length, map};
ghost use Rattle.std.specs.Option.{option_map};
ghost use Rattle.iso_failures.specs.Failures.{failed_text};
ghost use Rattle.iso_github.specs.Errors.{errors_text};
ghost use Rattle.iso_junit.specs.Documents.{junit_text};
ghost use Rattle.iso_junit.specs.Runs.{placed_of, run_of};
ghost use Rattle.iso_lifecycle.specs.ResultViews.{AreComplete, outcome_in};
ghost use Rattle.iso_plan.specs.RowView.{tree_of};
ghost use Rattle.iso_telling.specs.Excerpts.{excerpts};
ghost use Rattle.iso_telling.specs.Pages.{IsPaged, page_of, watched_of};
ghost use Rattle.iso_telling.specs.Telling.{AddsDurations, HasTold, HasToldPlaces, IsSummarized, IsTimed, IsTold, nothing_yet, summary_of, wants_places, wants_times};
ghost use Rattle.iso_telling.specs.Written.{lent, written_of};

use crate::page::add_page;
use crate::places::node_places;
use crate::summary::add_summary;
use crate::watched::Watched;
use crate::written::Written;
use iso_durations::durations::Durations;
use iso_durations::text::write_durations;
use iso_failures::text::write_failed;
use iso_github::errors::write_errors;
use iso_html::again::Commands;
use iso_junit::junit::write_junit;
use iso_junit::placed::Placed;
use iso_junit::run::Run;
use iso_lifecycle::results::Results;
use iso_places::locate::locate;
use iso_places::site::Sites;
use iso_plan::plan::Plan;
use iso_summary::again::Again;
use iso_tap::memory::MemorySink;
use std::alloc::{AllocError, Global};

/// What a run tells besides its report, each text in memory, where it is asked for.
#[derive(Drop)]
pub struct Tells<'a> {
    /// The names of the scripts, in their order; none where the script is standard input.
    pub names: &'a [&'a str],
    /// The paths of the failed classes and tests, one a line.
    pub failed: Option<MemorySink>,
    /// The summary for people.
    pub summary: Option<SummaryText<'a>>,
    /// The results as JUnit's XML.
    pub junit: Option<MemorySink>,
    /// The results as a page to look at.
    pub html: Option<PageText<'a>>,
    /// A line for GitHub of each that failed.
    pub github: Option<MemorySink>,
    /// The slowest classes and tests.
    pub durations: Option<DurationsText>,
}

/// A summary: what it tells of, with which words, and its text.
#[derive(Drop)]
pub struct SummaryText<'a> {
    /// Whether skipped tests are told of, too.
    pub skipped: bool,
    /// Whether it tells what mends a fault.
    pub explain: bool,
    pub again: Again<'a>,
    pub text: MemorySink,
}

/// A page to look at: the commands that it tells, and its text.
#[derive(Drop)]
pub struct PageText<'a> {
    pub commands: Commands<'a>,
    pub text: MemorySink,
}

/// The slowest classes and tests: how many of them at most, or 0 for all, and the text.
#[derive(Drop)]
pub struct DurationsText {
    pub most: u32,
    pub text: MemorySink,
}

impl Tells<'_> {
    /// Asks for nothing.
    pub fn nothing() -> Self
        ensures failed { result.failed ≡ None }
        ensures summary { result.summary ≡ None }
        ensures junit { result.junit ≡ None }
        ensures html { result.html ≡ None }
        ensures github { result.github ≡ None }
        ensures durations { result.durations ≡ None }
    {
        Tells {
            names: &[],
            failed: None,
            summary: None,
            junit: None,
            html: None,
            github: None,
            durations: None,
        }
    }

    /// Whether it has to be known where classes and tests stand.
    pub fn wants_places(&self) -> bool
        ensures { result ≡ wants_places self.now }
    {
        self.summary.is_some()
            || self.junit.is_some()
            || self.html.is_some()
            || self.github.is_some()
    }

    /// Whether it has to be known how long the bodies took.
    pub fn wants_times(&self) -> bool
        ensures { result ≡ wants_times self.now }
    {
        self.junit.is_some() || self.html.is_some() || self.durations.is_some()
    }

    /// Whether what was watched of a run is told.
    pub fn wants_watched(&self) -> bool
        ensures { result ≡ is_some self.now.html }
    {
        self.html.is_some()
    }

    /// Tells of results what is asked for. The times are those of the nodes by their numbers, in
    /// microseconds: what isn't there wasn't measured; nor was the rest, where nothing was watched.
    /// Each text is added to what was told before. Out of memory is also answered where a node of
    /// the plan has no place among those of the scripts.
    pub fn tell(
        &mut self,
        alloc: Global,
        written: &Written<'_>,
        plan: &Plan,
        results: &Results<'_>,
        times: &[Option<u64>],
        watched: Option<Watched<'_>>,
    ) -> Result<(), AllocError>
        requires plan { results.now.plan ≡ plan.now }
        requires complete { AreComplete results.now }
        ensures { OnOk result (HasTold (written_of written.now) (tree_of plan.now) plan.now.settings
            (outcome_in results.now) times.now
            (option_map watched_of watched.entry) self.old self.new) }
    {
        tell_failed(&mut self.failed, plan, results)?;
        tell_durations(alloc, &mut self.durations, plan, times)?;
        if !self.wants_places() {
            return Ok(());
        }
        let Ok(sites) = locate(alloc, written.scripts, written.places, plan) else {
            return Err(AllocError);
        };
        self.tell_places(alloc, written, &sites, plan, results, times, watched)
    }

    /// Tells what stands with its place.
    fn tell_places(
        &mut self,
        alloc: Global,
        written: &Written<'_>,
        sites: &Sites,
        plan: &Plan,
        results: &Results<'_>,
        times: &[Option<u64>],
        watched: Option<Watched<'_>>,
    ) -> Result<(), AllocError>
        requires plan { results.now.plan ≡ plan.now }
        requires complete { AreComplete results.now }
        ensures { OnOk result (HasToldPlaces (written_of written.now)
            (tree_of plan.now) plan.now.settings (outcome_in results.now) times.now
            (option_map watched_of watched.entry) sites.now self.old self.new) }
    {
        let texts = written.texts;
        tell_summary(
            alloc,
            &mut self.summary,
            self.names,
            texts,
            sites,
            plan,
            results,
        )?;
        let places = node_places(alloc, self.names, plan, results, sites)?;
        tell_junit(&mut self.junit, plan, results, &places, times)?;
        let run = Run {
            plan,
            results,
            places: &places,
            times,
        };
        tell_page(alloc, &mut self.html, texts, sites, &run, watched)?;
        tell_errors(&mut self.github, plan, results, &places)
    }
}

impl SummaryText<'_> {
    /// A summary of which nothing was told. It grows in this allocator's memory.
    pub fn new(alloc: Global, skipped: bool, explain: bool, again: Again<'_>) -> SummaryText<'_>
        ensures skipped { result.skipped ≡ skipped }
        ensures explain { result.explain ≡ explain }
        ensures again { result.again ≡ again.entry }
        ensures text { result.text ≡ nothing_yet }
    {
        SummaryText {
            skipped,
            explain,
            again,
            text: MemorySink::new(alloc),
        }
    }
}

impl PageText<'_> {
    /// A page of which nothing was told. It grows in this allocator's memory.
    pub fn new(alloc: Global, commands: Commands<'_>) -> PageText<'_>
        ensures commands { result.commands ≡ commands.entry }
        ensures text { result.text ≡ nothing_yet }
    {
        PageText {
            commands,
            text: MemorySink::new(alloc),
        }
    }
}

impl DurationsText {
    /// A text of which nothing was told. It grows in this allocator's memory.
    pub fn new(alloc: Global, most: u32) -> DurationsText
        ensures most { result.most ≡ most }
        ensures text { result.text ≡ nothing_yet }
    {
        DurationsText {
            most,
            text: MemorySink::new(alloc),
        }
    }
}

/// Tells the slowest classes and tests, where they are asked for.
fn tell_durations(
    alloc: Global,
    asked: &mut Option<DurationsText>,
    plan: &Plan,
    times: &[Option<u64>],
) -> Result<(), AllocError>
    ensures { OnOk result (IsTimed (tree_of plan.now) times.now asked.old asked.new) }
{
    match asked {
        Some(durations) => add_durations(alloc, durations, plan, times),
        None => Ok(()),
    }
}

/// Adds the slowest classes and tests to their text.
fn add_durations(
    alloc: Global,
    durations: &mut DurationsText,
    plan: &Plan,
    times: &[Option<u64>],
) -> Result<(), AllocError>
    ensures { OnOk result (AddsDurations (tree_of plan.now) times.now durations.old durations.new) }
{
    let room = Durations::new(alloc, plan.len())?;
    match write_durations(room, plan, times, durations.most, &mut durations.text) {
        Ok(()) => Ok(()),
        Err(_) => Err(AllocError),
    }
}

/// Tells the paths of what failed, where they are asked for.
fn tell_failed(
    asked: &mut Option<MemorySink>,
    plan: &Plan,
    results: &Results<'_>,
) -> Result<(), AllocError>
    requires plan { results.now.plan ≡ plan.now }
    requires complete { AreComplete results.now }
    ensures { OnOk result (IsTold (failed_text (tree_of plan.now) (outcome_in results.now))
        asked.old asked.new) }
{
    match asked {
        Some(sink) => match write_failed(plan, results, sink) {
            Ok(()) => Ok(()),
            Err(_) => Err(AllocError),
        },
        None => Ok(()),
    }
}

/// Tells the summary, where it is asked for.
fn tell_summary(
    alloc: Global,
    asked: &mut Option<SummaryText<'_>>,
    names: &[&str],
    texts: &[&[u8]],
    sites: &Sites,
    plan: &Plan,
    results: &Results<'_>,
) -> Result<(), AllocError>
    requires plan { results.now.plan ≡ plan.now }
    requires complete { AreComplete results.now }
    ensures { OnOk result (IsSummarized
        (summary_of (lent texts.now) (tree_of plan.now) (outcome_in results.now) sites.now
        (lent names.now)) asked.old asked.new) }
{
    match asked {
        Some(summary) => add_summary(alloc, summary, names, texts, sites, plan, results),
        None => Ok(()),
    }
}

/// Tells the results as JUnit's XML, where it is asked for.
fn tell_junit(
    asked: &mut Option<MemorySink>,
    plan: &Plan,
    results: &Results<'_>,
    places: &[Placed<'_>],
    times: &[Option<u64>],
) -> Result<(), AllocError>
    requires plan { results.now.plan ≡ plan.now }
    requires complete { AreComplete results.now }
    requires places { length places.now ≡ length plan.now.rows }
    ensures { OnOk result (IsTold (junit_text (record {
      tree = tree_of plan.now;
      outcome = outcome_in results.now;
      places = map placed_of places.now;
      times = times.now;
    })) asked.old asked.new) }
{
    match asked {
        Some(sink) => match write_junit(plan, results, places, times, sink) {
            Ok(()) => Ok(()),
            Err(_) => Err(AllocError),
        },
        None => Ok(()),
    }
}

/// Tells the page, where it is asked for.
fn tell_page(
    alloc: Global,
    asked: &mut Option<PageText<'_>>,
    texts: &[&[u8]],
    sites: &Sites,
    run: &Run<'_, '_>,
    watched: Option<Watched<'_>>,
) -> Result<(), AllocError>
    requires { AreComplete run.now.results.now }
    ensures { OnOk result (IsPaged (page_of (run_of run.now) run.now.plan.now.settings
        (excerpts (lent texts.now) (tree_of run.now.plan.now) sites.now
        (outcome_in run.now.results.now))
        (option_map watched_of watched.entry)) asked.old asked.new) }
{
    match asked {
        Some(page) => add_page(alloc, page, texts, sites, run, watched),
        None => Ok(()),
    }
}

/// Tells GitHub of what failed, where it is asked for.
fn tell_errors(
    asked: &mut Option<MemorySink>,
    plan: &Plan,
    results: &Results<'_>,
    places: &[Placed<'_>],
) -> Result<(), AllocError>
    requires plan { results.now.plan ≡ plan.now }
    requires complete { AreComplete results.now }
    requires places { length places.now ≡ length plan.now.rows }
    ensures { OnOk result (IsTold (errors_text (tree_of plan.now) (outcome_in results.now)
        (map placed_of places.now)) asked.old asked.new) }
{
    match asked {
        Some(sink) => match write_errors(plan, results, places, sink) {
            Ok(()) => Ok(()),
            Err(_) => Err(AllocError),
        },
        None => Ok(()),
    }
}
