//! What a command tells besides a report.
ghost use Rattle.std.specs.Prelude.{◌≡◌, IfSome, IsSomeAnd, None, is_some};
ghost use Rattle.iso_arguments.specs.RequestBounds.{AsksForNoMore};
ghost use Rattle.iso_run.specs.Besides.{IsPlain};
ghost use Rattle.iso_run.specs.Commands.{again_of, page_commands, tells_of_skipped};
ghost use Rattle.iso_telling.specs.Telling.{nothing_yet, told_nothing};

use crate::course::Course;
use iso_arguments::request::{Extras, InputFiles, Summarized};
use iso_html::again::Commands;
use iso_summary::again::Again;
use iso_tap::memory::MemorySink;
use iso_telling::tells::{DurationsText, PageText, SummaryText, Tells};
use std::alloc::Global;

/// What a command tells besides a report.
#[derive(Drop)]
pub(crate) struct Besides<'b, 'a> {
    pub tells: Tells<'b>,
    /// The file into which the paths of what failed are written.
    pub failed: Option<&'a str>,
    /// The file into which the results are written as JUnit's XML.
    pub junit: Option<&'a str>,
    /// The file into which the results are written as a page to look at.
    pub html: Option<&'a str>,
    /// What is told of the course of the run.
    pub course: Course,
    /// The file into which the events of the run are written.
    pub schedule: Option<&'a str>,
    /// The file into which its trace is written.
    pub trace: Option<&'a str>,
}

impl<'b, 'a> Besides<'b, 'a> {
    /// Nothing.
    pub fn nothing() -> Besides<'b, 'a>
        ensures { IsPlain result }
    {
        Besides {
            tells: Tells::nothing(),
            failed: None,
            junit: None,
            html: None,
            course: Course::nothing(),
            schedule: None,
            trace: None,
        }
    }

    /// What is asked for with these files, by the number of processors that are counted with, and
    /// nothing of the course of a run.
    pub fn new(
        alloc: Global,
        extras: Extras<'a>,
        files: &'b InputFiles<'b>,
        processors: u32,
    ) -> Besides<'b, 'a>
        ensures failed_file { result.failed ≡ extras.entry.failed }
        ensures junit_file { result.junit ≡ extras.entry.junit }
        ensures html_file { result.html ≡ extras.entry.html }
        ensures schedule_file { result.schedule ≡ extras.entry.«record» }
        ensures trace_file { result.trace ≡ extras.entry.trace }
        ensures names { result.tells.names.now ≡ files.now.scripts.items }
        ensures failed { result.tells.failed ≡ told_nothing (is_some extras.entry.failed) }
        ensures junit { result.tells.junit ≡ told_nothing (is_some extras.entry.junit) }
        ensures unpaged { extras.entry.html ≡ None → result.tells.html ≡ None }
        ensures page { IfSome extras.entry.html
            (λ name. IsSomeAnd result.tells.html
            (λ p. (p.commands ≡ page_commands files.now processors)
            × (p.text ≡ nothing_yet))) }
        ensures github { result.tells.github ≡ told_nothing extras.entry.github }
        ensures untimed { extras.entry.durations ≡ None → result.tells.durations ≡ None }
        ensures durations { IfSome extras.entry.durations
            (λ most. IsSomeAnd result.tells.durations
            (λ d. (d.most ≡ most) × (d.text ≡ nothing_yet))) }
        ensures unasked { extras.entry.summary ≡ None → result.tells.summary ≡ None }
        ensures summary { IfSome extras.entry.summary
            (λ of. IsSomeAnd result.tells.summary (λ s. (s.skipped ≡ tells_of_skipped of)
            × (s.explain ≡ files.now.explain) × (s.again ≡ again_of files.now processors)
            × (s.text ≡ nothing_yet))) }
        ensures plain { AsksForNoMore extras.entry → IsPlain result }
    {
        let summary = match extras.summary {
            Some(of) => Some(SummaryText::new(
                alloc,
                of == Summarized::All,
                files.explain,
                again_of(files, processors),
            )),
            None => None,
        };
        let html = match extras.html {
            Some(_) => Some(PageText::new(alloc, page_commands(files, processors))),
            None => None,
        };
        let durations = match extras.durations {
            Some(most) => Some(DurationsText::new(alloc, most)),
            None => None,
        };
        Besides {
            tells: Tells {
                names: &files.scripts,
                failed: asked_text(alloc, extras.failed.is_some()),
                summary,
                junit: asked_text(alloc, extras.junit.is_some()),
                html,
                github: asked_text(alloc, extras.github),
                durations,
            },
            failed: extras.failed,
            junit: extras.junit,
            html: extras.html,
            course: Course::nothing(),
            schedule: extras.record,
            trace: extras.trace,
        }
    }
}

/// A text of which nothing was told, where one is asked for.
pub(crate) fn asked_text(alloc: Global, asked: bool) -> Option<MemorySink>
    ensures { result ≡ told_nothing asked }
{
    if asked {
        Some(MemorySink::new(alloc))
    } else {
        None
    }
}

/// The commands that a page tells.
fn page_commands<'a>(files: &'a InputFiles<'a>, processors: u32) -> Commands<'a>
    ensures { result ≡ page_commands files.now processors }
{
    Commands {
        again: again_of(files, processors),
        named: !files.scripts.is_empty(),
    }
}

/// The words of a command with these files that another one needs for the same results, by the
/// number of processors that were counted with.
fn again_of<'a>(files: &'a InputFiles<'a>, processors: u32) -> Again<'a>
    ensures { result ≡ again_of files.now processors }
{
    Again {
        settings: files.settings,
        world: files.world,
        processors: match files.processors {
            Some(_) => Some(processors),
            None => None,
        },
    }
}
