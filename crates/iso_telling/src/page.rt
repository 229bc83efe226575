//! The page of a run, in memory.
ghost use Rattle.std.specs.Prelude.{◌≡◌, IfOk, OnOk};
ghost use Rattle.std.specs.Option.{option_map};
ghost use Rattle.iso_junit.specs.Runs.{run_of};
ghost use Rattle.iso_lifecycle.specs.ResultViews.{AreComplete, outcome_in};
ghost use Rattle.iso_plan.specs.RowView.{tree_of};
ghost use Rattle.iso_telling.specs.Excerpts.{excerpts};
ghost use Rattle.iso_telling.specs.Pages.{AddsPage, measured, page_of, watched_of};
ghost use Rattle.iso_telling.specs.Written.{lent};

use crate::excerpts::node_lines;
use crate::tells::PageText;
use crate::watched::Watched;
use iso_html::measured::Measured;
use iso_html::page::write_html;
use iso_junit::run::Run;
use iso_places::site::Sites;
use std::alloc::{AllocError, Global};

/// Adds the page of a run to a page's text, of scripts with these bytes.
pub(crate) fn add_page(
    alloc: Global,
    page: &mut PageText<'_>,
    texts: &[&[u8]],
    sites: &Sites,
    run: &Run<'_, '_>,
    watched: Option<Watched<'_>>,
) -> Result<(), AllocError>
    requires { AreComplete run.now.results.now }
    ensures { OnOk result (AddsPage (page_of (run_of run.now) run.now.plan.now.settings
        (excerpts (lent texts.now) (tree_of run.now.plan.now) sites.now
        (outcome_in run.now.results.now))
        (option_map watched_of watched.entry) page.old) page.old page.new) }
{
    let lines = node_lines(alloc, &*texts, run.plan, run.results, sites)?;
    let measured = measured(alloc, run, watched)?;
    match write_html(
        run.plan,
        run.results,
        run.places,
        run.times,
        &lines,
        &page.commands,
        measured.as_ref(),
        &mut page.text,
    ) {
        Ok(()) => Ok(()),
        Err(_) => Err(AllocError),
    }
}

/// What the page shows of what was watched, if it was.
fn measured<'a>(
    alloc: Global,
    run: &Run<'_, '_>,
    watched: Option<Watched<'a>>,
) -> Result<Option<Measured<'a>>, AllocError>
    requires { AreComplete run.now.results.now }
    ensures { IfOk result (λ m. m ≡ option_map (measured (run_of run.now))
        (option_map watched_of watched.entry)) }
{
    let Some(watched) = watched else {
        return Ok(None);
    };
    let Watched {
        times,
        figures,
        waits,
        critical,
    } = watched;
    Ok(Some(Measured::new(alloc, run, times, figures, waits, critical)?))
}
