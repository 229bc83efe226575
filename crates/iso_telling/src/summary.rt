//! The summary of a run, in memory.
ghost use Rattle.std.specs.Prelude.{◌≡◌, OnOk};
ghost use Rattle.iso_lifecycle.specs.ResultViews.{AreComplete, outcome_in};
ghost use Rattle.iso_plan.specs.RowView.{tree_of};
ghost use Rattle.iso_telling.specs.Telling.{AddsSummary, summary_of};
ghost use Rattle.iso_telling.specs.Written.{lent};

use crate::lines::lines_told;
use crate::located::all_located;
use crate::nodes::told_nodes;
use crate::tells::SummaryText;
use iso_lifecycle::results::Results;
use iso_places::site::Sites;
use iso_plan::plan::Plan;
use iso_summary::summary::write_summary;
use std::alloc::{AllocError, Global};

/// Adds the summary of results to a summary's text, of scripts with these names and bytes.
pub(crate) fn add_summary(
    alloc: Global,
    summary: &mut SummaryText<'_>,
    names: &[&str],
    texts: &[&[u8]],
    sites: &Sites,
    plan: &Plan,
    results: &Results<'_>,
) -> Result<(), AllocError>
    requires plan { results.now.plan ≡ plan.now }
    requires complete { AreComplete results.now }
    ensures { OnOk result (AddsSummary
        (summary_of (lent texts.now) (tree_of plan.now) (outcome_in results.now) sites.now
        (lent names.now) summary.old) summary.old summary.new) }
{
    let nodes = told_nodes(alloc, plan, results, summary.skipped)?;
    let lines = lines_told(alloc, plan, results, sites, summary.explain, &nodes)?;
    let places = all_located(alloc, names, texts, &lines)?;
    match write_summary(
        plan,
        results,
        &nodes,
        &places,
        &summary.again,
        &mut summary.text,
    ) {
        Ok(()) => Ok(()),
        Err(_) => Err(AllocError),
    }
}
