//! What was measured of a run.
ghost use Rattle.std.specs.Prelude.{◌≡◌, IfOk};
ghost use Rattle.iso_html.specs.Measured.{measured_of};
ghost use Rattle.iso_junit.specs.Runs.{run_of};
ghost use Rattle.iso_lifecycle.specs.ResultViews.{AreComplete};

use crate::picture::picture;
use crate::shape::Shape;
use crate::slowest::{Timed, slowest};
use crate::usage::{Usage, usages};
use iso_critical::critical::CriticalBodies;
use iso_junit::run::Run;
use iso_stats::figures::Figures;
use iso_times::times::Times;
use iso_waits::wait::NodeWait;
use std::alloc::{AllocError, Global};
use std::marker::Model;

/// How many pixels wide the picture is.
const PIXELS: u32 = 1_000;

/// What the page shows of what was measured of a run: its figures, how its keys were used, the
/// picture of it, and the slowest of its nodes.
#[derive(Drop)]
pub struct Measured<'a> {
    figures: &'a Figures,
    usages: Vec<Usage>,
    shapes: Vec<Shape>,
    slowest: Vec<Timed>,
}

impl<'a> Model for Measured<'a> {
    ghost use Rattle.iso_html.specs.Measured.{MeasuredView};

    ghost Value = { MeasuredView };

    ghost view = { λ m. record {
      figures = m.figures.now;
      usages = m.usages.items;
      shapes = m.shapes.items;
      slowest = m.slowest.items;
    } };
}

impl<'a> Measured<'a> {
    /// Of a run whose bodies had these times, whose figures these are, whose nodes had these waits
    /// and whose critical bodies are these. All nodes but the root must have results.
    pub fn new(
        alloc: Global,
        run: &Run<'_, '_>,
        times: &'a Times,
        figures: &'a Figures,
        waits: &'a [NodeWait],
        critical: &'a CriticalBodies,
    ) -> Result<Measured<'a>, AllocError>
        requires complete { AreComplete run.now.results.now }
        ensures { IfOk result
            (λ m. m ≡ measured_of (run_of run.now) times.now figures.now waits.now critical.now) }
    {
        let usages = usages(alloc, run.plan, times, waits)?;
        let shapes = picture(
            alloc,
            run,
            times,
            critical,
            &usages,
            PIXELS,
            figures.span,
            figures.workers,
        )?;
        let slowest = slowest(alloc, run.plan, run.times)?;
        Ok(Measured {
            figures,
            usages,
            shapes,
            slowest,
        })
    }

    /// Its figures.
    pub(crate) fn figures(&self) -> &Figures
        ensures { result.now ≡ self.now.figures }
    {
        self.figures
    }

    /// How its keys were used, by their numbers.
    pub(crate) fn usages(&self) -> &[Usage]
        ensures { result.now ≡ self.now.usages }
    {
        &self.usages
    }

    /// The picture of it.
    pub(crate) fn shapes(&self) -> &[Shape]
        ensures { result.now ≡ self.now.shapes }
    {
        &self.shapes
    }

    /// The slowest of its nodes.
    pub(crate) fn slowest(&self) -> &[Timed]
        ensures { result.now ≡ self.now.slowest }
    {
        &self.slowest
    }
}
