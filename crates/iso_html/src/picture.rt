//! The picture of a run, piece by piece.
ghost use Rattle.std.specs.Prelude.{◌≡◌, ◌++◌, IfOk, OnOk, flat_map, map};
ghost use Rattle.iso_html.specs.Pictures.{key_shapes, keys_below, labels_below, lanes_below, picture, row_shapes, several_below, several_shapes, thin_groups, wide_shapes, with_thin};
ghost use Rattle.iso_junit.specs.Runs.{run_of};
ghost use Rattle.iso_lifecycle.specs.ResultViews.{AreComplete};

use crate::axis::{is_thin, pixel};
use crate::group::{add, blank, group_at};
use crate::lanes::lanes;
use crate::lists::list_at;
use crate::shape::{Group, Mark, Shape};
use crate::takers::takers;
use crate::usage::{Usage, usage_at};
use iso_critical::critical::CriticalBodies;
use iso_junit::run::Run;
use iso_times::times::Times;
use std::alloc::{AllocError, Global};

/// The picture, `pixels` pixels wide, of a run on `workers` workers that took `span`, whose
/// critical bodies are these.
pub(crate) fn picture(
    alloc: Global,
    run: &Run<'_, '_>,
    times: &Times,
    critical: &CriticalBodies,
    usages: &[Usage],
    pixels: u32,
    span: u64,
    workers: u32,
) -> Result<Vec<Shape>, AllocError>
    requires complete { AreComplete run.now.results.now }
    ensures { IfOk result (λ v. v.items ≡ picture (run_of run.now) times.now critical.now usages.now
        pixels span workers) }
{
    let lanes = lanes(alloc, run, times, critical, workers)?;
    let takers = takers(alloc, run.plan, times)?;
    let mut shapes = Vec::new(alloc);
    add_labels(&mut shapes, workers)?;
    shapes.push(Shape::Lanes(workers))?;
    add_lanes(alloc, &mut shapes, &lanes, pixels, span, workers)?;
    shapes.push(Shape::End)?;
    add_keys(
        alloc,
        &mut shapes,
        &takers,
        usages,
        pixels,
        span,
        run.plan.key_count(),
    )?;
    Ok(shapes)
}

/// Adds the labels of `workers` workers.
fn add_labels(shapes: &mut Vec<Shape>, workers: u32) -> Result<(), AllocError>
    ensures { OnOk result (shapes.new.items ≡ shapes.old.items ++ labels_below workers) }
{
    'workers: for worker in 0..workers {
        shapes.push(Shape::Label(worker))?;
    }
    Ok(())
}

/// Adds the lanes of `workers` workers.
fn add_lanes(
    alloc: Global,
    shapes: &mut Vec<Shape>,
    lanes: &[Vec<Mark>],
    pixels: u32,
    span: u64,
    workers: u32,
) -> Result<(), AllocError>
    ensures { OnOk result (shapes.new.items ≡ shapes.old.items
        ++ lanes_below (map (λ l. l.items) lanes.now) pixels span workers) }
{
    'workers: for worker in 0..workers {
        add_row(alloc, shapes, pixels, span, worker, list_at(lanes, worker))?;
    }
    Ok(())
}

/// Adds the rows of those of `count` keys that somebody waited for.
fn add_keys(
    alloc: Global,
    shapes: &mut Vec<Shape>,
    takers: &[Vec<Mark>],
    usages: &[Usage],
    pixels: u32,
    span: u64,
    count: u32,
) -> Result<(), AllocError>
    ensures { OnOk result (shapes.new.items ≡ shapes.old.items
        ++ keys_below (map (λ l. l.items) takers.now) usages.now pixels span count) }
{
    'keys: for key in 0..count {
        let usage = usage_at(usages, key);
        add_key(
            alloc,
            shapes,
            pixels,
            span,
            key,
            usage,
            list_at(takers, key),
        )?;
    }
    Ok(())
}

/// Adds the row of a key that was used so, where somebody waited for it.
fn add_key(
    alloc: Global,
    shapes: &mut Vec<Shape>,
    pixels: u32,
    span: u64,
    key: u32,
    usage: Usage,
    marks: &[Mark],
) -> Result<(), AllocError>
    ensures { OnOk result (shapes.new.items ≡ shapes.old.items
        ++ key_shapes pixels span key usage marks.now) }
{
    if usage.waits == 0 {
        return Ok(());
    }
    shapes.push(Shape::Key(key))?;
    add_row(alloc, shapes, pixels, span, 0, marks)?;
    shapes.push(Shape::End)?;
    Ok(())
}

/// Adds a row of bars.
fn add_row(
    alloc: Global,
    shapes: &mut Vec<Shape>,
    pixels: u32,
    span: u64,
    row: u32,
    marks: &[Mark],
) -> Result<(), AllocError>
    ensures { OnOk result (shapes.new.items ≡ shapes.old.items
        ++ row_shapes pixels span row marks.now) }
{
    let groups = thin_groups(alloc, pixels, span, marks)?;
    add_all_wide(shapes, span, row, marks)?;
    add_all_several(shapes, row, &groups, pixels)
}

/// Adds the bars that are as wide as a pixel, or wider.
fn add_all_wide(
    shapes: &mut Vec<Shape>,
    span: u64,
    row: u32,
    marks: &[Mark],
) -> Result<(), AllocError>
    ensures { OnOk result (shapes.new.items ≡ shapes.old.items
        ++ flat_map (wide_shapes span row) marks.now) }
{
    for mark in marks {
        add_wide(shapes, span, row, *mark)?;
    }
    Ok(())
}

/// Adds a bar, where it is as wide as a pixel, or wider.
fn add_wide(shapes: &mut Vec<Shape>, span: u64, row: u32, mark: Mark) -> Result<(), AllocError>
    ensures { OnOk result (shapes.new.items ≡ shapes.old.items ++ wide_shapes span row mark) }
{
    if is_thin(span, mark.bar.begin, mark.bar.end) {
        return Ok(());
    }
    shapes.push(Shape::One(row, mark))?;
    Ok(())
}

/// The thinner ones, by the pixel in which they begin.
fn thin_groups(
    alloc: Global,
    pixels: u32,
    span: u64,
    marks: &[Mark],
) -> Result<Vec<Group>, AllocError>
    ensures { IfOk result (λ v. v.items ≡ thin_groups pixels span marks.now) }
{
    let mut groups = blank(alloc, pixels)?;
    for mark in marks {
        add_thin(&mut groups, span, *mark);
    }
    Ok(groups)
}

/// Adds a bar to its pixel, where it is thinner.
fn add_thin(groups: &mut [Group], span: u64, mark: Mark)
    ensures { groups.new ≡ with_thin span groups.old mark }
{
    if is_thin(span, mark.bar.begin, mark.bar.end) {
        add(groups, pixel(span, mark.bar.begin), mark.bar);
    }
}

/// Adds the bars of `pixels` pixels, those of a pixel as one.
fn add_all_several(
    shapes: &mut Vec<Shape>,
    row: u32,
    groups: &[Group],
    pixels: u32,
) -> Result<(), AllocError>
    ensures { OnOk result (shapes.new.items ≡ shapes.old.items
        ++ several_below row groups.now pixels) }
{
    'pixels: for place in 0..pixels {
        add_several(shapes, row, place, group_at(groups, place))?;
    }
    Ok(())
}

/// Adds the bars of a pixel, where there are any.
fn add_several(
    shapes: &mut Vec<Shape>,
    row: u32,
    place: u32,
    group: Group,
) -> Result<(), AllocError>
    ensures { OnOk result (shapes.new.items ≡ shapes.old.items ++ several_shapes row place group) }
{
    if group.count == 0 {
        return Ok(());
    }
    shapes.push(Shape::Several(row, place, group))?;
    Ok(())
}
