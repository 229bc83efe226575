//! The picture of a run as SVG.
ghost use Rattle.std.specs.Prelude.{◌≡◌, flat_map};
ghost use Rattle.iso_html.specs.PictureText.{body_title, class_text, critical_class, group_text, group_title, group_word, height_text, key_row_text, kind_text, lanes_text, mark_text, more, rect_text, shape_text, taken_title, title_of, top, word_text};
ghost use Rattle.iso_junit.specs.Runs.{run_of};
ghost use Rattle.iso_lifecycle.specs.ResultViews.{AreComplete};
ghost use Rattle.iso_plan.specs.RowView.{tree_of};
ghost use Rattle.iso_tap.specs.Printers.{Prints};

use crate::axis::{at, width};
use crate::part::Part;
use crate::shape::{Bar, Group, Look, Mark, Shape, What};
use crate::sign::{critical_word, verdict_word};
use crate::writing::write_parts;
use iso_junit::run::Run;
use iso_lifecycle::kind::BodyKind;
use iso_model::access::Access;
use iso_plan::plan::Plan;
use iso_tap::printer::Printer;
use iso_tap::sink::{Sink, SinkFailed};

/// Writes pieces of the picture of a run that took so long.
pub(crate) fn shapes<W: Sink>(
    printer: &mut Printer<'_, W>,
    run: &Run<'_, '_>,
    span: u64,
    shapes: &[Shape],
) -> Result<(), SinkFailed>
    requires complete { AreComplete run.now.results.now }
    ensures { Prints printer.old printer.new
        (flat_map (shape_text (run_of run.now) span) shapes.now) result }
{
    for piece in shapes {
        shape(printer, run, span, piece)?;
    }
    Ok(())
}

/// Writes a piece.
fn shape<W: Sink>(
    printer: &mut Printer<'_, W>,
    run: &Run<'_, '_>,
    span: u64,
    shape: &Shape,
) -> Result<(), SinkFailed>
    requires complete { AreComplete run.now.results.now }
    ensures { Prints printer.old printer.new (shape_text (run_of run.now) span shape.now) result }
{
    match *shape {
        Shape::Label(worker) => write_parts(
            printer,
            run.plan,
            &[
                Part::Plain("<li>worker "),
                Part::Number(u64::from(worker)),
                Part::Plain("</li>\n"),
            ],
        ),
        Shape::Lanes(workers) => lanes(printer, run.plan, u64::from(workers) * 24),
        Shape::Key(key) => key_row(printer, run, key),
        Shape::One(row, found) => mark(printer, run, span, row, found),
        Shape::Several(row, place, found) => group(printer, run, row, place, found),
        Shape::End => printer.bytes(b"</svg>\n</div>\n"),
    }
}

/// Writes the begin of lanes that are so high together.
fn lanes<W: Sink>(printer: &mut Printer<'_, W>, plan: &Plan, height: u64) -> Result<(), SinkFailed>
    ensures { Prints printer.old printer.new (lanes_text height) result }
{
    write_parts(
        printer,
        plan,
        &[
            Part::Plain(
                "</ol>\n<svg role=\"img\" aria-label=\"What each worker ran\" viewBox=\"0 0 1000 ",
            ),
            Part::Number(height),
            Part::Plain("\" height=\""),
            Part::Number(height),
            Part::Plain("\" preserveAspectRatio=\"none\">\n"),
        ],
    )
}

/// Writes the begin of the row of a key.
fn key_row<W: Sink>(
    printer: &mut Printer<'_, W>,
    run: &Run<'_, '_>,
    key: u32,
) -> Result<(), SinkFailed>
    ensures { Prints printer.old printer.new (key_row_text (run_of run.now) key) result }
{
    write_parts(
        printer,
        run.plan,
        &[
            Part::Plain("<div class=\"run\">\n<ol>\n<li title=\"who had "),
            Part::Key(key),
            Part::Plain("\">key "),
            Part::Key(key),
            Part::Plain("</li>\n</ol>\n<svg role=\"img\" aria-label=\"Who had "),
            Part::Key(key),
            Part::Plain("\" viewBox=\"0 0 1000 24\" height=\"24\" preserveAspectRatio=\"none\">\n"),
        ],
    )
}

/// Writes a bar of its own.
fn mark<W: Sink>(
    printer: &mut Printer<'_, W>,
    run: &Run<'_, '_>,
    span: u64,
    row: u32,
    mark: Mark,
) -> Result<(), SinkFailed>
    requires complete { AreComplete run.now.results.now }
    ensures { Prints printer.old printer.new (mark_text (run_of run.now) span row mark) result }
{
    let bar = mark.bar;
    rect(
        printer,
        run.plan,
        bar.look,
        bar.critical,
        row,
        at(span, bar.begin),
        width(span, bar.begin, bar.end),
    )?;
    title(printer, run, bar, mark.what)
}

/// Writes the title of a bar of its own.
fn title<W: Sink>(
    printer: &mut Printer<'_, W>,
    run: &Run<'_, '_>,
    bar: Bar,
    what: What,
) -> Result<(), SinkFailed>
    requires complete { AreComplete run.now.results.now }
    ensures { Prints printer.old printer.new (title_of (run_of run.now) bar what) result }
{
    match what {
        What::Body(kind) => body_title(printer, run, bar, kind),
        What::Taken(access) => taken_title(printer, run.plan, bar, access),
    }
}

/// Writes the title of a body.
fn body_title<W: Sink>(
    printer: &mut Printer<'_, W>,
    run: &Run<'_, '_>,
    bar: Bar,
    kind: BodyKind,
) -> Result<(), SinkFailed>
    requires complete { AreComplete run.now.results.now }
    ensures { Prints printer.old printer.new (body_title (run_of run.now) bar kind) result }
{
    write_parts(
        printer,
        run.plan,
        &[
            Part::Node(bar.node),
            Part::Plain(kind_text(kind)),
            Part::Plain(": "),
            Part::Plain(word(run, bar.node)),
            Part::Plain(critical_word(bar.critical)),
            Part::Plain(", "),
            Part::Seconds(bar.begin),
            Part::Plain(" to "),
            Part::Seconds(bar.end),
            Part::Plain("</title></rect>\n"),
        ],
    )
}

/// What stands behind the path of a node in the name of its body.
fn kind_text(kind: BodyKind) -> &'static str
    ensures { result.now ≡ kind_text kind }
{
    match kind {
        BodyKind::BeforeAll => " before_all",
        BodyKind::Test => "",
        BodyKind::AfterAll => " after_all",
    }
}

/// What a node came to, in a word.
fn word(run: &Run<'_, '_>, node: u32) -> &'static str
    requires complete { AreComplete run.now.results.now }
    ensures { result.now ≡ word_text (run_of run.now) node }
{
    if node == 0 || run.plan.len() <= node {
        return "";
    }
    verdict_word(run.view(node).verdict)
}

/// Writes the title of a node that took a key so.
fn taken_title<W: Sink>(
    printer: &mut Printer<'_, W>,
    plan: &Plan,
    bar: Bar,
    access: Access,
) -> Result<(), SinkFailed>
    ensures { Prints printer.old printer.new (taken_title (tree_of plan.now) bar access) result }
{
    write_parts(
        printer,
        plan,
        &[
            Part::Node(bar.node),
            Part::Plain(": "),
            Part::Plain(access.word()),
            Part::Plain(", "),
            Part::Seconds(bar.begin),
            Part::Plain(" to "),
            Part::Seconds(bar.end),
            Part::Plain("</title></rect>\n"),
        ],
    )
}

/// That there are more.
fn more(count: u64) -> &'static str
    ensures { result.now ≡ more count }
{
    if count == 1 { "" } else { ", .." }
}

/// Writes bars that are drawn as one.
fn group<W: Sink>(
    printer: &mut Printer<'_, W>,
    run: &Run<'_, '_>,
    row: u32,
    place: u32,
    group: Group,
) -> Result<(), SinkFailed>
    ensures { Prints printer.old printer.new (group_text (run_of run.now) row place group) result }
{
    rect(
        printer,
        run.plan,
        group.look,
        group.critical,
        row,
        u64::from(place) * 100,
        100,
    )?;
    group_title(printer, run, group)
}

/// Writes their title.
fn group_title<W: Sink>(
    printer: &mut Printer<'_, W>,
    run: &Run<'_, '_>,
    group: Group,
) -> Result<(), SinkFailed>
    ensures { Prints printer.old printer.new (group_title (run_of run.now) group) result }
{
    write_parts(
        printer,
        run.plan,
        &[
            Part::Number(group.count),
            Part::Plain(group_word(group.look, group.count)),
            Part::Node(group.first),
            Part::Plain(more(group.count)),
            Part::Plain(critical_word(group.critical)),
            Part::Plain(", "),
            Part::Seconds(group.begin),
            Part::Plain(" to "),
            Part::Seconds(group.end),
            Part::Plain("</title></rect>\n"),
        ],
    )
}

/// What bars that are drawn as one are called.
fn group_word(look: Look, count: u64) -> &'static str
    ensures { result.now ≡ group_word look count }
{
    match (look, count) {
        (Look::Well | Look::Failed, 1) => " body: ",
        (Look::Well | Look::Failed, _) => " bodies: ",
        (Look::Reading | Look::Writing, 1) => " node: ",
        (Look::Reading | Look::Writing, _) => " nodes: ",
    }
}

/// Writes the beginning of a bar.
fn rect<W: Sink>(
    printer: &mut Printer<'_, W>,
    plan: &Plan,
    look: Look,
    critical: bool,
    row: u32,
    place: u64,
    wide: u64,
) -> Result<(), SinkFailed>
    ensures { Prints printer.old printer.new (rect_text look critical row place wide) result }
{
    write_parts(
        printer,
        plan,
        &[
            Part::Plain("<rect class=\""),
            Part::Plain(class_text(look)),
            Part::Plain(critical_class(critical)),
            Part::Plain("\" x=\""),
            Part::Hundredths(place),
            Part::Plain("\" y=\""),
            Part::Number(u64::from(row) * 24 + top(look)),
            Part::Plain("\" width=\""),
            Part::Hundredths(wide),
            Part::Plain("\" height=\""),
            Part::Plain(height_text(look)),
            Part::Plain("\"><title>"),
        ],
    )
}

/// The class of a bar.
fn class_text(look: Look) -> &'static str
    ensures { result.now ≡ class_text look }
{
    match look {
        Look::Well => "b",
        Look::Failed => "f",
        Look::Reading => "r",
        Look::Writing => "w",
    }
}

/// The other class that the bar of a critical body has.
fn critical_class(critical: bool) -> &'static str
    ensures { result.now ≡ critical_class critical }
{
    if critical { " c" } else { "" }
}

/// How far from the top of its lane a bar begins.
fn top(look: Look) -> u64
    ensures { result ≡ top look }
{
    match look {
        Look::Well | Look::Reading => 6,
        Look::Failed | Look::Writing => 2,
    }
}

/// How high a bar is.
fn height_text(look: Look) -> &'static str
    ensures { result.now ≡ height_text look }
{
    match look {
        Look::Well | Look::Reading => "12",
        Look::Failed | Look::Writing => "20",
    }
}
