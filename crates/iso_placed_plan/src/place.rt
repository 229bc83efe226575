//! Places of nodes as they are shown.
ghost use Rattle.std.specs.Prelude.{◌≡◌};
ghost use Rattle.iso_places.specs.Sites.{site_at};
ghost use Rattle.iso_placed_plan.specs.PlacedPlan.{place_field, place_text, script_name};
ghost use Rattle.iso_plan.specs.KeptNodes.{texts_of};
ghost use Rattle.iso_tap.specs.Printers.{Prints};

use iso_places::site::{Site, Sites};
use iso_summary::name::planned_name;
use iso_tap::printer::{Piece, Printer};
use iso_tap::sink::{Sink, SinkFailed};

/// How the script is called that has no name: it was read from standard input.
const STDIN: &str = "stdin";

/// Writes the place of a node as a field of its line, and nothing where it has none.
pub(crate) fn place_field<W: Sink>(
    printer: &mut Printer<'_, W>,
    sites: &Sites,
    names: &[&str],
    node: u32,
) -> Result<(), SinkFailed>
    ensures { Prints printer.old printer.new
        (place_field (texts_of names.now) (site_at sites.now node)) result }
{
    match sites.site(node) {
        Some(site) => {
            printer.bytes(b" ")?;
            place(printer, names, site)
        }
        None => Ok(()),
    }
}

/// Writes a place: the script's name, the line and the column.
fn place<W: Sink>(
    printer: &mut Printer<'_, W>,
    names: &[&str],
    site: Site,
) -> Result<(), SinkFailed>
    ensures { Prints printer.old printer.new (place_text (texts_of names.now) site) result }
{
    planned_name(printer, script_name(names, site.script))?;
    printer.pieces(&[
        Piece::Plain(b":"),
        Piece::Number(u64::from(site.place.name.line)),
        Piece::Plain(b":"),
        Piece::Number(u64::from(site.place.name.column)),
    ])
}

/// The name of a script by its number.
fn script_name<'a>(names: &[&'a str], script: u32) -> &'a str
    ensures { result.now ≡ script_name (texts_of names.now) script }
{
    names.get(script as usize).copied().unwrap_or(STDIN)
}
