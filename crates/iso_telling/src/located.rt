//! Lines of scripts, with their files.
ghost use Rattle.std.specs.Prelude.{◌≡◌, [], IfOk, codes, map, slice_index_or};
ghost use Rattle.iso_places.specs.LineStarts.{line_starts};
ghost use Rattle.iso_summary.specs.Views.{located_of};
ghost use Rattle.iso_telling.specs.ToldPlaces.{located_told, told_of};
ghost use Rattle.iso_telling.specs.Written.{lent};

use crate::table::{ScriptTable, text_of};
use crate::told::Told;
use iso_places::lines::LineTable;
use iso_summary::located::Located;
use std::alloc::{AllocError, Global};

/// Lines of scripts with these names and bytes, each with its file. A line beyond the numbers of 32
/// bits, which no script has, counts as out of memory.
pub(crate) fn all_located<'a>(
    alloc: Global,
    names: &'a [&'a str],
    texts: &'a [&'a [u8]],
    lines: &'a [Told],
) -> Result<Vec<Located<'a>>, AllocError>
    ensures { IfOk result (λ v. map located_of v.items
        ≡ map (located_told (lent names.now) (lent texts.now)) (map told_of lines.now)) }
{
    let mut places = Vec::with_capacity(alloc, lines.len())?;
    let Some(first) = lines.first() else {
        return Ok(places);
    };
    let mut at_hand = ScriptTable::new(alloc, texts, first.line.script)?;
    'lines: for told in lines {
        // Nodes are told of script after script, so that the table of each is made once.
        at_hand = at_hand.turned_to(alloc, texts, told.line.script)?;
        places.push(with_file(names, texts, &at_hand.table, told)?)?;
    }
    Ok(places)
}

/// A line with its file and what mends it, by the table of its script.
fn with_file<'a>(
    names: &'a [&'a str],
    texts: &'a [&'a [u8]],
    table: &LineTable,
    told: &'a Told,
) -> Result<Located<'a>, AllocError>
    requires { table.now ≡ line_starts (slice_index_or (lent texts.now) told.now.line.script []) }
    ensures { IfOk result (λ l. located_of l
        ≡ located_told (lent names.now) (lent texts.now) (told_of told.now)) }
{
    let at = told.line;
    let Ok(line) = u32::try_from(at.line) else {
        return Err(AllocError);
    };
    Ok(Located {
        file: name_of(names, at.script),
        named: (at.script as usize) < names.len(),
        line,
        source: table.line(text_of(texts, at.script), at.line),
        hints: &told.hints,
    })
}

/// The name of a script, or `stdin` where it has none.
pub(crate) fn name_of<'a>(names: &'a [&'a str], script: u32) -> &'a str
    ensures { result.now ≡ slice_index_or (lent names.now) script (codes "stdin") }
{
    match names.get(script as usize) {
        Some(name) => name,
        None => "stdin",
    }
}
