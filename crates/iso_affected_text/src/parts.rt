//! The rows of what differs of a node and its namesake.
ghost use Rattle.std.specs.Prelude.{◌≡◌, ◌++◌, ◌<◌, OnOk, length, map};
ghost use Rattle.std.specs.Option.{option_copied};
ghost use Rattle.iso_affected.specs.Fates.{IsNode};
ghost use Rattle.iso_affected.specs.OwnHeads.{lent_head};
ghost use Rattle.iso_affected_text.specs.Changes.{IsChange, change_of};
ghost use Rattle.iso_affected_text.specs.PartRows.{block_rows, blocks_rows, declared_rows, difference_rows, key_at, kind_part, name_at, of_class, part_rows, property_of, start_rows, variable_rows};
ghost use Rattle.iso_affected_text.specs.Rows.{row_of};
ghost use Rattle.iso_plan.specs.RowView.{tree_of};

use crate::change::{Change, path_at};
use crate::row::{Block, Part, Row};
use crate::spots::spot;
use iso_affected::difference::{Blocks, Difference};
use iso_affected::firsts::RowsApart;
use iso_affected::own::{OwnHead, own_head};
use iso_model::heads::{Mark, Variable};
use iso_model::place::Lifecycle;
use std::alloc::AllocError;

/// The key of the system properties.
const PROPERTIES: &str = "java.lang.System.properties";

/// Adds the rows of what differs of a node and its namesake.
pub(crate) fn add_difference<'a>(
    rows: &mut Vec<Row<'a>>,
    change: &Change<'a>,
    node: u32,
    namesake: u32,
    difference: Difference,
) -> Result<(), AllocError>
    requires change { IsChange change.now }
    requires node { IsNode (tree_of change.now.new.plan.now) node }
    requires namesake { IsNode (tree_of change.now.old.plan.now) namesake }
    ensures { OnOk result (map row_of rows.new.items ≡ map row_of rows.old.items
        ++ difference_rows (change_of change.now) node namesake difference) }
{
    let was = own_head(change.old.plan, namesake);
    let now = own_head(change.new.plan, node);
    let of = of_class(change, node);
    add_declared(rows, was, now, difference, of)?;
    add_blocks(rows, change, node, namesake, difference.blocks, of)?;
    add_start(rows, change.property, now.marks(), difference.start, of)
}

/// The class that is named, where a row is of a class: a test's own rows stand below its path.
fn of_class<'a>(change: &Change<'a>, node: u32) -> Option<&'a str>
    requires change { IsChange change.now }
    requires within { node < length change.now.new.plan.now.rows }
    ensures { option_copied result ≡ of_class (tree_of change.now.new.plan.now) node }
{
    if change.new.plan.is_test(node) {
        return None;
    }
    Some(path_at(&change.new, node))
}

/// Adds the rows of what differs of what two heads declare.
fn add_declared<'a>(
    rows: &mut Vec<Row<'a>>,
    was: OwnHead<'a>,
    now: OwnHead<'a>,
    difference: Difference,
    of: Option<&'a str>,
) -> Result<(), AllocError>
    ensures { OnOk result (map row_of rows.new.items
        ≡ map row_of rows.old.items ++ declared_rows (lent_head was.entry)
        (lent_head now.entry) difference (option_copied of.entry)) }
{
    let declared = difference.declared;
    add_part(rows, difference.kind, kind_part(now), of)?;
    add_part(rows, declared.marks, Part::Marks, of)?;
    add_part(rows, declared.disabled, Part::Disabled, of)?;
    add_variable(
        rows,
        declared.statics,
        Part::Static,
        was.statics(),
        now.statics(),
        of,
    )?;
    add_variable(
        rows,
        declared.fields,
        Part::Field,
        was.fields(),
        now.fields(),
        of,
    )
}

/// Which kind a head has become.
fn kind_part(now: OwnHead<'_>) -> Part
    ensures { result ≡ kind_part (lent_head now.entry) }
{
    match now {
        OwnHead::Test(_) => Part::NowTest,
        OwnHead::Class(_) => Part::NowClass,
    }
}

/// Adds the row of a part, where it differs.
fn add_part<'a>(
    rows: &mut Vec<Row<'a>>,
    is_apart: bool,
    part: Part,
    of: Option<&'a str>,
) -> Result<(), AllocError>
    ensures { OnOk result (map row_of rows.new.items ≡ map row_of rows.old.items
        ++ part_rows is_apart part (option_copied of.entry)) }
{
    if !is_apart {
        return Ok(());
    }
    rows.push(Row::Part {
        part,
        name: None,
        of,
    })?;
    Ok(())
}

/// Adds the row of the first variable that differs, where one does.
fn add_variable<'a>(
    rows: &mut Vec<Row<'a>>,
    place: Option<usize>,
    part: Part,
    was: &'a [Variable],
    now: &'a [Variable],
    of: Option<&'a str>,
) -> Result<(), AllocError>
    ensures { OnOk result (map row_of rows.new.items
        ≡ map row_of rows.old.items ++ variable_rows place part was.now now.now
        (option_copied of.entry)) }
{
    match place {
        Some(place) => {
            let name = Some(name_at(was, now, place));
            rows.push(Row::Part { part, name, of })?;
            Ok(())
        }
        None => Ok(()),
    }
}

/// The name of the variable at a place: the one that is there now, else the one that was.
fn name_at<'a>(was: &'a [Variable], now: &'a [Variable], place: usize) -> &'a str
    ensures { result.now ≡ name_at was.now now.now place }
{
    if place < now.len() {
        now[place].name.as_str()
    } else if place < was.len() {
        was[place].name.as_str()
    } else {
        ""
    }
}

/// Adds the rows of the blocks that differ.
fn add_blocks<'a>(
    rows: &mut Vec<Row<'a>>,
    change: &Change<'a>,
    node: u32,
    namesake: u32,
    blocks: Blocks,
    of: Option<&'a str>,
) -> Result<(), AllocError>
    requires change { IsChange change.now }
    requires node { IsNode (tree_of change.now.new.plan.now) node }
    requires namesake { IsNode (tree_of change.now.old.plan.now) namesake }
    ensures { OnOk result (map row_of rows.new.items
        ≡ map row_of rows.old.items ++ blocks_rows (change_of change.now) node namesake blocks
        (option_copied of.entry)) }
{
    let before_all = Block::Class(Lifecycle::BeforeAll);
    let before_each = Block::Class(Lifecycle::BeforeEach);
    let after_each = Block::Class(Lifecycle::AfterEach);
    let after_all = Block::Class(Lifecycle::AfterAll);
    add_block(
        rows,
        change,
        node,
        namesake,
        before_all,
        blocks.before_all,
        of,
    )?;
    add_block(
        rows,
        change,
        node,
        namesake,
        before_each,
        blocks.before_each,
        of,
    )?;
    add_block(rows, change, node, namesake, Block::Test, blocks.test, of)?;
    add_block(
        rows,
        change,
        node,
        namesake,
        after_each,
        blocks.after_each,
        of,
    )?;
    add_block(
        rows,
        change,
        node,
        namesake,
        after_all,
        blocks.after_all,
        of,
    )
}

/// Adds the row of a block, where it differs.
fn add_block<'a>(
    rows: &mut Vec<Row<'a>>,
    change: &Change<'a>,
    node: u32,
    namesake: u32,
    block: Block,
    apart: Option<RowsApart>,
    of: Option<&'a str>,
) -> Result<(), AllocError>
    requires change { IsChange change.now }
    requires node { IsNode (tree_of change.now.new.plan.now) node }
    requires namesake { IsNode (tree_of change.now.old.plan.now) namesake }
    ensures { OnOk result (map row_of rows.new.items
        ≡ map row_of rows.old.items ++ block_rows (change_of change.now) node namesake block apart
        (option_copied of.entry)) }
{
    match apart {
        Some(apart) => {
            let now = spot(&change.new, change.names, node, block, apart.now);
            let before = spot(&change.old, change.names, namesake, block, apart.before);
            rows.push(Row::Block {
                block,
                of,
                now,
                before,
            })?;
            Ok(())
        }
        None => Ok(()),
    }
}

/// Adds the row of the first of some marks whose key starts with another value, where one does.
fn add_start<'a>(
    rows: &mut Vec<Row<'a>>,
    property: Option<&'a str>,
    marks: &'a [Mark],
    place: Option<usize>,
    of: Option<&'a str>,
) -> Result<(), AllocError>
    ensures { OnOk result (map row_of rows.new.items
        ≡ map row_of rows.old.items ++ start_rows (option_copied property.entry) marks.now place
        (option_copied of.entry)) }
{
    match place {
        Some(place) => {
            let key = key_at(marks, place);
            let property = property_of(key, property);
            rows.push(Row::Start { key, of, property })?;
            Ok(())
        }
        None => Ok(()),
    }
}

/// The key of the mark at a place.
fn key_at(marks: &[Mark], place: usize) -> &str
    ensures { result.now ≡ key_at marks.now place }
{
    if place < marks.len() {
        marks[place].key.as_str()
    } else {
        ""
    }
}

/// The property that is told, where the key is that of the properties.
fn property_of<'a>(key: &str, property: Option<&'a str>) -> Option<&'a str>
    ensures { option_copied result ≡ property_of key.now (option_copied property.entry) }
{
    if key == PROPERTIES { property } else { None }
}
