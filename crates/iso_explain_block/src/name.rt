//! Names that aren't visible: which one was meant, and which are.
ghost use Rattle.std.specs.Prelude.{◌≡◌, [], IfOk, OnOk, map, option_map};
ghost use Rattle.iso_explain_block.specs.Unknown.{did_you_mean, field_lines, field_text, has_name, nearest_lines, nearest_of, scope_rule, unknown_lines, visible_names, with_seen_fields};
ghost use Rattle.iso_explain_block.specs.Variables.{heads_of};
ghost use Rattle.iso_explain_block.specs.Views.{block_fault_of};

use crate::block::{sees_fields, statements, visible_classes};
use crate::fault::BlockFault;
use crate::lets::add_lets;
use crate::line::add_line;
use crate::message::after;
use crate::variable::{add_fields, add_statics};
use iso_hints::nearest::nearest;
use iso_model::heads::ClassHead;
use iso_model::place::BlockName;
use iso_model::text::Text;
use std::alloc::{AllocError, Global};
use std::sync::Arc;

/// Among more names none is looked for: there may be thousands, and as many faults.
const MOST_NAMES: usize = 256;

/// Adds the lines of a name that isn't visible: the visible name that is nearest, if one is near;
/// that it is a field, where the block doesn't see fields; and which names a block sees.
pub(crate) fn add_unknown(
    alloc: Global,
    lines: &mut Vec<Text>,
    fault: &BlockFault<'_>,
) -> Result<(), AllocError>
    ensures { OnOk result (lines.new.items
        ≡ unknown_lines (block_fault_of fault.now) lines.old.items) }
{
    match after("unknown name ", fault.message) {
        Some(name) => {
            add_nearest(alloc, lines, fault, name)?;
            add_field(alloc, lines, fault, name)?;
            add_line(lines, Text::copied(alloc, scope_rule(fault.block))?)
        }
        None => Ok(()),
    }
}

/// Adds the line of the visible name that is nearest to a name, if one is near.
fn add_nearest(
    alloc: Global,
    lines: &mut Vec<Text>,
    fault: &BlockFault<'_>,
    name: &str,
) -> Result<(), AllocError>
    ensures { OnOk result (lines.new.items ≡ nearest_lines
        (nearest_of name.now (visible_names (block_fault_of fault.now))) lines.old.items) }
{
    let names = visible_names(alloc, fault)?;
    match nearest_of(alloc, name, &names)? {
        Some(meant) => add_line(lines, did_you_mean(alloc, meant)?),
        None => Ok(()),
    }
}

/// Of these names the one that is nearest to a name, if one is near enough and they are few.
#[tactic(auto, unfolding(crate::specs::Unknown::nearest_of))]
pub(crate) fn nearest_of<'a>(
    alloc: Global,
    name: &str,
    names: &[&'a str],
) -> Result<Option<&'a str>, AllocError>
    ensures { IfOk result (λ found. option_map (λ n. n.now) found
        ≡ nearest_of name.now (map (λ n. n.now) names.now)) }
{
    if names.len() > MOST_NAMES {
        return Ok(None);
    }
    nearest(alloc, name, names)
}

/// What was meant, in words.
pub(crate) fn did_you_mean(alloc: Global, name: &str) -> Result<Text, AllocError>
    ensures { IfOk result (λ t. t ≡ did_you_mean name.now) }
{
    Ok(Text::new(format!(in alloc; "did you mean `{name}`?")?))
}

/// The names that are visible at the statement: those of lets before it, then statics, then fields.
#[tactic(auto, unfolding(crate::specs::Unknown::visible_names))]
fn visible_names<'a>(alloc: Global, fault: &BlockFault<'a>) -> Result<Vec<&'a str>, AllocError>
    ensures { IfOk result (λ v. map (λ n. n.now) v.items
        ≡ visible_names (block_fault_of fault.now)) }
{
    let classes = visible_classes(fault.chain.classes, fault.block);
    let mut names = Vec::new(alloc);
    add_lets(&mut names, fault.row, statements(fault.chain, fault.block))?;
    add_statics(&mut names, classes)?;
    add_seen_fields(&mut names, classes, fault.block)?;
    Ok(names)
}

/// Adds the names of the fields of classes, where a block sees fields.
fn add_seen_fields<'a>(
    names: &mut Vec<&'a str>,
    classes: &'a [Arc<ClassHead>],
    block: BlockName,
) -> Result<(), AllocError>
    ensures { OnOk result (map (λ n. n.now) names.new.items ≡
        with_seen_fields block (heads_of classes.now) (map (λ n. n.now) names.old.items)) }
{
    if sees_fields(block) {
        add_fields(names, classes)
    } else {
        Ok(())
    }
}

/// Adds the line of a name that is a field's, where the block doesn't see fields.
#[tactic(auto, unfolding(crate::specs::Unknown::field_lines))]
fn add_field(
    alloc: Global,
    lines: &mut Vec<Text>,
    fault: &BlockFault<'_>,
    name: &str,
) -> Result<(), AllocError>
    ensures { OnOk result (lines.new.items
        ≡ field_lines name.now (block_fault_of fault.now) lines.old.items) }
{
    if sees_fields(fault.block) {
        return Ok(());
    }
    let mut fields = Vec::new(alloc);
    add_fields(&mut fields, fault.chain.classes)?;
    if has_name(&fields, name) {
        add_line(lines, field_text(alloc, name)?)
    } else {
        Ok(())
    }
}

/// Whether a name stands among these.
pub(crate) fn has_name(names: &[&str], name: &str) -> bool
    ensures { result ≡ has_name name.now (map (λ n. n.now) names.now) }
{
    for other in names {
        if *other == name {
            return true;
        }
    }
    false
}

/// That a name is a field's.
fn field_text(alloc: Global, name: &str) -> Result<Text, AllocError>
    ensures { IfOk result (λ t. t ≡ field_text name.now) }
{
    Ok(Text::new(format!(in alloc;
        "{name} is a field: tests, before_each and after_each see fields"
    )?))
}

/// Which names a block sees.
fn scope_rule(block: BlockName) -> &'static str
    ensures { result.now ≡ scope_rule block }
{
    if sees_fields(block) {
        "a block sees names let before, and statics and fields of its class and those around it"
    } else {
        "before_all and after_all see names let before, and statics of their class and those around it"
    }
}
