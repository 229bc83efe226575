//! Properties and files that are missing: which one was meant, and what gives one.
ghost use Rattle.std.specs.Prelude.{◌≡◌, IfOk, OnOk, map, option_map};
ghost use Rattle.iso_explain_block.specs.Missing.{meant_lines, meant_of, missing_lines};
ghost use Rattle.iso_explain_block.specs.Views.{block_fault_of};

use crate::fault::BlockFault;
use crate::fixed::add_fixed;
use crate::line::add_line;
use crate::message::after;
use crate::name::{did_you_mean, has_name, nearest_of};
use crate::names_in_blocks::{Thing, set_names};
use iso_model::fault::FaultKind;
use iso_model::text::Text;
use std::alloc::{AllocError, Global};

/// Adds the lines of a property or a file that is missing: the one that was meant, if a block of
/// the class chain gives it, and what gives one.
pub(crate) fn add_missing(
    alloc: Global,
    lines: &mut Vec<Text>,
    fault: &BlockFault<'_>,
) -> Result<(), AllocError>
    ensures { OnOk result (lines.new.items
        ≡ missing_lines (block_fault_of fault.now) lines.old.items) }
{
    let property = after("missing property ", fault.message);
    add_meant(alloc, lines, Thing::Property, property, fault)?;
    let file = after("missing file ", fault.message);
    add_meant(alloc, lines, Thing::File, file, fault)?;
    add_fixed(alloc, lines, FaultKind::Missing, fault.message)
}

/// Adds the line of the property or file that was meant by one, if a block gives it.
fn add_meant(
    alloc: Global,
    lines: &mut Vec<Text>,
    thing: Thing,
    name: Option<&str>,
    fault: &BlockFault<'_>,
) -> Result<(), AllocError>
    ensures { OnOk result (lines.new.items
        ≡ meant_lines thing (option_map (λ n. n.now) name.entry)
        (block_fault_of fault.now) lines.old.items) }
{
    let Some(name) = name else {
        return Ok(());
    };
    let names = set_names(alloc, thing, fault.chain)?;
    match meant_of(alloc, name, &names)? {
        Some(meant) => add_line(lines, did_you_mean(alloc, meant)?),
        None => Ok(()),
    }
}

/// Of these names the one that was meant by another. One of them is given, if not here.
fn meant_of<'a>(alloc: Global, name: &str, names: &[&'a str]) -> Result<Option<&'a str>, AllocError>
    ensures { IfOk result (λ found. option_map (λ n. n.now) found
        ≡ meant_of name.now (map (λ n. n.now) names.now)) }
{
    if has_name(names, name) {
        return Ok(None);
    }
    nearest_of(alloc, name, names)
}
