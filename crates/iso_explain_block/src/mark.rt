//! Marks that are missing.
ghost use Rattle.std.specs.Prelude.{◌≡◌, IfOk, OnOk, option_map};
ghost use Rattle.iso_explain_block.specs.Marks.{around, is_quotable, mark_lines, mark_text, node_word, undeclared_lines};
ghost use Rattle.iso_explain_block.specs.Variables.{heads_of};
ghost use Rattle.iso_explain_block.specs.Views.{block_fault_of};
ghost use Rattle.iso_model.specs.ScriptView.{test_head_of};

use crate::fault::BlockFault;
use crate::line::add_line;
use crate::message::after;
use iso_model::chain::Chain;
use iso_model::limits::KEY_BYTES;
use iso_model::text::Text;
use std::alloc::{AllocError, Global};

/// Adds the line of a key that isn't declared: the mark to write, and where.
pub(crate) fn add_undeclared(
    alloc: Global,
    lines: &mut Vec<Text>,
    fault: &BlockFault<'_>,
) -> Result<(), AllocError>
    ensures { OnOk result (lines.new.items
        ≡ undeclared_lines (block_fault_of fault.now) lines.old.items) }
{
    match after("undeclared READ of ", fault.message) {
        Some(key) => add_mark(alloc, lines, fault, "read", key),
        None => match after("undeclared READ_WRITE of ", fault.message) {
            Some(key) => add_mark(alloc, lines, fault, "write", key),
            None => Ok(()),
        },
    }
}

/// Adds the line of a mark with this word and key.
fn add_mark(
    alloc: Global,
    lines: &mut Vec<Text>,
    fault: &BlockFault<'_>,
    word: &str,
    key: &str,
) -> Result<(), AllocError>
    ensures { OnOk result (lines.new.items
        ≡ mark_lines word.now key.now (block_fault_of fault.now) lines.old.items) }
{
    add_line(lines, mark_text(alloc, fault, word, key)?)
}

/// The mark to write, and where.
#[tactic(auto, unfolding(crate::specs::Marks::mark_text))]
fn mark_text(
    alloc: Global,
    fault: &BlockFault<'_>,
    word: &str,
    key: &str,
) -> Result<Text, AllocError>
    ensures { IfOk result (λ t. t ≡ mark_text word.now key.now (block_fault_of fault.now)) }
{
    let node = node_word(fault.chain);
    let name = fault.name;
    let around = around(fault.chain);
    if key.len() > KEY_BYTES as usize {
        Text::copied(
            alloc,
            "a key has at most 255 bytes, so no script can declare this one",
        )
    } else if is_quotable(key) {
        Ok(Text::new(format!(in alloc; "add {word} \"{key}\" before {node} {name}{around}")?))
    } else {
        Ok(Text::new(format!(in alloc;
            "declare the key with {word} before {node} {name}{around}"
        )?))
    }
}

/// Whether a key stands between quotes as it is.
fn is_quotable(key: &str) -> bool
    ensures { result ≡ is_quotable key.now }
{
    for byte in key.as_bytes() {
        if *byte == b'"' || *byte == b'\\' {
            return false;
        }
    }
    true
}

/// The word that a class or a test is written with.
fn node_word(chain: Chain<'_>) -> &'static str
    ensures { result.now ≡ node_word (option_map (λ t. test_head_of t.now) chain.entry.test) }
{
    match chain.test {
        Some(_) => "test",
        None => "class",
    }
}

/// That the mark may also stand before a class around it, if there is one.
fn around(chain: Chain<'_>) -> &'static str
    ensures { result.now ≡ around (heads_of chain.entry.classes.now)
        (option_map (λ t. test_head_of t.now) chain.entry.test) }
{
    match chain.test {
        Some(_) => ", or before a class around it",
        None => {
            if chain.classes.len() > 1 {
                ", or before a class around it"
            } else {
                ""
            }
        }
    }
}
