//! The lines of an explanation: at most four, and none twice.
ghost use Rattle.std.specs.Prelude.{◌≡◌, ◌++◌, OnOk};
ghost use Rattle.iso_explain_block.specs.Lines.{has_line, with_line};

use iso_model::text::Text;
use std::alloc::AllocError;

/// How many lines are told at most.
const MOST: usize = 4;

/// Adds a line, unless it stands there already, or `MOST` lines do.
#[tactic(auto, unfolding(crate::specs::Lines::with_line))]
pub(crate) fn add_line(lines: &mut Vec<Text>, line: Text) -> Result<(), AllocError>
    ensures { OnOk result (lines.new.items ≡ with_line line lines.old.items) }
{
    if lines.len() >= MOST || has_line(lines, line.as_str()) {
        drop(line);
        return Ok(());
    }
    lines.push(line)?;
    Ok(())
}

/// Whether a line stands among these.
fn has_line(lines: &[Text], line: &str) -> bool
    ensures { result ≡ has_line line.now lines.now }
{
    lines.iter().any(|other| other.as_str() == line)
}
