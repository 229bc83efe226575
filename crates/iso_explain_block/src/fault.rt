//! Faults that end blocks, and the lines that mend them.
ghost use Rattle.std.specs.Prelude.{◌≡◌, IfOk, OnOk};
ghost use Rattle.iso_explain_block.specs.BlockFaults.{hints, lines_of_kind};
ghost use Rattle.iso_explain_block.specs.Views.{block_fault_of};

use crate::block::statements;
use crate::fixed::add_fixed;
use crate::mark::add_undeclared;
use crate::missing::add_missing;
use crate::name::add_unknown;
use crate::statement::add_statements;
use iso_model::chain::Chain;
use iso_model::fault::FaultKind;
use iso_model::place::BlockName;
use iso_model::text::Text;
use std::alloc::{AllocError, Global};

/// A fault that ended a block of a class or a test.
#[derive(Clone, Copy)]
pub struct BlockFault<'a> {
    pub kind: FaultKind,
    /// Its message, as a report has it.
    pub message: &'a str,
    /// The block, and the row of the statement.
    pub block: BlockName,
    pub row: u32,
    /// The class chain of the class or test.
    pub chain: Chain<'a>,
    /// Its name.
    pub name: &'a str,
}

/// The lines that mend a fault: at most four, and none twice.
#[tactic(auto, unfolding(crate::specs::BlockFaults::hints))]
pub fn hints(alloc: Global, fault: &BlockFault<'_>) -> Result<Vec<Text>, AllocError>
    ensures { IfOk result (λ lines. lines.items ≡ hints (block_fault_of fault.now)) }
{
    let mut lines = Vec::new(alloc);
    add_hints(alloc, &mut lines, fault)?;
    Ok(lines)
}

/// Adds the lines that mend a fault.
fn add_hints(alloc: Global, lines: &mut Vec<Text>, fault: &BlockFault<'_>) -> Result<(), AllocError>
    ensures { OnOk result (lines.new.items
        ≡ lines_of_kind fault.now.kind (block_fault_of fault.now) lines.old.items) }
{
    match fault.kind {
        FaultKind::WrongKind => {
            add_statements(
                alloc,
                lines,
                fault.row,
                statements(fault.chain, fault.block),
            )
        }
        FaultKind::UnknownName => add_unknown(alloc, lines, fault),
        FaultKind::Undeclared => add_undeclared(alloc, lines, fault),
        FaultKind::Missing => add_missing(alloc, lines, fault),
        FaultKind::Overflow
        | FaultKind::DoubleName
        | FaultKind::Frozen
        | FaultKind::BadCount
        | FaultKind::OutOfSteps
        | FaultKind::OutputFull
        | FaultKind::TextTooLong => add_fixed(alloc, lines, fault.kind, fault.message),
    }
}
