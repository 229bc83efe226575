//! The table that the workers of a run fill.
ghost use Rattle.std.specs.Prelude.{◌≡◌, ◌*◌, IfOk, length};
ghost use Rattle.iso_times.specs.Tables.{slot_of};

use crate::cell::Cell;
use crate::times::{BodyTime, Times};
use iso_lifecycle::kind::BodyKind;
use std::alloc::{AllocError, Global};
use std::marker::Model;

/// A cell for each body of a run, two for each node, and room for their times. Contracts see how
/// many nodes it is for.
#[derive(Drop)]
pub(crate) struct Table {
    nodes: u32,
    cells: Vec<Cell>,
    room: Vec<Option<BodyTime>>,
}

impl Model for Table {
    ghost use Rattle.std.specs.Prelude.{◌≡◌, ◌*◌, ◌≤◌, ℕ, [], length, vec_capacity};

    ghost Value = { ℕ };

    ghost view = { λ t. t.nodes };

    ghost invariant = { λ t. (length t.cells.items ≡ 2 * t.nodes) × (t.room.items ≡ [])
        × (2 * t.nodes ≤ vec_capacity t.room) };
}

impl Table {
    /// A table for `nodes` nodes, none of whose bodies ran. It takes all memory that is wanted.
    pub(crate) fn new(alloc: Global, nodes: u32) -> Result<Table, AllocError>
        ensures { IfOk result (λ t. t ≡ nodes) }
    {
        let bodies = nodes as usize * 2;
        let cells = blank_cells(alloc, bodies)?;
        let room = Vec::with_capacity(alloc, bodies)?;
        Ok(Table { nodes, cells, room })
    }

    /// A table for no nodes. It takes no memory.
    pub(crate) fn empty(alloc: Global) -> Table
        ensures { result ≡ 0 }
    {
        Table {
            nodes: 0,
            cells: Vec::new(alloc),
            room: Vec::new(alloc),
        }
    }

    /// The cell of a node's body; none where the table has no such node.
    pub(crate) fn cell(&self, node: u32, kind: BodyKind) -> Option<&Cell> {
        self.cells.get(slot_of(node, kind))
    }

    /// The times that were kept. It takes no memory.
    pub(crate) fn into_times(self) -> Times
        ensures { length result ≡ 2 * self }
    {
        let Table { cells, room, .. } = self;
        let mut times = room;
        'cells: for cell in &cells {
            times.push_reserved(cell.time());
        }
        Times::of(times)
    }
}

/// The place of a node's body in the table: two for each node, the second that of a class's
/// `after_all`.
pub(crate) fn slot_of(node: u32, kind: BodyKind) -> usize
    ensures { result ≡ slot_of node kind }
{
    let first = node as usize * 2;
    match kind {
        BodyKind::BeforeAll | BodyKind::Test => first,
        BodyKind::AfterAll => first + 1,
    }
}

/// `count` cells of bodies that didn't run.
fn blank_cells(alloc: Global, count: usize) -> Result<Vec<Cell>, AllocError>
    ensures { IfOk result (λ v. length v.items ≡ count) }
{
    let mut cells = Vec::with_capacity(alloc, count)?;
    'cells: for _n in 0..count {
        cells.push_reserved(Cell::blank());
    }
    Ok(cells)
}
