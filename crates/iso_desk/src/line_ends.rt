//! The ends of all lines of a table.
ghost use Rattle.std.specs.Prelude.{◌≡◌, ◌<◌, IfOk, None, length, replicate, slice_index_or, slice_set};
ghost use Rattle.iso_desk.specs.Linked.{AreFilled};

use crate::ends::Ends;
use crate::marks::Marks;
use std::alloc::{AllocError, Global};
use std::marker::Model;

/// By a line's number, its first and its last node, if it has any.
#[derive(Drop)]
pub(crate) struct LineEnds {
    // These two say nothing of a line in which nobody stands.
    first: Vec<u32>,
    last: Vec<u32>,
    filled: Marks,
}

impl Model for LineEnds {
    ghost use Rattle.std.specs.Prelude.{List, Option};
    ghost use Rattle.iso_desk.specs.Linked.{HaveRoom, ends_in};
    ghost use Rattle.iso_desk.specs.declared.ends.Ends.{Ends as EndsView};

    ghost Value = { List (Option EndsView) };

    ghost view = { λ e. ends_in e.filled e.first.items e.last.items };

    ghost invariant = { λ e. HaveRoom e.filled e.first.items e.last.items };
}

impl LineEnds {
    /// Of `lines` lines in which nobody stands. It takes all memory that its calls need.
    pub(crate) fn new(alloc: Global, lines: usize) -> Result<LineEnds, AllocError>
        ensures { IfOk result (λ e. e ≡ replicate lines None) }
    {
        let first = vec![in alloc; 0; lines]?;
        let last = vec![in alloc; 0; lines]?;
        let filled = Marks::new(alloc, lines)?;
        Ok(LineEnds {
            first,
            last,
            filled,
        })
    }

    /// The ends of a line.
    pub(crate) fn get(&self, line: usize) -> Option<Ends>
        requires { line < length self.now }
        ensures { result ≡ slice_index_or self.now line None }
    {
        if !self.filled.has(line) {
            return None;
        }
        Some(Ends {
            first: self.first[line],
            last: self.last[line],
        })
    }

    /// Gives a line other ends.
    pub(crate) fn set(&mut self, line: usize, ends: Option<Ends>)
        requires { line < length self.old }
        ensures { self.new ≡ slice_set self.old line ends }
    {
        self.filled.set(line, ends.is_some());
        if let Some(ends) = ends {
            self.first[line] = ends.first;
            self.last[line] = ends.last;
        }
    }

    /// The lines in which somebody stands, by their numbers.
    pub(crate) fn filled(&self) -> &Marks
        ensures { AreFilled self.now result.now }
    {
        &self.filled
    }
}
