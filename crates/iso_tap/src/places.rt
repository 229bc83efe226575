//! Places as a report writes them.
ghost use Rattle.iso_model.specs.Texts.{block_words, place_text, row_text};

use crate::printer::Printer;
use crate::sink::{Sink, SinkFailed};
use iso_model::place::{BlockName, Place};

impl<'a, W: Sink> Printer<'a, W> {
    ghost use Rattle.iso_tap.specs.Printers.{Prints};

    /// Writes a place.
    pub(crate) fn at(&mut self, place: Place) -> Result<(), SinkFailed>
        ensures { Prints self.old self.new (place_text place) result }
    {
        match place {
            Place::Row(block, row) => self.row(block, row),
            Place::Disabled => self.bytes(b"disabled"),
        }
    }

    /// Writes a row of a block.
    fn row(&mut self, block: BlockName, row: u32) -> Result<(), SinkFailed>
        ensures { Prints self.old self.new (row_text block row) result }
    {
        self.block_words(block)?;
        self.bytes(b" row ")?;
        self.number(u64::from(row))
    }

    /// Writes the words that name a block.
    fn block_words(&mut self, block: BlockName) -> Result<(), SinkFailed>
        ensures { Prints self.old self.new (block_words block) result }
    {
        match block {
            BlockName::Test => self.bytes(b"test"),
            BlockName::Class(depth, kind) => {
                self.bytes(b"class ")?;
                self.number(u64::from(depth))?;
                self.bytes(b" ")?;
                self.bytes(kind.word().as_bytes())
            }
        }
    }
}
