ghost use Rattle.std.specs.Prelude.{◌≡◌, IfOk};
ghost use Rattle.iso_model.specs.Texts.{block_words, lifecycle_word, place_text, row_text};

use crate::text::Text;
use std::alloc::{AllocError, Global};

/// The kinds of lifecycle block.
#[derive(Clone, Copy, PartialEq, Eq)]
pub enum Lifecycle {
    BeforeAll,
    AfterAll,
    BeforeEach,
    AfterEach,
}

impl Lifecycle {
    /// The word by which a script writes it.
    pub fn word(self) -> &'static str
        ensures { result.now ≡ lifecycle_word self }
    {
        match self {
            Lifecycle::BeforeAll => "before_all",
            Lifecycle::AfterAll => "after_all",
            Lifecycle::BeforeEach => "before_each",
            Lifecycle::AfterEach => "after_each",
        }
    }
}

/// The words that name a block in a place.
#[derive(Clone, Copy, PartialEq, Eq)]
pub enum BlockName {
    /// The body of a test.
    Test,
    /// A lifecycle block, with the depth of its class: 1 for a top-level one.
    Class(u32, Lifecycle),
}

/// Where a block ended, or that it was left out.
#[derive(Clone, Copy, PartialEq, Eq)]
pub enum Place {
    /// A row of a block: 1 is the line of the block's opening brace.
    Row(BlockName, u32),
    /// No block: the node is disabled, and none of its blocks ran.
    Disabled,
}

impl BlockName {
    /// The words as a report writes them.
    fn words(self, alloc: Global) -> Result<Text, AllocError>
        ensures { IfOk result (λ t. t ≡ block_words self) }
    {
        match self {
            BlockName::Test => Text::copied(alloc, "test"),
            BlockName::Class(depth, kind) => {
                let word = kind.word();
                Ok(Text::new(format!(in alloc; "class {depth} {word}")?))
            }
        }
    }

    /// A row of the block, as a report writes it.
    fn at_row(self, row: u32, alloc: Global) -> Result<Text, AllocError>
        ensures { IfOk result (λ t. t ≡ row_text self row) }
    {
        let words = self.words(alloc)?;
        let block = words.as_str();
        Ok(Text::new(format!(in alloc; "{block} row {row}")?))
    }
}

impl Place {
    /// The place as a report writes it.
    pub fn text(self, alloc: Global) -> Result<Text, AllocError>
        ensures { IfOk result (λ t. t ≡ place_text self) }
    {
        match self {
            Place::Row(block, row) => block.at_row(row, alloc),
            Place::Disabled => Text::copied(alloc, "disabled"),
        }
    }
}
