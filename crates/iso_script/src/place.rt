//! The places of nodes.
ghost use Rattle.std.specs.Prelude.{◌≡◌, [], ◌∷◌, MatchResult, Some, None, if◌then◌else◌};
ghost use Rattle.iso_script_statements.specs.Faults.{IsMemory};
ghost use Rattle.iso_script.specs.Places.{kept, line_at, with_places};

use iso_script_lexer::token::Position;
use iso_script_statements::fault::ScriptError;
use std::alloc::Global;

/// Where a class or test stands in its script: where its name begins, and the line of the opening
/// brace of each of its blocks, on which row 1 is.
#[derive(Clone, Copy, PartialEq, Eq)]
pub struct NodePlace {
    pub name: Position,
    pub blocks: BlockLines,
}

/// The lines of the opening braces of a node's blocks.
#[derive(Clone, Copy, PartialEq, Eq)]
pub enum BlockLines {
    /// The body of a test.
    Test(u32),
    /// The lifecycle blocks of a class.
    Class(LifecycleLines),
}

/// The lines of the opening braces of a class's lifecycle blocks.
#[derive(Clone, Copy, PartialEq, Eq)]
pub struct LifecycleLines {
    pub before_all: BlockLine,
    pub after_all: BlockLine,
    pub before_each: BlockLine,
    pub after_each: BlockLine,
}

/// The line of a block's opening brace, where the block is written. Lines count from 1, so that 0
/// is none.
#[derive(Clone, Copy, PartialEq, Eq)]
pub struct BlockLine {
    pub(crate) number: u32,
}

impl BlockLine {
    /// The line, if the block is written.
    pub fn get(self) -> Option<u32>
        ensures { result ≡ line_at self }
    {
        if self.number == 0 {
            None
        } else {
            Some(self.number)
        }
    }
}

const _: () = prove!(size_of::<NodePlace>() <= 32);

/// The places of the nodes that are read, in written order, where they are kept.
#[derive(Drop)]
pub(crate) struct Places {
    are_kept: bool,
    pub list: Vec<NodePlace>,
}

impl Places {
    /// None as yet, and all are kept.
    pub(crate) fn kept(alloc: Global) -> Places
        ensures { kept result ≡ Some [] }
    {
        Places {
            are_kept: true,
            list: Vec::new(alloc),
        }
    }

    /// None is kept, and they take no memory.
    pub(crate) fn left_out(alloc: Global) -> Places
        ensures { kept result ≡ None }
    {
        Places {
            are_kept: false,
            list: Vec::new(alloc),
        }
    }

    /// None as yet, and all are kept, or none is.
    pub(crate) fn asked(alloc: Global, are_kept: bool) -> Places
        ensures { kept result ≡ (if are_kept then Some [] else None) }
    {
        if are_kept {
            Places::kept(alloc)
        } else {
            Places::left_out(alloc)
        }
    }

    /// Keeps the place of the next node, where places are kept.
    #[tactic(auto, unfolding(crate::specs::Places::with_places))]
    pub(crate) fn add(&mut self, place: NodePlace) -> Result<(), ScriptError>
        ensures { MatchResult result (λ _. kept self.new
            ≡ with_places (kept self.old) (place ∷ [])) IsMemory }
    {
        if self.are_kept {
            self.list.push(place)?;
        }
        Ok(())
    }
}
