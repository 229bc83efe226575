//! Where a node stands.
ghost use Rattle.std.specs.Prelude.{◌≡◌, is_some};
ghost use Rattle.iso_desk.specs.Places.{line_in};

use crate::line::Line;

/// Where a node stands.
#[derive(Clone, Copy, PartialEq, Eq)]
pub enum Place {
    /// It can't be entered yet: its class isn't opened up, or an earlier sibling isn't over beside
    /// which it may not run.
    Closed,
    /// It lies in a deque, or is in the hand of who took it there.
    Loose,
    /// It stands in a line: it waits for a key, or a worker is to enter or to shut it.
    InLine(Stand),
    /// This worker has it: its body runs, or it is done whole.
    With(u32),
    /// A class with a child that isn't over.
    Open,
    /// It is finished.
    Over,
}

impl Place {
    /// Whether it is one in a line.
    pub fn is_in_line(self) -> bool
        ensures { result ≡ is_some (line_in self) }
    {
        matches!(self, Place::InLine(_))
    }
}

/// A node's stand in a line.
#[derive(Clone, Copy, PartialEq, Eq)]
pub struct Stand {
    pub line: Line,
    /// The number by which it stands there: these rise along a line, and no two nodes have one.
    pub since: u64,
}
