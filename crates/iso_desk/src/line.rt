//! The lines in which nodes stand that are to be tried.
ghost use Rattle.std.specs.Prelude.{◌≡◌, ◌<◌, ◌≤◌, ◌^◌};
ghost use Rattle.iso_desk.specs.Lines.{line_number, party_number};

/// Who may enter a node.
#[derive(Clone, Copy, PartialEq, Eq)]
pub enum Party {
    Everyone,
    /// One worker alone, by its number.
    Worker(u32),
}

impl Party {
    /// Its number among all parties.
    pub(crate) fn number(self) -> usize
        ensures { result ≡ party_number self }
    {
        match self {
            Party::Everyone => 0,
            Party::Worker(worker) => worker as usize + 1,
        }
    }
}

/// A line in which nodes stand.
#[derive(Clone, Copy, PartialEq, Eq)]
pub enum Line {
    /// Of those that wait for a key.
    Key(KeyLine),
    /// Of those that this worker is to enter or to shut, whatever is held.
    Own(u32),
}

/// The line of a party's nodes that wait for a key: of those that take it for READ_WRITE, or of the
/// others.
#[derive(Clone, Copy, PartialEq, Eq)]
pub struct KeyLine {
    pub party: Party,
    pub key: u32,
    pub writes: bool,
}

impl Line {
    /// Its number among all lines.
    pub(crate) fn number(self) -> usize
        ensures { result ≡ line_number self }
    {
        match self {
            Line::Key(line) => {
                let access = if line.writes { 256 } else { 0 };
                576 * line.party.number() + access + line.key as usize
            }
            Line::Own(worker) => 576 * (worker as usize + 1) + 512,
        }
    }
}
