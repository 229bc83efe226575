use crate::fault::FaultKind;
use crate::lines::Lines;
use crate::place::Place;
use crate::text::Text;

/// What ended a block, and where.
#[derive(Drop)]
pub struct Note {
    pub message: Text,
    pub place: Place,
}

/// How a block ends.
#[derive(Drop)]
pub enum Ending {
    Well,
    Fail(Note),
    Fault(FaultKind, Note),
    /// By a false assumption.
    Assumed(Note),
}

/// What a test or a class came to.
#[derive(Drop)]
pub enum Verdict {
    Pass,
    Fail(Note),
    Fault(FaultKind, Note),
    /// By a false assumption, its own or that of an enclosing class's opening.
    Skipped(Note),
    /// By the fail or fault of an enclosing class's opening.
    Blocked(Note),
}

/// A verdict, and the lines that were printed.
#[derive(Drop)]
pub struct Outcome {
    pub verdict: Verdict,
    pub output: Lines,
}
