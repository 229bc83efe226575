//! What is told of a node besides its name and message.

use iso_model::text::Text;
use iso_places::end::ScriptLine;

/// The line that is told of a node, and what mends it, a line each.
#[derive(Drop)]
pub(crate) struct Told {
    pub(crate) line: ScriptLine,
    pub(crate) hints: Vec<Text>,
}
