ghost use Rattle.std.specs.Prelude.{◌≡◌, unwrap_or};
ghost use Rattle.iso_plan.specs.RowView.{display_in, written_in};

use iso_model::heads::{ClassHead, Mark, TestHead};
use iso_model::script::Mode;
use iso_model::text::Text;
use iso_model::tree_text::TreeText;
use std::sync::Arc;

/// What a node is, with a head of its effective marks, which shares its contents with the script's.
#[derive(Drop)]
pub enum Kind {
    Root,
    Class {
        isolated: bool,
        head: Arc<ClassHead>,
    },
    Test {
        head: Arc<TestHead>,
    },
}

/// A node as it is written, with the number of its parent.
#[derive(Drop)]
pub struct Row {
    /// The root has itself here, and so has each top-level class.
    pub parent: u32,
    /// The execution mode that is marked on the node, if one is.
    pub mode: Option<Mode>,
    pub kind: Kind,
    /// A top-level class's with the team's name and `.` before it.
    pub name: TreeText,
    /// None where no marks are written on the node and it has no display text.
    pub extras: Option<Box<Extras>>,
}

/// What few nodes have. It stands apart, so that the rows of the others are small.
#[derive(Drop)]
pub struct Extras {
    /// The marks that are written on the node, each key once for each target, in the strongest
    /// access.
    pub written: Vec<Mark>,
    /// The display text, if there is one; a top-level class's with the team's name and `.` before
    /// it.
    pub display: Option<Text>,
}

impl Row {
    /// The marks that are written on the node, each key once for each target, in the strongest
    /// access.
    pub(crate) fn written(&self) -> &[Mark]
        ensures { result.now ≡ written_in self.now.extras }
    {
        match &self.extras {
            Some(extras) => &extras.written,
            None => &[],
        }
    }

    /// What the node is called in a report: its display text, or its name where it has none.
    pub(crate) fn title(&self) -> &str
        ensures { result.now ≡ unwrap_or (display_in self.now.extras) self.now.name }
    {
        if let Some(extras) = &self.extras
            && let Some(text) = &extras.display
        {
            return text.as_str();
        }
        self.name.as_str()
    }
}
