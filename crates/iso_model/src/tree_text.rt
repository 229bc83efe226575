ghost use Rattle.std.specs.Prelude.{◌≡◌, IfOk};

use crate::short_text::ShortText;
use crate::text::Text;
use std::alloc::{AllocError, Global};
use std::marker::Model;

/// A text as the tree of a script keeps it, which contracts see as its bytes. One of at most 14
/// bytes of ASCII, as most names are, takes no memory beside the tree's own.
pub struct TreeText {
    kept: Kept,
}

impl Drop for TreeText {
    fn drop(self) {
        let TreeText { kept: _ } = self;
    }
}

/// Where the bytes of a text are.
#[derive(Drop)]
enum Kept {
    /// In the tree itself.
    InPlace(ShortText),
    Apart(Box<Text>),
}

impl Model for TreeText {
    ghost use Rattle.std.specs.Prelude.{List, ℕ};
    ghost use Rattle.iso_model.specs.TreeTexts.{kept_bytes};

    ghost Value = { List ℕ };

    ghost view = { λ t. kept_bytes t.kept };
}

impl TreeText {
    /// This text. A long one takes memory for its place.
    pub fn of(alloc: Global, text: Text) -> Result<TreeText, AllocError>
        ensures { IfOk result (λ t. t ≡ text) }
    {
        let kept = match ShortText::of(text.as_str()) {
            Some(short) => Kept::InPlace(short),
            None => Kept::Apart(Box::new(alloc, text)?),
        };
        Ok(TreeText { kept })
    }

    /// A text with these bytes.
    pub fn copied(alloc: Global, text: &str) -> Result<TreeText, AllocError>
        ensures { IfOk result (λ t. t ≡ text.now) }
    {
        let kept = match ShortText::of(text) {
            Some(short) => Kept::InPlace(short),
            None => Kept::Apart(Box::new(alloc, Text::copied(alloc, text)?)?),
        };
        Ok(TreeText { kept })
    }

    /// Its bytes, as a `str`.
    #[inline(always)]
    pub fn as_str(&self) -> &str
        ensures { result.now ≡ self.now }
    {
        match &self.kept {
            Kept::InPlace(short) => short.as_str(),
            Kept::Apart(text) => text.as_str(),
        }
    }

    /// An equal text.
    pub fn copy(&self, alloc: Global) -> Result<Text, AllocError>
        ensures { IfOk result (λ t. t ≡ self.now) }
    {
        Text::copied(alloc, self.as_str())
    }
}
