ghost use Rattle.std.specs.Prelude.{◌≡◌, IfOk};
ghost use Rattle.iso_model.specs.Texts.{text_of};

use crate::text::Text;
use std::alloc::{AllocError, Global};

/// A value of the test language.
#[derive(Drop)]
pub enum Data {
    Whole(i64),
    Flag(bool),
    Text(Text),
}

impl Data {
    /// An equal value.
    pub fn copy(&self, alloc: Global) -> Result<Data, AllocError>
        ensures { IfOk result (λ d. d ≡ self.now) }
    {
        match self {
            Data::Whole(n) => Ok(Data::Whole(*n)),
            Data::Flag(b) => Ok(Data::Flag(*b)),
            Data::Text(t) => Ok(Data::Text(t.copy(alloc)?)),
        }
    }

    /// Its text: a number in decimal, `true` or `false`, a text itself.
    pub fn text(&self, alloc: Global) -> Result<Text, AllocError>
        ensures { IfOk result (λ t. t ≡ text_of self.now) }
    {
        match self {
            Data::Whole(n) => Ok(Text::new(n.to_string(alloc)?)),
            Data::Flag(true) => Text::copied(alloc, "true"),
            Data::Flag(false) => Text::copied(alloc, "false"),
            Data::Text(t) => t.copy(alloc),
        }
    }
}
