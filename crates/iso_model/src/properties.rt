//! Texts by name.
ghost use Rattle.std.specs.Prelude.{◌≡◌, IfOk};

use crate::name_map::NameMap;
use crate::text::Text;
use std::alloc::{AllocError, Global};

/// A map of texts, as a set of properties is.
pub type Properties = NameMap<Text>;

impl Properties {
    /// An equal map.
    pub fn copy(&self, alloc: Global) -> Result<Properties, AllocError>
        ensures { IfOk result (λ p. p ≡ self.now) }
    {
        let mut copied = Properties::new(alloc);
        'entries: for (name, text) in self.iter() {
            copied.set(String::from_str(alloc, name.as_str())?, text.copy(alloc)?)?;
        }
        Ok(copied)
    }
}
