ghost use Rattle.std.specs.Prelude.{◌≡◌, IfOk};
ghost use Rattle.std.specs.Ordering.{nat_cmp};
ghost use Rattle.std.specs.Cmp.Lexicographic.{slice_cmp};
ghost use Rattle.iso_model.specs.ResourceKeys.{file_key};

use crate::text::Text;
use std::alloc::{AllocError, Global};
use std::cmp::Ordering;
use std::marker::Model;
use std::sync::Arc;

/// The key of a declared resource or lock, which contracts see as its spelling. Equal keys may
/// share it.
pub struct Key {
    spelling: Arc<Text>,
}

impl Drop for Key {
    fn drop(self) {
        let Key { spelling: _ } = self;
    }
}

impl Model for Key {
    ghost use Rattle.std.specs.Prelude.{List, ℕ};
    ghost use Rattle.std.specs.Arc.{arc_value};

    ghost Value = { List ℕ };

    ghost view = { λ k. arc_value k.spelling };
}

impl Key {
    /// The key that is spelled so.
    pub fn new(alloc: Global, spelling: Text) -> Result<Key, AllocError>
        ensures { IfOk result (λ k. k ≡ spelling) }
    {
        Ok(Key {
            spelling: Arc::new(alloc, spelling)?,
        })
    }

    /// The key of the virtual file at a path.
    pub fn of_file(alloc: Global, path: &str) -> Result<Key, AllocError>
        ensures { IfOk result (λ k. k ≡ file_key path.now) }
    {
        let mut spelling = String::from_str(alloc, "file:")?;
        spelling.push_str(path)?;
        Key::new(alloc, Text::new(spelling))
    }

    /// Its spelling.
    pub fn as_str(&self) -> &str
        ensures { result.now ≡ self.now }
    {
        self.spelling.as_str()
    }

    /// How its spelling stands to that of another key, by their bytes. Takes no memory.
    pub fn order(&self, other: &Key) -> Ordering
        ensures { result ≡ slice_cmp nat_cmp self.now other.now }
    {
        self.as_str().cmp(other.as_str())
    }

    /// An equal key, which shares the spelling.
    pub fn share(&self) -> Result<Key, AllocError>
        ensures { IfOk result (λ k. k ≡ self.now) }
    {
        Ok(Key {
            spelling: self.spelling.clone()?,
        })
    }
}
