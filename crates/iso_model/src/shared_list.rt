//! Lists that several owners share.
ghost use Rattle.std.specs.Prelude.{◌≡◌, ◌==◌, [], IfOk, length};

use std::alloc::{AllocError, Global};
use std::marker::Model;
use std::sync::Arc;

/// A list that no owner changes. Contracts see its items. One without items takes no memory.
pub struct SharedList<T> {
    items: Option<Arc<Vec<T>>>,
}

impl<T: Drop> Drop for SharedList<T> {
    fn drop(self) {
        let SharedList { items: _ } = self;
    }
}

impl<T> Model for SharedList<T> {
    ghost use Rattle.std.specs.Prelude.{List};
    ghost use Rattle.iso_model.specs.SharedLists.{items_in};

    ghost Value = { List T };

    ghost view = { λ s. items_in s.items };
}

impl<T: Drop> SharedList<T> {
    /// No items.
    pub fn none() -> SharedList<T>
        ensures { result ≡ [] }
    {
        SharedList { items: None }
    }

    /// These items.
    #[inline]
    pub fn new(alloc: Global, items: Vec<T>) -> Result<SharedList<T>, AllocError>
        ensures { IfOk result (λ s. s ≡ items.items) }
    {
        if items.is_empty() {
            return Ok(SharedList::none());
        }
        Ok(SharedList {
            items: Some(Arc::new(alloc, items)?),
        })
    }

    /// A further owner of the same items. Refused where `Arc` refuses one.
    pub fn share(&self) -> Result<SharedList<T>, AllocError>
        ensures { IfOk result (λ s. s ≡ self.now) }
    {
        match &self.items {
            Some(items) => Ok(SharedList {
                items: Some(Arc::try_clone(items)?),
            }),
            None => Ok(SharedList::none()),
        }
    }

    /// The items.
    pub fn as_slice(&self) -> &[T]
        ensures { result.now ≡ self.now }
    {
        match &self.items {
            Some(items) => items.as_slice(),
            None => &[],
        }
    }

    /// How many items there are.
    pub fn len(&self) -> usize
        ensures { result ≡ length self.now }
    {
        self.as_slice().len()
    }

    /// Whether there is none.
    pub fn is_empty(&self) -> bool
        ensures { result ≡ (length self.now == 0) }
    {
        self.as_slice().is_empty()
    }
}
