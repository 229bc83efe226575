//! Names that several owners share.
ghost use Rattle.std.specs.Prelude.{◌≡◌, ◌==◌, length, IfOk};

use crate::name_list::NameList;
use crate::names::{Binding, FEW_NAMES};
use std::alloc::{AllocError, Global};
use std::marker::Model;
use std::sync::Arc;

/// Names with their values, which no owner changes.
pub struct SharedNames {
    names: Arc<NameList>,
}

impl Drop for SharedNames {
    fn drop(self) {
        let SharedNames { names: _ } = self;
    }
}

impl Model for SharedNames {
    ghost use Rattle.std.specs.Prelude.{List};
    ghost use Rattle.std.specs.Arc.{arc_value};
    ghost use Rattle.iso_model.specs.declared.names.Binding.{Binding};

    ghost Value = { List Binding };

    ghost view = { λ s. arc_value s.names };
}

impl SharedNames {
    /// These names, indexed unless they are few.
    pub fn new(alloc: Global, bindings: Vec<Binding>) -> Result<SharedNames, AllocError>
        ensures { IfOk result (λ s. s ≡ bindings.items) }
    {
        let mut names = NameList::new(bindings);
        if names.len() > FEW_NAMES {
            names.index()?;
        }
        Ok(SharedNames {
            names: Arc::new(alloc, names)?,
        })
    }

    /// A further owner of the same names. Refused where `Arc` refuses one.
    pub fn share(&self) -> Result<SharedNames, AllocError>
        ensures { IfOk result (λ s. s ≡ self.now) }
    {
        Ok(SharedNames {
            names: Arc::try_clone(&self.names)?,
        })
    }

    /// Whether there is no name.
    pub fn is_empty(&self) -> bool
        ensures { result ≡ (length self.now == 0) }
    {
        self.names.len() == 0
    }

    /// The names.
    pub(crate) fn list(&self) -> &NameList
        ensures { result.now ≡ self.now }
    {
        &self.names
    }
}
