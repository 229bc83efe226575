ghost use Rattle.std.specs.Prelude.{◌≡◌, ◌==◌, ℕ, List, [], ◌∷◌, length, IfOk, OnOk, OnErr};
ghost use Rattle.std.specs.Bool.{OnTrue, OnFalse};
ghost use Rattle.iso_model.specs.ResourceKeys.{spelling};
ghost use Rattle.iso_model.specs.Rights.{access_in, declared_by, is_readable, is_writable, rights_of, strongest};

use crate::access::Access;
use crate::heads::Mark;
use crate::key::Key;
use crate::key_map::KeyMap;
use crate::resource_key::ResourceKey;
use std::alloc::{AllocError, Global};
use std::marker::Model;
use std::sync::Arc;

/// Whether a known access lets do what is wanted.
fn covers(known: Option<Access>, wanted: Access) -> bool
    ensures kept { OnTrue result (strongest (Some wanted) known ≡ known) }
    ensures changed { OnFalse result (strongest (Some wanted) known ≡ Some wanted) }
{
    match (known, wanted) {
        (None, _) | (Some(Access::Read), Access::Write) => false,
        (Some(Access::Read), Access::Read) | (Some(Access::Write), _) => true,
    }
}

/// Keys that were declared together, each once.
#[derive(Drop)]
struct Layer {
    entries: KeyMap<Access>,
}

impl Layer {
    ghost use Rattle.std.specs.Prelude.{◌++◌};

    /// The access that a key is declared with here, if it is.
    fn access(&self, key: &Key) -> Option<Access>
        ensures { result ≡ access_in self.now.entries key.now }
    {
        self.entries.get_of(key)
    }

    /// The access that a resource is declared with here, if it is.
    fn access_of(&self, resource: ResourceKey<'_>) -> Option<Access>
        ensures { result ≡ access_in self.now.entries (spelling resource.entry) }
    {
        self.entries.get(resource)
    }

    /// The access that a key is declared with here, or else by the outer rights, if it is.
    fn known(&self, outer: &Rights, key: &Key) -> Option<Access>
        ensures { result ≡ access_in (self.now.entries ++ outer.now) key.now }
    {
        match self.access(key) {
            Some(access) => Some(access),
            None => outer.access(key),
        }
    }

    /// What one mark declares besides these and the outer rights.
    fn mark(&mut self, alloc: Global, outer: &Rights, mark: &Mark) -> Result<(), AllocError>
        ensures { OnOk result ((k : List ℕ) → access_in (self.new.entries ++ outer.now) k
            ≡ strongest (declared_by mark.now k) (access_in (self.old.entries ++ outer.now) k)) }
    {
        if covers(self.known(outer, &mark.key), mark.access) {
            return Ok(());
        }
        let key = mark.key.share()?;
        self.entries.set(key, mark.access)?;
        Ok(())
    }

    /// What marks declare besides the outer rights.
    fn of_marks(alloc: Global, outer: &Rights, marks: &[Mark]) -> Result<Layer, AllocError>
        ensures { IfOk result (λ l. (k : List ℕ) → access_in (l.entries ++ outer.now) k
            ≡ strongest (rights_of marks.now k) (access_in outer.now k)) }
    {
        let mut layer = Layer {
            entries: KeyMap::new(alloc),
        };
        'marks: for mark in marks {
            layer.mark(alloc, outer, mark)?;
        }
        Ok(layer)
    }
}

/// The keys that a block may look at or change. Of a key that was declared anew the newest access
/// counts.
///
/// The innermost layer stands first. The descendants of a class share the layers of that class.
pub struct Rights {
    layers: Vec<Arc<Layer>>,
}

impl Drop for Rights {
    fn drop(self) {
        let Rights { layers: _ } = self;
    }
}

impl Model for Rights {
    ghost use Rattle.std.specs.Prelude.{List, ℕ};
    ghost use Rattle.iso_model.specs.Layers.{declared_in};
    ghost use Rattle.iso_model.specs.declared.access.Access.{Access};

    ghost Value = { List (List ℕ × Access) };

    ghost view = { λ r. declared_in r.layers.items };
}

impl Rights {
    /// No rights.
    pub fn new(alloc: Global) -> Rights
        ensures { result ≡ [] }
    {
        Rights {
            layers: Vec::new(alloc),
        }
    }

    /// A key more, or another access for one that is there.
    pub fn declare(&mut self, alloc: Global, key: Key, access: Access) -> Result<(), AllocError>
        ensures ok { OnOk result (self.new ≡ (key, access) ∷ self.old) }
        ensures err { OnErr result (self.new ≡ self.old) }
    {
        let entries = KeyMap::of_one(alloc, key, access)?;
        let layer = Arc::new(alloc, Layer { entries })?;
        self.layers.insert(0, layer)?;
        Ok(())
    }

    /// The rights of a child of a class with these rights, where these are the child's own marks.
    pub fn within(&self, alloc: Global, marks: &[Mark]) -> Result<Rights, AllocError>
        ensures { IfOk result (λ r. (k : List ℕ)
            → access_in r k ≡ strongest (rights_of marks.now k) (access_in self.now k)) }
    {
        let layer = Layer::of_marks(alloc, self, marks)?;
        let mut layers = Vec::with_capacity(alloc, self.layers.len() + 1)?;
        if !layer.entries.is_empty() {
            layers.push(Arc::new(alloc, layer)?)?;
        }
        'outer: for outer in &self.layers {
            layers.push(outer.clone()?)?;
        }
        Ok(Rights { layers })
    }

    /// The access that a key is declared with, if it is.
    pub fn access(&self, key: &Key) -> Option<Access>
        ensures { result ≡ access_in self.now key.now }
    {
        for layer in &self.layers {
            if let Some(access) = layer.access(key) {
                return Some(access);
            }
        }
        None
    }

    /// The access that a resource is declared with, if it is, without making its key.
    pub fn access_of(&self, resource: ResourceKey<'_>) -> Option<Access>
        ensures { result ≡ access_in self.now (spelling resource.entry) }
    {
        for layer in &self.layers {
            if let Some(access) = layer.access_of(resource) {
                return Some(access);
            }
        }
        None
    }

    /// Whether a resource may be looked at.
    pub fn lets_look(&self, resource: ResourceKey<'_>) -> bool
        ensures { result ≡ is_readable (access_in self.now (spelling resource.entry)) }
    {
        self.access_of(resource).is_some()
    }

    /// Whether a resource may be changed.
    pub fn lets_change(&self, resource: ResourceKey<'_>) -> bool
        ensures { result ≡ is_writable (access_in self.now (spelling resource.entry)) }
    {
        matches!(self.access_of(resource), Some(Access::Write))
    }
}
