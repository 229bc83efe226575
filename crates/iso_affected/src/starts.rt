//! Where keys start with equal values in two worlds.
ghost use Rattle.std.specs.Prelude.{◌≡◌, ◌↔◌, IfOk, IsTrue};
ghost use Rattle.iso_affected.specs.Reasons.{IsFirstApart};
ghost use Rattle.iso_lifecycle.specs.Subjects.{started};
ghost use Rattle.iso_model.specs.ChainAgreement.{EqualAt};
ghost use Rattle.iso_model.specs.Rights.{rights_of};
ghost use Rattle.iso_settings.specs.Worlds.{starting_value_in};

use iso_model::heads::Mark;
use iso_model::key::Key;
use iso_model::key_map::KeyMap;
use iso_model::resource::Resource;
use iso_model::text::Text;
use iso_settings::world::World;
use std::alloc::{AllocError, Global};
use std::marker::Model;

/// The starting values of two worlds. Those of a key are compared once, however many marks name it.
#[derive(Drop)]
pub struct Starts<'a> {
    before: &'a World,
    after: &'a World,
    /// Of each key that was asked for, whether its values are equal.
    kept: KeyMap<bool>,
}

impl<'a> Model for Starts<'a> {
    ghost use Rattle.iso_affected.specs.Starting.{AreKept, StartsView, starts_code};

    ghost Value = { StartsView };

    ghost coded = { starts_code };

    ghost view = { λ s. record { before = s.before.now; after = s.after.now } };

    ghost invariant = { λ s. AreKept s.before.now s.after.now s.kept };
}

impl<'a> Starts<'a> {
    /// Of two worlds, whose keys weren't compared yet.
    pub fn new(alloc: Global, before: &'a World, after: &'a World) -> Starts<'a>
        ensures { result ≡ record { before = before.now; after = after.now } }
    {
        Starts {
            before,
            after,
            kept: KeyMap::new(alloc),
        }
    }

    /// Whether a key starts with equal values in both.
    fn alike(&mut self, alloc: Global, key: &Key) -> Result<bool, AllocError>
        ensures alike { IfOk result (λ alike. IsTrue alike
            ↔ (starting_value_in self.old.before key.now
            ≡ starting_value_in self.old.after key.now)) }
        ensures same { self.new ≡ self.old }
    {
        if let Some(alike) = self.kept.get_of(key) {
            return Ok(alike);
        }
        let alike = starts_alike(alloc, self.before, self.after, key)?;
        self.kept.set(key.share()?, alike)?;
        Ok(alike)
    }
}

/// Whether two files are both missing, or have one text.
fn same_file(a: &Option<Text>, b: &Option<Text>) -> bool
    ensures { IsTrue result ↔ (a.now ≡ b.now) }
{
    match (a, b) {
        (None, None) => true,
        (Some(x), Some(y)) => x.as_str() == y.as_str(),
        _ => false,
    }
}

/// Whether two values are equal.
fn same_value(a: &Resource, b: &Resource) -> bool
    ensures { IsTrue result ↔ (a.now ≡ b.now) }
{
    match (a, b) {
        (Resource::Props(x), Resource::Props(y)) => x.same(y),
        (Resource::Locale(x), Resource::Locale(y)) => x.as_str() == y.as_str(),
        (Resource::File(x), Resource::File(y)) => same_file(x, y),
        (Resource::Plain, Resource::Plain) => true,
        _ => false,
    }
}

/// Whether a key starts with equal values in two worlds.
fn starts_alike(alloc: Global, before: &World, after: &World, key: &Key) -> Result<bool, AllocError>
    ensures { IfOk result (λ alike. IsTrue alike
        ↔ (starting_value_in before.now key.now ≡ starting_value_in after.now key.now)) }
{
    let old = before.share(alloc, key)?;
    let new = after.share(alloc, key)?;
    Ok(same_value(&old, &new))
}

/// The first of some marks whose key starts with another value in the second world, by its place.
pub(crate) fn first_apart(
    alloc: Global,
    starts: &mut Starts<'_>,
    marks: &[Mark],
) -> Result<Option<usize>, AllocError>
    ensures first { IfOk result (IsFirstApart starts.old.before starts.old.after marks.now) }
    ensures same { starts.new ≡ starts.old }
{
    'marks: for i in 0..marks.len() {
        if !starts.alike(alloc, &marks[i].key)? {
            return Ok(Some(i));
        }
    }
    Ok(None)
}

/// Whether all keys that marks name start with equal values in two worlds.
pub(crate) fn start_alike(
    alloc: Global,
    starts: &mut Starts<'_>,
    marks: &[Mark],
) -> Result<bool, AllocError>
    ensures alike { IfOk result (λ alike. IsTrue alike
        ↔ EqualAt (rights_of marks.now) (started starts.old.before) (started starts.old.after)) }
    ensures same { starts.new ≡ starts.old }
{
    Ok(first_apart(alloc, starts, marks)?.is_none())
}
