//! The keys of a plan with their starting values.
ghost use Rattle.std.specs.Prelude.{◌≡◌, ◌<◌, IfOk, length, map, option_copied, slice_index_or};
ghost use Rattle.std.specs.Arc.{arc_value};
ghost use Rattle.iso_locks.specs.Trays.{start_at};
ghost use Rattle.iso_model.specs.Touch.{answer};
ghost use Rattle.iso_plan.specs.KeyTable.{keys};
ghost use Rattle.iso_plan.specs.RowView.{tree_of};

use iso_model::key::Key;
use iso_model::resource::{Ask, Resource};
use iso_model::text::Text;
use iso_plan::plan::Plan;
use iso_settings::world::World;
use std::alloc::{AllocError, Global};
use std::marker::Model;
use std::sync::Arc;

/// A value that all who look at it share, and nobody changes. Contracts see the value.
#[derive(Drop)]
pub(crate) struct Shared {
    value: Arc<Resource>,
}

impl Model for Shared {
    ghost use Rattle.std.specs.Arc.{arc_value};
    ghost use Rattle.iso_model.specs.contracts.resource.Resource.{the_row};
    ghost use Rattle.iso_model.specs.declared.resource.Resource.{Resource};

    ghost Value = { Resource };

    ghost coded = { the_row.coded };

    ghost view = { λ s. arc_value s.value };
}

impl Shared {
    /// The value that these owners share.
    pub fn new(value: Arc<Resource>) -> Shared
        ensures { result ≡ arc_value value }
    {
        Shared { value }
    }

    /// The text that is asked for, or `None` where the property is absent or the file missing, or
    /// where the value is of another kind.
    pub fn look(&self, ask: Ask<'_>) -> Option<&str>
        ensures { option_copied result ≡ answer self.now ask.entry }
    {
        self.value.look(ask)
    }
}

/// A key with the value that it starts with, which is the world's own.
#[derive(Drop)]
pub(crate) struct Starting {
    pub key: Key,
    pub value: Shared,
}

/// Keys with their starting values, by key number, which a tray and its marks share.
#[derive(Drop)]
pub(crate) struct Starts {
    all: Arc<Vec<Starting>>,
}

impl Model for Starts {
    ghost use Rattle.std.specs.Prelude.{List};
    ghost use Rattle.std.specs.Arc.{arc_value};
    ghost use Rattle.std.specs.Coded.{coded_list};
    ghost use Rattle.iso_locks.specs.Trays.{starting_code};
    ghost use Rattle.iso_locks.specs.declared.starting.Starting.{Starting};

    ghost Value = { List Starting };

    ghost coded = { coded_list starting_code };

    ghost view = { λ s. (arc_value s.all).items };
}

impl Starts {
    /// The key with a number, and its starting value.
    pub fn get(&self, number: usize) -> &Starting
        requires { number < length self.now }
        ensures { result.now ≡ slice_index_or self.now number result.now }
    {
        &self.all[number]
    }

    /// The same, which both share. Takes no memory.
    pub fn share(&self) -> Result<Starts, AllocError>
        ensures { IfOk result (λ s. s ≡ self.now) }
    {
        Ok(Starts {
            all: self.all.clone()?,
        })
    }
}

/// All keys of a plan with their starting values, by key number. Copies none of the values that the
/// world names.
pub(crate) fn starts_of(alloc: Global, plan: &Plan, world: &World) -> Result<Starts, AllocError>
    ensures { IfOk result (λ v. v ≡ map (start_at world.now) (keys (tree_of plan.now))) }
{
    let mut starts = Vec::new(alloc);
    'keys: for number in 0..plan.key_count() {
        let key = Key::new(alloc, Text::copied(alloc, plan.key(number))?)?;
        let value = Shared::new(world.share(alloc, &key)?);
        starts.push(Starting { key, value })?;
    }
    Ok(Starts {
        all: Arc::new(alloc, starts)?,
    })
}
