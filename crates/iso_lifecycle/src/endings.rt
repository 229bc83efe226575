//! The endings of a body's blocks, in order.
ghost use Rattle.std.specs.Prelude.{◌≡◌, ◌∷◌, ◌++◌, [], OnErr, OnOk, false, replicate, true, vec_len};
ghost use Rattle.std.specs.List.{list_all};
ghost use Rattle.iso_model.specs.Bodies.{first_ending};
ghost use Rattle.iso_model.specs.Statements.{is_well};
ghost use Rattle.iso_model.specs.Verdicts.{verdict};
ghost use Rattle.iso_model.specs.declared.outcome.Ending.TheVariants.{Well};
ghost use Rattle.iso_lifecycle.specs.Endings.{BeginIll};

use crate::kept::KeptEnding;
use crate::verdict::is_well;
use iso_model::outcome::Ending;
use std::alloc::{AllocError, Global};
use std::marker::Model;

/// Endings, in order. Most blocks end well: those before the first that didn't are counted, and
/// take no memory.
#[derive(Drop)]
pub(crate) struct Endings {
    well: usize,
    others: Vec<Ending>,
}

impl Model for Endings {
    ghost use Rattle.std.specs.Prelude.{◌++◌, List, replicate};
    ghost use Rattle.iso_model.specs.declared.outcome.Ending.{Ending};
    ghost use Rattle.iso_model.specs.declared.outcome.Ending.TheVariants.{Well};
    ghost use Rattle.iso_lifecycle.specs.Endings.{BeginIll};

    ghost Value = { List Ending };

    ghost view = { λ e. replicate e.well Well ++ e.others.items };

    ghost invariant = { λ e. BeginIll e.others.items };
}

impl Endings {
    /// No endings.
    pub fn new(alloc: Global) -> Endings
        ensures { result ≡ [] }
    {
        Endings {
            well: 0,
            others: Vec::new(alloc),
        }
    }

    /// Adds an ending. Memory is taken where one that isn't Well is among them then.
    #[inline(always)]
    pub fn add(&mut self, ending: Ending) -> Result<(), AllocError>
        ensures ok { OnOk result (self.new ≡ self.old ++ ending ∷ []) }
        ensures err { OnErr result (self.new ≡ self.old) }
    {
        if !self.others.is_empty() || !is_well(&ending) {
            return add_other(&mut self.others, ending);
        }
        drop(ending);
        let Some(well) = self.well.checked_add(1) else {
            return Err(AllocError);
        };
        self.well = well;
        Ok(())
    }

    /// Adds as many endings that are Well to those that all are. Takes no memory.
    #[inline(always)]
    pub fn add_well(&mut self, count: usize) -> Result<(), AllocError>
        requires { list_all is_well self.old ≡ true }
        ensures ok { OnOk result (self.new ≡ self.old ++ replicate count Well) }
        ensures well { OnOk result (list_all is_well self.new ≡ true) }
        ensures err { OnErr result (self.new ≡ self.old) }
    {
        let Some(well) = self.well.checked_add(count) else {
            return Err(AllocError);
        };
        self.well = well;
        Ok(())
    }

    /// Whether all of them are Well.
    pub fn all_well(&self) -> bool
        ensures { result ≡ list_all is_well self.now }
    {
        self.others.is_empty()
    }

    /// The first of them, that of a body of one block; Well where there is none. Takes no memory.
    pub fn into_first(self) -> KeptEnding
        ensures { result ≡ first_ending self }
    {
        let Endings { well, others } = self;
        let mut others = others;
        if well > 0 {
            others.clear();
        }
        KeptEnding::of(others)
    }

    /// Those from the first on that isn't Well, which come to what all of them come to. Takes no
    /// memory.
    pub fn into_others(self) -> Vec<Ending>
        ensures { verdict result.items ≡ verdict self }
    {
        self.others
    }
}

/// Adds an ending to those from the first on that isn't Well.
#[inline(never)]
fn add_other(others: &mut Vec<Ending>, ending: Ending) -> Result<(), AllocError>
    requires first { vec_len others.old ≡ 0 → is_well ending ≡ false }
    ensures ok { OnOk result (others.new.items ≡ others.old.items ++ ending ∷ []) }
    ensures err { OnErr result (others.new.items ≡ others.old.items) }
    ensures ill { BeginIll others.old.items → BeginIll others.new.items }
{
    others.push(ending)?;
    Ok(())
}
