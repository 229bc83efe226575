//! Slots for values that must be spent.
ghost use Rattle.std.specs.Prelude.{◌≡◌, ◌≤◌, ◌<◌, ◌++◌, ◌∷◌, [], ℕ, IfOk, MatchOption, OnOk, OnErr, None, Some, false, length, option_copied, option_map, replicate, slice_set, true};
ghost use Rattle.std.specs.Bool.{Decides};
ghost use Rattle.iso_locks.specs.KeySets.{holds};
ghost use Rattle.iso_locks.specs.Slots.{HasLater, has_changed, has_unchanged, restarted, slot};
ghost use Rattle.iso_store.specs.Histories.{History, after};

use crate::key_set::{KeySet, NUMBERS};
use iso_model::resource::Change;
use iso_store::held::{Held, Savepoint};
use std::alloc::{AllocError, Global};
use std::marker::Model;
use std::mem;

/// Slots by number, each with a value or without. They spend what is in them when they are dropped.
/// Which values were changed they know without a look at the others.
pub(crate) struct Slots {
    items: Vec<Option<Held>>,
    /// Where a value is unchanged.
    unchanged: KeySet,
    /// Where one was changed.
    changed: KeySet,
}

impl Model for Slots {
    ghost use Rattle.std.specs.Prelude.{List, Option};
    ghost use Rattle.std.specs.Coded.{coded_list, coded_option};
    ghost use Rattle.iso_locks.specs.Slots.{AreNoted};
    ghost use Rattle.iso_store.specs.Histories.{History, history_code};

    ghost Value = { List (Option History) };

    ghost coded = { coded_list (coded_option history_code) };

    ghost view = { λ s. s.items.items };

    ghost invariant = { λ s. AreNoted s.unchanged s.changed s.items.items };
}

impl Drop for Slots {
    fn drop(self) {
        let Slots {
            items,
            unchanged: _,
            changed: _,
        } = self;
        discard_all(items);
    }
}

/// Spends all values.
fn discard_all(mut items: Vec<Option<Held>>) {
    'items: while let Some(item) = items.pop() {
        discard(item);
    }
    items.destroy_empty();
}

/// Spends a value, if there is one.
fn discard(item: Option<Held>) {
    match item {
        Some(held) => held.discard(),
        None => {}
    }
}

/// Whether there is a value, and it is unchanged.
fn is_unchanged(item: Option<&Held>) -> bool
    ensures { result ≡ has_unchanged (option_copied item.entry) }
{
    match item {
        Some(held) => held.is_unchanged(),
        None => false,
    }
}

/// Whether there is a value, and it was changed.
fn is_changed(item: Option<&Held>) -> bool
    ensures { result ≡ has_changed (option_copied item.entry) }
{
    match item {
        Some(held) => !held.is_unchanged(),
        None => false,
    }
}

impl Slots {
    /// No slots.
    pub fn new(alloc: Global) -> Slots
        ensures { result ≡ [] }
    {
        Slots {
            items: Vec::new(alloc),
            unchanged: KeySet::new(),
            changed: KeySet::new(),
        }
    }

    /// `count` slots without values.
    pub fn empty(alloc: Global, count: usize) -> Result<Slots, AllocError>
        ensures { IfOk result (λ s. s ≡ replicate count None) }
    {
        let mut slots = Slots::new(alloc);
        'slots: for _n in 0..count {
            slots.add(None)?;
        }
        Ok(slots)
    }

    /// A slot more, if there are fewer than a plan may have keys. Once out of memory there is none
    /// more, and the value that it would have is dropped.
    pub fn add(&mut self, item: Option<Held>) -> Result<(), AllocError>
        ensures added { OnOk result (self.new ≡ self.old ++ item ∷ []) }
        ensures same { OnErr result (self.new ≡ self.old) }
    {
        let number = self.items.len();
        if number >= NUMBERS {
            discard(item);
            return Err(AllocError);
        }
        let unchanged = is_unchanged(item.as_ref());
        let changed = is_changed(item.as_ref());
        match self.items.push(item) {
            Ok(()) => {
                self.unchanged.set(number, unchanged);
                self.changed.set(number, changed);
                Ok(())
            }
            Err(refused) => {
                discard(refused.value);
                Err(AllocError)
            }
        }
    }

    /// How many there are.
    pub fn len(&self) -> usize
        ensures { result ≡ length self.now }
    {
        self.items.len()
    }

    /// The value in a slot, if there is one.
    pub fn get(&self, number: usize) -> Option<&Held>
        requires { number < length self.now }
        ensures { option_copied result ≡ slot self.now number }
    {
        self.items[number].as_ref()
    }

    /// Where a value is unchanged.
    pub fn unchanged(&self) -> KeySet
        ensures each { (i : ℕ) → holds result i ≡ has_unchanged (slot self.now i) }
        ensures few { length self.now ≤ 256 }
    {
        self.unchanged
    }

    /// Whether there is no value from a number on.
    pub fn has_none_from(&self, from: usize) -> bool
        ensures { Decides result ((i : ℕ) → from ≤ i → slot self.now i ≡ None) }
    {
        match (self.unchanged.next(from), self.changed.next(from)) {
            (None, None) => true,
            _ => false,
        }
    }

    /// Whether there is no value.
    pub fn has_none(&self) -> bool
        ensures { Decides result ((i : ℕ) → slot self.now i ≡ None) }
    {
        self.has_none_from(0)
    }

    /// The lowest number from one on where a value was changed.
    pub fn next_changed(&self, from: usize) -> Option<usize>
        ensures few { length self.now ≤ 256 }
        ensures next { MatchOption result
            ((i : ℕ) → from ≤ i → has_changed (slot self.now i) ≡ false)
            (λ n. (from ≤ n) × (n < length self.now) × (has_changed (slot self.now n) ≡ true)
            × ((i : ℕ) → from ≤ i → i < n → has_changed (slot self.now i) ≡ false)) }
    {
        self.changed.next(from)
    }

    /// Puts a value into a slot. One that was there is spent.
    pub fn put(&mut self, number: usize, item: Option<Held>)
        requires { number < length self.old }
        ensures { self.new ≡ slice_set self.old number item }
    {
        self.unchanged.set(number, is_unchanged(item.as_ref()));
        self.changed.set(number, is_changed(item.as_ref()));
        let before = mem::replace(&mut self.items[number], item);
        discard(before);
    }

    /// Takes the value out of a slot, if there is one.
    pub fn take(&mut self, number: usize) -> Option<Held>
        requires { number < length self.old }
        ensures value { result ≡ slot self.old number }
        ensures rest { self.new ≡ slice_set self.old number None }
    {
        self.unchanged.set(number, false);
        self.changed.set(number, false);
        self.items[number].take()
    }

    /// Changes the value in a slot. After running out of memory nothing is changed.
    pub fn apply(&mut self, number: usize, change: Change) -> Result<(), AllocError>
        requires { number < length self.old }
        ensures ok { OnOk result (self.new
            ≡ slice_set self.old number (option_map (after change) (slot self.old number))) }
        ensures err { OnErr result (self.new ≡ self.old) }
    {
        match &mut self.items[number] {
            Some(held) => held.apply(change)?,
            None => return Ok(()),
        }
        self.unchanged.set(number, false);
        self.changed.set(number, true);
        Ok(())
    }

    /// Lets the value in a slot go back to its mark. Takes no memory.
    pub fn undo_to(&mut self, number: usize, mark: Savepoint)
        requires slot { number < length self.old }
        requires later { HasLater self.old number mark }
        ensures { self.new ≡ slice_set self.old number (Some mark) }
    {
        if let Some(held) = &mut self.items[number] {
            held.undo_to(mark);
        }
        let unchanged = is_unchanged(self.items[number].as_ref());
        self.unchanged.set(number, unchanged);
        self.changed.set(number, !unchanged);
    }

    /// Lets the value in a slot go back to its start. Takes no memory.
    pub fn restart(&mut self, number: usize)
        requires { number < length self.old }
        ensures { self.new ≡ slice_set self.old number (restarted (slot self.old number)) }
    {
        let Some(held) = &mut self.items[number] else {
            return;
        };
        held.restart();
        self.unchanged.set(number, true);
        self.changed.set(number, false);
    }
}
