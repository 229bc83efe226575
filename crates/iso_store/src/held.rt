//! A value, and the marks to which it can go back.
ghost use Rattle.std.specs.Prelude.{◌≡◌, IfOk, OnOk, OnErr, [], length, option_copied};
ghost use Rattle.iso_model.specs.Touch.{answer};
ghost use Rattle.iso_store.specs.Histories.{History, after, is_unchanged, start_of, IsEarlier};

use crate::layers::Layers;
use crate::value::Value;
use iso_model::resource::{Ask, Change, Resource};
use std::alloc::{AllocError, Global};
use std::marker::Model;
use std::snapshot::Snapshot;

/// One resource's value, which keeps what a mark needs to go back: of each property, or the file or
/// locale, the text at the mark. Contracts see its history: the value now, and each that it had
/// before a change which wasn't taken back.
///
/// It can't be copied, and it must be spent, by `into_resource` or by `discard`.
pub struct Held {
    alloc: Global,
    value: Value,
    /// The value before each change that wasn't taken back. Contracts alone see these: they have no
    /// size.
    past: Vec<Snapshot<Value>>,
}

impl Model for Held {
    ghost use Rattle.iso_store.specs.Histories.{History, history_code, start_of};

    ghost Value = { History };

    ghost coded = { history_code };

    ghost use Rattle.std.specs.Prelude.{◌≡◌};
    ghost use Rattle.iso_store.specs.Values.{history};

    ghost view = { λ h. history h.past.items h.value };

    ghost invariant = { λ h. start_of (history h.past.items h.value) ≡ h.value.start };
}

/// A moment of a value, to which it can go back. Contracts see the history as it was then.
#[derive(Drop)]
pub struct Savepoint {
    layers: Layers,
    changes: usize,
    history: Snapshot<Held>,
}

impl Model for Savepoint {
    ghost use Rattle.iso_store.specs.Histories.{History, history_code};
    ghost use Rattle.iso_store.specs.Values.{IsMoment};

    ghost Value = { History };

    ghost coded = { history_code };

    ghost view = { λ m. m.history.value };

    ghost invariant = { λ m. IsMoment m.layers m.changes m.history.value };
}

impl Held {
    /// This value, which wasn't changed. Changes and marks take this allocator's memory; none is
    /// taken now.
    pub fn new(alloc: Global, value: Resource) -> Held
        ensures { result ≡ record { now = value; past = [] } }
    {
        Held {
            alloc,
            value: Value::new(alloc, value),
            past: Vec::new(alloc),
        }
    }

    /// This moment. It takes memory where something was changed: a few words for each mark since
    /// which something was.
    pub fn mark(&self) -> Result<Savepoint, AllocError>
        ensures { IfOk result (λ m. m ≡ self.now) }
    {
        Ok(Savepoint {
            layers: self.value.layers.share(self.alloc)?,
            changes: self.past.len(),
            history: Snapshot::of(self),
        })
    }

    /// Changes the value: sets or clears a property, sets the locale, writes or deletes the file. A
    /// value of another kind stays as it is. Once out of memory nothing is changed. Of the texts
    /// that it gets between two marks a property, the locale or the file keeps the last.
    pub fn apply(&mut self, change: Change) -> Result<(), AllocError>
        ensures ok { OnOk result (self.new ≡ after change self.old) }
        ensures err { OnErr result (self.new ≡ self.old) }
    {
        self.past.reserve(1)?;
        let before = Snapshot::of(&self.value);
        self.value.change(self.alloc, change)?;
        self.past.push_reserved(before);
        Ok(())
    }

    /// Goes back to a mark of this value, unless it went back to an earlier one since. Takes no
    /// memory.
    pub fn undo_to(&mut self, mark: Savepoint)
        requires { IsEarlier mark self.old }
        ensures { self.new ≡ mark }
    {
        let Savepoint {
            layers,
            changes,
            history: _,
        } = mark;
        self.value.layers = layers;
        self.past.truncate(changes);
    }

    /// Whether each change was taken back, or there was none.
    pub fn is_unchanged(&self) -> bool
        ensures { result ≡ is_unchanged self.now }
    {
        self.past.is_empty()
    }

    /// Takes back all changes.
    pub fn restart(&mut self)
        ensures { self.new ≡ record { now = start_of self.old; past = [] } }
    {
        self.value.layers = Layers::new(self.alloc);
        self.past.clear();
    }

    /// The text that is asked for, or `None` where the property is absent or the file missing, or
    /// where the value is of another kind.
    pub fn look(&self, ask: Ask<'_>) -> Option<&str>
        ensures { option_copied result ≡ answer self.now.now ask.entry }
    {
        self.value.look(ask)
    }

    /// For a runner of one's own: the value, which stands where it started. Takes no memory.
    pub fn into_resource(self) -> Resource
        requires { self.now ≡ start_of self }
        ensures { result ≡ self.now }
    {
        let Held {
            alloc: _,
            value,
            past: _,
        } = self;
        value.start
    }

    /// Spends it, wherever it stands.
    pub fn discard(self) {
        let Held {
            alloc: _,
            value: _,
            past: _,
        } = self;
    }
}
