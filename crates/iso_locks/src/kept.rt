//! What a mark keeps of values.
ghost use Rattle.std.specs.Prelude.{◌≡◌, ◌<◌, ℕ, None, IfOk, cond, length, option_copied, true};
ghost use Rattle.iso_locks.specs.Kept.{AreOf, is_kept, kept_by};
ghost use Rattle.iso_locks.specs.Slots.{has_changed, has_unchanged, slot};
ghost use Rattle.iso_model.specs.Rights.{access_in, is_writable};

use crate::key_set::KeySet;
use crate::slots::Slots;
use crate::starting::Starts;
use iso_model::access::Access;
use iso_model::key::Key;
use iso_model::rights::Rights;
use iso_store::held::{Held, Savepoint};
use std::alloc::{AllocError, Global};
use std::marker::Model;
use std::snapshot::Snapshot;

/// Those values that rights let be changed, as they stood at one moment. Contracts see them, by the
/// numbers of their keys.
#[derive(Drop)]
pub(crate) struct KeptValues {
    /// Which of the values may be changed, by their keys.
    rights: Rights,
    starts: Starts,
    /// Where a value was unchanged, whether it may be changed or not.
    unchanged: KeySet,
    /// Of those that were changed the values that may be changed.
    changed: Vec<KeptMark>,
    /// All values as they stood. Contracts alone see them: they have no size.
    then: Snapshot<Slots>,
}

impl Model for KeptValues {
    ghost use Rattle.std.specs.Prelude.{List, Option};
    ghost use Rattle.std.specs.Coded.{coded_list, coded_option};
    ghost use Rattle.iso_locks.specs.Kept.{KeepsMark, kept_by};
    ghost use Rattle.iso_store.specs.Histories.{History, history_code};

    ghost Value = { List (Option History) };

    ghost coded = { coded_list (coded_option history_code) };

    ghost view = { λ k. kept_by k.rights k.starts k.then.value };

    ghost invariant = { λ k. KeepsMark k.rights k.starts k.unchanged k.changed.items
        k.then.value };
}

impl KeptValues {
    /// What rights let be changed of values.
    pub fn of(
        alloc: Global,
        rights: &Rights,
        starts: Starts,
        values: &Slots,
    ) -> Result<KeptValues, AllocError>
        requires { length starts ≡ length values.now }
        ensures { IfOk result (λ k. k ≡ kept_by rights.now starts values.now) }
    {
        let rights = rights.within(alloc, &[])?;
        let changed = kept(alloc, &rights, &starts, values)?;
        Ok(KeptValues {
            rights,
            starts,
            unchanged: values.unchanged(),
            changed,
            then: Snapshot::of(values),
        })
    }

    /// Whether a value was kept, and was unchanged.
    pub fn has_unchanged(&self, number: usize) -> bool
        requires { number < length self.now }
        ensures { result ≡ has_unchanged (slot self.now number) }
    {
        if self.unchanged.has(number) {
            is_write(self.rights.access(&self.starts.get(number).key))
        } else {
            false
        }
    }

    /// The values that were kept and were changed. Takes no memory.
    pub fn into_changed(self) -> Vec<KeptMark>
        ensures marks { AreOf self result.items }
        ensures all { (i : ℕ) → has_changed (slot self i) ≡ true → is_kept result.items i ≡ true }
    {
        self.changed
    }
}

/// Whether an access lets a value be changed.
fn is_write(access: Option<Access>) -> bool
    ensures { result ≡ is_writable access }
{
    match access {
        Some(Access::Write) => true,
        Some(Access::Read) | None => false,
    }
}

/// The moment of a value, with the number of its key.
#[derive(Drop)]
pub(crate) struct KeptMark {
    pub number: usize,
    pub mark: Savepoint,
}

/// Of the values that rights let be changed, those that were changed, as they stand now. It asks
/// the rights for values that were changed alone, and takes no memory where there is none.
pub(crate) fn kept(
    alloc: Global,
    rights: &Rights,
    starts: &Starts,
    values: &Slots,
) -> Result<Vec<KeptMark>, AllocError>
    requires { length starts.now ≡ length values.now }
    ensures marks { IfOk result (λ v. AreOf (kept_by rights.now starts.now values.now) v.items) }
    ensures all { IfOk result (λ v. (i : ℕ)
        → has_changed (slot (kept_by rights.now starts.now values.now) i) ≡ true
        → is_kept v.items i ≡ true) }
{
    let mut marks = Vec::new(alloc);
    let mut at = 0;
    'changed: while let Some(number) = values.next_changed(at) {
        let mark = kept_at(rights, &starts.get(number).key, values.get(number))?;
        if let Some(mark) = mark {
            marks.push(KeptMark { number, mark })?;
        }
        at = number + 1;
    }
    Ok(marks)
}

/// A value that rights let be changed, as it stands now. Where there is none, the rights aren't
/// asked.
fn kept_at(
    rights: &Rights,
    key: &Key,
    value: Option<&Held>,
) -> Result<Option<Savepoint>, AllocError>
    ensures { IfOk result (λ m. m ≡ cond (is_writable (access_in rights.now key.now))
        (option_copied value.entry) None) }
{
    let Some(held) = value else {
        return Ok(None);
    };
    match rights.access(key) {
        Some(Access::Write) => Ok(Some(held.mark()?)),
        _ => Ok(None),
    }
}
